//! How full magazines are reaped.
ghost use Rattle.std.specs.Prelude.{◌≡◌, ◌*◌, ◌≤◌, ℕ, List, [], ◌∷◌, length, true, false, Some};
ghost use Rattle.kmem_buf.specs.Answers.{numbers_of};
ghost use Rattle.magazine.specs.Ready.{AreReady};
ghost use Rattle.depot.specs.Depot.{WasRefused};
ghost use Rattle.kmem_cache.specs.Seats.{IsCacheSeat};
ghost use Rattle.kmem_cache.specs.Reaping.{IsKnown, HasFreedAll, HasReapedAll, HasReaped};

use crate::locked::Locked;
use crate::seat::CacheSeat;
use crate::shared_cache::Cache;
use crate::turns::FreeTurn;
use hist_lock::{HistLock, Pass};
use kmem_buf::Kind;
use magazine::Magazine;
use std::mem::replace;
use std::sync::Wait;

// Frees each round of the magazine to the slabs, in one turn each.
fn free_rounds<K: Kind, R: Wait>(
    rt: &R,
    lock: &HistLock<Locked<K>>,
    pass: &mut Pass<Locked<K>>,
    magazine: &mut Magazine<K>,
)
    requires of { pass.old.site ≡ lock.now }
    requires ready { AreReady K.constructed lock.now.home.buffers magazine.old }
    requires left { length magazine.old ≤ pass.old.left }
    requires known { IsKnown pass.old }
    ensures freed { HasFreedAll pass.old pass.new (numbers_of magazine.old) }
    ensures none { magazine.new ≡ [] }
{
    while let Some(buf) = magazine.pop() {
        lock.act(rt, pass, FreeTurn { buf });
    }
}

impl<K: Kind> Cache<K> {
    // Takes one full magazine out of the depot, frees its rounds, and keeps it as the spare one. Whether there was one.
    fn reap_one<R: Wait>(&self, rt: &R, seat: &mut CacheSeat<K>) -> bool
        requires of { IsCacheSeat self.now seat.old }
        requires left { 8 ≤ seat.old.pass.left }
        ensures one { result ≡ true → (magazine : ℕ × List ℕ) × HasReapedAll seat.old seat.new (magazine ∷ []) }
        ensures none { result ≡ false → HasReapedAll seat.old seat.new [] }
        ensures refused { result ≡ false → WasRefused self.now.depot.places 1 seat.old.depot seat.new.depot }
        ensures of { IsCacheSeat self.now seat.new }
    {
        let Some(mut magazine) = replace(&mut seat.spare, None) else {
            unreachable!()
        };
        match self.store.swap_for_full(&mut seat.depot, magazine) {
            Ok(full) => {
                magazine = full;
                free_rounds(rt, &self.lock, &mut seat.pass, &mut magazine);
                seat.spare = Some(magazine);
                true
            }
            Err(back) => {
                seat.spare = Some(back);
                false
            }
        }
    }

    /// Takes full magazines out of the depot, as many as it has places at most, until a swap finds none, and frees their rounds to the
    /// slabs, in one turn each. The depot keeps empty ones in their stead.
    pub fn reap_now<R: Wait>(&self, rt: &R, seat: &mut CacheSeat<K>)
        requires of { IsCacheSeat self.now seat.old }
        requires left { 8 * self.now.depot.places ≤ seat.old.pass.left }
        ensures reaped { HasReaped self.now.depot.places seat.old seat.new }
        ensures of { IsCacheSeat self.now seat.new }
    {
        let places = self.places;
        let _ = &seat.pass;
        for i in 0..places {
            if !self.reap_one(rt, seat) {
                return;
            }
        }
    }
}
