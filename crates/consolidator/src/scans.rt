//! Settling.

ghost use Rattle.std.specs.Prelude.{◌≡◌, true, false};
ghost use Rattle.kmem_model.specs.CacheState.{has_pending};
ghost use Rattle.kmem_model.specs.Settle.{gains};
ghost use Rattle.kmem_model.specs.SettleWhole.{IsWholeStage};
ghost use Rattle.kmem_answers.specs.Words.{said_of};
ghost use Rattle.consolidator.specs.Owned.{holdings, stage_with, AreOwned, AreSettled, ScansWith, SettlesWith};

use crate::tally::{count, no_moves};
use kmem_buf::{Kind, Owner, Verdict};
use kmem_model::{law_moves, law_scans, law_settle, law_settle_entries};
use object_cache::{ObjectCache, Tally};

/// Settles the cache whose buffers the owner takes: forgets all counts and marks, and makes desperate scans in which each move is ended at
/// once by the owner's answer, until a scan has nothing more to gain. Takes no memory. A move costs the slabs that the search for it looks
/// at, from the last one on; where there is nothing to move a settle costs a constant.
pub fn settle<K: Kind, H: Owner<K>>(cache: &mut ObjectCache<K>, owner: &mut H) -> Tally
    requires never { K.never_refuses ≡ true }
    requires calm { has_pending cache.old.state ≡ false }
    requires owned { AreOwned cache.old.state (H.stands owner.old) }
    requires home { H.home owner.old ≡ cache.old.home }

    // The course that the cache and the owner take, by its moves.
    ensures settles { let has = holdings H.stands H.tenants in
        SettlesWith cache.old.state cache.new.state (has owner.old) (has owner.new) result }
    // What it leaves.
    ensures settled { AreSettled cache.new.state (H.stands owner.new) }
    // Whatever the owner stood for, it stands for.
    ensures meaning { (m : H.Meaning) → H.stands_for owner.old m → H.stands_for owner.new m }
    ensures calm { has_pending cache.new.state ≡ false }
    ensures owned { AreOwned cache.new.state (H.stands owner.new) }
    ensures homes { (cache.new.home ≡ cache.old.home) × (H.home owner.new ≡ H.home owner.old) }
{
    cache.law_whole();
    law_scans();
    law_settle();
    law_settle_entries();
    let mut tally = no_moves();
    cache.forget();
    'scans: loop {
        let gained = scan(cache, owner, &mut tally);
        let rest = cache.is_rest_marked();
        if !gained && rest {
            return tally;
        }
    }
}

// Makes a desperate scan to its end, and answers whether it freed an old buffer.
fn scan<K: Kind, H: Owner<K>>(cache: &mut ObjectCache<K>, owner: &mut H, tally: &mut Tally) -> bool
    requires never { K.never_refuses ≡ true }
    requires whole { IsWholeStage (stage_with cache.old.state (H.stands owner.old)) }
    requires home { H.home owner.old ≡ cache.old.home }
    ensures scan { let has = holdings H.stands H.tenants in
        ScansWith cache.old.state cache.new.state (has owner.old) (has owner.new) tally.old tally.new result }
    ensures meaning { (m : H.Meaning) → H.stands_for owner.old m → H.stands_for owner.new m }
    ensures homes { (cache.new.home ≡ cache.old.home) × (H.home owner.new ≡ H.home owner.old) }
{
    law_moves();
    cache.start_scan(true);
    let mut gained = false;
    'moves: loop {
        match cache.begin() {
            Err(_) => {
                return gained;
            }
            Ok(job) => {
                let Some(kept) = cache.still(job) else {
                    return gained;
                };
                let (pending, buf) = kept.part();
                let answer = owner.answer(pending.from(), buf);
                let verdict = answer.verdict();
                gained = gained || frees_old(verdict);
                count(tally, verdict);
                cache.end(pending, answer);
            }
        }
    }
}

// Whether the answer hands the old buffer back.
fn frees_old(verdict: Verdict) -> bool
    ensures { result ≡ gains (said_of verdict) }
{
    match verdict {
        Verdict::Yes | Verdict::DontNeed => true,
        Verdict::No | Verdict::Later | Verdict::DontKnow => false,
    }
}
