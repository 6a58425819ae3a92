//! The kinds of step, each in one function.
ghost use Rattle.std.specs.Prelude.{◌≡◌, ◌*◌, ◌<◌, ◌≤◌, List, [], ◌∷◌, length, Some, None};
ghost use Rattle.kmem_buf.specs.Buffers.{BufState};
ghost use Rattle.magazine.specs.Ready.{AreReady};
ghost use Rattle.kmem_buf.specs.Answers.{numbers_of};
ghost use Rattle.depot.specs.Steps.{IsOf, IsSameSeat, IsResting, IsUnused, IsTurning};
ghost use Rattle.depot.specs.Steps.{tried, took, kept_back, traded, was_of, dealt_one, newcomer, joined};

use crate::rule::{Deal, Gather, Leave, Line, Place, Settle, Turn};
use kmem_buf::Kind;
use magazine::Magazine;

/// The turn word of a free place with an empty magazine.
pub const EMPTY: u64 = 0;

/// The turn word of a free place with a full magazine.
pub const FULL: u64 = 1;

/// The turn word of a place that a seat turns.
pub const TURNED: u64 = 2;

/// Takes the place, unless another seat turns it: one swap of its turn word. Answers what the word was.
pub fn turn<K: Kind>(line: &Line<K>, seat: &mut Place<K>, place: usize) -> u64
    requires of { IsOf seat.old.table_id line.now.table_id }
    requires rests { IsResting seat.old.me }
    requires place { place < line.now.table_id.slots }
    ensures same { IsSameSeat seat.old seat.new }
    ensures most { result ≤ 2 }
    ensures turned { result ≡ 2 → seat.new.me ≡ (tried place 2 seat.old.me.0, []) }
    ensures taken { result < 2 → (found : List (BufState K.Object))
        × (seat.new.me ≡ (took place result (numbers_of found) seat.old.me.0, (place, found) ∷ []))
        × (length found ≡ 8 * result) × AreReady K.constructed seat.old.me.0.home found }
{
    line.swap::<Turn<K>>(seat, place, TURNED)
}

/// Leaves another magazine in hand for the place that the seat turns. Answers the one that was there.
pub fn exchange<K: Kind>(
    line: &Line<K>,
    seat: &mut Place<K>,
    place: usize,
    magazine: Magazine<K>,
) -> Magazine<K>
    requires of { IsOf seat.old.table_id line.now.table_id }
    requires turns { (found : List (BufState K.Object)) × (seat.old.me.1 ≡ (place, found) ∷ []) }
    ensures same { IsSameSeat seat.old seat.new }
    ensures result { seat.old.me.1 ≡ (place, result) ∷ [] }
    ensures hand { seat.new.me ≡ (seat.old.me.0, (place, magazine) ∷ []) }
{
    line.exchange(seat, place, magazine)
}

/// Frees the place, with the magazine that was found there: a store of its turn word.
pub fn leave<K: Kind>(line: &Line<K>, seat: &mut Place<K>, place: usize, word: u64)
    requires of { IsOf seat.old.table_id line.now.table_id }
    requires place { place < line.now.table_id.slots }
    requires turns { (found : List (BufState K.Object))
        × IsTurning K.constructed place word found seat.old.me × (numbers_of found ≡ was_of seat.old.me.0) }
    ensures same { IsSameSeat seat.old seat.new }
    ensures free { seat.new.me ≡ (kept_back seat.old.me.0, []) }
{
    line.store::<Leave>(seat, place, word);
}

/// Frees the place, with the magazine that was brought: a store of its turn word.
pub fn settle<K: Kind>(line: &Line<K>, seat: &mut Place<K>, place: usize, word: u64)
    requires of { IsOf seat.old.table_id line.now.table_id }
    requires place { place < line.now.table_id.slots }
    requires turns { (brought : List (BufState K.Object)) × IsTurning K.constructed place word brought seat.old.me }
    ensures same { IsSameSeat seat.old seat.new }
    ensures free { (brought : List (BufState K.Object)) → seat.old.me.1 ≡ (place, brought) ∷ []
        → seat.new.me ≡ (traded place (was_of seat.old.me.0) (numbers_of brought) seat.old.me.0, []) }
{
    line.store::<Settle>(seat, place, word);
}

/// Deals a seat.
pub fn split<K: Kind>(line: &Line<K>, dealer: &mut Place<K>) -> Place<K>
    requires of { IsOf dealer.old.table_id line.now.table_id }
    requires places { 0 < line.now.table_id.slots }
    requires some { 0 < dealer.old.me.0.seats }
    requires unused { IsUnused dealer.old.me.0 }
    ensures same { IsSameSeat dealer.old dealer.new }
    ensures dealer { dealer.new.me ≡ (dealt_one dealer.old.me.0, dealer.old.me.1) }
    ensures seat { (result.table_id ≡ dealer.old.table_id) × (result.me ≡ (newcomer dealer.old.me.0, [])) }
{
    line.split_seat::<Deal>(dealer)
}

/// Takes in another seat.
pub fn join<K: Kind>(line: &Line<K>, seat: &mut Place<K>, other: Place<K>)
    requires of { IsOf seat.old.table_id line.now.table_id }
    requires places { 0 < line.now.table_id.slots }
    requires other { (other.table_id ≡ line.now.table_id) × (other.me.1 ≡ []) }
    requires rests { (seat.old.me.0.turning ≡ None) × (other.me.0.turning ≡ None) }
    requires some { 0 < seat.old.me.0.seats }
    ensures same { IsSameSeat seat.old seat.new }
    ensures joined { seat.new.me ≡ (joined seat.old.me.0 other.me.0, seat.old.me.1) }
{
    line.join_seat::<Gather>(seat, other);
}
