//! The kinds of step that a pass takes, each in one function.
ghost use Rattle.std.specs.Prelude.{◌≡◌, ◌≢◌, ℕ, ◌+◌, ◌-◌, ◌%◌, ◌^◌, ◌<◌, ◌≤◌, List, [], ◌∷◌, ◌++◌, length, sum, vec_capacity, Some};
ghost use Rattle.hist_lock.specs.declared.rule.Held.{Held};
ghost use Rattle.hist_lock.specs.declared.rule.Bounds.{Bounds};
ghost use Rattle.hist_lock.specs.declared.rule.Stage.TheVariants.{Idle, Waiting, Called, Holding};
ghost use Rattle.hist_lock.specs.Rule.{own};
ghost use Rattle.hist_lock.specs.History.{IsFront, entries_of};
ghost use Rattle.hist_lock.specs.Steps.{IsAt, IsFound, drew, at_stage, took, learned, raised, journal_of, joined, dealt_one, newcomer};
ghost use Rattle.hist_lock.specs.Seats.{IsSeatOf, IsSameSeat};

use crate::rule::{
    Deal, Draw, Gather, Give, Learn, Line, Look, Place, Quota, Raise, Ring, Serve, Take,
};
use crate::told::Told;

/// The word that counts the tickets that were drawn.
pub const TICKETS: usize = 0;

/// The word that counts the tickets that were served.
pub const SERVED: usize = 1;

/// The word that has the length of the history.
pub const LENGTH: usize = 2;

// The first bell.
const BELLS: usize = 3;

// How many bells there are.
const BELL_COUNT: u64 = 16;

/// The word that has the least count of entries that is waited for.
pub const AWAITED: usize = BELLS + BELL_COUNT as usize;

/// What that word has while no count is waited for.
pub const NO_COUNT: u64 = u64::MAX;

/// The word at which passes sleep before they draw a ticket.
pub const DOOR: usize = AWAITED + 1;

/// How many words there are.
pub const WORDS: usize = DOOR + 1;

/// Draws a ticket.
pub fn draw<O: Told>(line: &Line<O>, seat: &mut Place<O>) -> u64
    requires of { IsSeatOf seat.old.table_id line.now.table_id }
    requires idle { IsAt Idle [] seat.old.me }
    ensures same { IsSameSeat seat.old seat.new }
    ensures drawn { (ticket : ℕ) × (result ≡ ticket % 2 ^ 64) × (seat.new.me ≡ (drew ticket seat.old.me.0, [])) }
{
    line.fetch_add::<Draw>(seat, TICKETS, 1)
}

/// Looks which ticket is served.
pub fn look<O: Told>(line: &Line<O>, seat: &mut Place<O>) -> u64
    requires of { IsSeatOf seat.old.table_id line.now.table_id }
    requires waits { IsAt Waiting [] seat.old.me }
    ensures same { IsSameSeat seat.old seat.new }
    ensures called { result ≡ seat.old.me.0.ticket % 2 ^ 64 → seat.new.me ≡ (at_stage Called seat.old.me.0, []) }
    ensures waits { result ≢ seat.old.me.0.ticket % 2 ^ 64 → seat.new.me ≡ seat.old.me }
{
    line.load::<Look>(seat, SERVED)
}

/// Takes the value.
pub fn take<O: Told>(line: &Line<O>, seat: &mut Place<O>)
    requires of { IsSeatOf seat.old.table_id line.now.table_id }
    requires called { IsAt Called [] seat.old.me }
    ensures same { IsSameSeat seat.old seat.new }
    ensures taken { (held : Held O O.Entry) × (seat.new.me ≡ (took held.journal.items seat.old.me.0, (0, held) ∷ [])) ×
        IsFound O.stands O.home seat.old.me.0 held }
{
    let _length = line.load::<Take>(seat, LENGTH);
}

/// Raises the length. The entry at the end of the journal takes effect here.
pub fn raise<O: Told>(line: &Line<O>, seat: &mut Place<O>)
    requires of { IsSeatOf seat.old.table_id line.now.table_id }
    requires holds { (held : Held O O.Entry) × (x : O.Entry) × IsAt Holding ((0, held) ∷ []) seat.old.me ×
        (held.journal.items ≡ (own seat.old.me.0).seen ++ ((own seat.old.me.0).number, x) ∷ []) }
    requires left { 1 ≤ seat.old.me.0.left }
    ensures same { IsSameSeat seat.old seat.new }
    ensures raised { seat.new.me ≡ (raised (journal_of seat.old.me.1) seat.old.me.0, seat.old.me.1) }
{
    let _length = line.fetch_add::<Raise>(seat, LENGTH, 1);
}

/// Gives the value back.
pub fn give<O: Told>(line: &Line<O>, seat: &mut Place<O>)
    requires of { IsSeatOf seat.old.table_id line.now.table_id }
    requires whole { (held : Held O O.Entry) × (b : Bounds O.Home) × IsAt Holding ((0, held) ∷ []) seat.old.me ×
        (seat.old.me.0.bounds ≡ Some b) × (held.journal.items ≡ (own seat.old.me.0).seen) × O.stands held.object held.journal.items ×
        (O.home held.object ≡ b.home) × (b.room ≤ vec_capacity held.journal) }
    ensures same { IsSameSeat seat.old seat.new }
    ensures given { seat.new.me ≡ (at_stage Called seat.old.me.0, []) }
{
    let _length = line.load::<Give>(seat, LENGTH);
}

/// Lets the next ticket be served.
pub fn serve<O: Told>(line: &Line<O>, seat: &mut Place<O>) -> u64
    requires of { IsSeatOf seat.old.table_id line.now.table_id }
    requires called { IsAt Called [] seat.old.me }
    ensures same { IsSameSeat seat.old seat.new }
    ensures served { seat.new.me ≡ (at_stage Idle seat.old.me.0, []) }
{
    line.fetch_add::<Serve>(seat, SERVED, 1)
}

/// The bell at which the holder of this ticket sleeps. Holders share one where their tickets are equal modulo 16.
pub fn bell_of(ticket: u64) -> usize
    ensures { (3 ≤ result) × (result < 19) }
{
    BELLS + (ticket % BELL_COUNT) as usize
}

/// Sets a bell.
pub fn set_bell<O: Told>(line: &Line<O>, seat: &mut Place<O>, bell: usize, to: u64)
    requires of { IsSeatOf seat.old.table_id line.now.table_id }
    requires bell { (3 ≤ bell) × (bell < 21) }
    ensures same { IsSameSeat seat.old seat.new }
    ensures me { seat.new.me ≡ seat.old.me }
{
    line.store::<Ring>(seat, bell, to);
}

/// Sets the word of the least count that is waited for to this one, unless it has a smaller one. Answers what it had.
pub fn lower_awaited<O: Told>(line: &Line<O>, seat: &mut Place<O>, count: u64) -> u64
    requires of { IsSeatOf seat.old.table_id line.now.table_id }
    ensures same { IsSameSeat seat.old seat.new }
    ensures me { seat.new.me ≡ seat.old.me }
{
    line.fetch_min::<Ring>(seat, AWAITED, count)
}

/// Looks how long the history is, and has then seen one of this length.
pub fn learn<O: Told>(line: &Line<O>, seat: &mut Place<O>) -> u64
    requires of { IsSeatOf seat.old.table_id line.now.table_id }
    requires idle { IsAt Idle [] seat.old.me }
    ensures same { IsSameSeat seat.old seat.new }
    ensures learned { (log : List (ℕ × O.Entry)) × (result ≡ length log) × (seat.new.me ≡ (learned log seat.old.me.0, [])) ×
        IsFront (own seat.old.me.0).seen log × (entries_of (own seat.old.me.0).number log ≡ (own seat.old.me.0).mine) }
{
    line.load::<Learn>(seat, LENGTH)
}

/// Deals the next pass's seat.
pub fn split<O: Told, Q: Quota>(line: &Line<O>, dealer: &mut Place<O>) -> Place<O>
    requires of { IsSeatOf dealer.old.table_id line.now.table_id }
    requires deals { (n : ℕ) × (b : Bounds O.Home) × (dealer.old.me.0.stage ≡ Idle) × (dealer.old.me.0.claims ≡ []) ×
        (dealer.old.me.0.dealt ≡ Some n) × (dealer.old.me.0.bounds ≡ Some b) × (n < b.count) × (Q.quota ≤ dealer.old.me.0.left) }
    ensures same { IsSameSeat dealer.old dealer.new }
    ensures dealt { dealer.new.me ≡ (dealt_one Q.quota dealer.old.me.0, dealer.old.me.1) }
    ensures seat { (result.table_id ≡ dealer.old.table_id) × (result.me ≡ (newcomer Q.quota dealer.old.me.0, [])) }
{
    line.split_seat::<Deal<Q>>(dealer)
}

/// Takes in another pass's seat.
pub fn join<O: Told>(line: &Line<O>, seat: &mut Place<O>, other: Place<O>)
    requires of { IsSeatOf seat.old.table_id line.now.table_id }
    requires other { (other.table_id ≡ line.now.table_id) × (other.me.1 ≡ []) }
    requires idle { (seat.old.me.0.stage ≡ Idle) × (other.me.0.stage ≡ Idle) }
    ensures same { IsSameSeat seat.old seat.new }
    ensures joined { seat.new.me ≡ (joined seat.old.me.0 other.me.0, seat.old.me.1) }
{
    line.join_seat::<Gather>(seat, other);
}
