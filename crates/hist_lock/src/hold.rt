//! What a pass does from the ticket to the next one's: it waits, takes the value, has the turn run, notes the entry, and gives
//! the value back.
ghost use Rattle.std.specs.Prelude.{◌≡◌, ◌≢◌, ℕ, ◌+◌, ◌-◌, ◌%◌, ◌^◌, ◌<◌, ◌≤◌, List, [], ◌∷◌, ◌++◌, length, vec_capacity, Option, Some};
ghost use Rattle.hist_lock.specs.declared.rule.Held.{Held};
ghost use Rattle.hist_lock.specs.declared.rule.Bounds.{Bounds};
ghost use Rattle.hist_lock.specs.declared.rule.Stage.TheVariants.{Idle, Waiting, Called, Holding};
ghost use Rattle.hist_lock.specs.History.{entries_of, listed};
ghost use Rattle.hist_lock.specs.Rule.{own};
ghost use Rattle.hist_lock.specs.Steps.{IsAt, at_stage};
ghost use Rattle.hist_lock.specs.Seats.{IsSeatOf, IsSameSeat, HasEntered, HasRun, HasNoted};

use crate::awaiting::call_awaiting;
use crate::rule::{Line, Place};
use crate::steps::{
    DOOR, SERVED, TICKETS, bell_of, draw, give, look, raise, serve, set_bell, take,
};
use crate::told::{Told, Turn};
use std::hint::spin_loop;
use std::sync::Wait;

/// What a bell says: 1 where someone may sleep at it.
const AWAKE: u64 = 0;

const ASLEEP: u64 = 1;

// Who is so few turns from its own looks more often before it sleeps, and is woken if it sleeps.
const NEAR: u64 = 3;

const LOOKS_NEAR: u32 = 600;

const LOOKS_FAR: u32 = 10;

// How often it looks before it sleeps.
fn patience(ticket: u64, served: u64) -> u32 {
    if ticket.wrapping_sub(served) <= NEAR {
        LOOKS_NEAR
    } else {
        LOOKS_FAR
    }
}

/// How many tickets may be out before a pass that comes sleeps at the door.
const CROWD: u64 = 2;

/// At each so manieth ticket the door lets one in, whoever waits with a ticket.
const TURNOVER: u64 = 16;

// How many tickets are out.
fn out<O: Told>(line: &Line<O>) -> u64
    requires { line.now.table_id.words ≡ 21 }
{
    let served = line.peek(SERVED);
    line.peek(TICKETS).wrapping_sub(served)
}

// Sleeps at the door where many tickets are out. Between shutting the door and sleeping it looks once more, so that the holder of
// a ticket that was out then finds the door shut. Who was woken shuts it again, since others may sleep there.
fn pass_door<O: Told, R: Wait>(rt: &R, line: &Line<O>, seat: &mut Place<O>)
    requires of { IsSeatOf seat.old.table_id line.now.table_id }
    ensures same { IsSameSeat seat.old seat.new }
    ensures me { seat.new.me ≡ seat.old.me }
{
    if out(line) <= CROWD {
        return;
    }
    set_bell(line, seat, DOOR, ASLEEP);
    if out(line) > CROWD {
        line.park(rt, DOOR, ASLEEP as u32);
        set_bell(line, seat, DOOR, ASLEEP);
    }
}

// Lets one in who sleeps at the door, where nobody has a ticket, or now and then.
fn open_door<O: Told>(line: &Line<O>, seat: &mut Place<O>, next: u64)
    requires { IsSeatOf seat.old.table_id line.now.table_id }
    ensures same { IsSameSeat seat.old seat.new }
    ensures me { seat.new.me ≡ seat.old.me }
{
    if line.peek(DOOR) != AWAKE && (next % TURNOVER == 0 || line.peek(TICKETS) == next) {
        set_bell(line, seat, DOOR, AWAKE);
        line.wake_one(DOOR);
    }
}

// Waits until the ticket is served: a short while on the processor, and then asleep at its bell. Between setting the bell and
// sleeping it looks once more, so that who serves after that look finds the bell set.
fn wait_for<O: Told, R: Wait>(rt: &R, line: &Line<O>, seat: &mut Place<O>, ticket: u64)
    requires of { IsSeatOf seat.old.table_id line.now.table_id }
    requires waits { IsAt Waiting [] seat.old.me }
    requires ticket { ticket ≡ seat.old.me.0.ticket % 2 ^ 64 }
    ensures same { IsSameSeat seat.old seat.new }
    ensures called { seat.new.me ≡ (at_stage Called seat.old.me.0, []) }
{
    let bell = bell_of(ticket);
    let mut looks = 0;
    let mut is_set = false;
    for _ in rt.forever() {
        let served = look(line, seat);
        if served == ticket {
            return;
        }
        if looks < patience(ticket, served) {
            looks += 1;
            spin_loop();
        } else if is_set {
            line.park(rt, bell, ASLEEP as u32);
            looks = 0;
            is_set = false;
        } else {
            set_bell(line, seat, bell, ASLEEP);
            is_set = true;
        }
    }
    unreachable!()
}

// Wakes who sleeps at the bell of this ticket.
fn rouse<O: Told>(line: &Line<O>, seat: &mut Place<O>, ticket: u64)
    requires { IsSeatOf seat.old.table_id line.now.table_id }
    ensures same { IsSameSeat seat.old seat.new }
    ensures me { seat.new.me ≡ seat.old.me }
{
    let bell = bell_of(ticket);
    if line.peek(bell) != AWAKE {
        set_bell(line, seat, bell, AWAKE);
        line.wake_all(bell);
    }
}

// Wakes who sleeps at the bells of this ticket and of the next few, so that each has come up when its turn comes.
fn rouse_from<O: Told>(line: &Line<O>, seat: &mut Place<O>, ticket: u64)
    requires { IsSeatOf seat.old.table_id line.now.table_id }
    ensures same { IsSameSeat seat.old seat.new }
    ensures me { seat.new.me ≡ seat.old.me }
{
    for ahead in 0..=NEAR {
        rouse(line, seat, ticket.wrapping_add(ahead));
    }
}

/// Waits for the value and takes it.
pub fn enter<O: Told, R: Wait>(rt: &R, line: &Line<O>, seat: &mut Place<O>)
    requires of { IsSeatOf seat.old.table_id line.now.table_id }
    requires idle { IsAt Idle [] seat.old.me }
    ensures same { IsSameSeat seat.old seat.new }
    ensures entered { (held : Held O O.Entry) × HasEntered O.stands O.home seat.old.me.0 held seat.new.me }
{
    pass_door(rt, line, seat);
    let ticket = draw(line, seat);
    wait_for(rt, line, seat, ticket);
    take(line, seat);
}

/// Has the turn run on the object in hand.
pub fn run<O: Told, T: Turn<O>>(
    line: &Line<O>,
    seat: &mut Place<O>,
    who: u32,
    turn: T,
) -> (T::Out, Option<O::Entry>)
    requires of { IsSeatOf seat.old.table_id line.now.table_id }
    requires can { (held : Held O O.Entry) × IsAt Holding ((0, held) ∷ []) seat.old.me ×
        ((h : List (ℕ × O.Entry)) × O.stands held.object h × T.can turn who (O.home held.object) h) }
    ensures same { IsSameSeat seat.old seat.new }
    ensures view { seat.new.me.0 ≡ seat.old.me.0 }
    ensures ran { (old : Held O O.Entry) (rest : seat.old.me.1 ≡ (0, old) ∷ []) →
        (new : Held O O.Entry) × (seat.new.me.1 ≡ (0, new) ∷ []) ×
        HasRun O.stands O.home (T.can turn who) (T.tells turn who) who old new result.0 result.1 }
{
    let held = seat.slot_mut(line, 0);
    turn.run(who, &mut held.object)
}

// Writes the entry at the end of the journal.
fn push<O: Told>(line: &Line<O>, seat: &mut Place<O>, who: u32, entry: O::Entry)
    requires of { IsSeatOf seat.old.table_id line.now.table_id }
    requires room { (held : Held O O.Entry) × (seat.old.me.1 ≡ (0, held) ∷ []) × (length held.journal.items < vec_capacity held.journal) }
    ensures same { IsSameSeat seat.old seat.new }
    ensures view { seat.new.me.0 ≡ seat.old.me.0 }
    ensures pushed { (old : Held O O.Entry) → seat.old.me.1 ≡ (0, old) ∷ [] →
        (new : Held O O.Entry) × (seat.new.me.1 ≡ (0, new) ∷ []) × (new.object ≡ old.object) ×
        (new.journal.items ≡ old.journal.items ++ (who, entry) ∷ []) × (vec_capacity new.journal ≡ vec_capacity old.journal) }
{
    let held = seat.slot_mut(line, 0);
    held.journal.push_reserved((who, entry));
}

/// Notes the entry, if the turn made one. Answers how many the pass may still make.
pub fn note<O: Told>(
    line: &Line<O>,
    seat: &mut Place<O>,
    who: u32,
    left: u32,
    entry: Option<O::Entry>,
) -> u32
    requires of { IsSeatOf seat.old.table_id line.now.table_id }
    requires holds { (held : Held O O.Entry) × IsAt Holding ((0, held) ∷ []) seat.old.me × (held.journal.items ≡ (own seat.old.me.0).seen) ×
        (length held.journal.items + length (listed entry) ≤ vec_capacity held.journal) }
    requires who { (own seat.old.me.0).number ≡ who }
    requires exact { entries_of who (own seat.old.me.0).seen ≡ (own seat.old.me.0).mine }
    requires left { (left ≡ seat.old.me.0.left) × (length (listed entry) ≤ left) }
    ensures same { IsSameSeat seat.old seat.new }
    ensures left { (result + length (listed entry) ≡ left) × (seat.new.me.0.left ≡ result) }
    ensures noted { (old : Held O O.Entry) → seat.old.me.1 ≡ (0, old) ∷ [] →
        (new : Held O O.Entry) × HasNoted entry old new seat.old.me.0 seat.new.me }
{
    match entry {
        Some(entry) => {
            push(line, seat, who, entry);
            raise(line, seat);
            left - 1
        }
        None => left,
    }
}

/// Gives the value back and lets the next ticket be served. Wakes its holder and those of the next few where they sleep, those
/// that wait for a count that is reached, and at times one at the door.
pub fn leave<O: Told>(line: &Line<O>, seat: &mut Place<O>)
    requires of { IsSeatOf seat.old.table_id line.now.table_id }
    requires whole { (held : Held O O.Entry) × (b : Bounds O.Home) × IsAt Holding ((0, held) ∷ []) seat.old.me ×
        (seat.old.me.0.bounds ≡ Some b) × (held.journal.items ≡ (own seat.old.me.0).seen) × O.stands held.object held.journal.items ×
        (O.home held.object ≡ b.home) × (b.room ≤ vec_capacity held.journal) }
    ensures same { IsSameSeat seat.old seat.new }
    ensures left { seat.new.me ≡ (at_stage Idle seat.old.me.0, []) }
{
    give(line, seat);
    let next = serve(line, seat).wrapping_add(1);
    rouse_from(line, seat, next);
    call_awaiting(line, seat);
    open_door(line, seat, next);
}
