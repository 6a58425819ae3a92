//! How a pass waits until the history is so long.
ghost use Rattle.std.specs.Prelude.{◌≡◌, ◌≤◌, [], length};
ghost use Rattle.hist_lock.specs.declared.rule.Stage.TheVariants.{Idle};
ghost use Rattle.hist_lock.specs.History.{entries_of};
ghost use Rattle.hist_lock.specs.Rule.{own};
ghost use Rattle.hist_lock.specs.Steps.{IsAt};
ghost use Rattle.hist_lock.specs.Seats.{IsSeatOf, IsSameSeat, HasLearned};

use crate::rule::{Line, Place};
use crate::steps::{AWAITED, LENGTH, NO_COUNT, learn, lower_awaited, set_bell};
use crate::told::Told;
use std::sync::Wait;

// Sleeps until a turn finds that the least count that is waited for is reached. Between telling the count and sleeping it looks
// once more, so that who makes an entry after that look finds the count told.
fn sleep<O: Told, R: Wait>(rt: &R, line: &Line<O>, seat: &mut Place<O>, count: u32)
    requires of { IsSeatOf seat.old.table_id line.now.table_id }
    ensures same { IsSameSeat seat.old seat.new }
    ensures me { seat.new.me ≡ seat.old.me }
{
    let count = u64::from(count);
    let least = lower_awaited(line, seat, count).min(count);
    if line.peek(LENGTH) < count {
        line.park(rt, AWAITED, least as u32);
    }
}

/// Waits until the history has so many entries, and has then seen them.
pub fn reach<O: Told, R: Wait>(rt: &R, line: &Line<O>, seat: &mut Place<O>, count: u32)
    requires of { IsSeatOf seat.old.table_id line.now.table_id }
    requires idle { IsAt Idle [] seat.old.me }
    requires exact { entries_of (own seat.old.me.0).number (own seat.old.me.0).seen ≡ (own seat.old.me.0).mine }
    ensures same { IsSameSeat seat.old seat.new }
    ensures learned { HasLearned seat.old.me.0 seat.new.me }
    ensures long { count ≤ length (own seat.new.me.0).seen }
{
    for _ in rt.forever() {
        if learn(line, seat) >= u64::from(count) {
            return;
        }
        sleep(rt, line, seat, count);
    }
    unreachable!()
}

/// Wakes those that wait for a count, where the least of these is reached.
pub fn call_awaiting<O: Told>(line: &Line<O>, seat: &mut Place<O>)
    requires { IsSeatOf seat.old.table_id line.now.table_id }
    ensures same { IsSameSeat seat.old seat.new }
    ensures me { seat.new.me ≡ seat.old.me }
{
    let least = line.peek(AWAITED);
    if least != NO_COUNT && least <= line.peek(LENGTH) {
        set_bell(line, seat, AWAITED, NO_COUNT);
        line.wake_all(AWAITED);
    }
}
