//! The kinds of step of the count, each in one function.
ghost use Rattle.std.specs.Prelude.{◌≡◌, ◌<◌, ◌≤◌, []};
ghost use Rattle.move_queue.specs.Count.{added, released, committed, taken_off, Looked, Becomes, IsOfCount, IsUnusedCount};
ghost use Rattle.move_queue.specs.Count.{count_dealt, count_newcomer, count_joined, IsSameMark};

use crate::rule::{Add, Commit, Deal, Gather, Line, Look, Mark, Quota, Release, TakeOff};

/// Counts in a job that is to be pushed.
pub fn add(line: &Line, mark: &mut Mark)
    requires of { IsOfCount mark.old.table_id line.now.table_id }
    requires some { 0 < mark.old.me.0.seats }
    requires left { 0 < mark.old.me.0.left }
    ensures same { IsSameMark mark.old mark.new }
    ensures becomes { Becomes added mark.old.me mark.new.me }
{
    line.fetch_add::<Add>(mark, 0, 1);
}

/// The job that was counted in is pushed.
pub fn commit(line: &Line, mark: &mut Mark)
    requires of { IsOfCount mark.old.table_id line.now.table_id }
    requires one { mark.old.me.0.seats ≡ 1 }
    ensures same { IsSameMark mark.old mark.new }
    ensures becomes { Becomes committed mark.old.me mark.new.me }
{
    line.load::<Commit>(mark, 0);
}

/// The job that was counted in is not pushed.
pub fn release(line: &Line, mark: &mut Mark)
    requires of { IsOfCount mark.old.table_id line.now.table_id }
    requires some { 0 < mark.old.me.0.seats }
    requires counted { 0 < mark.old.me.0.counted }
    requires pending { 0 < mark.old.me.0.pending }
    ensures same { IsSameMark mark.old mark.new }
    ensures becomes { Becomes released mark.old.me mark.new.me }
{
    line.fetch_sub::<Release>(mark, 0, 1);
}

/// Counts off a job that was popped.
pub fn take_off(line: &Line, mark: &mut Mark)
    requires of { IsOfCount mark.old.table_id line.now.table_id }
    requires some { 0 < mark.old.me.0.seats }
    ensures same { IsSameMark mark.old mark.new }
    ensures becomes { Becomes taken_off mark.old.me mark.new.me }
{
    line.fetch_sub::<TakeOff>(mark, 0, 1);
}

/// How many jobs are under way. Where none is, the seat is done.
pub fn look(line: &Line, mark: &mut Mark) -> u64
    requires of { IsOfCount mark.old.table_id line.now.table_id }
    requires some { 0 < mark.old.me.0.seats }
    ensures same { IsSameMark mark.old mark.new }
    ensures looked { Looked result mark.old.me mark.new.me }
{
    line.load::<Look>(mark, 0)
}

/// Deals a seat with so many pushes.
pub fn deal_mark<B: Quota>(line: &Line, dealer: &mut Mark, quota: u32) -> Mark
    requires of { IsOfCount dealer.old.table_id line.now.table_id }
    requires quota { quota ≡ B.quota }
    requires unused { IsUnusedCount dealer.old.me.0 }
    requires some { 0 < dealer.old.me.0.seats }
    requires enough { quota ≤ dealer.old.me.0.left }
    ensures same { IsSameMark dealer.old dealer.new }
    ensures dealer { Becomes (count_dealt quota) dealer.old.me dealer.new.me }
    ensures mark { (result.table_id ≡ dealer.old.table_id) × (result.me ≡ (count_newcomer quota, [])) }
{
    line.split_seat::<Deal<B>>(dealer)
}

/// Takes in another seat.
pub fn join_mark(line: &Line, mark: &mut Mark, other: Mark)
    requires of { IsOfCount mark.old.table_id line.now.table_id }
    requires other { (other.table_id ≡ line.now.table_id) × (other.me.1 ≡ []) }
    requires some { 0 < mark.old.me.0.seats }
    ensures same { IsSameMark mark.old mark.new }
    ensures joined { mark.new.me ≡ (count_joined mark.old.me.0 other.me.0, mark.old.me.1) }
{
    line.join_seat::<Gather>(mark, other);
}
