//! The object: a sum, how many additions it has had, and the most that one may add.
ghost use Rattle.std.specs.Prelude.{◌≡◌, ℕ, ◌+◌, ◌^◌, ◌<◌, ◌≤◌, [], ◌∷◌, ◌++◌, length, IfOk, vec_capacity};
ghost use Rattle.hist_lock.specs.Tally.{MayAdd, IsAdder, IsDone};

use crate::{HistLock, Pass, Told, Turn};
use std::alloc::{AllocError, Global};
use std::sync::Wait;

#[derive(Drop)]
pub struct Tally {
    pub sum: u64,
    pub adds: u32,
    pub most: u32,
}

impl Told for Tally {
    ghost use Rattle.hist_lock.specs.Tally.{IsTally};

    type Entry = u32;

    type Home = u32;

    ghost stands = { λ t history. IsTally t.sum t.adds t.most history };

    ghost home = { λ t. t.most };

    ghost anywhere = { 0 };
}

/// Adds an amount, and answers the sum before.
#[derive(Clone, Copy)]
pub struct Add(pub u32);

impl Turn<Tally> for Add {
    ghost use Rattle.std.specs.Prelude.{◌≡◌, ◌+◌, ◌^◌, ◌<◌, ◌≤◌, length, Some};
    ghost use Rattle.hist_lock.specs.Tally.{sum_of};

    type Out = u64;

    ghost can = { λ add who most history. (add.0 ≤ most) × (length history + 1 < 2 ^ 32) };

    ghost tells = { λ add who most before after history out entry.
        (out ≡ sum_of history) × (entry ≡ Some add.0) × (out ≡ before.sum) × (after.sum ≡ before.sum + add.0) };

    fn run(self, _who: u32, object: &mut Tally) -> (u64, Option<u32>) {
        let before = object.sum;
        object.sum += u64::from(self.0);
        object.adds += 1;
        (before, Some(self.0))
    }
}

/// Answers the sum.
#[derive(Clone, Copy)]
pub struct Read;

impl Turn<Tally> for Read {
    ghost use Rattle.std.specs.Prelude.{◌≡◌, None};
    ghost use Rattle.hist_lock.specs.Tally.{sum_of};

    type Out = u64;

    ghost can = { λ read who most history. Unit {0} };

    ghost tells = { λ read who most before after history out entry.
        (out ≡ sum_of history) × (entry ≡ None) × (out ≡ before.sum) × (after ≡ before) };

    fn run(self, _who: u32, object: &mut Tally) -> (u64, Option<u32>) {
        (object.sum, None)
    }
}

/// A pass that is done, and the sums that its turns found.
#[derive(Drop)]
pub struct Done {
    pub pass: Pass<Tally>,
    pub found: Vec<u64>,
}

// The amount that a pass adds at its turn i: pass 0 adds 1, 2, 3 and so on, and each next one ten times as much.
pub fn amount(number: u32, i: u32) -> u32
    requires { i ≤ 10000 }
    ensures { result ≤ 10000000 }
{
    match number {
        0 => i,
        1 => 10 * i,
        2 => 100 * i,
        _ => 1000 * i,
    }
}

/// Adds until the pass has nothing left.
pub fn add_all<R: Wait>(rt: &R, lock: &HistLock<Tally>, done: Done) -> Done
    requires most { lock.now.home ≡ 10000000 }
    requires ready { MayAdd lock.now done.pass done.found.items (vec_capacity done.found) }
    ensures { IsDone lock.now done.pass.number result.pass result.found.items }
{
    let Done {
        mut pass,
        mut found,
    } = done;
    let number = pass.number();
    let mut i = 0;
    while pass.left() > 0 {
        i += 1;
        let before = lock.act(rt, &mut pass, Add(amount(number, i)));
        found.push_reserved(before);
    }
    Done { pass, found }
}

/// The same for a pass whose answers are not asked for.
pub fn add_each<R: Wait>(rt: &R, lock: &HistLock<Tally>, pass: &mut Pass<Tally>)
    requires most { lock.now.home ≡ 10000000 }
    requires of { IsAdder lock.now pass.old }
    ensures { pass.new.site ≡ lock.now }
{
    let number = pass.number();
    let mut i = 0;
    while pass.left() > 0 {
        i += 1;
        lock.act(rt, pass, Add(amount(number, i)));
    }
}

/// A look by a pass that may make no entry.
pub fn read_once<R: Wait>(rt: &R, alloc: Global) -> Result<u64, AllocError> {
    let object = Tally {
        sum: 0,
        adds: 0,
        most: 1,
    };
    let (lock, mut passes) = HistLock::create(alloc, object, &[0])?;
    let Some(mut pass) = passes.pop() else {
        return Err(AllocError)
    };
    let sum = lock.look(rt, &mut pass, Read);
    passes.push_reserved(pass);
    let (_, history) = lock.close(passes);
    Ok(sum + history.len() as u64)
}
