//! The history lock round an object of one's own: numbers that threads draw, each number once and in order.
#![tactic(auto)]

ghost use Rattle.std.specs.Prelude.{◌≡◌, ◌+◌, ◌^◌, ◌<◌, ◌≤◌, [], ◌∷◌, IfOk};
ghost use Rattle.hist_lock.specs.History.{entries_of};
ghost use Rattle.using_lock.specs.Numbers.{AreInOrder, HasGot};

use hist_lock::{HistLock, Pass, Told, Turn};
use std::alloc::{AllocError, Global};
use std::sync::Wait;
use std::thread::{Threads, join};

#[cfg(test)]
mod tests;

/// A counter of the numbers that were drawn.
#[derive(Drop)]
pub struct Numbers {
    first: u32,
    next: u32,
}

impl Told for Numbers {
    ghost use Rattle.using_lock.specs.Numbers.{IsCounter};

    /// The number that was drawn.
    type Entry = u32;

    /// The first number, which stays.
    type Home = u32;

    ghost stands = { λ numbers history. IsCounter numbers.first numbers.next history };

    ghost home = { λ numbers. numbers.first };

    ghost anywhere = { 0 };
}

/// Draws the next number.
#[derive(Clone, Copy)]
pub struct Draw;

impl Turn<Numbers> for Draw {
    ghost use Rattle.std.specs.Prelude.{◌≡◌, ◌+◌, ◌^◌, ◌<◌, length, Some};

    type Out = u32;

    ghost can = { λ draw who first history. first + length history + 1 < 2 ^ 32 };

    ghost tells = { λ draw who first before after history out entry. (out ≡ first + length history) × (entry ≡ Some out) };

    fn run(self, _who: u32, numbers: &mut Numbers) -> (u32, Option<u32>) {
        let number = numbers.next;
        numbers.next += 1;
        (number, Some(number))
    }
}

/// A pass, and the number that was drawn with it.
#[derive(Drop)]
pub struct Drawn {
    pub pass: Pass<Numbers>,
    pub number: u32,
}

/// Draws a number. It may wait for other threads' turns.
pub fn draw_one<R: Wait>(rt: &R, lock: &HistLock<Numbers>, mut pass: Pass<Numbers>) -> Drawn
    requires small { lock.now.home + lock.now.room < 2 ^ 32 }
    requires of { pass.site ≡ lock.now }
    requires left { 1 ≤ pass.left }
    ensures { HasGot pass result.pass result.number }
{
    let number = lock.act(rt, &mut pass, Draw);
    Drawn { pass, number }
}

/// The numbers that two threads drew, and the history: who drew which number.
#[derive(Drop)]
pub struct Outcome {
    pub one: u32,
    pub other: u32,
    pub history: Vec<(u32, u32)>,
}

/// Two threads draw a number each, beginning with this one.
pub fn two_threads<R: Threads + Wait + Sync>(
    rt: &R,
    alloc: Global,
    first: u32,
) -> Result<Outcome, AllocError>
    requires { first + 2 < 2 ^ 32 }
    ensures order { IfOk result (λ outcome. AreInOrder first outcome.history.items) }
    ensures one { IfOk result (λ outcome. entries_of 0 outcome.history.items ≡ outcome.one ∷ []) }
    ensures other { IfOk result (λ outcome. entries_of 1 outcome.history.items ≡ outcome.other ∷ []) }
{
    let numbers = Numbers { first, next: first };
    let (lock, mut passes) = HistLock::create(alloc, numbers, &[1, 1])?;
    let (Some(b), Some(a)) = (passes.pop(), passes.pop()) else {
        unreachable!()
    };
    let (a, b) = draw_both(rt, &lock, a, b);
    passes.push_reserved(a.pass);
    passes.push_reserved(b.pass);
    let (_, history) = lock.close(passes);
    Ok(Outcome {
        one: a.number,
        other: b.number,
        history,
    })
}

// Each pass draws in a thread of its own.
fn draw_both<R: Threads + Wait + Sync>(
    rt: &R,
    lock: &HistLock<Numbers>,
    a: Pass<Numbers>,
    b: Pass<Numbers>,
) -> (Drawn, Drawn)
    requires small { lock.now.home + lock.now.room < 2 ^ 32 }
    requires a { (a.site ≡ lock.now) × (1 ≤ a.left) }
    requires b { (b.site ≡ lock.now) × (1 ≤ b.left) }
    ensures a { HasGot a result.0.pass result.0.number }
    ensures b { HasGot b result.1.pass result.1.number }
{
    join(
        rt,
        move || -> Drawn
            requires { (lock.now.home + lock.now.room < 2 ^ 32) × (a.site ≡ lock.now) × (1 ≤ a.left) }
            ensures { HasGot a result.pass result.number }
        { draw_one(rt, lock, a) },
        move || -> Drawn
            requires { (lock.now.home + lock.now.room < 2 ^ 32) × (b.site ≡ lock.now) × (1 ≤ b.left) }
            ensures { HasGot b result.pass result.number }
        { draw_one(rt, lock, b) },
    )
}
