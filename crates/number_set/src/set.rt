//! A set of numbers.
ghost use Rattle.std.specs.Prelude.{◌≡◌, ◌≤◌, ◌<◌, ◌+◌, ◌*◌, ◌^◌, ℕ, true, false, length, slice_set, IfOk, replicate};
ghost use Rattle.number_set.specs.Places.{IsLeastFrom, IsLastBelow};
ghost use Rattle.number_set.specs.Levels.{level_of, AreLevels};
ghost use Rattle.number_set.specs.Sets.{has};

use crate::levels::{after_at, before_at, least_at, put_at};
use kmem_model::{Steps, Words};
use std::alloc::{AllocError, Global};
use std::marker::Model;

/// Numbers below a bound, as a tree of words. To contracts it is, for each number that it may hold, whether it does, and the height of its
/// tree.
#[derive(Drop)]
pub struct NumberSet {
    levels: Vec<Words>,
}

impl Model for NumberSet {
    ghost use Rattle.std.specs.Prelude.{length};
    ghost use Rattle.number_set.specs.Places.{flags_of};
    ghost use Rattle.number_set.specs.Levels.{level_of, AreLevels};
    ghost use Rattle.number_set.specs.Sets.{SetState};

    ghost Value = { SetState };

    ghost view = { λ s. record { levels = length s.levels.items; flags = flags_of (level_of s.levels.items 0) } };

    ghost invariant = { λ s. AreLevels s.levels.items };
}

impl NumberSet {
    /// Holds nothing, and has room for the numbers below `count`. All memory that it will ever need is taken here.
    pub fn create(alloc: Global, levels: u32, count: u32) -> Result<NumberSet, AllocError>
        requires levels { (0 < levels) × (levels ≤ 4) }
        requires count { (0 < count) × (count ≤ 64 ^ levels) }
        ensures levels { IfOk result (λ s. s.levels ≡ levels) }
        ensures room { IfOk result (λ s. count ≤ length s.flags) }
        ensures empty { IfOk result (λ s. (n : ℕ) → has s n ≡ false) }
    {
        Ok(NumberSet {
            levels: empty_levels(alloc, levels, count)?,
        })
    }

    /// The least number.
    pub fn least(&self, steps: &mut Steps) -> Option<u32>
        requires { steps.old < 2 ^ 62 }
        ensures least { IsLeastFrom (has self.now) 0 result }
        ensures steps { steps.new ≤ steps.old + self.now.levels }
    {
        Some(least_at(&self.levels, 0, steps)? as u32)
    }

    /// The least number above this one.
    pub fn after(&self, number: u32, steps: &mut Steps) -> Option<u32>
        requires number { number < length self.now.flags }
        requires steps { steps.old < 2 ^ 62 }
        ensures least { IsLeastFrom (has self.now) (number + 1) result }
        ensures steps { steps.new + 1 ≤ steps.old + 2 * self.now.levels }
    {
        Some(after_at(&self.levels, 0, number as usize, steps)? as u32)
    }

    /// The greatest number below this one.
    pub fn before(&self, number: u32, steps: &mut Steps) -> Option<u32>
        requires number { number ≤ length self.now.flags }
        requires steps { steps.old < 2 ^ 62 }
        ensures last { IsLastBelow (has self.now) number result }
        ensures steps { steps.new ≤ steps.old + 2 * self.now.levels }
    {
        Some(before_at(&self.levels, 0, number as usize, steps)? as u32)
    }

    /// Puts the number in, whether or not it is there.
    pub fn insert(&mut self, number: u32)
        requires { number < length self.old.flags }
        ensures { self.new ≡ record self.old { flags = slice_set self.old.flags number true } }
    {
        put_at(&mut self.levels, 0, number as usize, true);
    }

    /// Takes the number out, whether or not it is there.
    pub fn remove(&mut self, number: u32)
        requires { number < length self.old.flags }
        ensures { self.new ≡ record self.old { flags = slice_set self.old.flags number false } }
    {
        put_at(&mut self.levels, 0, number as usize, false);
    }
}

fn empty_levels(alloc: Global, levels: u32, count: u32) -> Result<Vec<Words>, AllocError>
    requires levels { (0 < levels) × (levels ≤ 4) }
    requires count { (0 < count) × (count ≤ 64 ^ levels) }
    ensures levels { IfOk result (λ ls. length ls.items ≡ levels) }
    ensures kept { IfOk result (λ ls. AreLevels ls.items) }
    ensures room { IfOk result (λ ls. count ≤ length (level_of ls.items 0) * 64) }
    ensures empty { IfOk result (λ ls. (k : ℕ) → level_of ls.items k ≡ replicate (length (level_of ls.items k)) 0) }
{
    let mut all = Vec::with_capacity(alloc, levels as usize)?;
    let mut len = count as usize;
    for _level in 0..levels {
        len = len.div_ceil(64);
        all.push(Words::create(alloc, len)?)?;
    }
    Ok(all)
}
