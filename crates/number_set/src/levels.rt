//! Levels of words, the lowest first. A number is a place of the lowest level; a word of a level has its place in the level above exactly
//! where it isn't 0.
ghost use Rattle.std.specs.Prelude.{◌≡◌, ◌≤◌, ◌<◌, ◌+◌, ◌*◌, ◌-◌, ◌^◌, ◌==◌, ℕ, Bool, List, length, if◌then◌else◌};
ghost use Rattle.number_set.specs.Places.{is_marked, IsLeastFrom, IsLastBelow};
ghost use Rattle.number_set.specs.Levels.{level_of, SumsFrom, AreSized, AreLevels};

use crate::bits::{above, highest, lowest, up_to, with_place};
use kmem_model::{Steps, Words};

/// The least place of a level.
pub fn least_at(levels: &[Words], level: usize, steps: &mut Steps) -> Option<usize>
    requires levels { AreLevels levels.now }
    requires level { level < length levels.now }
    requires steps { steps.old + length levels.now ≤ 2 ^ 63 + level }
    ensures least { IsLeastFrom (is_marked (level_of levels.now level)) 0 result }
    ensures steps { steps.new + level ≤ steps.old + length levels.now }
{
    let at = if level + 1 < levels.len() {
        least_at(levels, level + 1, steps)?
    } else {
        0
    };
    let word = levels[level].word(at, steps);
    if word == 0 {
        return None;
    }
    Some(at * 64 + lowest(word))
}

/// The least place of a level above this one.
pub fn after_at(levels: &[Words], level: usize, place: usize, steps: &mut Steps) -> Option<usize>
    requires levels { AreLevels levels.now }
    requires level { level < length levels.now }
    requires place { place < length (level_of levels.now level) * 64 }
    requires steps { steps.old + 2 * length levels.now ≤ 2 ^ 63 + 2 * level }
    ensures least { IsLeastFrom (is_marked (level_of levels.now level)) (place + 1) result }
    ensures steps { steps.new + 2 * level + 1 ≤ steps.old + 2 * length levels.now }
{
    let at = place / 64;
    let rest = above(levels[level].word(at, steps), place % 64);
    if rest != 0 {
        return Some(at * 64 + lowest(rest));
    }
    if level + 1 == levels.len() {
        return None;
    }
    let next = after_at(levels, level + 1, at, steps)?;
    Some(next * 64 + lowest(levels[level].word(next, steps)))
}

/// The greatest place of a level below this one.
pub fn before_at(levels: &[Words], level: usize, place: usize, steps: &mut Steps) -> Option<usize>
    requires levels { AreLevels levels.now }
    requires level { level < length levels.now }
    requires place { place ≤ length (level_of levels.now level) * 64 }
    requires steps { steps.old + 2 * length levels.now ≤ 2 ^ 63 + 2 * level }
    ensures last { IsLastBelow (is_marked (level_of levels.now level)) place result }
    ensures steps { steps.new + 2 * level ≤ steps.old + 2 * length levels.now }
{
    if place == 0 {
        return None;
    }
    let at = (place - 1) / 64;
    let rest = up_to(levels[level].word(at, steps), (place - 1) % 64);
    if rest != 0 {
        return Some(at * 64 + highest(rest));
    }
    if level + 1 == levels.len() {
        return None;
    }
    let last = before_at(levels, level + 1, at, steps)?;
    Some(last * 64 + highest(levels[level].word(last, steps)))
}

/// Puts a place into a level, or takes it out; the levels above follow.
pub fn put_at(levels: &mut [Words], level: usize, place: usize, there: bool)
    requires sized { AreSized levels.old }
    requires sums { SumsFrom level levels.old }
    requires level { level < length levels.old }
    requires place { place < length (level_of levels.old level) * 64 }
    ensures marked { (n : ℕ) → is_marked (level_of levels.new level) n ≡
        (if n == place then there else is_marked (level_of levels.old level) n) }
    ensures sums { SumsFrom level levels.new }
    ensures below { (k : ℕ) → k < level → level_of levels.new k ≡ level_of levels.old k }
    ensures sizes { (k : ℕ) → length (level_of levels.new k) ≡ length (level_of levels.old k) }
{
    let at = place / 64;
    let old = levels[level].word(at, &mut Steps::create());
    let new = with_place(old, place % 64, there);
    let words = &mut levels[level];
    words.set(at, new);
    if (old == 0) != (new == 0) && level + 1 < levels.len() {
        put_at(levels, level + 1, at, there);
    }
}
