//! The slabs that no cache has.
ghost use Rattle.std.specs.Prelude.{◌≡◌, ◌+◌, ◌<◌, ◌^◌, ℕ, true, false, nat_lt, length, IfOk, IfNone, IfSome, MatchOption};
ghost use Rattle.std.specs.Ordering.{nat_cmp};
ghost use Rattle.std.specs.FinSet as set;
ghost use Rattle.slab_source.specs.Source.{IsLeast, NoneBelow, bit_at};

use std::alloc::{AllocError, Global};
use std::marker::Model;

/// A source of the slabs below a number. To contracts it is the set of those that it holds.
#[derive(Drop)]
pub struct Supply {
    held: Vec<bool>,
    // No slab below it is held.
    first: u32,
    left: u32,
}

impl Model for Supply {
    ghost use Rattle.std.specs.Prelude.{◌≡◌, ◌<◌, ◌≤◌, ◌^◌, ℕ, length};
    ghost use Rattle.slab_source.specs.Source.{SourceState, source_code, places, NoneBelow, count_of};

    ghost Value = { SourceState };

    ghost coded = { source_code };

    ghost view = { λ s. record { slabs = length s.held.items; held = places s.held.items } };

    ghost invariant = { λ s. (length s.held.items < 2 ^ 32) × (s.first ≤ length s.held.items) × NoneBelow s.held.items s.first ×
        (s.left ≡ count_of s.held.items) };
}

impl Supply {
    /// Holds the slabs below this number. All memory that it will ever need is taken here.
    pub fn create(alloc: Global, slabs: u32) -> Result<Supply, AllocError>
        ensures slabs { IfOk result (λ s. s.slabs ≡ slabs) }
        ensures held { IfOk result (λ s. (n : ℕ) → set.contains s.held n ≡ nat_lt n slabs) }
    {
        Ok(Supply {
            held: Vec::from_elem(alloc, true, slabs as usize)?,
            first: 0,
            left: slabs,
        })
    }

    /// Takes the least slab out.
    pub fn take(&mut self) -> Option<u32>
        ensures none { IfNone result (self.old.held ≡ set.empty) }
        ensures least { IfSome result (λ n. IsLeast self.old.held n × (n < self.old.slabs)) }
        ensures taken { MatchOption result (self.new ≡ self.old) (λ n. self.new ≡
            record { slabs = self.old.slabs; held = set.remove self.old.held n }) }
    {
        let slab = next_held(&self.held, self.first)?;
        self.held[slab as usize] = false;
        self.first = slab + 1;
        self.left -= 1;
        Some(slab)
    }

    /// Puts a slab back.
    pub fn give(&mut self, slab: u32)
        requires range { slab < self.old.slabs }
        requires apart { set.contains self.old.held slab ≡ false }
        ensures { self.new ≡ record { slabs = self.old.slabs; held = set.insert self.old.held slab } }
    {
        self.held[slab as usize] = true;
        self.first = self.first.min(slab);
        self.left += 1;
    }

    /// How many slabs it holds.
    pub fn left(&self) -> u32
        ensures { result ≡ set.len self.now.held }
    {
        self.left
    }
}

// The first place from `first` on that says true.
fn next_held(held: &[bool], first: u32) -> Option<u32>
    requires size { length held.now < 2 ^ 32 }
    requires below { NoneBelow held.now first }
    ensures { MatchOption result (NoneBelow held.now (length held.now)) (λ n. (n < length held.now) × (bit_at held.now n ≡ true) ×
        NoneBelow held.now n) }
{
    let len = held.len() as u32;
    for slab in first..len {
        if held[slab as usize] {
            return Some(slab);
        }
    }
    None
}
