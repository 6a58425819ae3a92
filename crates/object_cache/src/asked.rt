//! The buffers that were asked about in a scan.
ghost use Rattle.std.specs.Prelude.{◌≡◌, ◌≤◌, ◌<◌, true, false, length, replicate, slice_set, slice_index_or, IfOk};
ghost use Rattle.number_set.specs.Places.{IsLeastFrom};

use kmem_model::Steps;
use number_set::NumberSet;
use std::alloc::{AllocError, Global};
use std::marker::Model;

/// Which buffers were asked about. To contracts it says so of each buffer.
#[derive(Drop)]
pub struct Asked {
    flags: Vec<bool>,
    // The same buffers, so that they are found without a look at the others.
    noted: NumberSet,
}

impl Model for Asked {
    ghost use Rattle.std.specs.Prelude.{Bool, List};
    ghost use Rattle.object_cache.specs.Moves.{IsNoted};

    ghost Value = { List Bool };

    ghost view = { λ a. a.flags.items };

    ghost invariant = { λ a. IsNoted a.flags.items a.noted };
}

impl Asked {
    /// None was asked about.
    pub fn create(alloc: Global, buffers: u32) -> Result<Asked, AllocError>
        requires { buffers ≤ 65536 }
        ensures { IfOk result (λ a. a ≡ replicate buffers false) }
    {
        Ok(Asked {
            flags: Vec::from_elem(alloc, false, buffers as usize)?,
            noted: NumberSet::create(alloc, 3, buffers.max(1))?,
        })
    }

    /// Whether the buffer was asked about.
    pub fn has(&self, number: u32) -> bool
        requires { number < length self.now }
        ensures { result ≡ slice_index_or self.now number false }
    {
        self.flags[number as usize]
    }

    /// The least buffer that was asked about.
    pub fn least(&self) -> Option<u32>
        ensures { IsLeastFrom (λ b. slice_index_or self.now b false) 0 result }
    {
        self.noted.least(&mut Steps::create())
    }

    /// The buffer counts as asked about.
    pub fn ask(&mut self, number: u32)
        requires { number < length self.old }
        ensures { self.new ≡ slice_set self.old number true }
    {
        self.flags[number as usize] = true;
        self.noted.insert(number);
    }

    /// The buffer doesn't count as asked about.
    pub fn forget(&mut self, number: u32)
        requires { number < length self.old }
        ensures { self.new ≡ slice_set self.old number false }
    {
        self.flags[number as usize] = false;
        self.noted.remove(number);
    }
}
