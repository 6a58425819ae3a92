//! Where the records of the names are.
ghost use Rattle.std.specs.Prelude.{◌≡◌, ◌≤◌, ◌<◌, ◌+◌, ◌^◌, Some, None, is_some, length, replicate, slice_set, slice_index_or, IfOk};
ghost use Rattle.number_set.specs.Places.{IsLeastFrom};

use kmem_model::Steps;
use number_set::NumberSet;
use std::alloc::{AllocError, Global};
use std::marker::Model;

/// The address of each name that is present. To contracts it is the address of each name, if it has one.
#[derive(Drop)]
pub struct Addresses {
    addresses: Vec<Option<u32>>,
    // The names that have one, in order.
    present: NumberSet,
}

impl Model for Addresses {
    ghost use Rattle.std.specs.Prelude.{ℕ, Option, List};
    ghost use Rattle.record_heap.specs.Present.{IsPresent};

    ghost Value = { List (Option ℕ) };

    ghost view = { λ a. a.addresses.items };

    ghost invariant = { λ a. IsPresent a.addresses.items a.present };
}

impl Addresses {
    /// No name is present.
    pub fn create(alloc: Global, names: u32) -> Result<Addresses, AllocError>
        requires { names ≤ 262144 }
        ensures { IfOk result (λ a. a ≡ replicate names None) }
    {
        Ok(Addresses {
            addresses: Vec::from_elem(alloc, None, names as usize)?,
            present: NumberSet::create(alloc, 3, names.max(1))?,
        })
    }

    /// The address of the name, if it is present.
    pub fn at(&self, name: u32) -> Option<u32>
        requires { name < length self.now }
        ensures { result ≡ slice_index_or self.now name None }
    {
        self.addresses[name as usize]
    }

    /// The least name that is present.
    pub fn least(&self, steps: &mut Steps) -> Option<u32>
        requires { steps.old < 2 ^ 62 }
        ensures least { IsLeastFrom (λ name. is_some (slice_index_or self.now name None)) 0 result }
        ensures steps { steps.new ≤ steps.old + 3 }
    {
        self.present.least(steps)
    }

    /// The least name above this one that is present.
    pub fn after(&self, name: u32, steps: &mut Steps) -> Option<u32>
        requires name { name < length self.now }
        requires steps { steps.old < 2 ^ 62 }
        ensures least { IsLeastFrom (λ other. is_some (slice_index_or self.now other None)) (name + 1) result }
        ensures steps { steps.new ≤ steps.old + 5 }
    {
        self.present.after(name, steps)
    }

    /// The name is present from then on, and leads to this address.
    pub fn lead(&mut self, name: u32, address: u32)
        requires { name < length self.old }
        ensures { self.new ≡ slice_set self.old name (Some address) }
    {
        self.addresses[name as usize] = Some(address);
        self.present.insert(name);
    }

    /// The name isn't present any more.
    pub fn clear(&mut self, name: u32)
        requires { name < length self.old }
        ensures { self.new ≡ slice_set self.old name None }
    {
        self.addresses[name as usize] = None;
        self.present.remove(name);
    }
}
