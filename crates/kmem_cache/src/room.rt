//! Room that nobody touches until it is opened. A pass may go to another thread, but two threads can't look at one, so a
//! plain `Vec` of passes in a cache would keep that from being shared: the room lies in a table of its own, which no seat opens.
ghost use Rattle.std.specs.Prelude.{◌≡◌, ◌≤◌, [], vec_capacity, IfOk};

use atomic_table::{Table, TableRule};
use std::alloc::{AllocError, Global};
use std::marker::Model;

pub struct Untouched;

impl<S> TableRule<Vec<S>, (), u32> for Untouched {
    ghost use Rattle.kmem_cache.specs.Rooms.{IsRoom};

    ghost holds = { λ count s. IsRoom count s };

    ghost first = { λ _. tt };
}

/// Room for so many values. To contracts it is their number.
#[derive(Drop)]
pub struct Room<S> {
    table: Table<Vec<S>, (), u32, Untouched, Global>,
}

impl<S> Model for Room<S> {
    ghost use Rattle.std.specs.Prelude.{◌≡◌, ℕ};

    ghost Value = { ℕ };

    ghost view = { λ r. r.table.shared.key };

    ghost invariant = { λ r. r.table.shared.table_id.slots ≡ 1 };
}

impl<S: Drop> Room<S> {
    pub fn create(alloc: Global, count: u32) -> Result<Room<S>, AllocError>
        ensures { IfOk result (λ r. r ≡ count) }
    {
        let values = Vec::with_capacity(alloc, count as usize)?;
        let mut slots = Vec::with_capacity(alloc, 1)?;
        slots.push_reserved(values);
        match Table::new(alloc, &[], slots, &count) {
            Ok((table, _seat)) => Ok(Room { table }),
            Err(_) => Err(AllocError),
        }
    }

    /// The room.
    pub fn open(self) -> Vec<S>
        ensures none { result.items ≡ [] }
        ensures room { self ≤ vec_capacity result }
    {
        let Room { table } = self;
        let mut closed = table.close();
        let values = closed.take(0);
        closed.free();
        values
    }
}
