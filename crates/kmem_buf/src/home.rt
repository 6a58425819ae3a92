//! Names for the homes of a cache.
ghost use Rattle.std.specs.Prelude.{◌≡◌};
ghost use Rattle.kmem_buf.specs.Homes.{cell_homes, stub_homes};

use crate::buf::Cell;
use crate::shown::Shown;
use crate::stub::Stub;
use std::marker::Model;

/// Names the homes of a cache's cells and of the stubs of its moves. It has no bytes.
#[derive(Drop)]
pub struct Home {
    cells: Shown<Vec<Cell>>,
    moves: Shown<Vec<Stub>>,
}

impl Model for Home {
    ghost use Rattle.kmem_buf.specs.Homes.{Homes, cell_homes, stub_homes};

    ghost Value = { Homes };

    ghost view = { λ h. record { cells = cell_homes h.cells.value.items; moves = stub_homes h.moves.value.items } };
}

impl Home {
    pub fn of(cells: &Vec<Cell>, moves: &Vec<Stub>) -> Home
        ensures { result ≡ record { cells = cell_homes cells.now.items; moves = stub_homes moves.now.items } }
    {
        Home {
            cells: Shown::of(cells),
            moves: Shown::of(moves),
        }
    }

    /// A copy.
    pub fn again(&self) -> Home
        ensures { result ≡ self.now }
    {
        Home {
            cells: self.cells.again(),
            moves: self.moves.again(),
        }
    }
}

/// The place of an entry Full in the history of a cache.
#[derive(Clone, Copy, PartialEq, Eq, Debug)]
pub struct FullNote {
    pub at: u64,
}
