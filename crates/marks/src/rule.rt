//! The table of the words, and what its seats know: `specs/Rule.antt` has their rule.
//! Word b is the word of buffer b. One word more, the last one, is of no buffer: a seat is dealt by a step on a word.
use atomic_table::{Play, Seat, Shared, Split, Table, TableRule};
use std::alloc::Global;
use std::collections::LinkedList;

/// What a seat knows. No value of it is made.
pub struct View {
    /// Of the pen's seat: which words are known.
    pub pen: Option<LinkedList<bool>>,
    /// How many loads it made.
    pub loads: u64,
    /// Of its last load, the buffer and whether its word was known.
    pub last: Option<(u64, bool)>,
}

/// The rule. The table is told how many buffers there are.
pub struct OnePen;

impl TableRule<(), View, u32> for OnePen {
    ghost use Rattle.marks.specs.Rule.{IsMarked, pen_view};

    ghost holds = { λ _. IsMarked };

    ghost first = { pen_view };
}

pub struct Finds;

impl Play<(), View> for Finds {
    ghost use Rattle.marks.specs.Rule.{Found};

    ghost then = { Found };
}

pub struct Writes;

impl Play<(), View> for Writes {
    ghost use Rattle.marks.specs.Rule.{Wrote};

    ghost then = { Wrote };
}

pub struct Deals;

impl Split<View> for Deals {
    ghost use Rattle.marks.specs.Rule.{newcomer};

    ghost left = { λ v. v };

    ghost right = { λ _. newcomer };
}

pub type Line = Shared<(), View, u32, OnePen>;

pub type Whole = Table<(), View, u32, OnePen, Global>;

pub type Place = Seat<(), View>;
