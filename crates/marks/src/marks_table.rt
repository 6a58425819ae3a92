//! The table of known words, its pen and its seats.
ghost use Rattle.std.specs.Prelude.{◌≡◌, ◌+◌, ◌*◌, ◌<◌, ◌≤◌, true, false, [], replicate, vec_capacity, IfOk};
ghost use Rattle.marks.specs.Words.{mark_seat_after, pen_after, fresh_mark_seat};
ghost use Rattle.marks.specs.Rule.{pen_view};

use crate::rule::{Line, Place, Whole};
use crate::steps::{load, split, store};
use atomic_table::Table;
use std::alloc::{AllocError, Global};
use std::marker::Model;

// The word of a buffer whose object was never known: what the kernel fills fresh memory with.
const FRESH: u64 = 0xbadd_cafe;

/// The words of a cache's buffers. A word takes 8 bytes.
#[derive(Drop)]
pub struct Marks {
    table: Whole,
}

impl Model for Marks {
    ghost use Rattle.std.specs.Prelude.{◌-◌, ◌<◌};
    ghost use Rattle.marks.specs.Words.{MarksState};

    ghost Value = { MarksState };

    ghost view = { λ m. record { home = m.table.shared.table_id; buffers = m.table.shared.table_id.words - 1 } };

    ghost invariant = { λ m. 0 < m.table.shared.table_id.words };
}

/// The right to write the words. There is one for each table. It has no bytes.
#[derive(Drop)]
pub struct MarkPen {
    seat: Place,
}

impl Model for MarkPen {
    ghost use Rattle.marks.specs.Words.{MarkPenState};
    ghost use Rattle.marks.specs.Rule.{known_of, IsPen};

    ghost Value = { MarkPenState };

    ghost view = { λ p. record { home = p.seat.table_id; known = known_of p.seat.me.0 } };

    ghost invariant = { λ p. IsPen p.seat.table_id p.seat.me.0 };
}

/// The right to read the words, for one thread. It has no bytes.
#[derive(Drop)]
pub struct MarkSeat {
    seat: Place,
}

impl Model for MarkSeat {
    ghost use Rattle.marks.specs.Words.{MarkSeatState};

    ghost Value = { MarkSeatState };

    ghost view = { λ s. record { home = s.seat.table_id; loads = s.seat.me.0.loads; last = s.seat.me.0.last } };
}

// The word of a buffer whose object is known. Its two low bits are clear, and one more than it is the word of an object that
// was given up.
fn known_word(b: u32) -> u64
    ensures { result ≡ 4 * (b + 1) }
{
    4 * (u64::from(b) + 1)
}

// Lays out the words, none of them known, and one word more.
fn lay(alloc: Global, buffers: u32) -> Result<(Whole, Place), AllocError>
    ensures table { IfOk result (λ r. r.0.shared.table_id.words ≡ buffers + 1) }
    ensures seat { IfOk result (λ r. (r.1.table_id ≡ r.0.shared.table_id) × (r.1.me ≡ (pen_view buffers, []))) }
{
    let words = vec![in alloc; FRESH; buffers as usize + 1]?;
    Table::of_words(alloc, words.as_slice(), &buffers)
}

// Deals as many seats as are asked for.
fn deal(line: &Line, pen: &mut Place, seats: u32, mut dealt: Vec<MarkSeat>) -> Vec<MarkSeat>
    requires of { pen.old.table_id ≡ line.now.table_id }
    requires some { 0 < line.now.table_id.words }
    requires none { dealt.items ≡ [] }
    requires room { seats ≤ vec_capacity dealt }
    ensures same { (pen.new.table_id ≡ pen.old.table_id) × (pen.new.me ≡ pen.old.me) }
    ensures seats { result.items ≡ replicate seats (fresh_mark_seat pen.old.table_id) }
{
    for _ in 0..seats {
        let seat = split(line, pen);
        dealt.push_reserved(MarkSeat { seat });
    }
    dealt
}

impl Marks {
    /// The words of so many buffers, none of them known, with the pen and so many seats. All memory is taken here.
    pub fn create(
        alloc: Global,
        buffers: u32,
        seats: u32,
    ) -> Result<(Marks, MarkPen, Vec<MarkSeat>), AllocError>
        ensures buffers { IfOk result (λ r. r.0.buffers ≡ buffers) }
        ensures pen { IfOk result (λ r. r.1 ≡ record { home = r.0.home; known = replicate buffers false }) }
        ensures seats { IfOk result (λ r. r.2.items ≡ replicate seats (fresh_mark_seat r.0.home)) }
    {
        let room = Vec::with_capacity(alloc, seats as usize)?;
        let (table, mut seat) = lay(alloc, buffers)?;
        let seats = deal(&table.shared, &mut seat, seats, room);
        Ok((Marks { table }, MarkPen { seat }, seats))
    }

    /// Whether the object in the buffer is known: one load of its word.
    pub fn known(&self, seat: &mut MarkSeat, b: u32) -> bool
        requires home { seat.old.home ≡ self.now.home }
        requires in_range { b < self.now.buffers }
        ensures { seat.new ≡ mark_seat_after b result seat.old }
    {
        load(&self.table.shared, &mut seat.seat, b as usize) % 4 == 0
    }

    /// The object in the buffer is known from now on: one store of its word.
    pub fn set(&self, pen: &mut MarkPen, b: u32)
        requires home { pen.old.home ≡ self.now.home }
        requires in_range { b < self.now.buffers }
        ensures { pen.new ≡ pen_after b true pen.old }
    {
        let word = known_word(b);
        store(&self.table.shared, &mut pen.seat, b as usize, word);
    }

    /// The client has given up the object in the buffer: one store of its word.
    pub fn clear(&self, pen: &mut MarkPen, b: u32)
        requires home { pen.old.home ≡ self.now.home }
        requires in_range { b < self.now.buffers }
        ensures { pen.new ≡ pen_after b false pen.old }
    {
        let word = known_word(b) + 1;
        store(&self.table.shared, &mut pen.seat, b as usize, word);
    }
}
