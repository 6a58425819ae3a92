//! The kinds of step, each in one function.
ghost use Rattle.std.specs.Prelude.{◌≡◌, ◌+◌, ◌<◌, [], length, slice_set, Some};
ghost use Rattle.marks.specs.Words.{is_known_word, IsWordOf};
ghost use Rattle.marks.specs.Rule.{IsSameSeat, known_of, IsPen, looked, rewritten, newcomer};

use crate::rule::{Deals, Finds, Line, Place, Writes};

/// Loads a word.
pub fn load(line: &Line, seat: &mut Place, word: usize) -> u64
    requires of { seat.old.table_id ≡ line.now.table_id }
    requires in_range { word < line.now.table_id.words }
    ensures same { IsSameSeat seat.old seat.new }
    ensures found { seat.new.me ≡ (looked word (is_known_word result) seat.old.me.0, seat.old.me.1) }
{
    line.load::<Finds>(seat, word)
}

/// Stores a word of a buffer.
pub fn store(line: &Line, pen: &mut Place, word: usize, new: u64)
    requires of { pen.old.table_id ≡ line.now.table_id }
    requires pen { IsPen pen.old.table_id pen.old.me.0 }
    requires in_range { word < length (known_of pen.old.me.0) }
    requires new { IsWordOf word new }
    ensures same { IsSameSeat pen.old pen.new }
    ensures written { pen.new.me ≡ (rewritten word (is_known_word new) pen.old.me.0, pen.old.me.1) }
{
    line.store::<Writes>(pen, word, new);
}

/// Deals a seat that reads.
pub fn split(line: &Line, pen: &mut Place) -> Place
    requires of { pen.old.table_id ≡ line.now.table_id }
    requires some { 0 < line.now.table_id.words }
    ensures same { IsSameSeat pen.old pen.new }
    ensures pen { pen.new.me ≡ pen.old.me }
    ensures seat { (result.table_id ≡ pen.old.table_id) × (result.me ≡ (newcomer, [])) }
{
    line.split_seat::<Deals>(pen)
}
