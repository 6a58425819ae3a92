//! Lines put into a room, one behind the other.

ghost use Rattle.std.specs.Prelude.{◌≡◌, ◌+◌, ◌≤◌, ◌++◌, length, take};
ghost use Rattle.std.specs.Fmt.{decimal};
ghost use Rattle.kmem_model.specs.Report.{number_text, number_line, moves_line, slab_line};
ghost use Rattle.kmem_report.specs.Reported.{counts_of};

use itoa::Buffer;
use object_cache::{SlabLine, Tally};

/// Puts the line of one number at a place, and answers where it ends.
pub fn put_number_line(room: &mut [u8], at: usize, word: &[u8], number: u64) -> usize
    requires { at + length word.now + 22 ≤ length room.old }
    ensures end { result ≤ at + length word.now + 22 }
    ensures text { take result room.new ≡ take at room.old ++ number_line word.now number }
{
    let at = put_number(room, at, word, number);
    put(room, at, b"\n")
}

/// Puts the line of the ends of moves at a place, and answers where it ends.
pub fn put_moves_line(room: &mut [u8], at: usize, word: &[u8], tally: &Tally) -> usize
    requires { at + length word.now + 200 ≤ length room.old }
    ensures end { result ≤ at + length word.now + 200 }
    ensures text { take result room.new ≡ take at room.old ++ moves_line word.now (counts_of tally.now) }
{
    let at = put(room, at, word);
    let at = put_number(room, at, b" yes", tally.yes);
    let at = put_number(room, at, b" no", tally.no);
    let at = put_number(room, at, b" later", tally.later);
    let at = put_number(room, at, b" dontneed", tally.dont_need);
    let at = put_number(room, at, b" dontknow", tally.dont_know);
    let at = put_number(room, at, b" gone", tally.gone);
    put(room, at, b"\n")
}

/// Puts the line of a listed slab at the front, and answers its length.
pub fn put_slab_line(room: &mut [u8], slab: u32, line: SlabLine) -> usize
    requires { 96 ≤ length room.old }
    ensures end { result ≤ 96 }
    ensures text { take result room.new ≡ slab_line slab line.used line.stuck }
{
    let at = put_number(room, 0, b"slab", u64::from(slab));
    let at = put_number(room, at, b" used", u64::from(line.used));
    let at = match line.stuck {
        Some(index) => put_number(room, at, b" stuck", u64::from(index)),
        None => at,
    };
    put(room, at, b"\n")
}

/// Puts a word, a space and a number at a place, and answers where they end.
fn put_number(room: &mut [u8], at: usize, word: &[u8], number: u64) -> usize
    requires { at + length word.now + 21 ≤ length room.old }
    ensures end { result ≤ at + length word.now + 21 }
    ensures text { take result room.new ≡ take at room.old ++ number_text word.now number }
{
    let at = put(room, at, word);
    let at = put(room, at, b" ");
    put(room, at, Buffer::new().format(number).as_bytes())
}

/// Puts a piece at a place, and answers where it ends.
pub fn put(room: &mut [u8], at: usize, piece: &[u8]) -> usize
    requires { at + length piece.now ≤ length room.old }
    ensures end { result ≡ at + length piece.now }
    ensures text { take result room.new ≡ take at room.old ++ piece.now }
{
    room[at..at + piece.len()].copy_from_slice(piece);
    at + piece.len()
}
