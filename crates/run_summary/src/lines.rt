//! Lines put into a room, one behind the other.

ghost use Rattle.std.specs.Prelude.{◌≡◌, ◌+◌, ◌≤◌, ◌++◌, length, take};
ghost use Rattle.kmem_model.specs.Report.{number_line};

use itoa::Buffer;

/// Puts the line of a number at a place, and answers where it ends.
pub(crate) fn put_line(room: &mut [u8], start: usize, word: &[u8], number: u64) -> usize
    requires { start + length word.now + 22 ≤ length room.old }
    ensures end { result ≤ start + length word.now + 22 }
    ensures text { take result room.new ≡ take start room.old ++ number_line word.now number }
{
    let end = put(room, start, word);
    let end = put(room, end, b" ");
    let end = put(room, end, Buffer::new().format(number).as_bytes());
    put(room, end, b"\n")
}

/// Puts a piece at a place, and answers where it ends.
fn put(room: &mut [u8], start: usize, piece: &[u8]) -> usize
    requires { start + length piece.now ≤ length room.old }
    ensures end { result ≡ start + length piece.now }
    ensures text { take result room.new ≡ take start room.old ++ piece.now }
{
    let end = start + piece.len();
    room[start..end].copy_from_slice(piece);
    end
}
