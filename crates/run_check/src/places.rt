//! The places that the lines of a run begin with: a worker and a number.

ghost use Rattle.std.specs.Prelude.{◌≡◌, ◌≤◌, ◌+◌, ◌++◌, ◌∷◌, ◌≢◌, ℕ, List, length, take, MatchOption};
ghost use Rattle.std.specs.Fmt.{decimal};
ghost use Rattle.std.specs.Str.{bytes_eq};

use itoa::Buffer;

/// The room that a place and a space behind it take.
pub const PLACE_ROOM: usize = 24;

/// The line is exactly this place.
pub fn is_place(line: &[u8], worker: u32, number: u32) -> bool
    ensures { result ≡ bytes_eq line.now (decimal worker ++ 32 ∷ decimal number) }
{
    let mut room = [0u8; PLACE_ROOM];
    let end = put_place(worker, number, &mut room);
    line == &room[..end]
}

/// What stands behind the place and a space, where the line begins with these.
pub fn behind_place(line: &[u8], worker: u32, number: u32) -> Option<&[u8]>
    ensures { MatchOption result ((rest : List ℕ) → line.now ≢ (decimal worker ++ 32 ∷ decimal number) ++ 32 ∷ rest)
        (λ rest. line.now ≡ (decimal worker ++ 32 ∷ decimal number) ++ 32 ∷ rest.now) }
{
    let mut room = [0u8; PLACE_ROOM];
    let end = put_place(worker, number, &mut room);
    let end = fill(&mut room, end, b" ");
    line.strip_prefix(&room[..end])
}

/// Puts a place at the front, and answers where it ends.
fn put_place(worker: u32, number: u32, room: &mut [u8]) -> usize
    requires { 24 ≤ length room.old }
    ensures fits { result ≤ 21 }
    ensures text { take result room.new ≡ decimal worker ++ 32 ∷ decimal number }
{
    let mut digits = Buffer::new();
    let end = fill(room, 0, digits.format(worker).as_bytes());
    let end = fill(room, end, b" ");
    fill(room, end, digits.format(number).as_bytes())
}

/// Puts a piece at a place, and answers where it ends.
pub fn fill(room: &mut [u8], at: usize, piece: &[u8]) -> usize
    requires { at + length piece.now ≤ length room.old }
    ensures end { result ≡ at + length piece.now }
    ensures text { take result room.new ≡ take at room.old ++ piece.now }
{
    room[at..at + piece.len()].copy_from_slice(piece);
    at + piece.len()
}
