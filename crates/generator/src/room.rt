//! Pieces put into a room.

ghost use Rattle.std.specs.Prelude.{◌≡◌, ◌+◌, ◌++◌, ◌≤◌, length, drop, take};

/// Puts a piece at a place, and answers where it ends.
pub fn put(out: &mut [u8], at: usize, piece: &[u8]) -> usize
    requires { at + length piece.now ≤ length out.old }
    ensures end { result ≡ at + length piece.now }
    ensures text { take result out.new ≡ take at out.old ++ piece.now }
    ensures rest { drop result out.new ≡ drop result out.old }
{
    out[at..at + piece.len()].copy_from_slice(piece);
    at + piece.len()
}
