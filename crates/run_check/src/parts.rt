//! The script of an input, and the run behind it.

ghost use Rattle.std.specs.Prelude.{◌≡◌, ◌<◌, ◌≤◌, ◌∷◌, ℕ, List, true, false, length};
ghost use Rattle.kmem_text.specs.Grammar.{lines_of};
ghost use Rattle.kmem_model.specs.Checked.{is_run_header, script_part, run_part, script_len};
ghost use Rattle.run_check.specs.Cursor.{lines_in};

use crate::lines::{Lines, without_return};
use kmem_text::cut_line;

/// The bytes of the script, and the lines from the one that is exactly `=== run` on.
pub fn cut_script(bytes: &[u8]) -> (&[u8], Lines<'_>)
    requires { length bytes.now ≤ 16777216 }
    ensures script { lines_of result.0.now ≡ script_part (lines_of bytes.now) }
    ensures size { length result.0.now ≤ length bytes.now }
    ensures run { lines_in result.1.rest.now ≡ run_part (lines_of bytes.now) }
    ensures taken { result.1.taken ≡ script_len (lines_of bytes.now) }
{
    let mut rest = bytes;
    let mut taken = 0u32;
    'cutting: while !begins_run(rest) {
        let (_, behind) = cut_line(rest);
        rest = behind;
        taken += 1;
    }
    let script = &bytes[..bytes.len() - rest.len()];
    (script, Lines { rest, taken })
}

/// There is no further line, or it is exactly `=== run`.
fn begins_run(bytes: &[u8]) -> bool
    ensures yes { result ≡ true → script_len (lines_of bytes.now) ≡ 0 }
    ensures no { result ≡ false → 0 < length bytes.now }
    ensures line { result ≡ false → (line : List ℕ) (lines : List (List ℕ)) → lines_of bytes.now ≡ line ∷ lines →
        is_run_header line ≡ false }
{
    if bytes.is_empty() {
        return true;
    }
    let (line, _) = cut_line(bytes);
    is_run_header(line)
}

/// The line is exactly `=== run`, but for a carriage return at its end.
fn is_run_header(line: &[u8]) -> bool
    ensures { result ≡ is_run_header line.now }
{
    without_return(line) == b"=== run".as_slice()
}
