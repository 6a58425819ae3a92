//! How the passes' seats are put together at the end.
ghost use Rattle.std.specs.Prelude.{◌≡◌, ℕ, ◌<◌, List, [], ◌∷◌, length, All};
ghost use Rattle.hist_lock.specs.Seats.{HasGathered};

use crate::pass::Pass;
use crate::rule::{Line, Place};
use crate::steps::join;
use crate::told::Told;

/// Puts all passes' seats into one, which knows what they know.
pub fn gather_all<O: Told>(line: &Line<O>, mut passes: Vec<Pass<O>>) -> Place<O>
    requires line { (line.now.table_id.words ≡ 21) × (line.now.table_id.slots ≡ 1) }
    requires of { All (λ p. p.site.table ≡ line.now.table_id) passes.items }
    requires some { 0 < length passes.items }
    ensures table { result.table_id ≡ line.now.table_id }
    ensures gathered { HasGathered passes.items result.me }
{
    let Some(last) = passes.pop() else {
        unreachable!()
    };
    let mut seat = last.into_seat();
    while let Some(pass) = passes.pop() {
        join(line, &mut seat, pass.into_seat());
    }
    seat
}
