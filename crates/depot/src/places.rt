//! What one swap does: it tries the places in order, each once.
ghost use Rattle.std.specs.Prelude.{◌≡◌, ◌-◌, ◌<◌, MatchResult};
ghost use Rattle.kmem_buf.specs.Answers.{numbers_of};
ghost use Rattle.depot.specs.Depot.{HasSwapped, WasRefused};
ghost use Rattle.depot.specs.Steps.{IsOf, IsSameSeat, IsResting, state_of, HasTraded, HasTried, IsFit};

use crate::rule::{Line, Place};
use crate::steps::{TURNED, exchange, leave, settle, turn};
use kmem_buf::Kind;
use magazine::Magazine;

/// Tries one place: where its turn word is the one that is wanted, the magazine there is answered and the argument stays.
fn try_place<K: Kind>(
    line: &Line<K>,
    seat: &mut Place<K>,
    place: usize,
    wanted: u64,
    magazine: Magazine<K>,
) -> Result<Magazine<K>, Magazine<K>>
    requires of { IsOf seat.old.table_id line.now.table_id }
    requires rests { IsResting seat.old.me }
    requires place { place < line.now.table_id.slots }
    requires wanted { wanted < 2 }
    requires fit { IsFit K.constructed seat.old.me.0.home (1 - wanted) magazine }
    ensures same { IsSameSeat seat.old seat.new }
    ensures tried { MatchResult result
        (λ out. IsFit K.constructed seat.old.me.0.home wanted out
        × HasTraded place wanted (numbers_of out) (numbers_of magazine) seat.old.me seat.new.me)
        (λ back. (back ≡ magazine) × HasTried place wanted seat.old.me seat.new.me) }
{
    let found = turn(line, seat, place);
    if found == TURNED {
        return Err(magazine);
    }
    if found != wanted {
        leave(line, seat, place, found);
        return Err(magazine);
    }
    let out = exchange(line, seat, place, magazine);
    settle(line, seat, place, 1 - wanted);
    Ok(out)
}

/// Tries each place once, in order, until one has the turn word that is wanted. The argument comes back where none has.
pub fn try_all<K: Kind>(
    line: &Line<K>,
    seat: &mut Place<K>,
    places: usize,
    wanted: u64,
    magazine: Magazine<K>,
) -> Result<Magazine<K>, Magazine<K>>
    requires of { IsOf seat.old.table_id line.now.table_id }
    requires rests { IsResting seat.old.me }
    requires places { places ≡ line.now.table_id.slots }
    requires wanted { wanted < 2 }
    requires fit { IsFit K.constructed seat.old.me.0.home (1 - wanted) magazine }
    ensures same { IsSameSeat seat.old seat.new }
    ensures rests { IsResting seat.new.me }
    ensures tried { MatchResult result
        (λ out. IsFit K.constructed seat.old.me.0.home wanted out
        × HasSwapped places wanted (numbers_of out) (numbers_of magazine)
        (state_of seat.old.table_id seat.old.me.0) (state_of seat.new.table_id seat.new.me.0))
        (λ back. (back ≡ magazine)
        × WasRefused places wanted (state_of seat.old.table_id seat.old.me.0) (state_of seat.new.table_id seat.new.me.0)) }
{
    let mut offered = magazine;
    for place in 0..places {
        match try_place(line, seat, place, wanted, offered) {
            Ok(out) => return Ok(out),
            Err(back) => offered = back,
        }
    }
    Err(offered)
}
