//! A pass: the right to make turns under one number.
ghost use Rattle.std.specs.Prelude.{◌≡◌, [], ◌∷◌};
ghost use Rattle.hist_lock.specs.declared.rule.Stage.TheVariants.{Idle};
ghost use Rattle.hist_lock.specs.History.{entries_of};
ghost use Rattle.hist_lock.specs.Seats.{claim_of};

use crate::rule::Place;
use crate::told::Told;
use std::marker::Model;

/// A pass of a lock. To contracts it is a `PassState`: its lock, its number, how many entries it may still make, the
/// history that it has seen, and its own entries there. One that is dropped leaves its quota unused, and then the lock
/// can't be closed.
pub struct Pass<O: Told> {
    pub(crate) seat: Place<O>,
    pub(crate) number: u32,
    pub(crate) left: u32,
}

impl<O: Told> Model for Pass<O> {
    ghost use Rattle.hist_lock.specs.Passes.{PassState};
    ghost use Rattle.hist_lock.specs.Rule.{own};
    ghost use Rattle.hist_lock.specs.Seats.{bounds_in, pass_state, IsResting};

    ghost Value = { PassState O.Entry O.Home };

    ghost view = { λ p. pass_state p.seat.table_id (bounds_in O.anywhere p.seat.me.0) p.number p.left (own p.seat.me.0) };

    ghost invariant = { λ p. IsResting (bounds_in O.anywhere p.seat.me.0) p.number p.left p.seat.me };
}

impl<O: Told> Pass<O> {
    pub fn number(&self) -> u32
        ensures number { result ≡ self.now.number }
        ensures exact { entries_of self.now.number self.now.seen ≡ self.now.mine }
    {
        self.number
    }

    pub(crate) fn into_seat(self) -> Place<O>
        ensures table { result.table_id ≡ self.site.table }
        ensures idle { (result.me.0.stage ≡ Idle) × (result.me.1 ≡ []) }
        ensures claim { result.me.0.claims ≡ claim_of self ∷ [] }
    {
        let Pass {
            seat,
            number: _,
            left: _,
        } = self;
        seat
    }

    /// How many entries it may still make.
    pub fn left(&self) -> u32
        ensures { result ≡ self.now.left }
    {
        self.left
    }
}

impl<O: Told> Drop for Pass<O> {
    fn drop(self) {
        let Pass {
            seat: _,
            number: _,
            left: _,
        } = self;
    }
}
