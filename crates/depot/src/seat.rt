//! A seat of a depot.
ghost use Rattle.std.specs.Prelude.{◌≡◌};
ghost use Rattle.depot.specs.Steps.{IsResting, state_of};

use crate::rule::{Place, View};
use atomic_table::Badge;
use kmem_buf::Kind;
use std::marker::Model;

/// The right to use a depot, for one thread. It has no bytes. Where one was dropped, the depot can't be closed.
#[derive(Drop)]
pub struct DepotSeat {
    pub(crate) badge: Badge<View>,
}

impl Model for DepotSeat {
    ghost use Rattle.depot.specs.Depot.{DepotSeatState};
    ghost use Rattle.depot.specs.Steps.{view_in, state_of, IsSitting};

    ghost Value = { DepotSeatState };

    ghost view = { λ s. state_of s.badge.table_id (view_in s.badge.views) };

    ghost invariant = { λ s. IsSitting s.badge.views };
}

impl DepotSeat {
    pub(crate) fn of<K: Kind>(seat: Place<K>) -> DepotSeat
        requires { IsResting seat.me }
        ensures { result ≡ state_of seat.table_id seat.me.0 }
    {
        DepotSeat {
            badge: seat.into_badge(),
        }
    }

    pub(crate) fn into_place<K: Kind>(self) -> Place<K>
        ensures rests { IsResting result.me }
        ensures seat { self ≡ state_of result.table_id result.me.0 }
    {
        let DepotSeat { badge } = self;
        badge.into_seat()
    }
}
