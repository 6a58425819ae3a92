//! How a depot's seats are dealt, and put together at the end.
ghost use Rattle.std.specs.Prelude.{◌≡◌, ◌<◌, ◌≤◌, [], length, replicate, vec_capacity, All};
ghost use Rattle.depot.specs.Rule.{opener};
ghost use Rattle.depot.specs.Steps.{IsOf, state_of, HasGathered};

use crate::rule::{Line, Place};
use crate::seat::DepotSeat;
use crate::steps::{join, split};
use kmem_buf::Kind;

/// Deals all seats.
pub fn deal_all<K: Kind>(
    line: &Line<K>,
    mut dealer: Place<K>,
    count: u32,
    mut seats: Vec<DepotSeat>,
) -> Vec<DepotSeat>
    requires of { IsOf dealer.table_id line.now.table_id }
    requires places { 0 < line.now.table_id.slots }
    requires dealer { dealer.me.0 ≡ opener dealer.me.0.home count }
    requires none { seats.items ≡ [] }
    requires room { count ≤ vec_capacity seats }
    ensures { result.items ≡ replicate count (state_of line.now.table_id (opener dealer.me.0.home 1)) }
{
    for _ in 0..count {
        let seat = split::<K>(line, &mut dealer);
        seats.push_reserved(DepotSeat::of::<K>(seat));
    }
    seats
}

/// Puts all seats into one, which knows what they know.
pub fn gather_all<K: Kind>(line: &Line<K>, mut seats: Vec<DepotSeat>) -> Place<K>
    requires line { line.now.table_id.words ≡ line.now.table_id.slots }
    requires places { 0 < line.now.table_id.slots }
    requires of { All (λ s. s.table ≡ line.now.table_id) seats.items }
    requires some { 0 < length seats.items }
    ensures table { result.table_id ≡ line.now.table_id }
    ensures gathered { HasGathered seats.items result.me }
{
    let Some(last) = seats.pop() else {
        unreachable!()
    };
    let mut seat = last.into_place::<K>();
    while let Some(next) = seats.pop() {
        join(line, &mut seat, next.into_place::<K>());
    }
    seat
}
