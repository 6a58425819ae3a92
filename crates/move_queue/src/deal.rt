//! How a queue's seats are dealt.
ghost use Rattle.std.specs.Prelude.{◌≡◌, ◌<◌, ◌≤◌, [], length, map, sum, vec_capacity};
ghost use Rattle.crossbeam_queue.specs.Passes.{IsPassOf};
ghost use Rattle.move_queue.specs.Rule.{unused, dealt};
ghost use Rattle.move_queue.specs.Count.{IsOfCount, count_opener, count_dealt};
ghost use Rattle.move_queue.specs.Seats.{known_by, fresh_seat, IsDealer};

use crate::count::deal_mark;
use crate::ring::deal_pass;
use crate::rule::{Line, Mark, Place, Ring};
use crate::seat::QueueSeat;
use kmem_buf::Kind;
use std::marker::Brand;

// A seat with so many pushes.
fn deal_seat<K: Kind>(
    ring: &Ring<K>,
    line: &Line,
    pass: &mut Place<K>,
    mark: &mut Mark,
    quota: u32,
) -> QueueSeat<K>
    requires pass { IsPassOf ring.now pass.old }
    requires mark { IsOfCount mark.old.table_id line.now.table_id }
    requires dealer { IsDealer (known_by pass.old) mark.old.me.0 }
    requires some { 0 < mark.old.me.0.seats }
    requires enough { quota ≤ mark.old.me.0.left }
    ensures pass { IsPassOf ring.now pass.new × (known_by pass.new ≡ dealt quota (known_by pass.old)) }
    ensures mark { (mark.new.table_id ≡ mark.old.table_id) × (mark.new.me.0 ≡ count_dealt quota mark.old.me.0) }
    ensures seat { result ≡ fresh_seat pass.old.table_id mark.old.table_id (known_by pass.old).terms quota }
{
    QueueSeat {
        pass: deal_pass::<Brand, K>(ring, pass, quota),
        mark: deal_mark::<Brand>(line, mark, quota),
        left: quota,
        pushed: 0,
        refused: 0,
    }
}

/// Deals all seats, one for each quota.
pub fn deal_all<K: Kind>(
    ring: &Ring<K>,
    line: &Line,
    mut pass: Place<K>,
    mut mark: Mark,
    quotas: &[u32],
    mut seats: Vec<QueueSeat<K>>,
) -> Vec<QueueSeat<K>>
    requires pass { IsPassOf ring.now pass }
    requires mark { IsOfCount mark.table_id line.now.table_id }
    requires dealer { known_by pass ≡ unused (known_by pass).terms (length quotas.now) (sum quotas.now) }
    requires counter { mark.me.0 ≡ count_opener (sum quotas.now) (length quotas.now) }
    requires none { seats.items ≡ [] }
    requires room { length quotas.now ≤ vec_capacity seats }
    ensures { result.items ≡ map (fresh_seat pass.table_id mark.table_id (known_by pass).terms) quotas.now }
{
    for quota in quotas {
        let seat = deal_seat(ring, line, &mut pass, &mut mark, *quota);
        seats.push_reserved(seat);
    }
    seats
}
