//! How rounds come out of a seat's magazines and go into them, with the depot behind these.
ghost use Rattle.std.specs.Prelude.{◌≡◌, ◌*◌, [], length, Some, IfSome, IfErr, OnOk, MatchOption};
ghost use Rattle.kmem_buf.specs.Answers.{numbers_of};
ghost use Rattle.magazine.specs.Layer.{IsLayer, IsFull, empty_layer, layer_rounds};
ghost use Rattle.magazine.specs.Ready.{IsReady, AreReady};
ghost use Rattle.depot.specs.Depot.{IsDepotSeat, WasRefused};
ghost use Rattle.kmem_cache.specs.Seats.{HasTaken, HasPut};

use depot::{Depot, DepotSeat};
use kmem_buf::{Buf, Kind};
use magazine::{Cpu, Magazine};
use std::mem::replace;

// Takes a full magazine out of the depot for the spare one, where both magazines are empty, and then a round.
fn refill<K: Kind>(
    store: &Depot<K>,
    seat: &mut DepotSeat,
    cpu: &mut Cpu<K>,
    spare: &mut Option<Magazine<K>>,
) -> Option<Buf<K>>
    requires of { IsDepotSeat store.now seat.old }
    requires none { cpu.old ≡ empty_layer }
    requires spare { spare.old ≡ Some [] }
    ensures kept { IsLayer cpu.new }
    ensures ready { AreReady K.constructed store.now.home (layer_rounds cpu.new) }
    ensures spare { spare.new ≡ Some [] }
    ensures taken { MatchOption result
        ((cpu.new ≡ cpu.old) × WasRefused store.now.places 1 seat.old seat.new)
        (λ buf. IsReady K.constructed store.now.home buf ×
        HasTaken store.now.places buf.number [] (numbers_of (layer_rounds cpu.new)) seat.old seat.new) }
{
    let Some(empty) = replace(spare, None) else {
        unreachable!()
    };
    match store.swap_for_full(seat, empty) {
        Ok(full) => {
            *spare = Some(cpu.refill(full));
            cpu.take()
        }
        Err(back) => {
            *spare = Some(back);
            None
        }
    }
}

/// Takes a round: out of the magazines, else out of a full one of the depot.
pub fn take_round<K: Kind>(
    store: &Depot<K>,
    seat: &mut DepotSeat,
    cpu: &mut Cpu<K>,
    spare: &mut Option<Magazine<K>>,
) -> Option<Buf<K>>
    requires of { IsDepotSeat store.now seat.old }
    requires kept { IsLayer cpu.old }
    requires ready { AreReady K.constructed store.now.home (layer_rounds cpu.old) }
    requires spare { spare.old ≡ Some [] }
    ensures kept { IsLayer cpu.new }
    ensures ready { AreReady K.constructed store.now.home (layer_rounds cpu.new) }
    ensures spare { spare.new ≡ Some [] }
    ensures taken { MatchOption result
        ((layer_rounds cpu.old ≡ []) × (cpu.new ≡ cpu.old) × WasRefused store.now.places 1 seat.old seat.new)
        (λ buf. IsReady K.constructed store.now.home buf ×
        HasTaken store.now.places buf.number (numbers_of (layer_rounds cpu.old)) (numbers_of (layer_rounds cpu.new)) seat.old seat.new) }
{
    let round = cpu.take();
    if round.is_some() {
        return round;
    }
    refill(store, seat, cpu, spare)
}

// Puts the magazine behind into the depot for the spare one, where both magazines are full, and then the round.
fn relieve<K: Kind>(
    store: &Depot<K>,
    seat: &mut DepotSeat,
    cpu: &mut Cpu<K>,
    spare: &mut Option<Magazine<K>>,
    buf: Buf<K>,
) -> Result<(), Buf<K>>
    requires of { IsDepotSeat store.now seat.old }
    requires full { IsFull cpu.old.loaded × IsFull cpu.old.previous }
    requires ready { AreReady K.constructed store.now.home (layer_rounds cpu.old) }
    requires spare { spare.old ≡ Some [] }
    requires buf { IsReady K.constructed store.now.home buf }
    ensures kept { IsLayer cpu.new }
    ensures ready { AreReady K.constructed store.now.home (layer_rounds cpu.new) }
    ensures spare { spare.new ≡ Some [] }
    ensures put { OnOk result (HasPut store.now.places buf.number (numbers_of (layer_rounds cpu.old)) (numbers_of (layer_rounds cpu.new)) seat.old seat.new) }
    ensures refused { IfErr result (λ back. (back ≡ buf) × (cpu.new ≡ cpu.old) × WasRefused store.now.places 0 seat.old seat.new) }
{
    let Some(empty) = replace(spare, None) else {
        unreachable!()
    };
    let full = cpu.relieve(empty);
    match store.swap_for_empty(seat, full) {
        Ok(empty) => {
            *spare = Some(empty);
            cpu.put(buf)
        }
        Err(back) => {
            *spare = Some(cpu.put_back(back));
            Err(buf)
        }
    }
}

/// Puts a round in: into the magazines, else one of these into the depot first. The round comes back where neither went.
pub fn put_round<K: Kind>(
    store: &Depot<K>,
    seat: &mut DepotSeat,
    cpu: &mut Cpu<K>,
    spare: &mut Option<Magazine<K>>,
    buf: Buf<K>,
) -> Result<(), Buf<K>>
    requires of { IsDepotSeat store.now seat.old }
    requires kept { IsLayer cpu.old }
    requires ready { AreReady K.constructed store.now.home (layer_rounds cpu.old) }
    requires spare { spare.old ≡ Some [] }
    requires buf { IsReady K.constructed store.now.home buf }
    ensures kept { IsLayer cpu.new }
    ensures ready { AreReady K.constructed store.now.home (layer_rounds cpu.new) }
    ensures spare { spare.new ≡ Some [] }
    ensures put { OnOk result (HasPut store.now.places buf.number (numbers_of (layer_rounds cpu.old)) (numbers_of (layer_rounds cpu.new)) seat.old seat.new) }
    ensures refused { IfErr result (λ back. (back ≡ buf) × IsFull cpu.old.loaded × IsFull cpu.old.previous × (cpu.new ≡ cpu.old)
        × WasRefused store.now.places 0 seat.old seat.new) }
{
    match cpu.put(buf) {
        Ok(()) => Ok(()),
        Err(back) => relieve(store, seat, cpu, spare, back),
    }
}
