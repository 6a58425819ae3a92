//! A depot without a lock.
ghost use Rattle.std.specs.Prelude.{◌≡◌, ℕ, ◌+◌, ◌-◌, ◌*◌, ◌<◌, ◌≤◌, List, [], length, map, replicate, All, IfOk, IfErr, OnOk, MatchResult};
ghost use Rattle.std.specs.List.{sum_by};
ghost use Rattle.magazine.specs.Layer.{IsFull};
ghost use Rattle.magazine.specs.Ready.{AreReady};
ghost use Rattle.kmem_buf.specs.Answers.{numbers_of};
ghost use Rattle.depot.specs.Depot.{fresh_depot_seat, full_from, IsDepotSeat, IsFullOrEmpty, HasSwapped, WasRefused};
ghost use Rattle.depot.specs.Depot.{put_by, taken_by, put_weight_by, taken_weight_by};
ghost use Rattle.depot.specs.Rule.{opener};
ghost use Rattle.depot.specs.Steps.{IsFit};

use crate::drain::drain;
use crate::gather::{deal_all, gather_all};
use crate::places::try_all;
use crate::room::Room;
use crate::rule::{Place, Terms, Whole};
use crate::seat::DepotSeat;
use crate::steps::{EMPTY, FULL};
use atomic_table::{Badge, Table};
use kmem_buf::{Home, Kind};
use magazine::{Magazine, Rounds};
use std::alloc::{AllocError, Global};
use std::marker::Model;
use std::mem::replace;

/// A fixed number of places, each with one magazine, full or empty. A place takes 8 bytes, and its magazine.
#[derive(Drop)]
pub struct Depot<K: Kind> {
    table: Whole<K>,
    // For what `close` answers.
    room: Room<Magazine<K>>,
}

impl<K: Kind> Model for Depot<K> {
    ghost use Rattle.depot.specs.Depot.{DepotState};
    ghost use Rattle.depot.specs.Rule.{depot_state, IsDepot};

    ghost Value = { DepotState };

    ghost view = { λ d. depot_state d.table.shared.table_id d.table.shared.key };

    ghost invariant = { λ d. IsDepot d.table.shared.table_id d.table.shared.key d.room };
}

// Lays out the places, with an empty magazine each, and gives the seat that deals.
fn lay<K: Kind>(
    alloc: Global,
    places: u32,
    terms: &Terms,
) -> Result<(Whole<K>, Place<K>), AllocError>
    ensures counts { IfOk result (λ r. (r.0.shared.table_id.words ≡ places) × (r.0.shared.table_id.slots ≡ places)) }
    ensures key { IfOk result (λ r. r.0.shared.key ≡ terms.now) }
    ensures seat { IfOk result (λ r. (r.1.table_id ≡ r.0.shared.table_id) × (r.1.me ≡ (opener terms.now.home terms.now.seats, []))) }
{
    let words = vec![in alloc; EMPTY; places as usize]?;
    let magazines = empty_magazines(alloc, places)?;
    match Table::new(alloc, words.as_slice(), magazines, terms) {
        Ok(made) => Ok(made),
        Err(_) => Err(AllocError),
    }
}

fn empty_magazines<X: Drop>(alloc: Global, places: u32) -> Result<Vec<Rounds<X>>, AllocError>
    ensures { IfOk result (λ v. v.items ≡ replicate places []) }
{
    let mut magazines = Vec::with_capacity(alloc, places as usize)?;
    for _ in 0..places {
        magazines.push_reserved(Rounds::create(alloc)?);
    }
    Ok(magazines)
}

impl<K: Kind> Depot<K> {
    /// A depot of so many places, all with empty magazines, with so many seats. All memory that it will ever need is taken here.
    pub fn create(
        alloc: Global,
        home: Home,
        places: u32,
        seats: u32,
    ) -> Result<(Depot<K>, Vec<DepotSeat>), AllocError>
        requires places { 1 ≤ places }
        requires seats { 1 ≤ seats }
        ensures home { IfOk result (λ r. r.0.home ≡ home) }
        ensures places { IfOk result (λ r. r.0.places ≡ places) }
        ensures count { IfOk result (λ r. r.0.seats ≡ seats) }
        ensures seats { IfOk result (λ r. r.1.items ≡ replicate seats (fresh_depot_seat r.0)) }
    {
        let room = Room::create(alloc, places)?;
        let dealt = Vec::with_capacity(alloc, seats as usize)?;
        let terms = Terms { home, seats };
        let (table, dealer) = lay::<K>(alloc, places, &terms)?;
        let seats = deal_all(&table.shared, dealer, seats, dealt);
        Ok((Depot { table, room }, seats))
    }

    /// Gives a full magazine for an empty one. It tries each place once, in at most three steps, and waits for none. The
    /// argument comes back where each place had an empty magazine or was turned by another seat.
    pub fn swap_for_full(
        &self,
        seat: &mut DepotSeat,
        empty: Magazine<K>,
    ) -> Result<Magazine<K>, Magazine<K>>
        requires of { IsDepotSeat self.now seat.old }
        requires empty { empty ≡ [] }
        ensures full { IfOk result (λ full. IsFull full × AreReady K.constructed self.now.home full) }
        ensures swapped { IfOk result (λ full. HasSwapped self.now.places 1 (numbers_of full) [] seat.old seat.new) }
        ensures count { OnOk result ((length seat.new.taken ≡ length seat.old.taken + 1) × (seat.new.put ≡ seat.old.put)) }
        ensures refused { IfErr result (λ back. (back ≡ empty) × WasRefused self.now.places 1 seat.old seat.new) }
    {
        self.swap(seat, FULL, empty)
    }

    /// Gives an empty magazine for a full one. It tries each place once, in at most three steps, and waits for none. The
    /// argument comes back where each place had a full magazine or was turned by another seat.
    pub fn swap_for_empty(
        &self,
        seat: &mut DepotSeat,
        full: Magazine<K>,
    ) -> Result<Magazine<K>, Magazine<K>>
        requires of { IsDepotSeat self.now seat.old }
        requires full { IsFull full }
        requires ready { AreReady K.constructed self.now.home full }
        ensures empty { IfOk result (λ empty. empty ≡ []) }
        ensures swapped { OnOk result (HasSwapped self.now.places 0 [] (numbers_of full) seat.old seat.new) }
        ensures count { OnOk result ((length seat.new.put ≡ length seat.old.put + 1) × (seat.new.taken ≡ seat.old.taken)) }
        ensures refused { IfErr result (λ back. (back ≡ full) × WasRefused self.now.places 0 seat.old seat.new) }
    {
        self.swap(seat, EMPTY, full)
    }

    // Tries all places for a magazine with this turn word. The argument has the other one.
    fn swap(
        &self,
        seat: &mut DepotSeat,
        wanted: u64,
        magazine: Magazine<K>,
    ) -> Result<Magazine<K>, Magazine<K>>
        requires of { IsDepotSeat self.now seat.old }
        requires wanted { wanted < 2 }
        requires fit { IsFit K.constructed self.now.home (1 - wanted) magazine }
        ensures { MatchResult result
            (λ out. IsFit K.constructed self.now.home wanted out
            × HasSwapped self.now.places wanted (numbers_of out) (numbers_of magazine) seat.old seat.new)
            (λ back. (back ≡ magazine) × WasRefused self.now.places wanted seat.old seat.new) }
    {
        let places = self.table.slot_count();
        let mut place: Place<K> = replace(&mut seat.badge, Badge::blank()).into_seat();
        let outcome = try_all(&self.table.shared, &mut place, places, wanted, magazine);
        seat.badge = place.into_badge();
        outcome
    }

    /// All magazines, once all seats are back.
    pub fn close(self, seats: Vec<DepotSeat>) -> Vec<Magazine<K>>
        requires of { All (IsDepotSeat self) seats.items }
        requires count { length seats.items ≡ self.seats }
        ensures places { length result.items ≡ self.places }
        ensures ready { All (AreReady K.constructed self.home) result.items }
        ensures whole { All IsFullOrEmpty result.items }
        ensures rounds { sum_by length result.items + 8 * taken_by seats.items ≡ 8 * put_by seats.items }
        ensures stands { (weight : ℕ × List ℕ → ℕ) →
            put_weight_by weight seats.items
            ≡ taken_weight_by weight seats.items + sum_by weight (full_from 0 (map numbers_of result.items)) }
    {
        let Depot { table, room } = self;
        let seat = gather_all::<K>(&table.shared, seats);
        drain(table.close_with(seat), room.open())
    }
}
