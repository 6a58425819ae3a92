//! Stubs and slips: what ties an object, as one behind a lock, to a holder outside.
ghost use Rattle.std.specs.Prelude.{◌≡◌, true, false, [], ◌∷◌, length, IfOk};
ghost use Rattle.kmem_buf.specs.Homes.{stub_homes};
ghost use Rattle.kmem_buf.specs.Stubs.{AreUnissued};

use crate::board::{Board, Opens, Place, View, cut, note, take_in};
use crate::twice::never_twice;
use atomic_table::{Badge, Table};
use std::alloc::{AllocError, Global};
use std::marker::{Brand, Model};
use std::mem::replace;

/// It stands in an object, and while it is issued, whoever holds its slip knows that the object has kept its facts.
/// It takes 64 bytes, and a block of 8 bytes in the heap.
#[derive(Drop)]
pub struct Stub {
    table: Board,
    seat: Place,
    key: Badge<View>,
}

impl Model for Stub {
    ghost use Rattle.std.specs.Prelude.{◌≡◌, []};
    ghost use Rattle.kmem_buf.specs.Stubs.{StubState};
    ghost use Rattle.kmem_buf.specs.Board.{facts_of, is_issued, HasKey};

    ghost Value = { StubState };

    ghost view = { λ s. record { home = s.seat.table_id; issued = is_issued s.seat.me.0; facts = facts_of s.seat.me.0 } };

    ghost invariant = { λ s. (s.table.shared.table_id ≡ s.seat.table_id) × (s.seat.table_id.words ≡ 1) × (s.seat.me.1 ≡ []) ×
        HasKey s.seat.me.0 s.seat.table_id s.key.table_id s.key.id s.key.views };
}

/// What the holder has. It has no bytes, and no copy can be made. One that is dropped leaves its stub issued for good.
#[derive(Drop)]
pub struct Slip {
    seat: Badge<View>,
    key: Badge<View>,
}

impl Model for Slip {
    ghost use Rattle.std.specs.Prelude.{◌≡◌, [], ◌∷◌};
    ghost use Rattle.kmem_buf.specs.Stubs.{SlipState};
    ghost use Rattle.kmem_buf.specs.Board.{facts_in};
    ghost use Rattle.kmem_buf.specs.declared.board.View.TheVariants.{Out, Gone};

    ghost Value = { SlipState };

    ghost view = { λ s. record { home = s.seat.table_id; facts = facts_in s.seat.views } };

    ghost invariant = { λ s. (s.seat.views ≡ Out (facts_in s.seat.views) ∷ []) × (s.key.table_id ≡ s.seat.table_id) × (s.key.id ≡ 0) ×
        (s.key.views ≡ Gone ∷ []) };
}

impl Stub {
    /// A stub that is not issued. All memory that it and its slips will ever need is taken here.
    pub fn create(alloc: Global) -> Result<Stub, AllocError>
        ensures { IfOk result (λ s. s.issued ≡ false) }
    {
        let (table, mut first): (Board, Place) = Table::of_words(alloc, &[0], &())?;
        let seat = table.shared.split_seat::<Opens>(&mut first);
        Ok(Stub {
            table,
            seat,
            key: first.into_badge(),
        })
    }

    /// So many stubs, none of them issued. All memory that they and their slips will ever need is taken here.
    pub fn create_all(alloc: Global, count: u32) -> Result<Vec<Stub>, AllocError>
        ensures count { IfOk result (λ stubs. length stubs.items ≡ count) }
        ensures homes { IfOk result (λ stubs. length (stub_homes stubs.items) ≡ count) }
        ensures free { IfOk result (λ stubs. AreUnissued stubs.items) }
    {
        let mut stubs = Vec::with_capacity(alloc, count as usize)?;
        for _ in 0..count {
            stubs.push_reserved(Stub::create(alloc)?);
        }
        Ok(stubs)
    }

    /// Issues the stub with these facts. Who has the slip knows that the stub has them until the slip comes back.
    pub fn issue(&mut self, facts: [u64; 3]) -> Slip
        requires { self.old.issued ≡ false }
        ensures stub { self.new ≡ record { home = self.old.home; issued = true; facts = facts } }
        ensures slip { result ≡ record { home = self.old.home; facts = facts } }
    {
        let table = &self.table;
        note::<Brand>(&table.shared, &mut self.seat, &facts);
        let seat = cut(&table.shared, &mut self.seat);
        let key = replace(&mut self.key, Badge::blank());
        Slip { seat, key }
    }

    /// Takes the slip back. The stub was issued with the facts of the slip, and is not issued from then on.
    pub fn redeem(&mut self, slip: Slip)
        requires { slip.home ≡ self.old.home }
        ensures was { self.old ≡ record { home = slip.home; issued = true; facts = slip.facts } }
        ensures ended { self.new.issued ≡ false }
        ensures home { self.new.home ≡ self.old.home }
    {
        let table = &self.table;
        let Slip { seat, key } = slip;
        take_in(&table.shared, &mut self.seat, seat);
        self.key = key;
    }

    /// Takes the slip back and issues the stub again, with other facts. The stub was issued with the facts of the slip.
    pub fn reissue(&mut self, slip: Slip, facts: [u64; 3]) -> Slip
        requires { slip.home ≡ self.old.home }
        ensures was { self.old ≡ record { home = slip.home; issued = true; facts = slip.facts } }
        ensures stub { self.new ≡ record { home = self.old.home; issued = true; facts = facts } }
        ensures slip { result ≡ record { home = self.old.home; facts = facts } }
    {
        self.redeem(slip);
        self.issue(facts)
    }

    /// Shows that the stub is issued with the facts of the slip.
    pub fn meet(&mut self, slip: &mut Slip)
        requires { slip.old.home ≡ self.old.home }
        ensures issued { self.old ≡ record { home = slip.old.home; issued = true; facts = slip.old.facts } }
        ensures stub { self.new ≡ self.old }
        ensures slip { slip.new ≡ slip.old }
    {
        let table = &self.table;
        let met = replace(&mut slip.seat, Badge::blank());
        take_in(&table.shared, &mut self.seat, met);
        slip.seat = cut(&table.shared, &mut self.seat);
    }
}

impl Slip {
    /// Two slips of one stub: there is no such pair, so a caller never comes to the point after this call.
    pub fn clash(self, other: Slip)
        requires { self.home ≡ other.home }
        ensures { ⊥ }
    {
        let Slip { seat: _, key } = self;
        let Slip {
            seat: _,
            key: other,
        } = other;
        never_twice(key, other);
    }
}
