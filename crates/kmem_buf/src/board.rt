//! The table that a stub and its slip share. It has one word and no slot, and one seat for each of the two.
//! The views of the seats are what the proofs go by: `specs/Board.antt` has their rule. The word is 1 while the stub is issued.
ghost use Rattle.std.specs.Prelude.{◌≡◌, ℕ, List, [], ◌∷◌};
ghost use Rattle.kmem_buf.specs.Board.{met, issued_part, out_part, Noted, Ended, Showed, facts_of, facts_in, IsStub, IsMeeting};
ghost use Rattle.kmem_buf.specs.declared.board.View.TheVariants.{Free, Issued, Out, Gone};

use atomic_table::{Badge, Join, Play, Seat, Shared, Split, Table, TableRule};
use std::alloc::Global;
use std::marker::{Brand, PhantomData};

/// What the seat of a stub or of a slip knows. No value of it is made.
pub enum View {
    /// A stub that is not issued.
    Free([u64; 3]),
    /// A stub that is issued with these facts.
    Issued([u64; 3]),
    /// A stub that was issued with the first facts and took in a slip with the second.
    Met([u64; 3], [u64; 3]),
    /// A slip.
    Out([u64; 3]),
    /// Two seats that were joined and do not belong together. No seat ever has this view.
    Clashed,
    /// A seat that was joined away.
    Gone,
}

/// The rule of the table.
pub struct Agree;

impl TableRule<(), View, ()> for Agree {
    ghost use Rattle.std.specs.Prelude.{[]};
    ghost use Rattle.kmem_buf.specs.Board.{Agrees};
    ghost use Rattle.kmem_buf.specs.declared.board.View.TheVariants.{Free};

    ghost holds = { λ _. Agrees };

    ghost first = { λ _. Free [] };
}

/// Facts that a call picks.
pub trait Facts {
    ghost facts: { List ℕ };
}

impl Facts for Brand {
    ghost facts = { [] };
}

struct Notes<F> {
    facts: PhantomData<F>,
}

impl<F: Facts> Play<(), View> for Notes<F> {
    ghost then = { Noted F.facts };
}

struct Ends;

impl Play<(), View> for Ends {
    ghost then = { Ended };
}

pub struct Opens;

impl Split<View> for Opens {
    ghost left = { λ _. Gone };

    ghost right = { λ v. v };
}

struct Issues;

impl Split<View> for Issues {
    ghost left = { issued_part };

    ghost right = { out_part };
}

struct Meets;

impl Join<View> for Meets {
    ghost both = { met };

    ghost spent = { Gone };
}

pub type Board = Table<(), View, (), Agree, Global>;

pub type Top = Shared<(), View, (), Agree>;

pub type Place = Seat<(), View>;

/// A stub that is not issued notes the facts of its next issue.
pub fn note<F: Facts>(top: &Top, seat: &mut Place, facts: &[u64; 3])
    requires table { (seat.old.table_id ≡ top.now.table_id) × (top.now.table_id.words ≡ 1) }
    requires stub { seat.old.me ≡ (Free (facts_of seat.old.me.0), []) }
    requires picked { facts.now ≡ F.facts }
    ensures { (seat.new.table_id ≡ seat.old.table_id) × (seat.new.me ≡ (Free facts.now, [])) }
{
    let _ = facts;
    top.swap::<Notes<F>>(seat, 0, 1);
}

/// Cuts a slip off a stub, which is issued from then on.
pub fn cut(top: &Top, seat: &mut Place) -> Badge<View>
    requires table { (seat.old.table_id ≡ top.now.table_id) × (top.now.table_id.words ≡ 1) }
    requires stub { seat.old.me ≡ (Free (facts_of seat.old.me.0), []) }
    ensures stub { (seat.new.table_id ≡ seat.old.table_id) × (seat.new.me ≡ (Issued (facts_of seat.old.me.0), [])) }
    ensures slip { (result.table_id ≡ seat.old.table_id) × (result.views ≡ Out (facts_of seat.old.me.0) ∷ []) }
{
    top.split_seat::<Issues>(seat).into_badge()
}

/// A stub takes in a slip, and is not issued from then on. It was issued, with the facts of the slip.
pub fn take_in(top: &Top, seat: &mut Place, slip: Badge<View>)
    requires table { (seat.old.table_id ≡ top.now.table_id) × (top.now.table_id.words ≡ 1) × (slip.table_id ≡ top.now.table_id) }
    requires stub { IsStub seat.old.me.0 × (seat.old.me.1 ≡ []) }
    requires slip { slip.views ≡ Out (facts_in slip.views) ∷ [] }
    ensures was { seat.old.me.0 ≡ Issued (facts_in slip.views) }
    ensures stub { (seat.new.table_id ≡ seat.old.table_id) × (seat.new.me ≡ (Free (facts_in slip.views), [])) }
{
    join(top, seat, slip.into_seat());
    end(top, seat);
}

fn join(top: &Top, seat: &mut Place, slip: Place)
    requires table { (seat.old.table_id ≡ top.now.table_id) × (top.now.table_id.words ≡ 1) × (slip.table_id ≡ top.now.table_id) }
    requires stub { IsStub seat.old.me.0 }
    requires slip { slip.me ≡ (Out (facts_of slip.me.0), []) }
    ensures { (seat.new.table_id ≡ seat.old.table_id) × (seat.new.me ≡ (met seat.old.me.0 slip.me.0, seat.old.me.1)) }
{
    top.join_seat::<Meets>(seat, slip);
}

fn end(top: &Top, seat: &mut Place)
    requires table { (seat.old.table_id ≡ top.now.table_id) × (top.now.table_id.words ≡ 1) }
    requires stub { IsMeeting seat.old.me.0 × (seat.old.me.1 ≡ []) }
    ensures stub { (seat.new.table_id ≡ seat.old.table_id) × (seat.new.me ≡ (Free (facts_of seat.old.me.0), [])) }
    ensures slip { Showed seat.old.me.0 }
{
    top.swap::<Ends>(seat, 0, 0);
}
