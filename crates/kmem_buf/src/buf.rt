//! Owned buffers, and the cells that they come from.
ghost use Rattle.std.specs.Prelude.{◌≡◌, true, false, IfOk};
ghost use Rattle.std.specs.Borrow.{Lends, sem};
ghost use Rattle.kmem_buf.specs.Homes.{IsBufferOf};

use crate::kind::Kind;
use crate::stub::{Slip, Stub};
use std::alloc::{AllocError, Global};
use std::marker::Model;

/// A buffer that its cell gave out, with its object. No copy can be made. One that is dropped stays out for good.
#[derive(Drop)]
pub struct Buffer<X> {
    number: u32,
    object: X,
    slip: Slip,
}

/// A buffer with an object of the kind.
pub type Buf<K> = Buffer<<K as Kind>::Object>;

impl<X> Model for Buffer<X> {
    ghost use Rattle.std.specs.Prelude.{◌≡◌};
    ghost use Rattle.kmem_buf.specs.Buffers.{BufState, buf_code, facts_at};

    ghost Value = { BufState X };

    ghost coded = { buf_code X.code };

    ghost view = { λ b. record { number = b.number; object = b.object; home = b.slip.home } };

    ghost invariant = { λ b. b.slip.facts ≡ facts_at b.number };
}

impl<X> Buffer<X> {
    ghost use Rattle.kmem_buf.specs.contracts.buf.Buffer.{the_row};

    pub fn number(&self) -> u32
        ensures { result ≡ self.now.number }
    {
        self.number
    }

    pub fn object(&self) -> &X
        ensures { result.now ≡ self.now.object }
    {
        &self.object
    }

    /// The object, to be changed in place.
    pub fn object_mut(&mut self) -> &mut X
        ensures* writes_back { sem 𝓛 (Lends (the_row X.row) X.row self.entry result
            (λ object. record { number = self.old.number; object = object; home = self.old.home })) }
        ensures value { result.now ≡ self.old.object }
    {
        &mut self.object
    }

    /// Two buffers of one cell: there is no such pair, so a caller never comes to the point after this call.
    pub fn clash(self, other: Buffer<X>)
    where
        X: Drop,
        requires { self.home ≡ other.home }
        ensures { ⊥ }
    {
        let Buffer {
            number: _,
            object: _,
            slip,
        } = self;
        let Buffer {
            number: _,
            object: _,
            slip: other,
        } = other;
        slip.clash(other);
    }
}

/// What has the cells of buffers of a kind.
pub trait Cells<K: Kind> {
    ghost use Rattle.std.specs.Prelude.{List, Bool, ℕ};
    ghost use Rattle.atomic_table.specs.Seated.{TableId};

    // The homes of the cells, by number.
    ghost cells: { Self → List TableId };
    // Whether the buffer of a number is out.
    ghost is_out: { Self → ℕ → Bool };

    /// Shows that the buffer is out.
    fn meet(&mut self, buf: &mut Buf<K>)
        requires { IsBufferOf (cells self.old) buf.old }
        ensures out { is_out self.old buf.old.number ≡ true }
        ensures cells { self.new ≡ self.old }
        ensures buf { buf.new ≡ buf.old };
}

/// The record of one buffer. It says whether the buffer is out, and the one buffer that is out came from it.
#[derive(Drop)]
pub struct Cell {
    number: u32,
    out: bool,
    stub: Stub,
}

impl Model for Cell {
    ghost use Rattle.std.specs.Prelude.{◌≡◌, true};
    ghost use Rattle.kmem_buf.specs.Buffers.{CellState, facts_at};

    ghost Value = { CellState };

    ghost view = { λ c. record { number = c.number; out = c.out; home = c.stub.home } };

    ghost invariant = { λ c. (c.stub.issued ≡ c.out) × (c.out ≡ true → c.stub.facts ≡ facts_at c.number) };
}

impl Cell {
    /// A cell whose buffer is free. All memory that it will ever need is taken here.
    pub fn create(alloc: Global, number: u32) -> Result<Cell, AllocError>
        ensures { IfOk result (λ c. (c.number ≡ number) × (c.out ≡ false)) }
    {
        Ok(Cell {
            number,
            out: false,
            stub: Stub::create(alloc)?,
        })
    }

    /// Whether the buffer is out.
    pub fn is_out(&self) -> bool
        ensures { result ≡ self.now.out }
    {
        self.out
    }

    /// Gives the buffer out with this object.
    pub fn take<X>(&mut self, object: X) -> Buffer<X>
        requires { self.old.out ≡ false }
        ensures cell { self.new ≡ record { number = self.old.number; out = true; home = self.old.home } }
        ensures buf { result ≡ record { number = self.old.number; object = object; home = self.old.home } }
    {
        self.out = true;
        Buffer {
            number: self.number,
            object,
            slip: self.stub.issue([u64::from(self.number), 0, 0]),
        }
    }

    /// Takes the buffer back, and answers its object. The buffer was out, and is the one of this number.
    pub fn give<X>(&mut self, buf: Buffer<X>) -> X
        requires { buf.home ≡ self.old.home }
        ensures was { self.old ≡ record { number = buf.number; out = true; home = buf.home } }
        ensures cell { self.new ≡ record { number = self.old.number; out = false; home = self.old.home } }
        ensures object { result ≡ buf.object }
    {
        let Buffer {
            number: _,
            object,
            slip,
        } = buf;
        self.stub.redeem(slip);
        self.out = false;
        object
    }

    /// Shows that the buffer is out, and is the one of this number.
    pub fn meet<X>(&mut self, buf: &mut Buffer<X>)
        requires { buf.old.home ≡ self.old.home }
        ensures out { self.old ≡ record { number = buf.old.number; out = true; home = buf.old.home } }
        ensures cell { self.new ≡ self.old }
        ensures buf { buf.new ≡ buf.old }
    {
        self.stub.meet(&mut buf.slip);
    }
}
