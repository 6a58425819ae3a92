//! A magazine: a small stack of buffers.
ghost use Rattle.std.specs.Prelude.{◌≡◌, ◌<◌, ◌≤◌, [], ◌∷◌, length, IfOk, MatchOption};

use kmem_buf::{Buffer, Kind};
use std::alloc::{AllocError, Global};
use std::marker::Model;

/// The most rounds that a magazine holds.
pub const ROUNDS: u32 = 8;

/// At most 8 buffers, last in first out. To contracts it is their list, and the one that came in last stands first.
#[derive(Drop)]
pub struct Rounds<X> {
    buffers: Vec<Buffer<X>>,
}

/// A magazine of buffers of the kind.
pub type Magazine<K> = Rounds<<K as Kind>::Object>;

impl<X> Model for Rounds<X> {
    ghost use Rattle.std.specs.Prelude.{◌≤◌, List, length, reverse, vec_capacity};
    ghost use Rattle.std.specs.Coded.{coded_list};
    ghost use Rattle.kmem_buf.specs.Buffers.{BufState, buf_code};

    ghost Value = { List (BufState X) };

    ghost coded = { coded_list (buf_code X.code) };

    ghost view = { λ m. reverse m.buffers.items };

    // The room stays, so that no push takes memory.
    ghost invariant = { λ m. (length m.buffers.items ≤ 8) × (8 ≤ vec_capacity m.buffers) };
}

impl<X: Drop> Rounds<X> {
    /// An empty magazine. All memory that it will ever need is taken here.
    pub fn create(alloc: Global) -> Result<Rounds<X>, AllocError>
        ensures { IfOk result (λ m. m ≡ []) }
    {
        Ok(Rounds {
            buffers: Vec::with_capacity(alloc, ROUNDS as usize)?,
        })
    }

    pub fn push(&mut self, buf: Buffer<X>)
        requires { length self.old < 8 }
        ensures { self.new ≡ buf ∷ self.old }
    {
        match self.buffers.push(buf) {
            Ok(()) => {}
            Err(_) => unreachable!(),
        }
    }

    pub fn pop(&mut self) -> Option<Buffer<X>>
        ensures { MatchOption result ((self.old ≡ []) × (self.new ≡ [])) (λ b. self.old ≡ b ∷ self.new) }
    {
        self.buffers.pop()
    }

    /// How many rounds it has.
    pub fn len(&self) -> u32
        ensures rounds { result ≡ length self.now }
        ensures most { length self.now ≤ 8 }
    {
        self.buffers.len() as u32
    }
}
