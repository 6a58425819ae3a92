//! A worker's two magazines.
ghost use Rattle.std.specs.Prelude.{◌≡◌, ◌<◌, [], ◌∷◌, length, IfOk, MatchOption, MatchResult};
ghost use Rattle.magazine.specs.Layer.{IsFull, IsLayer, Layer, empty_layer, layer_rounds, take_from, put_to, relieved, restored};
ghost use Rattle.kmem_buf.specs.Buffers.{BufState};

use crate::rounds::{ROUNDS, Rounds};
use kmem_buf::{Buffer, Kind};
use std::alloc::{AllocError, Global};
use std::marker::Model;
use std::mem::{replace, swap};

/// Two magazines, loaded and previous. Previous is always full or empty, so that a worker whose puts and takes go up and down
/// round one count seldom needs another magazine.
#[derive(Drop)]
pub struct Pair<X> {
    loaded: Rounds<X>,
    previous: Rounds<X>,
}

/// A worker's magazines of buffers of the kind.
pub type Cpu<K> = Pair<<K as Kind>::Object>;

impl<X> Model for Pair<X> {
    ghost use Rattle.kmem_buf.specs.Buffers.{BufState, buf_code};
    ghost use Rattle.magazine.specs.Layer.{Layer, layer_code, IsLayer};

    ghost Value = { Layer (BufState X) };

    ghost coded = { layer_code (buf_code X.code) };

    ghost view = { λ c. record { loaded = c.loaded; previous = c.previous } };

    ghost invariant = { λ c. IsLayer (record { loaded = c.loaded; previous = c.previous }) };
}

impl<X: Drop> Pair<X> {
    /// Both are empty. All memory that they will ever need is taken here.
    pub fn create(alloc: Global) -> Result<Pair<X>, AllocError>
        ensures { IfOk result (λ c. c ≡ empty_layer) }
    {
        Ok(Pair {
            loaded: Rounds::create(alloc)?,
            previous: Rounds::create(alloc)?,
        })
    }

    /// How many rounds both have.
    pub fn len(&self) -> u32
        ensures { result ≡ length (layer_rounds self.now) }
    {
        self.loaded.len() + self.previous.len()
    }

    /// The buffer that came in last. None where both are empty.
    pub fn take(&mut self) -> Option<Buffer<X>>
        ensures result { result ≡ (take_from self.old.loaded self.old.previous).0 }
        ensures layer { self.new ≡ (take_from self.old.loaded self.old.previous).1 }
        ensures stack { MatchOption result (layer_rounds self.old ≡ []) (λ b. layer_rounds self.old ≡ b ∷ layer_rounds self.new) }
        ensures kept { IsLayer self.new }
    {
        if self.loaded.len() == 0 {
            swap(&mut self.loaded, &mut self.previous);
        }
        self.loaded.pop()
    }

    /// Puts a buffer in. It comes back where both are full.
    pub fn put(&mut self, buf: Buffer<X>) -> Result<(), Buffer<X>>
        ensures result { result ≡ (put_to buf self.old.loaded self.old.previous).0 }
        ensures layer { self.new ≡ (put_to buf self.old.loaded self.old.previous).1 }
        ensures stack { MatchResult result
            (λ _. (length (layer_rounds self.old) < 16) × (layer_rounds self.new ≡ buf ∷ layer_rounds self.old))
            (λ back. (back ≡ buf) × IsFull self.old.loaded × IsFull self.old.previous × (self.new ≡ self.old)) }
        ensures kept { IsLayer self.new }
    {
        if self.loaded.len() == ROUNDS {
            if self.previous.len() == ROUNDS {
                return Err(buf);
            }
            swap(&mut self.loaded, &mut self.previous);
        }
        self.loaded.push(buf);
        Ok(())
    }

    /// Takes a full magazine in where both are empty, and answers an empty one.
    pub fn refill(&mut self, full: Rounds<X>) -> Rounds<X>
        requires empty { self.old ≡ empty_layer }
        requires full { IsFull full }
        ensures layer { self.new ≡ record { loaded = full; previous = self.old.loaded } }
        ensures result { result ≡ self.old.previous }
    {
        replace(&mut self.previous, replace(&mut self.loaded, full))
    }

    /// Takes an empty magazine in where both are full, and answers a full one.
    pub fn relieve(&mut self, empty: Rounds<X>) -> Rounds<X>
        requires full { IsFull self.old.loaded × IsFull self.old.previous }
        requires empty { empty ≡ [] }
        ensures layer { self.new ≡ relieved empty self.old }
        ensures result { result ≡ self.old.previous }
    {
        replace(&mut self.previous, replace(&mut self.loaded, empty))
    }

    /// Undoes `relieve`: takes the full magazine in again, and answers the empty one.
    pub fn put_back(&mut self, full: Rounds<X>) -> Rounds<X>
        requires relieved { (self.old.loaded ≡ []) × IsFull self.old.previous }
        requires full { IsFull full }
        ensures layer { self.new ≡ restored full self.old }
        ensures result { result ≡ self.old.loaded }
        ensures undone { (l : Layer (BufState X)) → self.old ≡ relieved [] l → full ≡ l.previous → self.new ≡ l }
    {
        replace(&mut self.loaded, replace(&mut self.previous, full))
    }
}
