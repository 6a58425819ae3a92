//! An owner of one's own, whose objects settle may move: words in buffers of a cache, each with how it stands.
#![tactic(auto)]

ghost use Rattle.std.specs.Prelude.{◌≡◌, ◌≢◌, ◌<◌, Some, None, length, replicate, slice_get, slice_set, slice_index_or, IfOk};
ghost use Rattle.kmem_buf.specs.Homes.{IsBufferOf};
ghost use Rattle.kmem_buf.specs.Answers.{verdict_of, IsAnswerTo};
ghost use Rattle.kmem_buf.specs.Owners.{stand_at, verdict_at, stands_after, tenants_after};
ghost use Rattle.kmem_buf.specs.declared.owner.Stand.TheVariants.{Unknown};

use kmem_buf::{Answer, Buf, Home, Kind, Owner, Stand};
use std::alloc::{AllocError, Global};
use std::marker::Model;

mod store;
#[cfg(test)]
mod tests;

pub use store::Store;

/// Makes words, which are 0 between two uses.
#[derive(Drop)]
pub struct Words;

impl Kind for Words {
    type Object = u64;

    ghost use Rattle.std.specs.Prelude.{◌≡◌, true};

    ghost constructed = { λ word. word ≡ 0 };

    ghost never_refuses = { true };

    fn construct(&mut self) -> Result<u64, AllocError> {
        Ok(0)
    }

    fn destruct(&mut self, _word: u64) {}
}

// A word in its buffer, and how it stands.
#[derive(Drop)]
struct Place {
    buf: Buf<Words>,
    stand: Stand,
}

/// Words, by the numbers of their buffers.
#[derive(Drop)]
pub struct Shelf {
    home: Home,
    places: Vec<Option<Place>>,
}

impl Model for Shelf {
    ghost use Rattle.using_owner.specs.Shelves.{ShelfState, AreShelved, shelf_of};

    ghost Value = { ShelfState };

    ghost view = { λ s. shelf_of s.home s.places.items };

    ghost invariant = { λ s. AreShelved s.home s.places.items };
}

impl Owner<Words> for Shelf {
    type Tenant = u64;

    // Which buffers a word comes to matters to nobody, so there is nothing to say but what the tenants say.
    type Meaning = ();

    ghost home = { λ s. s.home };

    ghost stands = { λ s. s.stands };

    ghost tenants = { λ s. s.words };

    ghost stands_for = { λ _ _. Unit {0} };

    fn answer(&mut self, from: u32, to: Buf<Words>) -> Answer<Words>
        requires from { from < length self.old.stands }
        requires to { IsBufferOf self.old.home.cells to × (to.object ≡ 0) }
        requires empty { slice_get self.old.stands to.number ≡ Some Unknown }
        ensures answer { verdict_of result ≡ verdict_at self.old.stands from }
        ensures buffers { IsAnswerTo (λ word. word ≡ 0) self.old.home.cells from to.number result }
        ensures stands { self.new.stands ≡ stands_after self.old.stands from to.number }
        ensures tenants { self.new.words ≡ tenants_after self.old.stands from to.number self.old.words }
        ensures home { self.new.home ≡ self.old.home }
    {
        match self.stand(from) {
            Stand::Movable => {
                let word = self.word(from);
                self.put(to, word, Stand::Movable);
                Answer::Yes(self.take(from))
            }
            Stand::Spare => Answer::DontNeed(self.take(from), to),
            Stand::Fixed => Answer::No(to),
            Stand::Busy => Answer::Later(to),
            Stand::Unknown => Answer::DontKnow(to),
        }
    }
}

impl Shelf {
    /// No word. `home` names the cache whose buffers come here.
    pub fn create(alloc: Global, home: Home, buffers: u32) -> Result<Shelf, AllocError>
        requires { buffers ≡ length home.cells }
        ensures { IfOk result (λ s. s ≡ record { home = home; stands = replicate buffers Unknown; words = replicate buffers None }) }
    {
        let mut places = Vec::with_capacity(alloc, buffers as usize)?;
        for _ in 0..buffers {
            places.push(None)?;
        }
        Ok(Shelf { home, places })
    }

    /// How the word in the buffer of this number stands. Unknown where there is none.
    pub fn stand(&self, number: u32) -> Stand
        requires { number < length self.now.stands }
        ensures { result ≡ stand_at self.now.stands number }
    {
        match &self.places[number as usize] {
            Some(place) => place.stand,
            None => Stand::Unknown,
        }
    }

    /// The word in the buffer of this number.
    pub fn word(&self, number: u32) -> u64
        requires { stand_at self.now.stands number ≢ Unknown }
        ensures { slice_index_or self.now.words number None ≡ Some result }
    {
        match &self.places[number as usize] {
            Some(place) => *place.buf.object(),
            None => unreachable!(),
        }
    }

    /// Puts a word into a buffer.
    pub fn put(&mut self, buf: Buf<Words>, word: u64, stand: Stand)
        requires of { IsBufferOf self.old.home.cells buf }
        requires known { stand ≢ Unknown }
        ensures { self.new ≡ record self.old {
          stands = slice_set self.old.stands buf.number stand;
          words = slice_set self.old.words buf.number (Some word);
        } }
    {
        let mut buf = buf;
        *buf.object_mut() = word;
        let number = buf.number();
        self.places[number as usize] = Some(Place { buf, stand });
    }

    /// Takes the buffer of this number, and wipes the word.
    pub fn take(&mut self, number: u32) -> Buf<Words>
        requires { stand_at self.old.stands number ≢ Unknown }
        ensures buf { (result.number ≡ number) × IsBufferOf self.old.home.cells result × (result.object ≡ 0) }
        ensures shelf { self.new ≡ record self.old {
          stands = slice_set self.old.stands number Unknown;
          words = slice_set self.old.words number None;
        } }
    {
        match self.places[number as usize].take() {
            Some(place) => {
                let mut buf = place.buf;
                *buf.object_mut() = 0;
                buf
            }
            None => unreachable!(),
        }
    }
}
