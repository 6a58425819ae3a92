//! Words on a shelf, with the cache that their buffers come from.

ghost use Rattle.std.specs.Prelude.{◌≡◌, ◌≢◌, ◌↔◌, ◌≤◌, true, Some, None, length, replicate, slice_set, slice_index_or, ◌*◌, IfOk, IfSome, IfNone};
ghost use Rattle.kmem_buf.specs.Owners.{stand_at};
ghost use Rattle.kmem_buf.specs.declared.owner.Stand.TheVariants.{Unknown};
ghost use Rattle.kmem_model.specs.CacheState.{sizes_of, opening};
ghost use Rattle.kmem_model.specs.CacheEnter.{enter};
ghost use Rattle.kmem_model.specs.CacheHistory.{MayEnter};
ghost use Rattle.kmem_model.specs.declared.cache_entry.CacheEntry.TheVariants.{Alloc, Free, Full};
ghost use Rattle.consolidator.specs.Owned.{AreSettled, SettlesWith};
ghost use Rattle.using_owner.specs.Stores.{held_by, Has};

use crate::{Shelf, Words};
use consolidator::settle;
use kmem_buf::Stand;
use kmem_model::{law_out, law_whole};
use object_cache::{ObjectCache, Tally};
use slab_source::Supply;
use std::alloc::{AllocError, Global};
use std::marker::Model;

/// Words in buffers of a cache. To contracts it is the state of the cache, and the shelf.
#[derive(Drop)]
pub struct Store {
    cache: ObjectCache<Words>,
    shelf: Shelf,
}

impl Model for Store {
    ghost use Rattle.using_owner.specs.Stores.{StoreState, AreStored};

    ghost Value = { StoreState };

    ghost view = { λ s. record { cache = s.cache.state; shelf = s.shelf } };

    ghost invariant = { λ s. AreStored s.cache s.shelf };
}

impl Store {
    /// No word, and so many slabs of so many buffers.
    pub fn create(alloc: Global, slabs: u32, chunks: u32) -> Result<Store, AllocError>
        requires slabs { (1 ≤ slabs) × (slabs ≤ 4096) }
        requires chunks { (1 ≤ chunks) × (chunks ≤ 16) }
        ensures cache { IfOk result (λ s. s.cache ≡ opening (sizes_of slabs chunks 1)) }
        ensures words { IfOk result (λ s. s.shelf.words ≡ replicate (slabs * chunks) None) }
    {
        law_whole();
        let supply = Supply::create(alloc, slabs)?;
        let cache = ObjectCache::create(alloc, Words, supply, slabs, chunks, 1)?;
        let shelf = Shelf::create(alloc, cache.home(), slabs * chunks)?;
        Ok(Store { cache, shelf })
    }

    /// Puts a word into a buffer, and answers its number. None exactly where every buffer is out.
    pub fn put(&mut self, word: u64, stand: Stand) -> Option<u32>
        requires { stand ≢ Unknown }
        ensures entry { IfSome result (λ number. enter self.old.cache (Alloc number) ≡ Some self.new.cache) }
        ensures put { IfSome result (λ number. Has self.new.shelf number word stand) }
        ensures shelf { IfSome result (λ number. self.new.shelf ≡ record self.old.shelf {
          stands = slice_set self.old.shelf.stands number stand;
          words = slice_set self.old.shelf.words number (Some word);
        }) }
        ensures full { (result ≡ None) ↔ MayEnter self.old.cache Full }
        ensures kept { IfNone result (self.new ≡ self.old) }
    {
        law_out();
        self.cache.law_whole();
        self.shelf.law_size();
        let Ok(buf) = self.cache.alloc() else {
            return None;
        };
        let number = buf.number();
        self.shelf.put(buf, word, stand);
        Some(number)
    }

    /// Whether a word stands in the buffer of this number.
    pub fn has(&self, number: u32) -> bool
        ensures { (result ≡ true) ↔ (stand_at self.now.shelf.stands number ≢ Unknown) }
    {
        if number as usize >= self.shelf.places.len() {
            return false;
        }
        match self.shelf.stand(number) {
            Stand::Unknown => false,
            Stand::Movable | Stand::Spare | Stand::Fixed | Stand::Busy => true,
        }
    }

    /// Takes the word of a number away.
    pub fn take(&mut self, number: u32) -> u64
        requires { stand_at self.old.shelf.stands number ≢ Unknown }
        ensures entry { enter self.old.cache (Free number) ≡ Some self.new.cache }
        ensures word { slice_index_or self.old.shelf.words number None ≡ Some result }
        ensures shelf { self.new.shelf ≡ record self.old.shelf {
          stands = slice_set self.old.shelf.stands number Unknown;
          words = slice_set self.old.shelf.words number None;
        } }
    {
        law_out();
        self.cache.law_whole();
        let word = self.shelf.word(number);
        let buf = self.shelf.take(number);
        self.cache.free(buf);
        word
    }

    /// Settles: the words that can move are moved until at most one slab is partial, or each partial one has a word that can't.
    pub fn settle(&mut self) -> Tally
        ensures settles { SettlesWith self.old.cache self.new.cache (held_by self.old.shelf) (held_by self.new.shelf) result }
        ensures settled { AreSettled self.new.cache self.new.shelf.stands }
    {
        settle(&mut self.cache, &mut self.shelf)
    }

    pub fn cache(&self) -> &ObjectCache<Words>
        ensures { result.now.state ≡ self.now.cache }
    {
        &self.cache
    }

    pub fn shelf(&self) -> &Shelf
        ensures { result.now ≡ self.now.shelf }
    {
        &self.shelf
    }
}

impl Shelf {
    // There is a place for each cell.
    fn law_size(&self)
        ensures stands { length self.now.stands ≡ length self.now.home.cells }
        ensures words { length self.now.words ≡ length self.now.home.cells }
    {
        let _places = &self.places;
    }
}
