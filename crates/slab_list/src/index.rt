//! Which slabs stand where in the order of serving, and how many there are of each sort.
ghost use Rattle.std.specs.Prelude.{◌≡◌, ◌≤◌, ◌<◌, IfOk, IfSome, length, slice_set};
ghost use Rattle.kmem_model.specs.CacheState.{no_slab};
ghost use Rattle.slab_list.specs.Bins.{with_place, IsIndexOf, IsEmptyIndex};

use crate::line::Line;
use crate::table::SlabTable;
use kmem_buf::Kind;
use number_set::NumberSet;
use std::alloc::{AllocError, Global};

/// How many places a bin has: one for each slab that there may be.
pub const PLACES: u32 = 4096;

/// How many bins of partial slabs there are: those before it have one mark and use each.
pub const UNUSED: u32 = 128;

/// The bin of the dead slabs.
pub const DEAD: u32 = 129;

#[derive(Drop)]
pub struct Index {
    // Each slab in its bin, if it has one. The bins of partial slabs come first, in the order in which they serve; then come the bin of
    // listed slabs with no buffer out and the one of dead slabs.
    pub places: NumberSet,
    // Of those places, the ones whose slab may have a buffer left that a scan hasn't asked about. A slab that changes is one of them again.
    pub unspent: NumberSet,
    // The slabs with a count or a mark.
    pub noted: NumberSet,
    pub listed: u32,
    // Listed slabs with no buffer out.
    pub unused: u32,
    pub dead: u32,
    // How many buffers are out.
    pub out: u32,
}

impl Index {
    /// The index of slabs that are all in the source.
    pub fn create(alloc: Global) -> Result<Index, AllocError>
        ensures { IfOk result IsEmptyIndex }
    {
        Ok(Index {
            places: NumberSet::create(alloc, 4, (DEAD + 1) * PLACES)?,
            unspent: NumberSet::create(alloc, 4, (DEAD + 1) * PLACES)?,
            noted: NumberSet::create(alloc, 2, PLACES)?,
            listed: 0,
            unused: 0,
            dead: 0,
            out: 0,
        })
    }

    /// The slab is taken out of the index, as if it were in the source.
    pub fn leave<K: Kind>(&mut self, table: &SlabTable<K>, slab: u32)
        requires index { IsIndexOf table.now.chunks table.now.slabs table.now.skip self.old }
        requires slab { slab < length table.now.slabs }
        ensures { IsIndexOf table.now.chunks (slice_set table.now.slabs slab no_slab) table.now.skip self.new }
    {
        let line = table.line(slab);
        let bin = line.bin(table.chunks());
        place(&mut self.places, bin, slab, false);
        place(&mut self.unspent, bin, slab, false);
        note(&mut self.noted, slab, false);
        self.listed -= line.listed();
        self.unused -= line.unused();
        self.dead -= line.dead();
        self.out -= line.used;
    }

    /// The slab is put into the index, as it stands now.
    pub fn enter<K: Kind>(&mut self, table: &SlabTable<K>, slab: u32)
        requires index { IsIndexOf table.now.chunks (slice_set table.now.slabs slab no_slab) table.now.skip self.old }
        requires slab { slab < length table.now.slabs }
        ensures { IsIndexOf table.now.chunks table.now.slabs table.now.skip self.new }
    {
        let line = table.line(slab);
        let bin = line.bin(table.chunks());
        place(&mut self.places, bin, slab, true);
        place(&mut self.unspent, bin, slab, true);
        note(&mut self.noted, slab, line.is_noted());
        self.listed += line.listed();
        self.unused += line.unused();
        self.dead += line.dead();
        self.out += line.used;
    }
}

// Puts the slab into its bin, or takes it out.
fn place(places: &mut NumberSet, bin: Option<u32>, slab: u32, there: bool)
    requires bin { IfSome bin (λ b. b < 130) }
    requires slab { slab < 4096 }
    requires room { 532480 ≤ length places.old.flags }
    ensures { places.new ≡ with_place places.old bin slab there }
{
    let Some(bin) = bin else {
        return;
    };
    let number = bin * PLACES + slab;
    if there {
        places.insert(number);
    } else {
        places.remove(number);
    }
}

// Tells whether the slab has a count or a mark.
fn note(noted: &mut NumberSet, slab: u32, there: bool)
    requires { slab < length noted.old.flags }
    ensures { noted.new ≡ record noted.old { flags = slice_set noted.old.flags slab there } }
{
    if there {
        noted.insert(slab);
    } else {
        noted.remove(slab);
    }
}
