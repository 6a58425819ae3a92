//! The tags of all workers, and the holds that their users have.
ghost use Rattle.std.specs.Prelude.{◌≡◌, ◌≤◌, ◌<◌, ◌*◌, true, false, Some, None, length, replicate, slice_get, slice_set, slice_index_or, IfOk};
ghost use Rattle.kmem_model.specs.Records.{tag_place};
ghost use Rattle.record_heap.specs.View.{IsHoldAt};

use kmem_buf::{Slip, Stub};
use kmem_text::Tag;
use std::alloc::{AllocError, Global};
use std::marker::Model;

/// What the user of a tag has, while the tag holds a record. No copy can be made. One that is dropped keeps the tag in use for good.
#[derive(Drop)]
pub struct Hold {
    worker: u32,
    tag: Tag,
    address: u32,
    slip: Slip,
}

impl Model for Hold {
    ghost use Rattle.std.specs.Prelude.{◌≡◌, ◌≤◌, ◌<◌};
    ghost use Rattle.record_heap.specs.View.{HoldState, hold_code, hold_facts};

    ghost Value = { HoldState };

    ghost coded = { hold_code };

    ghost view = { λ h. record { worker = h.worker; tag = h.tag; address = h.address; home = h.slip.home } };

    ghost invariant = { λ h. (h.slip.facts ≡ hold_facts h.worker h.tag h.address) × (1 ≤ h.worker) × (h.tag < 8) };
}

impl Hold {
    pub fn worker(&self) -> u32
        ensures { result ≡ self.now.worker }
    {
        self.worker
    }

    pub fn tag(&self) -> Tag
        ensures { result ≡ self.now.tag }
    {
        self.tag
    }

    pub fn address(&self) -> u32
        ensures { result ≡ self.now.address }
    {
        self.address
    }
}

/// The address that each tag holds, by the tag's place.
#[derive(Drop)]
pub struct Tags {
    places: Vec<Option<u32>>,
    stubs: Vec<Stub>,
}

impl Model for Tags {
    ghost use Rattle.kmem_buf.specs.Homes.{stub_homes};
    ghost use Rattle.record_heap.specs.Tags.{TagsState, AreIssued};

    ghost Value = { TagsState };

    ghost view = { λ t. record { tags = t.places.items; stubs = stub_homes t.stubs.items } };

    ghost invariant = { λ t. AreIssued t.stubs.items t.places.items };
}

impl Tags {
    /// No tag is in use. All memory that the tags will ever need is taken here.
    pub fn create(alloc: Global, workers: u32) -> Result<Tags, AllocError>
        requires { workers ≤ 16 }
        ensures tags { IfOk result (λ t. t.tags ≡ replicate (8 * workers) None) }
        ensures stubs { IfOk result (λ t. length t.stubs ≡ 8 * workers) }
    {
        let count = 8 * workers;
        Ok(Tags {
            places: Vec::from_elem(alloc, None, count as usize)?,
            stubs: Stub::create_all(alloc, count)?,
        })
    }

    /// The address that the tag at the place holds.
    pub fn at(&self, place: usize) -> Option<u32>
        requires { place < length self.now.tags }
        ensures { result ≡ slice_index_or self.now.tags place None }
    {
        self.places[place]
    }

    /// The worker's tag holds the address from then on.
    pub fn hold(&mut self, worker: u32, tag: Tag, address: u32) -> Hold
        requires worker { 1 ≤ worker }
        requires range { tag_place worker tag < length self.old.tags }
        requires idle { slice_index_or self.old.tags (tag_place worker tag) None ≡ None }
        ensures tags { self.new ≡ record self.old { tags = slice_set self.old.tags (tag_place worker tag) (Some address) } }
        ensures facts { (result.worker ≡ worker) × (result.tag ≡ tag) × (result.address ≡ address) }
        ensures home { IsHoldAt self.old.stubs result }
    {
        let place = place_of(worker, tag);
        self.places[place] = Some(address);
        let stub = &mut self.stubs[place];
        Hold {
            worker,
            tag,
            address,
            slip: stub.issue([
                u64::from(worker),
                u64::from(tag.number()),
                u64::from(address),
            ]),
        }
    }

    /// Shows that the tag of the hold holds its address.
    pub fn meet(&mut self, hold: &mut Hold)
        requires { IsHoldAt self.old.stubs hold.old }
        ensures is { slice_index_or self.old.tags (tag_place hold.old.worker hold.old.tag) None ≡ Some hold.old.address }
        ensures tags { self.new ≡ self.old }
        ensures hold { hold.new ≡ hold.old }
    {
        let stub = &mut self.stubs[place_of(hold.worker, hold.tag)];
        stub.meet(&mut hold.slip);
    }

    /// The tag of the hold isn't in use any more. It held the address of the hold.
    pub fn end(&mut self, hold: Hold)
        requires { IsHoldAt self.old.stubs hold }
        ensures was { slice_index_or self.old.tags (tag_place hold.worker hold.tag) None ≡ Some hold.address }
        ensures tags { self.new ≡ record self.old { tags = slice_set self.old.tags (tag_place hold.worker hold.tag) None } }
    {
        let Hold {
            worker,
            tag,
            address: _,
            slip,
        } = hold;
        let place = place_of(worker, tag);
        let stub = &mut self.stubs[place];
        stub.redeem(slip);
        self.places[place] = None;
    }
}

/// The place of a worker's tag.
pub fn place_of(worker: u32, tag: Tag) -> usize
    requires { 1 ≤ worker }
    ensures place { result ≡ tag_place worker tag }
    ensures low { result < 8 * worker }
{
    8 * (worker as usize - 1) + usize::from(tag.number())
}
