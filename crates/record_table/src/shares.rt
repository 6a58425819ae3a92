//! Who has put how many buffers into the heap of a table, and taken how many out.
ghost use Rattle.std.specs.Prelude.{◌≡◌, ◌+◌, ◌≤◌, ◌<◌, ◌^◌, length, IfOk};
ghost use Rattle.record_table.specs.Shares.{IsShareAt, counted_on, fresh_shares};

use kmem_buf::{Slip, Stub};
use std::alloc::{AllocError, Global};
use std::marker::Model;

/// What a pass has for its share of the heap: how many buffers it has put in and taken out, which the table's stub at its place says too.
/// No copy can be made. Where one was dropped, the table can't be closed.
#[derive(Drop)]
pub struct Share {
    place: u32,
    brought: u64,
    fetched: u64,
    slip: Slip,
}

impl Model for Share {
    ghost use Rattle.std.specs.Prelude.{◌≡◌};
    ghost use Rattle.record_table.specs.Shares.{ShareState, share_facts};

    ghost Value = { ShareState };

    ghost view = { λ s. record { place = s.place; brought = s.brought; fetched = s.fetched; home = s.slip.home } };

    ghost invariant = { λ s. s.slip.facts ≡ share_facts s.brought s.fetched };
}

/// The stubs of all shares of a table.
#[derive(Drop)]
pub struct Shares {
    stubs: Vec<Stub>,
}

impl Model for Shares {
    ghost use Rattle.record_table.specs.Shares.{SharesState, shares_of};

    ghost Value = { SharesState };

    ghost view = { λ s. shares_of s.stubs.items };
}

impl Shares {
    /// So many shares, in order. All memory that they will ever need is taken here.
    pub fn create(alloc: Global, count: u32) -> Result<(Shares, Vec<Share>), AllocError>
        ensures homes { IfOk result (λ r. length r.0.homes ≡ count) }
        ensures out { IfOk result (λ r. r.0.out ≡ count) }
        ensures none { IfOk result (λ r. (r.0.brought ≡ 0) × (r.0.fetched ≡ 0)) }
        ensures dealt { IfOk result (λ r. r.1.items ≡ fresh_shares 0 r.0.homes) }
    {
        let mut stubs = Vec::with_capacity(alloc, count as usize)?;
        let mut dealt = Vec::with_capacity(alloc, count as usize)?;
        for place in 0..count {
            let mut stub = Stub::create(alloc)?;
            let slip = stub.issue([0, 0, 0]);
            stubs.push_reserved(stub);
            dealt.push_reserved(Share {
                place,
                brought: 0,
                fetched: 0,
                slip,
            });
        }
        Ok((Shares { stubs }, dealt))
    }

    /// The share has put so many more buffers into the heap, and taken so many more out.
    pub fn count(&mut self, share: Share, brought: u64, fetched: u64) -> Share
        requires of { IsShareAt self.old.homes share }
        requires few { (brought ≤ 1) × (fetched ≤ 1) }
        requires room { (share.brought < 2 ^ 62) × (share.fetched < 2 ^ 62) }
        ensures share { result ≡ counted_on brought fetched share }
        ensures shares { self.new ≡ record self.old { brought = self.old.brought + brought; fetched = self.old.fetched + fetched } }
    {
        let Share {
            place,
            brought: had_brought,
            fetched: had_fetched,
            slip,
        } = share;
        let brought = had_brought + brought;
        let fetched = had_fetched + fetched;
        let stub = &mut self.stubs[place as usize];
        let slip = stub.reissue(slip, [brought, fetched, 0]);
        Share {
            place,
            brought,
            fetched,
            slip,
        }
    }

    /// Takes the share back. The others have then put in, and taken out, so many less.
    pub fn take_back(&mut self, share: Share)
        requires of { IsShareAt self.old.homes share }
        ensures homes { self.new.homes ≡ self.old.homes }
        ensures out { self.new.out + 1 ≡ self.old.out }
        ensures brought { self.new.brought + share.brought ≡ self.old.brought }
        ensures fetched { self.new.fetched + share.fetched ≡ self.old.fetched }
    {
        let Share {
            place,
            brought: _,
            fetched: _,
            slip,
        } = share;
        let stub = &mut self.stubs[place as usize];
        stub.redeem(slip);
    }

    /// While no share is out, the stubs say of none that it has put anything in, or taken anything out.
    pub fn end(self)
        ensures { self.out ≡ 0 → (self.brought ≡ 0) × (self.fetched ≡ 0) }
    {
        let Shares { stubs: _ } = self;
    }
}
