//! The object under the lock: the heap of records, with the pen of the known words.
ghost use Rattle.std.specs.Prelude.{◌≡◌, ◌+◌, ◌^◌, ◌<◌, ◌≤◌, ℕ, true, List, [], length, replicate, option_map, IfSome, IfOk};
ghost use Rattle.marks.specs.Words.{fresh_mark_seat};
ghost use Rattle.kmem_text.specs.Grammar.{IsWithinNames};
ghost use Rattle.kmem_model.specs.History.{worker_of};
ghost use Rattle.kmem_model.specs.declared.record_entry.RecordEntry.{RecordEntry};
ghost use Rattle.record_table.specs.Tables.{TableHome, home_code, home_of, IsStandingFor};
ghost use Rattle.record_heap.specs.Puts.{offered};
ghost use Rattle.record_table.specs.Turns.{IsWordsOf, is_plain, is_new_end, entry_of, HasEntered, IsPutAsk, IsPutTurn, IsDelAsk, brought_by_put, fetched_by_del};
ghost use Rattle.record_table.specs.Shares.{counted_on, fresh_shares};
ghost use Rattle.kmem_text.specs.declared.command.Command.TheVariants.{Del};
ghost use Rattle.record_heap.specs.View.{IsBlankBuffer};

mod holding;
mod moving;

use crate::shares::{Share, Shares};
use hist_lock::Told;
use kmem_buf::{Buf, Home};
use kmem_model::{RecordEntry, law_history, law_step};
use kmem_text::{Command, NameId, Reply, Value};
use marks::{MarkPen, MarkSeat, Marks};
pub use moving::Asked;
use record_heap::{Offer, PutEnd, RecordHeap, RecordKind};
use std::alloc::{AllocError, Global};
use std::marker::Model;

/// What no turn changes. No value of it is made.
pub struct TablePlaces {
    ghost is: { TableHome } by { home_code },
}

impl Model for TablePlaces {
    ghost use base.Fml.{ftrue};
    ghost use Rattle.record_table.specs.Tables.{TableHome};

    ghost Value = { TableHome };

    ghost view = { λ p. p.is };

    ghost also_owns = { λ _. ftrue };
}

/// The heap of the records, the pen of the known words of its buffers, and the stubs of its passes' shares.
#[derive(Drop)]
pub struct Records {
    pub(crate) heap: RecordHeap,
    pub(crate) pen: MarkPen,
    pub(crate) shares: Shares,
    pub(crate) names: u32,
    pub(crate) workers: u32,
}

impl Model for Records {
    ghost use Rattle.record_table.specs.Tables.{TableView, AreOfOneTable};

    ghost Value = { TableView };

    ghost view = { λ r. record { heap = r.heap; pen = r.pen; shares = r.shares; names = r.names; workers = r.workers } };

    ghost invariant = { λ r. AreOfOneTable (record { heap = r.heap; pen = r.pen; shares = r.shares; names = r.names; workers = r.workers }) };
}

impl Told for Records {
    ghost use Rattle.record_table.specs.Tables.{home_of, no_home, IsStandingFor};

    type Entry = RecordEntry;

    type Home = TablePlaces;

    ghost stands = { λ r h. IsStandingFor r h };

    ghost home = { λ r. home_of r };

    ghost anywhere = { no_home };
}

impl Records {
    /// No record, and no known word, for so many names and workers, over the buffers that `home` names. The words, a seat of them for
    /// each mover, and a share for each pass come with it. All memory is taken here.
    pub fn create(
        alloc: Global,
        home: Home,
        names: u32,
        buffers: u32,
        workers: u32,
        movers: u32,
    ) -> Result<(Records, Marks, Vec<MarkSeat>, Vec<Share>), AllocError>
        requires passes { workers + movers < 2 ^ 32 }
        requires names { names ≤ 262144 }
        requires buffers { (buffers ≡ length home.cells) × (buffers ≤ 65536) }
        requires workers { (1 ≤ workers) × (workers ≤ 16) }
        ensures stands { IfOk result (λ r. IsStandingFor r.0 []) }
        ensures home { IfOk result (λ r. (home_of r.0).cache ≡ home) }
        ensures sizes { IfOk result (λ r. (r.0.names ≡ names) × (r.0.workers ≡ workers)) }
        ensures words { IfOk result (λ r. IsWordsOf (home_of r.0) r.1) }
        ensures seats { IfOk result (λ r. r.2.items ≡ replicate movers (fresh_mark_seat r.1.home)) }
        ensures shares { IfOk result (λ r. (length (home_of r.0).shares ≡ workers + movers) × (r.3.items ≡ fresh_shares 0 (home_of r.0).shares)) }
    {
        let heap = RecordHeap::create(alloc, home, names, buffers, workers)?;
        let (marks, pen, seats) = Marks::create(alloc, buffers, movers)?;
        let (shares, dealt) = Shares::create(alloc, workers + movers)?;
        let records = Records {
            heap,
            pen,
            shares,
            names,
            workers,
        };
        Ok((records, marks, seats, dealt))
    }

    /// Carries out a command that needs no buffer and no hold, and gives none.
    pub fn plain(&mut self, who: u32, command: &Command) -> Reply
        requires plain { is_plain command.now ≡ true }
        requires names { IsWithinNames self.old.names command.now }
        requires worker { who < self.old.workers }
        ensures home { home_of self.new ≡ home_of self.old }
        ensures entered { (number : ℕ) → HasEntered self.old self.new who (entry_of number command.now result) }
    {
        law_step();
        law_history();
        let _ = who;
        match command {
            Command::Get(name) => self.heap.get(*name),
            Command::First => self.heap.first(),
            Command::Next(name) => self.heap.next(*name),
            Command::Count => self.heap.count(),
            Command::Link(name, other) => self.heap.link(*name, *other),
            Command::Fix(name) => self.heap.fix(*name),
            Command::Loose(name) => self.heap.loose(*name),
            _ => unreachable!(),
        }
    }

    /// A put, with what its cache has offered. The word of a new object is set as the last act on it.
    pub fn put(
        &mut self,
        who: u32,
        marks: &Marks,
        name: NameId,
        value: Value,
        offer: Offer,
        share: Share,
    ) -> (PutEnd, Share)
        requires ask { IsPutAsk (home_of self.old) marks.now who name offer share }
        ensures home { home_of self.new ≡ home_of self.old }
        ensures put { (number : ℕ) → IsPutTurn self.old self.new who number name value offer result.0 }
        ensures share { result.1 ≡ counted_on (brought_by_put offer result.0) 0 share }
    {
        let _ = who;
        let fresh = fresh_number(&offer);
        let end = self.heap.decide_put(name, value, offer);
        match fresh {
            Some(b) if is_new(&end) => {
                let share = self.shares.count(share, 1, 0);
                marks.set(&mut self.pen, b);
                (end, share)
            }
            _ => (end, share),
        }
    }

    /// A deletion. The word of an object that ends is cleared before its buffer is handed out.
    pub fn del(
        &mut self,
        who: u32,
        marks: &Marks,
        name: NameId,
        share: Share,
    ) -> (Reply, Option<Buf<RecordKind>>, Share)
        requires ask { IsDelAsk (home_of self.old) marks.now who name share }
        ensures home { home_of self.new ≡ home_of self.old }
        ensures entered { (number : ℕ) → HasEntered self.old self.new who (entry_of number (Del name) result.0) }
        ensures out { IfSome result.1 (IsBlankBuffer self.old.heap.home.cells) }
        ensures share { result.2 ≡ counted_on 0 (fetched_by_del result.1) share }
    {
        let _ = who;
        let (reply, out) = self.heap.del(name);
        match out {
            Some(buf) => {
                marks.clear(&mut self.pen, buf.number());
                let share = self.shares.count(share, 0, 1);
                (reply, Some(buf), share)
            }
            None => (reply, None, share),
        }
    }
}

// The number of a buffer that is offered.
fn fresh_number(offer: &Offer) -> Option<u32>
    ensures { result ≡ option_map (λ buf. buf.number) (offered offer.now) }
{
    match offer {
        Offer::Fresh(buf) => Some(buf.number()),
        Offer::Nothing | Offer::Refused(_) => None,
    }
}

// Whether the put has made a record.
fn is_new(end: &PutEnd) -> bool
    ensures { result ≡ is_new_end end.now }
{
    match end {
        PutEnd::Replied(Reply::New, _) => true,
        PutEnd::Replied(_, _) | PutEnd::Wanting => false,
    }
}
