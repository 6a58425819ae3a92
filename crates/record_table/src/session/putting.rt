//! A put over the cache.
ghost use Rattle.std.specs.Prelude.{◌≡◌, ◌<◌, ◌≤◌, []};
ghost use Rattle.kmem_text.specs.declared.command.Command.TheVariants as command;
ghost use Rattle.kmem_cache.specs.Seats.{buffers_at, IsCacheSeat};
ghost use Rattle.record_table.specs.Sessions.{CanAdd, FoundAbsent};
ghost use Rattle.record_table.specs.Turns.{IsShareAsk};
ghost use Rattle.record_table.specs.Runs.{CanCarryOut, HasBrought, HasCarriedOut};

use super::Session;
use super::steps::run_put;
use crate::records::Records;
use crate::shares::Share;
use crate::table::RecordTable;
use hist_lock::Pass;
use kmem_buf::Buf;
use kmem_cache::{Cache, CacheRefused, CacheSeat};
use kmem_text::{NameId, Reply, Value};
use record_heap::{Offer, PutEnd, RecordKind};
use std::mem::replace;
use std::sync::Wait;

// Asks the cache for a buffer, and makes the put's turn with what it got.
fn put_fresh<R: Wait>(
    rt: &R,
    table: &RecordTable,
    cache: &Cache<RecordKind>,
    seat: &mut CacheSeat<RecordKind>,
    pass: &mut Pass<Records>,
    number: u32,
    name: NameId,
    value: Value,
    share: Share,
) -> (Reply, Option<Buf<RecordKind>>, Share)
    requires can { CanAdd table.now pass.old }
    requires name { name.0 < table.now.home.names }
    requires counts { IsShareAsk table.now.home share }
    requires seat_of { IsCacheSeat cache.now seat.old }
    requires home { buffers_at cache.now ≡ table.now.home.cache }
    requires seat_left { 1 ≤ seat.old.pass.left }
    ensures of { IsCacheSeat cache.now seat.new }
    ensures brought { HasBrought table.now.home.cache.cells pass.old pass.new number (command.Put name value) result.0 result.1
        share result.2 seat.old seat.new (seat.old.rounds ≡ []) }
{
    let offer = match cache.alloc(rt, seat) {
        Ok(buf) => Offer::Fresh(buf),
        Err(CacheRefused::Full(note)) => Offer::Refused(note),
        Err(CacheRefused::NoMemory) => unreachable!(),
    };
    let (end, share) = run_put(rt, table, pass, number, name, value, offer, share);
    match end {
        PutEnd::Replied(reply, back) => (reply, back, share),
        PutEnd::Wanting => unreachable!(),
    }
}

// Carries a put out: in one turn where its magazines have a buffer to offer, which comes back where the name is there. Else it is offered
// nothing, and the cache is asked only once a turn has found the name absent.
fn put_over<R: Wait>(
    rt: &R,
    table: &RecordTable,
    cache: &Cache<RecordKind>,
    seat: &mut CacheSeat<RecordKind>,
    pass: &mut Pass<Records>,
    number: u32,
    name: NameId,
    value: Value,
    share: Share,
) -> (Reply, Option<Buf<RecordKind>>, Share)
    requires can { CanAdd table.now pass.old }
    requires name { name.0 < table.now.home.names }
    requires counts { IsShareAsk table.now.home share }
    requires seat_of { IsCacheSeat cache.now seat.old }
    requires home { buffers_at cache.now ≡ table.now.home.cache }
    requires seat_left { 1 ≤ seat.old.pass.left }
    ensures of { IsCacheSeat cache.now seat.new }
    ensures brought { HasBrought table.now.home.cache.cells pass.old pass.new number (command.Put name value) result.0 result.1
        share result.2 seat.old seat.new (FoundAbsent pass.old pass.new (command.Put name value)) }
{
    if seat.rounds() > 0 {
        return put_fresh(rt, table, cache, seat, pass, number, name, value, share);
    }
    let (end, share) = run_put(rt, table, pass, number, name, value, Offer::Nothing, share);
    match end {
        PutEnd::Replied(reply, back) => (reply, back, share),
        PutEnd::Wanting => put_fresh(rt, table, cache, seat, pass, number, name, value, share),
    }
}

impl Session {
    // A put. A buffer that it doesn't need is freed.
    pub(crate) fn put<R: Wait>(
        &mut self,
        rt: &R,
        table: &RecordTable,
        cache: &Cache<RecordKind>,
        seat: &mut CacheSeat<RecordKind>,
        name: NameId,
        value: Value,
    ) -> Reply
        requires can { CanCarryOut table.now cache.now self.old seat.old (command.Put name value) }
        ensures done { HasCarriedOut cache.now (command.Put name value) result self.old self.new seat.old seat.new }
    {
        let number = self.made + 1;
        let Some(share) = replace(&mut self.share, None) else {
            unreachable!()
        };
        let pass = &mut self.pass;
        let (reply, back, share) = put_over(
            rt, table, cache, seat, pass, number, name, value, share,
        );
        self.share = Some(share);
        self.made = number;
        match back {
            Some(buf) => {
                cache.free(rt, seat, buf);
                reply
            }
            None => reply,
        }
    }
}
