//! A mover at a shared cache, with a client of the test's own.
ghost use Rattle.std.specs.Prelude.{◌≡◌, ◌+◌, ◌*◌, ◌%◌, ◌^◌, ◌≤◌, ◌<◌, length, [], Some, vec_capacity, IfOk, IfErr, IfSome, All};
ghost use Rattle.kmem_model.specs.Heap.{blank};
ghost use Rattle.kmem_buf.specs.Answers.{verdict_of, flagged, IsAnswerTo, brought_by, fetched_by};
ghost use Rattle.magazine.specs.Ready.{IsReady};
ghost use Rattle.kmem_cache.specs.Opening.{IsAsMade};
ghost use Rattle.kmem_cache.specs.Seats.{buffers_at};

use crate::{MoverPlan, Pace, carry, drive, no_moves, scan};
use kmem_buf::{Answer, Buf, Home, MoveClient, Verdict};
use kmem_cache::{Cache, CacheLog, CacheSeat};
use kmem_io::Gate;
use kmem_model::{CacheEntry, Said};
use move_queue::{MoveQueue, QueueSeat};
use object_cache::{ObjectCache, Tally};
use record_heap::RecordKind;
use slab_source::Supply;
use std::alloc::{AllocError, Global};
use std::marker::Model;
use std::mem::replace;
use std::sync::Wait;
use std::test::Fail;

// A client that says yes to what it has, and else that it doesn't know it.
#[derive(Drop)]
struct Keeper {
    held: Vec<Buf<RecordKind>>,
    home: Home,
    yes: bool,
    dont_know: bool,
    last: Option<Verdict>,
    answered: u64,
    moved: u64,
}

impl Model for Keeper {
    ghost use Rattle.std.specs.Prelude.{◌≡◌, All};
    ghost use Rattle.kmem_model.specs.Heap.{blank};
    ghost use Rattle.magazine.specs.Ready.{IsReady};
    ghost use Rattle.consolidator.specs.Keepers.{KeeperState};

    ghost Value = { KeeperState };

    ghost view = { λ k. record {
      home = k.home;
      yes = k.yes;
      dont_know = k.dont_know;
      last = k.last;
      answered = k.answered;
      moved = k.moved;
    } };

    ghost invariant = { λ k. All (IsReady (λ o. o ≡ blank) k.home) k.held.items };
}

// Puts the buffer in the place of the one of this number, which comes out; or it comes back, where there is none.
fn put_for(
    held: &mut Vec<Buf<RecordKind>>,
    number: u32,
    to: Buf<RecordKind>,
    home: &Home,
) -> Result<Buf<RecordKind>, Buf<RecordKind>>
    requires to { IsReady (λ o. o ≡ blank) home.now to }
    requires held { All (IsReady (λ o. o ≡ blank) home.now) held.old.items }
    ensures out { IfOk result (λ b. (b.number ≡ number) × IsReady (λ o. o ≡ blank) home.now b) }
    ensures back { IfErr result (λ b. b ≡ to) }
    ensures held { All (IsReady (λ o. o ≡ blank) home.now) held.new.items }
{
    for i in 0..held.len() {
        let slot = &mut held[i];
        if slot.number() == number {
            return Ok(replace(slot, to));
        }
    }
    Err(to)
}

// Takes the buffer of this number out.
fn take_out(held: &mut Vec<Buf<RecordKind>>, number: u32, home: &Home) -> Option<Buf<RecordKind>>
    requires held { All (IsReady (λ o. o ≡ blank) home.now) held.old.items }
    ensures out { IfSome result (IsReady (λ o. o ≡ blank) home.now) }
    ensures held { All (IsReady (λ o. o ≡ blank) home.now) held.new.items }
{
    for i in 0..held.len() {
        if held[i].number() == number {
            return Some(held.swap_remove(i));
        }
    }
    None
}

impl Keeper {
    fn new(alloc: Global, home: Home) -> Keeper
        ensures { result.home ≡ home }
    {
        Keeper {
            held: Vec::new(alloc),
            home,
            yes: false,
            dont_know: false,
            last: None,
            answered: 0,
            moved: 0,
        }
    }

    // How many objects it has moved.
    fn moved(&self) -> u64
        ensures { result ≡ self.now.moved }
    {
        self.moved
    }

    fn keep(&mut self, buf: Buf<RecordKind>) -> Result<(), AllocError>
        requires { IsReady (λ o. o ≡ blank) self.old.home buf }
        ensures { self.new ≡ self.old }
    {
        self.held.push(buf)?;
        Ok(())
    }

    fn release(&mut self, number: u32) -> Option<Buf<RecordKind>>
        ensures out { IfSome result (IsReady (λ o. o ≡ blank) self.old.home) }
        ensures same { self.new ≡ self.old }
    {
        take_out(&mut self.held, number, &self.home)
    }
}

impl MoveClient<RecordKind> for Keeper {
    type Sign = ();

    ghost use Rattle.consolidator.specs.Keepers.{flags_of};

    ghost home = { λ k. k.home };

    ghost sign = { λ _. tt };

    ghost flags = { flags_of };

    ghost last = { λ k. k.last };

    ghost answered = { λ k. k.answered };

    ghost brought = { λ k. k.moved };

    ghost fetched = { λ k. k.moved };

    fn ask<R: Wait>(&mut self, _rt: &R, from: u32, to: Buf<RecordKind>) -> Answer<RecordKind>
        requires to { IsReady (λ o. o ≡ blank) self.old.home to }
        requires counts { self.old.moved < 2 ^ 62 }
        ensures buffers { IsAnswerTo (λ o. o ≡ blank) self.old.home.cells from to.number result }
        ensures stays { self.new.home ≡ self.old.home }
        ensures flags { flags_of self.new ≡ flagged (verdict_of result) (flags_of self.old) }
        ensures last { self.new.last ≡ Some (verdict_of result) }
        ensures answered { self.new.answered ≡ (self.old.answered + 1) % 2 ^ 64 }
        ensures counts { (self.new.moved ≡ self.old.moved + brought_by (verdict_of result)) ×
            (self.new.moved ≡ self.old.moved + fetched_by (verdict_of result)) }
    {
        self.answered = self.answered.wrapping_add(1);
        match put_for(&mut self.held, from, to, &self.home) {
            Ok(old) => {
                self.yes = true;
                self.last = Some(Verdict::Yes);
                self.moved += 1;
                Answer::Yes(old)
            }
            Err(back) => {
                self.dont_know = true;
                self.last = Some(Verdict::DontKnow);
                Answer::DontKnow(back)
            }
        }
    }
}

// Nothing is waited for.
struct AtOnce;

impl Pace<RecordKind, Keeper> for AtOnce {
    ghost share = { λ _ _. 0 };

    ghost seen = { λ _. 0 };

    fn await_share<R: Wait>(&self, _rt: &R, _client: &mut Keeper, _scan: u32) {}
}

// A shared cache with a worker's seat and a mover's, the queue of moves with the mover's seat, and the client.
#[derive(Drop)]
struct Shop {
    cache: Cache<RecordKind>,
    worker: CacheSeat<RecordKind>,
    seat: CacheSeat<RecordKind>,
    queue: MoveQueue<RecordKind>,
    place: QueueSeat<RecordKind>,
    keeper: Keeper,
    tally: Tally,
}

impl Model for Shop {
    ghost use Rattle.kmem_cache.specs.Seats.{CacheSite};
    ghost use Rattle.consolidator.specs.Keepers.{IsShop};

    ghost Value = { CacheSite };

    ghost view = { λ s. s.cache };

    ghost invariant = { λ s. IsShop s.cache s.worker s.seat s.queue s.place s.keeper };
}

fn new_cache(alloc: Global, slabs: u32, chunks: u32) -> Result<ObjectCache<RecordKind>, AllocError>
    requires slabs { (0 < slabs) × (slabs ≤ 64) }
    requires chunks { (0 < chunks) × (chunks ≤ 64) }
    requires buffers { slabs * chunks ≤ 4096 }
    ensures { IfOk result IsAsMade }
{
    let supply = Supply::create(alloc, slabs)?;
    ObjectCache::create(alloc, RecordKind, supply, slabs, chunks, 64)
}

impl Shop {
    fn create(alloc: Global, slabs: u32, chunks: u32, places: u32) -> Result<Shop, AllocError>
        requires slabs { (0 < slabs) × (slabs ≤ 64) }
        requires chunks { (0 < chunks) × (chunks ≤ 64) }
        requires buffers { slabs * chunks ≤ 4096 }
        requires places { (0 < places) × (places ≤ 2) }
    {
        let cache = new_cache(alloc, slabs, chunks)?;
        let keeper = Keeper::new(alloc, cache.home());
        let (queue, mut places_of) = MoveQueue::create(alloc, cache.home(), 64, &[192])?;
        let (cache, mut seats) = Cache::create(alloc, cache, places, &[1000, 1000])?;
        let (Some(seat), Some(worker), Some(place)) = (seats.pop(), seats.pop(), places_of.pop())
        else {
            unreachable!()
        };
        Ok(Shop {
            cache,
            worker,
            seat,
            queue,
            place,
            keeper,
            tally: no_moves(),
        })
    }

    // Allocates so many buffers for the client.
    fn take<R: Wait>(&mut self, rt: &R, count: u32) -> Result<(), AllocError> {
        for _i in 0..count {
            if self.worker.left() == 0 {
                return Err(AllocError);
            }
            match self.cache.alloc(rt, &mut self.worker) {
                Ok(buf) => self.keeper.keep(buf)?,
                Err(_) => return Err(AllocError),
            }
        }
        Ok(())
    }

    // Frees a buffer of the client.
    fn give<R: Wait>(&mut self, rt: &R, number: u32) {
        if self.worker.left() == 0 {
            return;
        }
        if let Some(buf) = self.keeper.release(number) {
            self.cache.free(rt, &mut self.worker, buf);
        }
    }

    // Frees those with these numbers.
    fn give_all<R: Wait>(&mut self, rt: &R, from: u32, to: u32) {
        for number in from..to {
            self.give(rt, number);
        }
    }

    // How many moves a scan begins.
    fn scan<R: Wait>(&mut self, rt: &R, desperate: bool) -> u64 {
        let before = self.tally.begun;
        if self.seat.left() < 130 || self.place.left() < 64 {
            return 0;
        }
        if self.place.refused() > 9 || self.keeper.moved() > 99 {
            return 0;
        }
        scan(
            rt,
            &self.cache,
            &mut self.seat,
            &self.queue,
            &mut self.place,
            &mut self.keeper,
            desperate,
            &mut self.tally,
        );
        self.tally.begun.wrapping_sub(before)
    }

    // Whether a job was carried.
    fn carry<R: Wait>(&mut self, rt: &R) -> bool {
        if self.seat.left() == 0 {
            return false;
        }
        if self.keeper.moved() > 99 {
            return false;
        }
        carry(
            rt,
            &self.cache,
            &mut self.seat,
            &self.queue,
            &mut self.place,
            &mut self.keeper,
            &mut self.tally,
        )
    }

    // What a mover does in a run of one scan.
    fn drive<R: Wait>(&mut self, rt: &R) -> bool {
        let plan = MoverPlan {
            mover: 2,
            first: 1,
            scans: 1,
            desperate: true,
            reaps: true,
        };
        if self.seat.left() < 400 || self.place.left() < 64 {
            return false;
        }
        if self.place.refused() > 9 || self.keeper.moved() > 99 {
            return false;
        }
        drive(
            rt,
            &Open,
            &AtOnce,
            &self.cache,
            &mut self.seat,
            &self.queue,
            &mut self.place,
            &mut self.keeper,
            &plan,
            &mut self.tally,
        );
        true
    }

    // The tally, and what is left.
    fn close(
        self,
        mut seats: Vec<CacheSeat<RecordKind>>,
    ) -> (Tally, ObjectCache<RecordKind>, CacheLog)
        requires none { seats.items ≡ [] }
        requires room { 2 ≤ vec_capacity seats }
    {
        let Shop {
            cache,
            worker,
            seat,
            queue: _,
            place: _,
            keeper: _,
            tally,
        } = self;
        seats.push_reserved(worker);
        seats.push_reserved(seat);
        let (cache, log) = cache.close(seats);
        (tally, cache, log)
    }
}

// Whether the last entries of the second seat are these.
fn ends_with(log: &CacheLog, wanted: &[CacheEntry]) -> bool {
    let mut left = wanted.len();
    for (pass, entry) in log.entries().iter().rev() {
        if *pass == 1 && left > 0 {
            left -= 1;
            if left >= wanted.len() || wanted[left] != *entry {
                return false;
            }
        }
    }
    left == 0
}

// The gate of a run that holds nobody.
struct Open;

impl Gate for Open {
    fn before(&self, _worker: u32, _command: u32) {}
}

// Slabs 3 to 5 fill the magazines and the depot, so that the frees after them reach the slabs.
fn sparse<R: Wait>(rt: &R, alloc: Global) -> Result<Shop, AllocError> {
    let mut shop = Shop::create(alloc, 6, 8, 1)?;
    shop.take(rt, 48)?;
    shop.give_all(rt, 24, 48);
    shop.give_all(rt, 6, 8);
    shop.give_all(rt, 10, 16);
    shop.give_all(rt, 18, 24);
    Ok(shop)
}

// Two mild scans find nothing to do. The third, for which more slabs are sparse, moves two objects.
#[test]
fn three_mild_scans(rt: HostRuntime) -> Result<(), Fail> {
    let seats = Vec::with_capacity(rt.alloc(), 2)?;
    let mut shop = sparse(&rt, rt.alloc())?;
    let begun = [
        shop.scan(&rt, false),
        shop.scan(&rt, false),
        shop.scan(&rt, false),
    ];
    let carried = [shop.carry(&rt), shop.carry(&rt), shop.carry(&rt)];
    let (tally, _cache, log) = shop.close(seats);
    assert_eq!(rt; (begun, carried), ([0, 0, 2], [true, true, false]));
    assert_eq!(rt; (tally.begun, tally.yes), (2, 2));
    let entries = [
        CacheEntry::Scan(false),
        CacheEntry::Idle,
        CacheEntry::Scan(false),
        CacheEntry::Idle,
        CacheEntry::Scan(false),
        CacheEntry::Begin(0, 16, 6),
        CacheEntry::Begin(1, 17, 7),
        CacheEntry::Idle,
        CacheEntry::End(0, Said::Yes),
        CacheEntry::End(1, Said::Yes),
    ];
    assert!(rt; ends_with(&log, &entries));
    Ok(())
}

// Slabs 3 to 10 fill the magazines and the depot. Of the others each has one buffer that is out.
fn scattered<R: Wait>(rt: &R, alloc: Global) -> Result<Shop, AllocError> {
    let mut shop = Shop::create(alloc, 11, 3, 1)?;
    shop.take(rt, 33)?;
    shop.give_all(rt, 9, 33);
    shop.give_all(rt, 1, 3);
    shop.give_all(rt, 4, 6);
    shop.give_all(rt, 7, 9);
    Ok(shop)
}

// While two moves wait the old buffer of the first one is freed: its slab is dead until both are ended, the first one unasked.
#[test]
fn a_dead_slab(rt: HostRuntime) -> Result<(), Fail> {
    let seats = Vec::with_capacity(rt.alloc(), 2)?;
    let mut shop = scattered(&rt, rt.alloc())?;
    let begun = shop.scan(&rt, true);
    shop.give(&rt, 6);
    let carried = [shop.carry(&rt), shop.carry(&rt), shop.carry(&rt)];
    let (tally, cache, log) = shop.close(seats);
    assert_eq!(rt; (begun, carried), (2, [true, true, false]));
    assert_eq!(rt; (tally.begun, tally.yes, tally.gone), (2, 1, 1));
    assert_eq!(rt;
        (cache.slab_count(), cache.free_count(), cache.dead_count()),
        (1, 1, 0)
    );
    let entries = [
        CacheEntry::Scan(true),
        CacheEntry::Begin(0, 6, 1),
        CacheEntry::Begin(1, 3, 2),
        CacheEntry::Idle,
        CacheEntry::Gone(0),
        CacheEntry::End(1, Said::Yes),
    ];
    assert!(rt; ends_with(&log, &entries));
    Ok(())
}

// Of six full slabs all buffers but the first of each are freed.
fn every_eighth<R: Wait>(rt: &R, alloc: Global) -> Result<Shop, AllocError> {
    let mut shop = Shop::create(alloc, 8, 8, 2)?;
    shop.take(rt, 48)?;
    for slab in 0..6 {
        shop.give_all(rt, 8 * slab + 1, 8 * slab + 8);
    }
    Ok(shop)
}

// 48 allocations and ten frees reached the slabs. The reap frees the first sixteen of the buffers that were freed, and one desperate scan
// moves three objects.
#[test]
fn the_mover_of_a_run(rt: HostRuntime) -> Result<(), Fail> {
    let seats = Vec::with_capacity(rt.alloc(), 2)?;
    let mut shop = every_eighth(&rt, rt.alloc())?;
    let drove = shop.drive(&rt);
    let (tally, _cache, log) = shop.close(seats);
    assert_eq!(rt; (drove, tally.begun, tally.yes), (true, 3, 3));
    assert_eq!(rt; log.entries().len(), 48 + 10 + 16 + 8);
    let entries = [
        CacheEntry::Scan(true),
        CacheEntry::Begin(0, 40, 17),
        CacheEntry::Begin(1, 8, 18),
        CacheEntry::Begin(2, 0, 37),
        CacheEntry::Idle,
        CacheEntry::End(0, Said::Yes),
        CacheEntry::End(1, Said::Yes),
        CacheEntry::End(2, Said::Yes),
    ];
    assert!(rt; ends_with(&log, &entries));
    Ok(())
}
