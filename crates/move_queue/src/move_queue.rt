//! The queue of moves.
ghost use Rattle.std.specs.Prelude.{◌≡◌, ◌+◌, ◌<◌, ◌≤◌, ◌^◌, true, [], length, map, sum, All, IfOk, IfErr, IfSome, IsNone, OnOk, OnErr, MatchOption};
ghost use Rattle.crossbeam_queue.specs.Passes.{view, IsPassOf, ruled_capacity};
ghost use Rattle.object_cache.specs.Moves.{IsJobOf};
ghost use Rattle.move_queue.specs.Queue.{fresh_queue_seat, IsQueueSeat, HasPushed, HasPopped, WasFull, HasRun, pushed_by, popped_by};
ghost use Rattle.move_queue.specs.Rule.{untold};
ghost use Rattle.move_queue.specs.Count.{count_opener};

use crate::close::{close_count, drain, gather_all};
use crate::count::{add, commit, look, release, take_off};
use crate::deal::deal_all;
use crate::ring::{pop, push, tell};
use crate::room::Room;
use crate::rule::{Mark, Place, Ring, Terms, Word};
use crate::seat::QueueSeat;
use atomic_table::Table;
use crossbeam_utils::Backoff;
use kmem_buf::{Home, Kind};
use object_cache::Job;
use std::alloc::{AllocError, Global};
use std::marker::{Brand, Model};
use std::sync::Wait;

/// Jobs that wait, each a move of one cache that has begun. It takes a fixed room, for as many jobs as its capacity, twice.
#[derive(Drop)]
pub struct MoveQueue<K: Kind> {
    ring: Ring<K>,
    count: Word,
    // For what `close` answers.
    room: Room<Job<K>>,
}

impl<K: Kind> Model for MoveQueue<K> {
    ghost use Rattle.crossbeam_queue.specs.Passes.{ruled_capacity};
    ghost use Rattle.move_queue.specs.Queue.{QueueState};
    ghost use Rattle.move_queue.specs.Seats.{IsQueue};

    ghost Value = { QueueState };

    ghost view = { λ q. record {
      ring = q.ring.table.shared.table_id;
      count = q.count.shared.table_id;
      terms = q.count.shared.key;
      capacity = ruled_capacity q.ring;
    } };

    ghost invariant = { λ q. IsQueue q.count.shared.table_id q.count.shared.key (ruled_capacity q.ring) q.room };
}

// A job is under way that no pop can have.
#[derive(Drop)]
struct Busy;

// The sum of all quotas.
fn total(quotas: &[u32]) -> u64
    requires { sum quotas.now < 2 ^ 32 }
    ensures { result ≡ sum quotas.now }
{
    let all: u32 = quotas.iter().sum();
    u64::from(all)
}

// The count of the jobs that are under way, none of them, and its first seat.
fn lay_count(alloc: Global, terms: &Terms) -> Result<(Word, Mark), AllocError>
    requires { terms.now.quotas < 2 ^ 32 }
    ensures key { IfOk result (λ r. r.0.shared.key ≡ terms.now) }
    ensures one_word { IfOk result (λ r. (r.0.shared.table_id.words ≡ 1) × (r.0.shared.table_id.slots ≡ 0)) }
    ensures of { IfOk result (λ r. r.1.table_id ≡ r.0.shared.table_id) }
    ensures mark { IfOk result (λ r. r.1.me ≡ (count_opener terms.now.quotas terms.now.seats, [])) }
{
    Table::of_words(alloc, &[0], terms)
}

impl<K: Kind> MoveQueue<K> {
    /// A queue for so many jobs of the home's cache, with a seat for each quota: so many pushes the seat may make. All memory that
    /// it will ever need is taken here.
    pub fn create(
        alloc: Global,
        home: Home,
        capacity: u32,
        quotas: &[u32],
    ) -> Result<(MoveQueue<K>, Vec<QueueSeat<K>>), AllocError>
        requires capacity { 1 ≤ capacity }
        requires seats { 0 < length quotas.now }
        requires quotas { sum quotas.now < 2 ^ 32 }
        ensures terms { IfOk result (λ r. r.0.terms ≡ record { home = home; quotas = sum quotas.now; seats = length quotas.now }) }
        ensures capacity { IfOk result (λ r. r.0.capacity ≡ capacity) }
        ensures seats { IfOk result (λ r. r.1.items ≡ map (fresh_queue_seat r.0) quotas.now) }
    {
        let room = Room::create(alloc, capacity)?;
        let dealt = Vec::with_capacity(alloc, quotas.len())?;
        let terms = Terms {
            home,
            quotas: total(quotas),
            seats: quotas.len() as u64,
        };
        let (count, mark) = lay_count(alloc, &terms)?;
        let (ring, mut pass): (Ring<K>, Place<K>) = Ring::<K>::ruled(alloc, capacity as usize)?;
        tell::<Brand, K>(&ring, &mut pass, &terms);
        let seats = deal_all(&ring, &count.shared, pass, mark, quotas, dealt);
        Ok((MoveQueue { ring, count, room }, seats))
    }

    /// Puts the job last. It comes back only where the queue was full at this call's step.
    pub fn push_job<R: Wait>(
        &self,
        rt: &R,
        seat: &mut QueueSeat<K>,
        job: Job<K>,
    ) -> Result<(), Job<K>>
        requires of { IsQueueSeat self.now seat.old }
        requires job { IsJobOf K.constructed self.now.terms.home job }
        requires left { 1 ≤ seat.old.left }
        requires refused { seat.old.refused < 2 ^ 63 }
        ensures pushed { OnOk result (HasPushed job seat.old seat.new) }
        ensures back { IfErr result (λ back. back ≡ job) }
        ensures refused { IfErr result (λ _. seat.new ≡ record seat.old { refused = seat.old.refused + 1 }) }
        ensures full { IfErr result (λ _. WasFull self.now seat.old) }
    {
        let line = &self.count.shared;
        add(line, &mut seat.mark);
        match push(&self.ring, rt, &mut seat.pass, job) {
            Ok(()) => {
                commit(line, &mut seat.mark);
                seat.left -= 1;
                seat.pushed += 1;
                Ok(())
            }
            Err(back) => {
                release(line, &mut seat.mark);
                seat.refused += 1;
                Err(back)
            }
        }
    }

    /// Takes the first job. None comes only where the queue was empty at this call's step. It waits while a job that it can't have
    /// is under way: while another seat pushes it, or has popped it and not yet counted it off.
    pub fn pop_job<R: Wait>(&self, rt: &R, seat: &mut QueueSeat<K>) -> Option<Job<K>>
        requires of { IsQueueSeat self.now seat.old }
        ensures job { IfSome result (IsJobOf K.constructed self.now.terms.home) }
        ensures popped { IfSome result (λ job. HasPopped job seat.old seat.new) }
        ensures few { length seat.new.popped ≤ self.now.terms.quotas }
        ensures done { IsNone result → seat.new ≡ record seat.old { done = true } }
    {
        let backoff = Backoff::new();
        for _ in rt.forever() {
            match self.try_pop(rt, seat) {
                Ok(outcome) => return outcome,
                Err(Busy) => backoff.snooze(),
            }
        }
        unreachable!()
    }

    // One attempt. It fails, and the seat is as it was, where none stands and one is under way.
    fn try_pop<R: Wait>(&self, rt: &R, seat: &mut QueueSeat<K>) -> Result<Option<Job<K>>, Busy>
        requires { IsQueueSeat self.now seat.old }
        ensures popped { IfOk result (λ outcome. MatchOption outcome (seat.new ≡ record seat.old { done = true })
            (λ job. IsJobOf K.constructed self.now.terms.home job × HasPopped job seat.old seat.new)) }
        ensures few { length seat.new.popped ≤ self.now.terms.quotas }
        ensures busy { OnErr result (seat.new ≡ seat.old) }
    {
        if let Some(job) = pop(&self.ring, rt, &mut seat.pass) {
            take_off(&self.count.shared, &mut seat.mark);
            return Ok(Some(job));
        }
        if look(&self.count.shared, &mut seat.mark) == 0 {
            Ok(None)
        } else {
            Err(Busy)
        }
    }

    /// The jobs that are left, in order, once all seats are back. It pops them.
    pub fn close<R: Wait>(self, rt: &R, seats: Vec<QueueSeat<K>>) -> Vec<Job<K>>
        requires of { All (IsQueueSeat self) seats.items }
        requires all { length seats.items ≡ self.terms.seats }
        ensures jobs { All (IsJobOf K.constructed self.terms.home) result.items }
        ensures order { HasRun seats.items result.items }
        ensures count { length result.items + popped_by seats.items ≡ pushed_by seats.items }
        ensures done { All (λ s. s.done ≡ true) seats.items → result.items ≡ [] }
    {
        let MoveQueue { ring, count, room } = self;
        let (mut pass, mark) = gather_all(&ring, &count.shared, seats);
        let jobs = drain(&ring, rt, &mut pass, room.open());
        close_count(count, mark);
        jobs
    }
}
