//! The end of a table.
ghost use Rattle.std.specs.Prelude.{◌≡◌, ◌+◌, ◌≤◌, ◌<◌, ◌++◌, [], length, map, reverse, All, vec_capacity};
ghost use Rattle.std.specs.List.{sum_by};
ghost use Rattle.table_sums.specs.Spread.{IsNumbering};
ghost use Rattle.hist_lock.specs.History.{IsFront, entries_of};
ghost use Rattle.record_table.specs.Shares.{IsShareAt};
ghost use Rattle.record_table.specs.Tables.{object_count};
ghost use Rattle.record_table.specs.Asks.{AreFlagsDue};
ghost use Rattle.record_table.specs.Closing.{HasClosed, all_brought, all_fetched, all_numbers};

use crate::log::RecordLog;
use crate::mover::Mover;
use crate::records::Records;
use crate::session::Session;
use crate::shares::{Share, Shares};
use crate::table::RecordTable;
use hist_lock::{HistLock, Pass};
use record_heap::RecordHeap;

// What sessions and movers are made of.
struct Parts {
    passes: Vec<Pass<Records>>,
    shares: Vec<Share>,
}

// Takes the sessions apart, the last one first.
fn part_sessions(lock: &HistLock<Records>, mut sessions: Vec<Session>, parts: Parts) -> Parts
    requires of { All (λ s. s.pass.site ≡ lock.now) sessions.items }
    requires none { (parts.passes.items ≡ []) × (parts.shares.items ≡ []) }
    requires room { (length sessions.items ≤ vec_capacity parts.passes) × (length sessions.items ≤ vec_capacity parts.shares) }
    ensures passes { result.passes.items ≡ map (λ s. s.pass) (reverse sessions.items) }
    ensures shares { result.shares.items ≡ map (λ s. s.share) (reverse sessions.items) }
    ensures at { All (IsShareAt lock.now.home.shares) result.shares.items }
    ensures room { (vec_capacity result.passes ≡ vec_capacity parts.passes) × (vec_capacity result.shares ≡ vec_capacity parts.shares) }
{
    let _ = lock;
    let Parts {
        mut passes,
        mut shares,
    } = parts;
    while let Some(session) = sessions.pop() {
        let Session {
            pass,
            made: _,
            holds: _,
            share,
        } = session;
        let Some(share) = share else { unreachable!() };
        passes.push_reserved(pass);
        shares.push_reserved(share);
    }
    Parts { passes, shares }
}

// Takes the movers apart, the last one first, behind what is there.
fn part_movers(lock: &HistLock<Records>, mut movers: Vec<Mover>, parts: Parts) -> Parts
    requires of { All (λ m. m.pass.site ≡ lock.now) movers.items }
    requires at { All (IsShareAt lock.now.home.shares) parts.shares.items }
    requires room { (length parts.passes.items + length movers.items ≤ vec_capacity parts.passes) ×
        (length parts.shares.items + length movers.items ≤ vec_capacity parts.shares) }
    ensures passes { result.passes.items ≡ parts.passes.items ++ map (λ m. m.pass) (reverse movers.items) }
    ensures shares { result.shares.items ≡ parts.shares.items ++ map (λ m. m.share) (reverse movers.items) }
    ensures at { All (IsShareAt lock.now.home.shares) result.shares.items }
    ensures flags { All (λ m. AreFlagsDue m.flags m.pass.seen) movers.items }
    ensures silent { All (λ m. m.pass.mine ≡ []) movers.items }
{
    let _ = lock;
    let Parts {
        mut passes,
        mut shares,
    } = parts;
    while let Some(mover) = movers.pop() {
        let Mover {
            pass,
            seat: _,
            share,
            given: _,
            last: _,
            answered: _,
        } = mover;
        let Some(share) = share else { unreachable!() };
        passes.push_reserved(pass);
        shares.push_reserved(share);
    }
    Parts { passes, shares }
}

// Takes all shares back: what their stubs say together is what they say.
fn take_back_all(mut stubs: Shares, mut shares: Vec<Share>)
    requires at { All (IsShareAt stubs.homes) shares.items }
    requires out { stubs.out ≡ length shares.items }
    ensures brought { stubs.brought ≡ sum_by (λ s. s.brought) shares.items }
    ensures fetched { stubs.fetched ≡ sum_by (λ s. s.fetched) shares.items }
{
    while let Some(share) = shares.pop() {
        stubs.take_back(share);
    }
    stubs.end();
}

impl RecordTable {
    /// Ends the table, once all its sessions and movers are back: gives the heap and the history. It takes no memory and waits for nobody.
    pub fn close(self, sessions: Vec<Session>, movers: Vec<Mover>) -> (RecordHeap, RecordLog)
        requires of { All (λ s. s.pass.site ≡ self) sessions.items }
        requires movers_of { All (λ m. m.pass.site ≡ self) movers.items }
        requires count { length sessions.items + length movers.items ≡ self.count }
        ensures home { (result.0.home ≡ self.home.cache) × (result.1.home ≡ self.home.cache) }
        ensures closed { HasClosed self.home result.0 result.1.entries }
        ensures counts { object_count result.0.heap + all_fetched sessions.items movers.items ≡ all_brought sessions.items movers.items }
        ensures fronts { All (λ s. IsFront s.pass.seen result.1.entries) sessions.items }
        ensures mover_fronts { All (λ m. IsFront m.pass.seen result.1.entries) movers.items }
        ensures exact { All (λ s. entries_of s.pass.number result.1.entries ≡ s.pass.mine) sessions.items }
        ensures silent { All (λ m. entries_of m.pass.number result.1.entries ≡ []) movers.items }
        ensures numbers { IsNumbering (all_numbers sessions.items movers.items) self.count }
        ensures within { All (λ x. x.0 < self.count) result.1.entries }
        ensures room { length result.1.entries ≤ self.room }
        ensures flags { All (λ m. AreFlagsDue m.flags m.pass.seen) movers.items }
    {
        let RecordTable {
            lock,
            marks: _,
            home,
            passes,
            shares,
        } = self;
        let room = Parts {
            passes: passes.open(),
            shares: shares.open(),
        };
        let parts = part_sessions(&lock, sessions, room);
        let Parts { passes, shares } = part_movers(&lock, movers, parts);
        let (records, entries) = lock.close(passes);
        let Records {
            heap,
            pen: _,
            shares: stubs,
            names: _,
            workers: _,
        } = records;
        take_back_all(stubs, shares);
        (heap, RecordLog { entries, home })
    }
}
