//! How a table is made.
ghost use Rattle.std.specs.Prelude.{◌≡◌, ◌+◌, ◌-◌, ◌^◌, ◌<◌, ◌≤◌, List, [], ◌++◌, None, length, map, reverse, replicate, sum, All, IfOk, vec_capacity};
ghost use Rattle.hist_lock.specs.Passes.{PassState, fresh_passes};
ghost use Rattle.kmem_model.specs.declared.record_entry.RecordEntry.{RecordEntry};
ghost use Rattle.record_table.specs.Tables.{TableHome};
ghost use Rattle.record_table.specs.Sessions.{IsFreshSession};
ghost use Rattle.record_table.specs.Asks.{IsMoverOf, IsFreshMover};
ghost use Rattle.record_table.specs.Openings.{IsFreshPass, IsFreshShare};

use crate::mover::{Given, Mover};
use crate::records::Records;
use crate::session::Session;
use crate::shares::Share;
use crate::table::RecordTable;
use hist_lock::{HistLock, Pass};
use kmem_buf::Home;
use kmem_cache::Room;
use marks::MarkSeat;
use record_heap::Hold;
use std::alloc::{AllocError, Global};

// The quotas of the sessions, and none for each mover.
fn quotas_of(alloc: Global, scripts: &[u32], count: usize) -> Result<Vec<u32>, AllocError>
    requires { length scripts.now ≤ count }
    ensures items { IfOk result (λ quotas. quotas.items ≡ scripts.now ++ replicate (count - length scripts.now) 0) }
{
    let mut quotas = Vec::with_capacity(alloc, count)?;
    quotas.extend_from_slice(scripts)?;
    quotas.resize(count, 0)?;
    Ok(quotas)
}

// No hold, for each of the eight tags.
fn no_holds(alloc: Global) -> Result<Vec<Option<Hold>>, AllocError>
    ensures { IfOk result (λ holds. holds.items ≡ replicate 8 None) }
{
    let mut holds = Vec::with_capacity(alloc, 8)?;
    for tag in 0..8_u32 {
        let _ = tag;
        holds.push_reserved(None);
    }
    Ok(holds)
}

fn session_of(
    alloc: Global,
    lock: &HistLock<Records>,
    pass: Pass<Records>,
    share: Share,
) -> Result<Session, AllocError>
    requires fresh { IsFreshPass lock.now lock.now.home.workers pass }
    requires share { IsFreshShare lock.now.home.shares share }
    ensures pass { IfOk result (λ s. s.pass ≡ pass) }
    ensures fresh { IfOk result IsFreshSession }
{
    let _ = lock;
    let _ = pass.left();
    let holds = no_holds(alloc)?;
    Ok(Session {
        pass,
        made: 0,
        holds,
        share: Some(share),
    })
}

fn mover_of(lock: &HistLock<Records>, pass: Pass<Records>, seat: MarkSeat, share: Share) -> Mover
    requires fresh { IsFreshPass lock.now lock.now.count pass }
    requires share { IsFreshShare lock.now.home.shares share }
    requires seat { seat.home ≡ lock.now.home.words }
    ensures pass { result.pass ≡ pass }
    ensures of { IsMoverOf lock.now result }
    ensures fresh { IsFreshMover result }
{
    let _ = lock;
    let given = Given {
        yes: false,
        no: false,
        later: false,
        dont_need: false,
        dont_know: false,
    };
    Mover {
        pass,
        seat,
        share: Some(share),
        given,
        last: None,
        answered: 0,
    }
}

// A mover for each seat, with the last passes and shares, the last one first.
fn all_movers(
    lock: &HistLock<Records>,
    passes: &mut Vec<Pass<Records>>,
    shares: &mut Vec<Share>,
    mut seats: Vec<MarkSeat>,
    mut movers: Vec<Mover>,
) -> Vec<Mover>
    requires fresh { All (IsFreshPass lock.now lock.now.count) passes.old.items }
    requires shares { All (IsFreshShare lock.now.home.shares) shares.old.items }
    requires seats { All (λ s. s.home ≡ lock.now.home.words) seats.items }
    requires count { (length shares.old.items ≡ length passes.old.items) × (length seats.items ≤ length passes.old.items) }
    requires none { movers.items ≡ [] }
    requires room { length seats.items ≤ vec_capacity movers }
    ensures passes { (dealt : List (PassState RecordEntry TableHome)) × (passes.old.items ≡ passes.new.items ++ dealt) ×
        (length dealt ≡ length seats.items) × (map (λ m. m.pass) result.items ≡ reverse dealt) }
    ensures shares { All (IsFreshShare lock.now.home.shares) shares.new.items }
    ensures count { length shares.new.items ≡ length passes.new.items }
    ensures of { All (IsMoverOf lock.now) result.items }
    ensures fresh { All IsFreshMover result.items }
{
    while let Some(seat) = seats.pop() {
        let Some(pass) = passes.pop() else {
            unreachable!()
        };
        let Some(share) = shares.pop() else {
            unreachable!()
        };
        movers.push_reserved(mover_of(lock, pass, seat, share));
    }
    movers
}

// A session for each pass that is left, the last one first.
fn all_sessions(
    alloc: Global,
    lock: &HistLock<Records>,
    mut passes: Vec<Pass<Records>>,
    mut shares: Vec<Share>,
    mut sessions: Vec<Session>,
) -> Result<Vec<Session>, AllocError>
    requires fresh { All (IsFreshPass lock.now lock.now.home.workers) passes.items }
    requires shares { All (IsFreshShare lock.now.home.shares) shares.items }
    requires count { length shares.items ≡ length passes.items }
    requires none { sessions.items ≡ [] }
    requires room { length passes.items ≤ vec_capacity sessions }
    ensures passes { IfOk result (λ r. map (λ s. s.pass) r.items ≡ reverse passes.items) }
    ensures fresh { IfOk result (λ r. All IsFreshSession r.items) }
{
    while let Some(pass) = passes.pop() {
        let Some(share) = shares.pop() else {
            unreachable!()
        };
        sessions.push_reserved(session_of(alloc, lock, pass, share)?);
    }
    Ok(sessions)
}

impl RecordTable {
    /// A table with no record, for so many names, over the buffers that `home` names; with a session for each number of commands in
    /// `scripts`, and so many movers. All memory that is ever needed is taken here.
    pub fn create(
        alloc: Global,
        home: Home,
        names: u32,
        buffers: u32,
        scripts: &[u32],
        movers: u32,
    ) -> Result<(RecordTable, Vec<Session>, Vec<Mover>), AllocError>
        requires some { 0 < length scripts.now }
        requires workers { length scripts.now ≤ 16 }
        requires room { sum scripts.now < 2 ^ 32 }
        requires count { length scripts.now + movers < 2 ^ 32 }
        requires names { names ≤ 262144 }
        requires buffers { (buffers ≡ length home.cells) × (buffers ≤ 65536) }
        ensures home { IfOk result (λ r. r.0.home.cache ≡ home) }
        ensures sizes { IfOk result (λ r. (r.0.home.names ≡ names) × (r.0.home.workers ≡ length scripts.now)) }
        ensures count { IfOk result (λ r. r.0.count ≡ length scripts.now + movers) }
        ensures room { IfOk result (λ r. r.0.room ≡ sum scripts.now) }
        ensures sessions { IfOk result (λ r. map (λ s. s.pass) r.1.items ≡ fresh_passes r.0 0 scripts.now) }
        ensures of { IfOk result (λ r. All (λ s. s.pass.site ≡ r.0) r.1.items) }
        ensures fresh { IfOk result (λ r. All IsFreshSession r.1.items) }
        ensures movers { IfOk result (λ r. map (λ m. m.pass) r.2.items ≡ fresh_passes r.0 (length scripts.now) (replicate movers 0)) }
        ensures fresh_movers { IfOk result (λ r. All IsFreshMover r.2.items) }
        ensures movers_of { IfOk result (λ r. All (IsMoverOf r.0) r.2.items) }
    {
        let workers = scripts.len() as u32;
        let count = workers + movers;
        let quotas = quotas_of(alloc, scripts, count as usize)?;
        let room = Room::create(alloc, count)?;
        let share_room = Room::create(alloc, count)?;
        let sessions = Vec::with_capacity(alloc, scripts.len())?;
        let asking = Vec::with_capacity(alloc, movers as usize)?;
        let (records, marks, seats, mut shares) = Records::create(
            alloc,
            home.again(),
            names,
            buffers,
            workers,
            movers,
        )?;
        let (lock, mut passes) = HistLock::create(alloc, records, &quotas)?;
        let mut asking = all_movers(&lock, &mut passes, &mut shares, seats, asking);
        let mut sessions = all_sessions(alloc, &lock, passes, shares, sessions)?;
        asking.reverse();
        sessions.reverse();
        let table = RecordTable {
            lock,
            marks,
            home,
            passes: room,
            shares: share_room,
        };
        Ok((table, sessions, asking))
    }
}
