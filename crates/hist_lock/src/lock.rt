//! The lock.
ghost use Rattle.std.specs.Prelude.{◌≡◌, ℕ, ◌+◌, ◌^◌, ◌<◌, ◌≤◌, List, [], ◌∷◌, ◌++◌, length, map, sum, All, Contains, Option, Some, None, IfOk};
ghost use Rattle.hist_lock.specs.History.{IsFront, entries_of};
ghost use Rattle.std.specs.List.{sum_by, range_with_len};
ghost use Rattle.table_sums.specs.Spread.{IsNumbering};
ghost use Rattle.hist_lock.specs.Passes.{MayRun, IsQuiet, IsTurn, HasReached, HasAwaited, fresh_passes};

use crate::awaiting::reach;
use crate::deal::{deal_all, lay};
use crate::gather::gather_all;
use crate::hold::{enter, leave, note, run};
use crate::pass::Pass;
use crate::rule::{Held, Terms, Whole};
use crate::told::{Nothing, Told, Turn};
use std::alloc::{AllocError, Global};
use std::marker::Model;
use std::snapshot::Snapshot;
use std::sync::Wait;

/// A ticket lock over an object and the history that it stands for. To contracts it is a `Site`: which lock it is, the
/// object's home, how many entries its passes may make in all, and how many passes it has.
#[derive(Drop)]
pub struct HistLock<O: Told> {
    table: Whole<O>,
}

impl<O: Told> Model for HistLock<O> {
    ghost use Rattle.std.specs.Prelude.{◌≡◌, ◌<◌};
    ghost use Rattle.hist_lock.specs.Passes.{Site};
    ghost use Rattle.hist_lock.specs.Rule.{bounds_of};
    ghost use Rattle.hist_lock.specs.Seats.{site_of};

    ghost Value = { Site O.Home };

    ghost view = { λ l. site_of l.table.shared.table_id (bounds_of O.home l.table.shared.key) };

    ghost invariant = { λ l. (l.table.shared.table_id.words ≡ 21) × (l.table.shared.table_id.slots ≡ 1) × (0 < l.table.shared.key.count) };
}

impl<O: Told + Drop> HistLock<O> {
    /// A lock over the object, with one pass for each quota, in order, numbered from 0. The room for all entries is taken
    /// here. Where there is none, the object is dropped.
    pub fn create(
        alloc: Global,
        object: O,
        quotas: &[u32],
    ) -> Result<(HistLock<O>, Vec<Pass<O>>), AllocError>
        requires some { 0 < length quotas.now }
        requires count { length quotas.now < 2 ^ 32 }
        requires room { sum quotas.now < 2 ^ 32 }
        requires stands { O.stands object [] }
        ensures home { IfOk result (λ r. r.0.home ≡ O.home object) }
        ensures room { IfOk result (λ r. r.0.room ≡ sum quotas.now) }
        ensures count { IfOk result (λ r. r.0.count ≡ length quotas.now) }
        ensures passes { IfOk result (λ r. r.1.items ≡ fresh_passes r.0 0 quotas.now) }
    {
        let terms = Terms {
            origin: Snapshot::of(&object),
            room: quotas.iter().sum(),
            count: quotas.len() as u32,
        };
        let passes = Vec::with_capacity(alloc, quotas.len())?;
        let (table, dealer) = lay(alloc, object, &terms)?;
        let passes = deal_all(&table.shared, dealer, &terms, quotas, passes);
        Ok((HistLock { table }, passes))
    }
}

impl<O: Told> HistLock<O> {
    /// Has the turn run on the object, at the end of the history as it then is. The turn may make one entry. It may wait
    /// for other passes' turns.
    pub fn act<T: Turn<O>, R: Wait>(&self, rt: &R, pass: &mut Pass<O>, turn: T) -> T::Out
        requires of { pass.old.site ≡ self.now }
        requires left { 1 ≤ pass.old.left }
        requires can { MayRun O.stands O.home (T.can turn) pass.old }
        ensures { (h : List (ℕ × O.Entry)) × (entry : Option O.Entry) ×
            IsTurn O.stands O.home (T.tells turn pass.old.number pass.old.site.home) pass.old pass.new result h entry }
    {
        let line = &self.table.shared;
        enter(rt, line, &mut pass.seat);
        let (out, entry) = run(line, &mut pass.seat, pass.number, turn);
        pass.left = note(line, &mut pass.seat, pass.number, pass.left, entry);
        leave(line, &mut pass.seat);
        out
    }

    /// The same for a turn that makes no entry.
    pub fn look<T: Turn<O>, R: Wait>(&self, rt: &R, pass: &mut Pass<O>, turn: T) -> T::Out
        requires of { pass.old.site ≡ self.now }
        requires can { MayRun O.stands O.home (T.can turn) pass.old }
        requires quiet { IsQuiet (T.tells turn pass.old.number pass.old.site.home) }
        ensures { (h : List (ℕ × O.Entry)) ×
            IsTurn O.stands O.home (T.tells turn pass.old.number pass.old.site.home) pass.old pass.new result h None }
    {
        let line = &self.table.shared;
        enter(rt, line, &mut pass.seat);
        let (out, entry) = run(line, &mut pass.seat, pass.number, turn);
        let None = entry else { unreachable!() };
        leave(line, &mut pass.seat);
        out
    }

    // Waits until the history has so many entries. The pass has then seen these.
    fn reach<R: Wait>(&self, rt: &R, pass: &mut Pass<O>, count: u32)
        requires of { pass.old.site ≡ self.now }
        ensures { HasReached count pass.old pass.new }
    {
        reach(rt, &self.table.shared, &mut pass.seat, count);
    }

    /// Comes back once the history has so many entries; the pass has then seen one that has. It sleeps until then, and makes one
    /// turn at the end, so it comes back only where other passes make these entries.
    pub fn await_count<R: Wait>(&self, rt: &R, pass: &mut Pass<O>, count: u32)
        requires of { pass.old.site ≡ self.now }
        ensures { HasAwaited O.stands O.home count pass.old pass.new }
    {
        self.reach(rt, pass, count);
        self.look(rt, pass, Nothing)
    }

    /// Ends the lock, once all its passes are back: gives the object, and the history that it stands for.
    pub fn close(self, passes: Vec<Pass<O>>) -> (O, Vec<(u32, O::Entry)>)
        requires of { All (λ p. p.site ≡ self) passes.items }
        requires count { length passes.items ≡ self.count }
        ensures stands { O.stands result.0 result.1.items }
        ensures home { O.home result.0 ≡ self.home }
        ensures fronts { All (λ p. IsFront p.seen result.1.items) passes.items }
        ensures exact { All (λ p. entries_of p.number result.1.items ≡ p.mine) passes.items }
        ensures numbers { IsNumbering (map (λ p. p.number) passes.items) self.count }
        ensures weighs { (weight : ℕ → ℕ) →
            sum_by weight (map (λ p. p.number) passes.items) ≡ sum_by weight (range_with_len 0 self.count) }
        ensures room { length result.1.items ≤ self.room }
        ensures others { All (λ x. Contains (map (λ p. p.number) passes.items) x.0) result.1.items }
    {
        let HistLock { table } = self;
        let seat = gather_all(&table.shared, passes);
        let mut closed = table.close_with(seat);
        let Held { object, journal } = closed.take(0);
        closed.free();
        (object, journal)
    }
}
