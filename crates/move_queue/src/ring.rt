//! The kinds of step of the ring of jobs, each in one function.
ghost use Rattle.std.specs.Prelude.{◌≡◌, ◌<◌, ◌≤◌, [], List, MatchOption, MatchResult};
ghost use Rattle.crossbeam_queue.specs.Fifo.{Held};
ghost use Rattle.crossbeam_queue.specs.Passes.{view, IsSamePass, IsPassOf, ruled_capacity};
ghost use Rattle.object_cache.specs.Moves.{JobState, IsJobOf};
ghost use Rattle.move_queue.specs.Rule.{opener, untold, dealt, newcomer, joined, Pushed, Popped, IsNumbered, KnowsAll};

use crate::rule::{Deal, Gather, Place, Pop, Push, Quota, Ring, Tell, Terms, Told};
use kmem_buf::Kind;
use object_cache::Job;
use std::sync::Wait;

/// Tells the first seat the terms.
pub fn tell<B: Told, K: Kind>(ring: &Ring<K>, pass: &mut Place<K>, terms: &Terms)
    requires of { IsPassOf ring.now pass.old }
    requires first { view pass.old ≡ untold }
    requires terms { terms.now ≡ B.terms }
    requires seats { 0 < terms.now.seats }
    ensures same { IsSamePass pass.old pass.new }
    ensures told { view pass.new ≡ opener terms.now }
{
    let _nobody = ring.another::<Tell<B>>(pass);
}

/// Deals a seat with so many pushes.
pub fn deal_pass<B: Quota, K: Kind>(ring: &Ring<K>, dealer: &mut Place<K>, quota: u32) -> Place<K>
    requires of { IsPassOf ring.now dealer.old }
    requires quota { quota ≡ B.quota }
    requires unused { ((view dealer.old).pushed ≡ []) × ((view dealer.old).popped ≡ []) }
    requires some { 0 < (view dealer.old).seats }
    requires enough { quota ≤ (view dealer.old).left }
    ensures same { IsSamePass dealer.old dealer.new }
    ensures dealer { view dealer.new ≡ dealt quota (view dealer.old) }
    ensures pass { IsPassOf ring.now result × (view result ≡ newcomer quota (view dealer.old)) }
{
    ring.another::<Deal<B>>(dealer)
}

/// Takes in another seat.
pub fn join_pass<K: Kind>(ring: &Ring<K>, pass: &mut Place<K>, other: Place<K>)
    requires of { IsPassOf ring.now pass.old × IsPassOf ring.now other }
    requires some { 0 < (view pass.old).seats }
    ensures same { IsSamePass pass.old pass.new }
    ensures joined { view pass.new ≡ joined (view pass.old) (view other) }
{
    ring.absorb::<Gather>(pass, other);
}

/// Puts the job last. It comes back where there is no room.
pub fn push<K: Kind, R: Wait>(
    ring: &Ring<K>,
    rt: &R,
    pass: &mut Place<K>,
    job: Job<K>,
) -> Result<(), Job<K>>
    requires of { IsPassOf ring.now pass.old }
    requires some { 0 < (view pass.old).seats }
    requires left { 1 ≤ (view pass.old).left }
    requires job { IsJobOf K.constructed (view pass.old).terms.home job }
    ensures same { IsSamePass pass.old pass.new }
    ensures pushed { MatchResult result
        (λ _. Pushed (view pass.old) job (view pass.new))
        (λ back. (back ≡ job) × (view pass.new ≡ view pass.old) × Held (ruled_capacity ring.now) (IsNumbered (view pass.old))) }
{
    ring.push_as::<Push, R>(rt, pass, job)
}

/// Takes the first job, if there is any.
pub fn pop<K: Kind, R: Wait>(ring: &Ring<K>, rt: &R, pass: &mut Place<K>) -> Option<Job<K>>
    requires of { IsPassOf ring.now pass.old }
    requires some { 0 < (view pass.old).seats }
    ensures same { IsSamePass pass.old pass.new }
    ensures popped { MatchOption result
        ((view pass.new ≡ view pass.old) × Held 0 (KnowsAll (view pass.old)))
        (λ job. Popped K.constructed (view pass.old) job (view pass.new)) }
{
    ring.pop_as::<Pop<K>, R>(rt, pass)
}

/// How many jobs stand.
pub fn count_jobs<K: Kind, R: Wait>(ring: &Ring<K>, rt: &R, pass: &mut Place<K>) -> usize
    requires of { IsPassOf ring.now pass.old }
    ensures same { IsSamePass pass.old pass.new × (view pass.new ≡ view pass.old) }
    ensures few { result ≤ ruled_capacity ring.now }
    ensures jobs { Held result (KnowsAll (view pass.old)) }
{
    ring.len_as::<Pop<K>, R>(rt, pass)
}

/// What a seat that stands for all seats knows of the jobs that stand.
pub fn learn_all<K: Kind>(ring: &Ring<K>, pass: &mut Place<K>)
    requires of { IsPassOf ring.now pass.old }
    ensures same { IsSamePass pass.old pass.new × (view pass.new ≡ view pass.old) }
    ensures jobs { (items : List (JobState K.Object)) × KnowsAll (view pass.old) items }
{
    ring.learn_as::<Pop<K>>(pass);
}
