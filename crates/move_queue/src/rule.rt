//! The two structures of a queue, and what a seat knows of each: `specs/Rule.antt` has the rule of the ring of jobs, and
//! `specs/Count.antt` that of the count. The count is a word beside the ring, of the jobs that are under way: being pushed, standing,
//! or popped and not yet counted off. A pop that finds nothing leaves no trace in a seat of the ring, so seats have their marks here.
use atomic_table::{Join, Play, Seat, Shared, Split, Table, TableRule};
use crossbeam_queue::protocol::{Lesson, Outcome, Protocol};
use crossbeam_queue::{Pass, RuledArrayQueue};
use kmem_buf::{Home, Kind};
use object_cache::{Begun, Job};
use std::alloc::Global;
use std::collections::LinkedList;
use std::marker::{Brand, PhantomData};

/// What a queue is told once.
#[derive(Drop)]
pub struct Terms {
    /// Of the cache whose moves the jobs are.
    pub home: Home,
    /// How many pushes all seats may make.
    pub quotas: u64,
    pub seats: u64,
}

/// What a seat knows of the ring. No value of it is made.
pub struct View<X> {
    /// How many seats of the queue it stands for: the first one for those that it has yet to deal.
    pub seats: u64,
    pub terms: Terms,
    /// How many pushes it may make yet.
    pub left: u64,
    /// The jobs that it pushed, each with its number among all pushes.
    pub pushed: LinkedList<(u64, Begun<X>)>,
    /// The jobs that it popped, each with its number among all pops.
    pub popped: LinkedList<(u64, Begun<X>)>,
}

/// What a seat knows of the count. No value of it is made.
pub struct CountView {
    pub seats: u64,
    pub left: u64,
    /// How many jobs it counted in, and how many off.
    pub counted: u64,
    pub counted_off: u64,
    /// Of those that it counted in, how many it is pushing.
    pub pending: u64,
    /// How many of its seats are not done.
    pub busy: u64,
}

pub struct InOrder<K: Kind>(PhantomData<K>);

impl<K: Kind> Protocol<Begun<K::Object>, View<K::Object>> for InOrder<K> {
    ghost use Rattle.move_queue.specs.Rule.{IsQueued, untold};

    ghost holds = { IsQueued K.constructed };

    ghost first = { untold };
}

pub struct Push;

impl<X> Outcome<Begun<X>, View<X>> for Push {
    ghost use Rattle.move_queue.specs.Rule.{Pushed};

    ghost then = { Pushed };
}

impl<X> Lesson<Begun<X>, View<X>> for Push {
    ghost use Rattle.move_queue.specs.Rule.{IsNumbered};

    ghost fact = { λ v items. IsNumbered v items };
}

pub struct Pop<K: Kind>(PhantomData<K>);

impl<K: Kind> Outcome<Begun<K::Object>, View<K::Object>> for Pop<K> {
    ghost use Rattle.move_queue.specs.Rule.{Popped};

    ghost then = { Popped K.constructed };
}

impl<K: Kind> Lesson<Begun<K::Object>, View<K::Object>> for Pop<K> {
    ghost use Rattle.move_queue.specs.Rule.{KnowsAll};

    ghost fact = { λ v items. KnowsAll v items };
}

/// The number of pushes that a seat is dealt.
pub trait Quota {
    ghost quota: { ℕ };

    ghost use Rattle.std.specs.Prelude.{ℕ};
}

impl Quota for Brand {
    ghost quota = { 0 };
}

/// What the first seat is told.
pub trait Told {
    ghost use Rattle.move_queue.specs.declared.rule.Terms.{Terms};

    ghost terms: { Terms };
}

impl Told for Brand {
    ghost use Rattle.move_queue.specs.Rule.{no_terms};

    ghost terms = { no_terms };
}

/// The first seat is told the terms. The other one stands for no seat.
pub struct Tell<B>(PhantomData<B>);

impl<X, B: Told> Split<View<X>> for Tell<B> {
    ghost use Rattle.move_queue.specs.Rule.{opener, spent};

    ghost left = { λ _. opener B.terms };

    ghost right = { λ _. spent };
}

pub struct Deal<B>(PhantomData<B>);

impl<X, B: Quota> Split<View<X>> for Deal<B> {
    ghost use Rattle.move_queue.specs.Rule.{dealt, newcomer};

    ghost left = { dealt B.quota };

    ghost right = { newcomer B.quota };
}

impl<B: Quota> Split<CountView> for Deal<B> {
    ghost use Rattle.move_queue.specs.Count.{count_dealt, count_newcomer};

    ghost left = { count_dealt B.quota };

    ghost right = { λ _. count_newcomer B.quota };
}

pub struct Gather;

impl<X> Join<View<X>> for Gather {
    ghost use Rattle.move_queue.specs.Rule.{joined, spent};

    ghost both = { joined };

    ghost spent = { spent };
}

impl Join<CountView> for Gather {
    ghost use Rattle.move_queue.specs.Count.{count_joined, count_spent};

    ghost both = { count_joined };

    ghost spent = { count_spent };
}

pub struct UnderWay;

impl TableRule<(), CountView, Terms> for UnderWay {
    ghost use Rattle.move_queue.specs.Count.{IsCounted, count_opener};

    ghost holds = { λ terms s. IsCounted terms.quotas terms.seats s };

    ghost first = { λ terms. count_opener terms.quotas terms.seats };
}

pub struct Add;

impl Play<(), CountView> for Add {
    ghost use Rattle.move_queue.specs.Count.{added, Becomes};

    ghost then = { λ _ me _ me'. Becomes added me me' };
}

pub struct Release;

impl Play<(), CountView> for Release {
    ghost use Rattle.move_queue.specs.Count.{released, Becomes};

    ghost then = { λ _ me _ me'. Becomes released me me' };
}

pub struct Commit;

impl Play<(), CountView> for Commit {
    ghost use Rattle.move_queue.specs.Count.{committed, Becomes};

    ghost then = { λ _ me _ me'. Becomes committed me me' };
}

pub struct TakeOff;

impl Play<(), CountView> for TakeOff {
    ghost use Rattle.move_queue.specs.Count.{taken_off, Becomes};

    ghost then = { λ _ me _ me'. Becomes taken_off me me' };
}

pub struct Look;

impl Play<(), CountView> for Look {
    ghost use Rattle.move_queue.specs.Count.{Looked};

    ghost then = { λ _ me found me'. Looked found me me' };
}

pub type Ring<K> = RuledArrayQueue<Job<K>, View<<K as Kind>::Object>, InOrder<K>>;

pub type Place<K> = Pass<Job<K>, View<<K as Kind>::Object>>;

pub type Line = Shared<(), CountView, Terms, UnderWay>;

pub type Word = Table<(), CountView, Terms, UnderWay, Global>;

pub type Mark = Seat<(), CountView>;
