//! The table of a depot, and what its seats know: `specs/Rule.antt` has their rule.
//! Word p is the turn word of place p: 0 while the place is free with an empty magazine, 1 while it is free with a full one, and
//! 2 while a seat turns it. Slot p has its magazine, which is at home while the place is free.
use atomic_table::{Join, Play, Seat, Shared, Split, Table, TableRule};
use kmem_buf::{Home, Kind};
use magazine::Rounds;
use std::alloc::Global;
use std::collections::LinkedList;
use std::marker::PhantomData;

/// What the depot is told once.
#[derive(Drop)]
pub struct Terms {
    pub home: Home,
    pub seats: u32,
}

/// What a seat knows. No value of it is made.
pub struct View {
    /// How many seats of the depot it stands for: the first seat for those that it has yet to deal.
    pub seats: u64,
    pub home: Home,
    /// The full magazines that it put in: each with its place, as the numbers of its rounds.
    pub put: LinkedList<(u64, LinkedList<u32>)>,
    /// Those that it took out.
    pub taken: LinkedList<(u64, LinkedList<u32>)>,
    /// The place that it turns, with the numbers of the rounds that it found there.
    pub turning: Option<(u64, LinkedList<u32>)>,
    /// What its swaps of turn words found, each with its place.
    pub tries: LinkedList<(u64, u64)>,
}

pub struct Turns<K: Kind>(PhantomData<K>);

impl<K: Kind> TableRule<Rounds<K::Object>, View, Terms> for Turns<K> {
    ghost use Rattle.depot.specs.Rule.{IsShared, opener};

    ghost holds = { λ terms s. IsShared K.constructed terms.home terms.seats s };

    ghost first = { λ terms. opener terms.home terms.seats };
}

pub struct Turn<K: Kind>(PhantomData<K>);

impl<K: Kind> Play<Rounds<K::Object>, View> for Turn<K> {
    ghost use Rattle.depot.specs.Steps.{Turned};

    ghost then = { Turned K.constructed };
}

pub struct Leave;

impl<X> Play<Rounds<X>, View> for Leave {
    ghost use Rattle.depot.specs.Steps.{Left};

    ghost then = { Left };
}

pub struct Settle;

impl<X> Play<Rounds<X>, View> for Settle {
    ghost use Rattle.depot.specs.Steps.{Settled};

    ghost then = { Settled };
}

pub struct Deal;

impl Split<View> for Deal {
    ghost use Rattle.depot.specs.Steps.{dealt_one, newcomer};

    ghost left = { dealt_one };

    ghost right = { newcomer };
}

pub struct Gather;

impl Join<View> for Gather {
    ghost use Rattle.depot.specs.Rule.{spent};
    ghost use Rattle.depot.specs.Steps.{joined};

    ghost both = { joined };

    ghost spent = { spent };
}

pub type Line<K> = Shared<Rounds<<K as Kind>::Object>, View, Terms, Turns<K>>;

pub type Whole<K> = Table<Rounds<<K as Kind>::Object>, View, Terms, Turns<K>, Global>;

pub type Place<K> = Seat<Rounds<<K as Kind>::Object>, View>;
