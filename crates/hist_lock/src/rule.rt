//! The table under the lock: its words, its slot, and what its seats know.
//! Word 0 counts the tickets that were drawn, word 1 those that were served, and word 2 is the length of the history. The
//! words from 3 on are bells; behind these come the least count of entries that is waited for, and the door.
//! Slot 0 has the value.
use crate::told::Told;
use atomic_table::{Join, Play, Seat, Shared, Split, Table, TableRule};
use std::alloc::Global;
use std::collections::LinkedList;
use std::marker::{Brand, PhantomData};
use std::snapshot::Snapshot;

/// The value under the lock. The journal is the history that the object stands for.
#[derive(Drop)]
pub struct Held<O, E> {
    pub object: O,
    pub journal: Vec<(u32, E)>,
}

/// What the lock is told once. The object is the one that it was made with.
#[derive(Drop)]
pub struct Terms<O> {
    pub origin: Snapshot<O>,
    pub room: u32,
    pub count: u32,
}

/// The same as a seat knows it. No value of it is made, nor of the types below.
pub struct Bounds<H> {
    pub home: H,
    pub room: u64,
    pub count: u64,
}

pub struct Claim<E> {
    pub number: u64,
    pub seen: LinkedList<(u64, E)>,
    pub mine: LinkedList<E>,
}

pub enum Stage {
    Idle,
    /// It has drawn a ticket.
    Waiting,
    /// Its ticket is served, and the value is at home.
    Called,
    /// It has the value.
    Holding,
}

/// What a seat knows. A pass has one claim, and those of the passes that it took in.
pub struct View<E, H> {
    pub bounds: Option<Bounds<H>>,
    /// How many passes the first seat has dealt.
    pub dealt: Option<u64>,
    pub left: u64,
    pub stage: Stage,
    /// Tickets are counted without an end here, and modulo 2^64 in the words.
    pub ticket: u64,
    pub claims: LinkedList<Claim<E>>,
}

pub struct OneHistory;

impl<O: Told> TableRule<Held<O, O::Entry>, View<O::Entry, O::Home>, Terms<O>> for OneHistory {
    ghost use Rattle.hist_lock.specs.Rule.{OneLog, bounds_of, dealer};

    ghost holds = { λ terms s. OneLog (bounds_of O.home terms) O.stands O.home s };

    ghost first = { λ terms. dealer (bounds_of O.home terms) };
}

pub struct Draw;

impl<O, E, H> Play<Held<O, E>, View<E, H>> for Draw {
    ghost use Rattle.hist_lock.specs.Steps.{Draws};

    ghost then = { Draws };
}

pub struct Look;

impl<O, E, H> Play<Held<O, E>, View<E, H>> for Look {
    ghost use Rattle.hist_lock.specs.Steps.{Looks};

    ghost then = { Looks };
}

pub struct Take;

impl<O: Told> Play<Held<O, O::Entry>, View<O::Entry, O::Home>> for Take {
    ghost use Rattle.hist_lock.specs.Steps.{Takes};

    ghost then = { Takes O.stands O.home };
}

pub struct Raise;

impl<O, E, H> Play<Held<O, E>, View<E, H>> for Raise {
    ghost use Rattle.hist_lock.specs.Steps.{Raises};

    ghost then = { Raises };
}

pub struct Give;

impl<O, E, H> Play<Held<O, E>, View<E, H>> for Give {
    ghost use Rattle.hist_lock.specs.Steps.{Gives};

    ghost then = { Gives };
}

pub struct Serve;

impl<O, E, H> Play<Held<O, E>, View<E, H>> for Serve {
    ghost use Rattle.hist_lock.specs.Steps.{Serves};

    ghost then = { Serves };
}

pub struct Ring;

impl<O, E, H> Play<Held<O, E>, View<E, H>> for Ring {
    ghost use Rattle.hist_lock.specs.Steps.{Rings};

    ghost then = { Rings };
}

pub struct Learn;

impl<O, E, H> Play<Held<O, E>, View<E, H>> for Learn {
    ghost use Rattle.hist_lock.specs.Steps.{Learns};

    ghost then = { Learns };
}

/// How many entries a pass may make. Each call that deals a pass picks it.
pub trait Quota {
    ghost use Rattle.std.specs.Prelude.{ℕ};

    ghost quota: { ℕ };
}

impl Quota for Brand {
    ghost quota = { 0 };
}

pub struct Deal<Q>(PhantomData<Q>);

impl<E, H, Q: Quota> Split<View<E, H>> for Deal<Q> {
    ghost use Rattle.hist_lock.specs.Steps.{dealt_one, newcomer};

    ghost left = { dealt_one Q.quota };

    ghost right = { newcomer Q.quota };
}

pub struct Gather;

impl<E, H> Join<View<E, H>> for Gather {
    ghost use Rattle.hist_lock.specs.Steps.{joined, spent};

    ghost both = { joined };

    ghost spent = { spent };
}

pub type Line<O> = Shared<
    Held<O, <O as Told>::Entry>,
    View<<O as Told>::Entry, <O as Told>::Home>,
    Terms<O>,
    OneHistory,
>;

pub type Whole<O> = Table<
    Held<O, <O as Told>::Entry>,
    View<<O as Told>::Entry, <O as Told>::Home>,
    Terms<O>,
    OneHistory,
    Global,
>;

pub type Place<O> = Seat<Held<O, <O as Told>::Entry>, View<<O as Told>::Entry, <O as Told>::Home>>;
