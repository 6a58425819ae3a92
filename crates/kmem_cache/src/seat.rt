//! A seat of a shared cache.
use crate::count::Count;
use crate::locked::Locked;
use depot::DepotSeat;
use hist_lock::Pass;
use kmem_buf::Kind;
use magazine::{Cpu, Magazine};
use std::marker::Model;

/// The right to use a shared cache, for one thread: a pass of its lock, a seat of its depot, two magazines and a spare empty one.
/// Where one was dropped, the cache can't be closed.
#[derive(Drop)]
pub struct CacheSeat<K: Kind> {
    pub(crate) pass: Pass<Locked<K>>,
    pub(crate) cpu: Cpu<K>,
    // It is there between any two calls.
    pub(crate) spare: Option<Magazine<K>>,
    pub(crate) depot: DepotSeat,
    pub(crate) lent: Count,
    pub(crate) returned: Count,
}

impl<K: Kind> Model for CacheSeat<K> {
    ghost use Rattle.kmem_cache.specs.Seats.{CacheSeatState};
    ghost use Rattle.kmem_cache.specs.Seated.{seat_of, IsSeated};

    ghost Value = { CacheSeatState };

    ghost view = { λ s. seat_of s.pass s.cpu s.depot s.lent s.returned };

    ghost invariant = { λ s. IsSeated K.constructed s.pass s.cpu s.spare s.depot s.lent s.returned };
}

impl<K: Kind> CacheSeat<K> {
    ghost use Rattle.std.specs.Prelude.{◌≡◌, length};

    /// How many entries it may still make.
    pub fn left(&self) -> u32
        ensures { result ≡ self.now.pass.left }
    {
        self.pass.left()
    }

    /// How many buffers lie in its magazines.
    pub fn rounds(&self) -> u32
        ensures { result ≡ length self.now.rounds }
    {
        self.cpu.len()
    }
}
