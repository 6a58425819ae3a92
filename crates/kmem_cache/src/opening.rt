//! How a shared cache is made.
ghost use Rattle.std.specs.Prelude.{◌≡◌, ◌^◌, ◌<◌, ◌≤◌, [], length, map, reverse, sum, All, IfOk, vec_capacity};
ghost use Rattle.hist_lock.specs.Passes.{fresh_passes};
ghost use Rattle.depot.specs.Depot.{fresh_depot_seat};
ghost use Rattle.kmem_cache.specs.Locked.{IsStanding, home_under};
ghost use Rattle.kmem_cache.specs.Seats.{IsCacheSeat, fresh_cache_seat};
ghost use Rattle.kmem_cache.specs.Opening.{IsAsMade, IsFreshPass, home_made};

use crate::count::Count;
use crate::locked::Locked;
use crate::room::Room;
use crate::seat::CacheSeat;
use crate::shared_cache::Cache;
use depot::{Depot, DepotSeat};
use hist_lock::{HistLock, Pass};
use kmem_buf::Kind;
use magazine::{Cpu, Magazine};
use object_cache::ObjectCache;
use std::alloc::{AllocError, Global};

// The cache as it lies under the lock, before any entry.
fn locked_of<K: Kind>(cache: ObjectCache<K>) -> Locked<K>
    requires { IsAsMade cache }
    ensures stands { IsStanding result [] }
    ensures home { home_under result ≡ home_made cache }
    ensures chunks { 0 < result.chunks }
{
    let slabs = cache.slabs();
    let chunks = cache.chunks();
    Locked {
        cache,
        entries: 0,
        slabs,
        chunks,
    }
}

// A seat that nothing was done with.
fn seat_one<K: Kind>(
    alloc: Global,
    store: &Depot<K>,
    pass: Pass<Locked<K>>,
    depot: DepotSeat,
) -> Result<CacheSeat<K>, AllocError>
    requires fresh { IsFreshPass store.now.home pass }
    requires depot { depot ≡ fresh_depot_seat store.now }
    ensures { IfOk result (λ seat. seat ≡ fresh_cache_seat store.now pass) }
{
    let cpu = Cpu::<K>::create(alloc)?;
    let spare = Magazine::<K>::create(alloc)?;
    Ok(CacheSeat {
        pass,
        cpu,
        spare: Some(spare),
        depot,
        lent: Count::none(),
        returned: Count::none(),
    })
}

// A seat for each pass, the last one first.
fn seat_all<K: Kind>(
    alloc: Global,
    store: &Depot<K>,
    mut passes: Vec<Pass<Locked<K>>>,
    mut depots: Vec<DepotSeat>,
    mut seats: Vec<CacheSeat<K>>,
) -> Result<Vec<CacheSeat<K>>, AllocError>
    requires fresh { All (IsFreshPass store.now.home) passes.items }
    requires depots { All (λ d. d ≡ fresh_depot_seat store.now) depots.items }
    requires count { length depots.items ≡ length passes.items }
    requires none { seats.items ≡ [] }
    requires room { length passes.items ≤ vec_capacity seats }
    ensures { IfOk result (λ seats. seats.items ≡ map (fresh_cache_seat store.now) (reverse passes.items)) }
{
    while let Some(pass) = passes.pop() {
        let Some(depot) = depots.pop() else {
            unreachable!()
        };
        seats.push_reserved(seat_one(alloc, store, pass, depot)?);
    }
    Ok(seats)
}

impl<K: Kind + Drop> Cache<K> {
    /// Shares the object cache, with a seat for each quota, in order: a quota is how many entries the seat may make. The depot has so
    /// many places, with empty magazines. All memory that is ever needed beside the objects' is taken here.
    pub fn create(
        alloc: Global,
        cache: ObjectCache<K>,
        places: u32,
        quotas: &[u32],
    ) -> Result<(Cache<K>, Vec<CacheSeat<K>>), AllocError>
        requires made { IsAsMade cache }
        requires some { 0 < length quotas.now }
        requires count { length quotas.now < 2 ^ 32 }
        requires room { sum quotas.now < 2 ^ 32 }
        requires places { 1 ≤ places }
        ensures home { IfOk result (λ r. r.0.lock.home ≡ home_made cache) }
        ensures room { IfOk result (λ r. r.0.lock.room ≡ sum quotas.now) }
        ensures count { IfOk result (λ r. r.0.lock.count ≡ length quotas.now) }
        ensures places { IfOk result (λ r. r.0.depot.places ≡ places) }
        ensures seats { IfOk result (λ r. r.1.items ≡ map (fresh_cache_seat r.0.depot) (fresh_passes r.0.lock 0 quotas.now)) }
        ensures of { IfOk result (λ r. All (IsCacheSeat r.0) r.1.items) }
        ensures many { IfOk result (λ r. length r.1.items ≡ r.0.lock.count) }
    {
        let count = quotas.len() as u32;
        let passes = Room::create(alloc, count)?;
        let stores = Room::create(alloc, count)?;
        let cpus = Room::create(alloc, count)?;
        let seats = Vec::with_capacity(alloc, quotas.len())?;
        let (store, depots) = Depot::create(alloc, cache.home(), places, count)?;
        let (lock, dealt) = HistLock::create(alloc, locked_of(cache), quotas)?;
        let mut seats = seat_all(alloc, &store, dealt, depots, seats)?;
        seats.reverse();
        let made = Cache {
            lock,
            store,
            places,
            passes,
            stores,
            cpus,
        };
        Ok((made, seats))
    }
}
