//! The end of a shared cache.
ghost use Rattle.std.specs.Prelude.{◌≡◌, ◌+◌, ◌<◌, ◌≤◌, List, ℕ, [], length, map, reverse, All, vec_capacity};
ghost use Rattle.std.specs.List.{sum_by};
ghost use Rattle.table_sums.specs.Spread.{IsNumbering};
ghost use Rattle.kmem_model.specs.CacheState.{out_count};
ghost use Rattle.hist_lock.specs.History.{IsFront, entries_of};
ghost use Rattle.kmem_cache.specs.Seats.{buffers_at, IsCacheSeat};
ghost use Rattle.kmem_cache.specs.Closing.{AreParts, HasClosed};

use crate::flush::{flush_cpus, flush_magazines};
use crate::locked::Locked;
use crate::log::CacheLog;
use crate::seat::CacheSeat;
use crate::shared_cache::Cache;
use depot::DepotSeat;
use hist_lock::Pass;
use kmem_buf::Kind;
use kmem_model::{law_counts, law_follows};
use magazine::Cpu;
use object_cache::ObjectCache;

// What the seats of a cache are made of.
struct Parts<K: Kind> {
    passes: Vec<Pass<Locked<K>>>,
    stores: Vec<DepotSeat>,
    cpus: Vec<Cpu<K>>,
}

// Takes all seats apart.
fn part_all<K: Kind>(mut seats: Vec<CacheSeat<K>>, parts: Parts<K>) -> Parts<K>
    requires none { (parts.passes.items ≡ []) × (parts.stores.items ≡ []) × (parts.cpus.items ≡ []) }
    requires room { (length seats.items ≤ vec_capacity parts.passes) × (length seats.items ≤ vec_capacity parts.stores) ×
        (length seats.items ≤ vec_capacity parts.cpus) }
    ensures passes { result.passes.items ≡ map (λ s. s.pass) (reverse seats.items) }
    ensures stores { result.stores.items ≡ map (λ s. s.depot) (reverse seats.items) }
    ensures cpus { AreParts K.constructed (reverse seats.items) result.cpus.items }
{
    let Parts {
        mut passes,
        mut stores,
        mut cpus,
    } = parts;
    while let Some(seat) = seats.pop() {
        let CacheSeat {
            pass,
            cpu,
            spare: _,
            depot,
            lent: _,
            returned: _,
        } = seat;
        passes.push_reserved(pass);
        stores.push_reserved(depot);
        cpus.push_reserved(cpu);
    }
    Parts {
        passes,
        stores,
        cpus,
    }
}

impl<K: Kind> Cache<K> {
    /// Ends the cache, once all its seats are back: gives its history, and the object cache after every round of the seats and of the
    /// depot was freed. It takes no memory and waits for nobody.
    pub fn close(self, seats: Vec<CacheSeat<K>>) -> (ObjectCache<K>, CacheLog)
        requires of { All (IsCacheSeat self) seats.items }
        requires count { length seats.items ≡ self.lock.count }
        ensures home { (result.0.home ≡ buffers_at self) × (result.1.home ≡ buffers_at self) }
        ensures closed { HasClosed self.lock.home result.1.entries result.0.state }
        ensures counts { out_count result.0.state + sum_by (λ s. s.returned) seats.items ≡ sum_by (λ s. s.lent) seats.items }
        ensures fronts { All (λ s. IsFront s.pass.seen result.1.entries) seats.items }
        ensures exact { All (λ s. entries_of s.pass.number result.1.entries ≡ s.pass.mine) seats.items }
        ensures numbers { IsNumbering (map (λ s. s.pass.number) seats.items) self.lock.count }
        ensures within { All (λ x. x.0 < self.lock.count) result.1.entries }
    {
        law_follows();
        law_counts();
        let Cache {
            lock,
            store,
            places: _,
            passes,
            stores,
            cpus,
        } = self;
        let room = Parts {
            passes: passes.open(),
            stores: stores.open(),
            cpus: cpus.open(),
        };
        let Parts {
            passes,
            stores,
            cpus,
        } = part_all(seats, room);
        let (locked, entries) = lock.close(passes);
        let magazines = store.close(stores);
        let Locked {
            mut cache,
            entries: _,
            slabs: _,
            chunks: _,
        } = locked;
        flush_cpus(&mut cache, cpus);
        flush_magazines(&mut cache, magazines);
        let home = cache.home();
        (cache, CacheLog { entries, home })
    }
}
