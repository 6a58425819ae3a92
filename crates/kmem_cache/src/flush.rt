//! How rounds go back to the slabs, once a cache is closed.
ghost use Rattle.std.specs.Prelude.{◌≡◌, All, length};
ghost use Rattle.std.specs.List.{sum_by};
ghost use Rattle.magazine.specs.Layer.{layer_rounds};
ghost use Rattle.magazine.specs.Ready.{AreReady};
ghost use Rattle.kmem_cache.specs.Closing.{IsFlushed};

use kmem_buf::Kind;
use magazine::{Cpu, Magazine};
use object_cache::ObjectCache;

// Frees each round of the two magazines.
fn flush_cpu<K: Kind>(cache: &mut ObjectCache<K>, mut cpu: Cpu<K>)
    requires ready { AreReady K.constructed cache.old.home (layer_rounds cpu) }
    ensures flushed { IsFlushed (length (layer_rounds cpu)) cache.old.state cache.new.state }
    ensures home { cache.new.home ≡ cache.old.home }
{
    while let Some(buf) = cpu.take() {
        cache.free(buf);
    }
}

// Frees each round of the magazine.
fn flush_magazine<K: Kind>(cache: &mut ObjectCache<K>, mut magazine: Magazine<K>)
    requires ready { AreReady K.constructed cache.old.home magazine }
    ensures flushed { IsFlushed (length magazine) cache.old.state cache.new.state }
    ensures home { cache.new.home ≡ cache.old.home }
{
    while let Some(buf) = magazine.pop() {
        cache.free(buf);
    }
}

/// Frees each round of each seat's magazines.
pub fn flush_cpus<K: Kind>(cache: &mut ObjectCache<K>, mut cpus: Vec<Cpu<K>>)
    requires ready { All (λ l. AreReady K.constructed cache.old.home (layer_rounds l)) cpus.items }
    ensures flushed { IsFlushed (sum_by (λ l. length (layer_rounds l)) cpus.items) cache.old.state cache.new.state }
    ensures home { cache.new.home ≡ cache.old.home }
{
    while let Some(cpu) = cpus.pop() {
        flush_cpu(cache, cpu);
    }
}

/// Frees each round of the magazines.
pub fn flush_magazines<K: Kind>(cache: &mut ObjectCache<K>, mut magazines: Vec<Magazine<K>>)
    requires ready { All (AreReady K.constructed cache.old.home) magazines.items }
    ensures flushed { IsFlushed (sum_by length magazines.items) cache.old.state cache.new.state }
    ensures home { cache.new.home ≡ cache.old.home }
{
    while let Some(magazine) = magazines.pop() {
        flush_magazine(cache, magazine);
    }
}
