//! Whether a cache is fragmented.
ghost use Rattle.std.specs.Prelude.{◌≡◌, ◌*◌, nat_lt, count_by, sum_by, if◌then◌else◌};
ghost use Rattle.kmem_model.specs.CacheState.{is_listed, free_buffers};
ghost use Rattle.kmem_model.specs.CacheOrder.{is_partial};

use kmem_buf::Kind;
use slab_list::SlabList;

/// Whether more than an eighth of the buffers of listed slabs is free on partial slabs.
pub fn is_fragmented<K: Kind>(list: &SlabList<K>) -> bool
    ensures { result ≡ nat_lt (list.now.chunks * count_by is_listed list.now.slabs)
        (8 * sum_by (λ slab. if is_partial slab then free_buffers slab else 0) list.now.slabs) }
{
    u64::from(list.chunks()) * u64::from(list.listed_count())
        < 8 * u64::from(list.free_on_partial())
}
