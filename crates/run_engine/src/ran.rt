//! What a run hands out.

use kmem_cache::CacheLog;
use move_queue::QueueLog;
use record_table::RecordLog;

/// What the closes of a run gave: the histories of its records and of its cache; and what its movers' seats of the queue came to.
#[derive(Drop)]
pub struct Ran {
    pub records: RecordLog,
    pub cache: CacheLog,
    pub moves: Vec<QueueLog>,
}
