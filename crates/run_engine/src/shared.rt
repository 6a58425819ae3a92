//! What all threads of a run share.

use kmem_cache::Cache;
use move_queue::MoveQueue;
use record_heap::RecordKind;
use record_table::RecordTable;

/// The cache, the records and the queue of moves.
#[derive(Drop)]
pub struct Shared {
    pub cache: Cache<RecordKind>,
    pub table: RecordTable,
    pub queue: MoveQueue<RecordKind>,
}
