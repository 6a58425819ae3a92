//! The plain map of records that a history is replayed on.

use kmem_text::Value;
use std::collections::BTreeSet;

/// Records by id, and what leads to them. An id is a record's place in `values`; records stay there when they are out of use.
#[derive(Drop)]
pub struct PlainMap {
    /// For each name, the id of its record.
    pub names: Vec<Option<u32>>,
    /// For each tag of each worker, the id of the record that it holds.
    pub tags: Vec<Option<u32>>,
    pub values: Vec<Value>,
    /// How many names each record has.
    pub counts: Vec<u32>,
    /// The names that are present, and how many these are.
    pub present: BTreeSet<u32>,
    pub count: u32,
}
