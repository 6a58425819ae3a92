//! The model: what the words, the records, the slab consolidator and the output of a run mean, as definitions over plain
//! numbers and lists, and the laws that they keep. Beside it words whose reads are counted.
#![tactic(auto)]

mod cache_entry;
mod cache_state;
mod heap_laws;
mod history_laws;
mod laws;
mod plan;
mod record_entry;
mod record_laws;
mod run_laws;
mod settle_laws;
mod steps;
mod words;

pub use cache_entry::{CacheEntry, Said};
pub use cache_state::{Mode, PendingMove, Standing};
pub use heap_laws::{law_answers, law_one_settle, law_relocation, law_stage};
pub use history_laws::{law_counts, law_follows, law_history, law_taken};
pub use laws::{law_alloc_or_full, law_begin_or_idle, law_order, law_places, law_rows};
pub use plan::Plan;
pub use record_entry::RecordEntry;
pub use record_laws::{law_one, law_one_step, law_out, law_room, law_step};
pub use run_laws::{law_just_these, law_printed};
pub use settle_laws::{
    law_fewest, law_moves, law_rest_marked, law_scans, law_settle, law_settle_entries,
    law_settle_rows, law_whole,
};
pub use steps::Steps;
pub use words::Words;
