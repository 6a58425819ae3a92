//! The history of a closed table.
use kmem_buf::Home;
use kmem_model::RecordEntry;
use std::marker::Model;

/// The history of a table that was closed, which alone makes one. No copy can be made.
#[derive(Drop)]
pub struct RecordLog {
    pub(crate) entries: Vec<(u32, RecordEntry)>,
    pub(crate) home: Home,
}

impl Model for RecordLog {
    ghost use Rattle.record_table.specs.Closing.{RecordLogState};

    ghost Value = { RecordLogState };

    ghost view = { λ l. record { entries = l.entries.items; home = l.home } };
}

impl RecordLog {
    ghost use Rattle.std.specs.Prelude.{◌≡◌};

    /// Its entries, each with the number of the pass that made it.
    pub fn entries(&self) -> &[(u32, RecordEntry)]
        ensures { result.now ≡ self.now.entries }
    {
        &self.entries
    }
}
