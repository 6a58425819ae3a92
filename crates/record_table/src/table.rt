//! The table that threads share.
use crate::records::Records;
use crate::shares::Share;
use hist_lock::{HistLock, Pass};
use kmem_buf::Home;
use kmem_cache::Room;
use marks::Marks;
use std::marker::Model;

/// Records that threads share. To contracts it is its lock's `Site`: which lock it is, what no turn changes, how many entries its sessions
/// may make in all, and how many sessions and movers there are.
#[derive(Drop)]
pub struct RecordTable {
    pub(crate) lock: HistLock<Records>,
    pub(crate) marks: Marks,
    pub(crate) home: Home,
    // For what `close` takes apart.
    pub(crate) passes: Room<Pass<Records>>,
    pub(crate) shares: Room<Share>,
}

impl Model for RecordTable {
    ghost use Rattle.hist_lock.specs.Passes.{Site};
    ghost use Rattle.record_table.specs.Tables.{TableHome, IsTable};

    ghost Value = { Site TableHome };

    ghost view = { λ t. t.lock };

    ghost invariant = { λ t. IsTable t.lock t.marks t.home t.passes t.shares };
}
