//! What a mover waits for.

ghost use Rattle.std.specs.Prelude.{◌≡◌, ◌≤◌, ℕ};

use kmem_buf::{Kind, MoveClient};
use std::sync::Wait;

/// Spreads the scans of a mover over the commands of a run.
pub trait Pace<K: Kind, C: MoveClient<K>> {
    // How many commands are carried out before the scan of this number begins.
    ghost share: { Self → ℕ → ℕ };
    // How many commands the client has seen carried out.
    ghost seen: { C → ℕ };

    /// Comes back once the share of the scan is carried out; the client has then seen it.
    fn await_share<R: Wait>(&self, rt: &R, client: &mut C, scan: u32)
        ensures seen { share self.now scan ≤ seen client.new }
        ensures stays { (C.home client.new ≡ C.home client.old) × (C.sign client.new ≡ C.sign client.old) }
        ensures same { (C.flags client.new ≡ C.flags client.old) × (C.last client.new ≡ C.last client.old) ×
            (C.answered client.new ≡ C.answered client.old) × (C.brought client.new ≡ C.brought client.old) ×
            (C.fetched client.new ≡ C.fetched client.old) };
}
