//! The law of what all workers made. It is the contract of a function with an empty body.

ghost use Rattle.std.specs.Prelude.{◌≡◌, ◌<◌, ◌≤◌, ℕ, List, [], All};
ghost use Rattle.kmem_text.specs.declared.command.Line.{Line};
ghost use Rattle.kmem_text.specs.Scripts.{IsWorker};
ghost use Rattle.kmem_model.specs.declared.record_entry.RecordEntry.{RecordEntry};
ghost use Rattle.kmem_model.specs.History.{worker_of, numbered, commands_of, IsShared};
ghost use Rattle.hist_lock.specs.History.{entries_of};
ghost use Rattle.run_workers.specs.Workers.{asked_of};

/// A history is shared by the lines of a script where the entries of each worker's pass are that worker's commands, numbered from 1, and the passes
/// behind the workers' have none. The passes are counted from 0, the workers' first.
pub fn law_shared()
    ensures { (workers passes : ℕ) (lines : List Line) (history : List (ℕ × RecordEntry)) →
        All (λ line. IsWorker workers line.worker) lines → All (λ e. e.0 < passes) history →
        ((pass : ℕ) → workers ≤ pass → pass < passes → entries_of pass history ≡ []) →
        ((pass : ℕ) → pass < workers → asked_of (entries_of pass history) ≡ numbered 1 (commands_of (worker_of pass) lines)) →
        IsShared history lines }
{}

#[cfg(test)]
mod tests {
    use super::law_shared;

    #[test]
    fn the_law_can_be_called() {
        law_shared();
    }
}
