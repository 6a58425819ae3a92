//! Laws of what a run prints, and of what it leaves. Each is the contract of a function with an empty body.
#![tactic(auto)]

ghost use Rattle.std.specs.Prelude.{◌≡◌, ◌≤◌, true, ℕ, List, Option, None, is_some, length, count_by, slice_index_or};
ghost use Rattle.kmem_text.specs.Grammar.{Plain};
ghost use Rattle.kmem_text.specs.Scripts.{IsScript};
ghost use Rattle.kmem_model.specs.declared.record_entry.RecordEntry.{RecordEntry};
ghost use Rattle.kmem_model.specs.CacheState.{CacheState, is_out, out_count};
ghost use Rattle.kmem_model.specs.Heap.{Object};
ghost use Rattle.kmem_model.specs.Says.{AreInBuffers};
ghost use Rattle.kmem_model.specs.SettleWhole.{IsWhole};
ghost use Rattle.kmem_model.specs.RunLines.{run_text, IsHistoryOf};

/// What a run prints fixes its history: for one script, two histories of it that are printed alike are the same, whatever reports are behind
/// them, and so are these.
pub fn law_printed()
    ensures { (workers : ℕ) (script : Plain) (g h : List (ℕ × RecordEntry)) (r s : List ℕ) → workers ≤ 16 → IsScript workers script →
        IsHistoryOf workers script g → IsHistoryOf workers script h →
        run_text workers script.names g r ≡ run_text workers script.names h s → (g ≡ h) × (r ≡ s) }
{}

/// Objects that lie in buffers that are out, as many as are out, lie in exactly these.
pub fn law_just_these()
    ensures { (s : CacheState) (objects : List (Option Object)) → IsWhole s → length objects ≡ length s.asked →
        ((b : ℕ) → is_some (slice_index_or objects b None) ≡ true → is_out s b ≡ true) →
        count_by is_some objects ≡ out_count s → AreInBuffers s objects }
{}

#[cfg(test)]
mod tests {
    use super::{law_just_these, law_printed};

    #[test]
    fn laws_can_be_called() {
        law_printed();
        law_just_these();
    }
}
