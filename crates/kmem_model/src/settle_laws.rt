//! Laws of settle. Each is a function that does nothing: its contract is the law.
#![tactic(auto)]

ghost use Rattle.std.specs.Prelude.{ℕ, Bool, count_by, ◌≡◌, ◌+◌, ◌*◌, ◌<◌, true, false, List, Some, None, IsSome, replicate};
ghost use Rattle.kmem_model.specs.declared.cache_entry.Said.{Said};
ghost use Rattle.kmem_model.specs.declared.cache_entry.Said.TheVariants.{Yes, No, Later, DontKnow};
ghost use Rattle.kmem_model.specs.declared.cache_entry.CacheEntry.{CacheEntry};
ghost use Rattle.kmem_model.specs.declared.cache_entry.CacheEntry.TheVariants.{Scan, Begin, End, Forget};
ghost use Rattle.kmem_model.specs.CacheState.{CacheSizes, SlabState, CacheState, is_out, opening};
ghost use Rattle.kmem_model.specs.CacheOrder.{is_idle};
ghost use Rattle.kmem_model.specs.CacheEnter.{enter, with_answer, without_move};
ghost use Rattle.kmem_model.specs.CacheHistory.{MayEnter, Reaches};
ghost use Rattle.kmem_model.specs.SettleEntries.{moves_entries, AreEntriesOf};
ghost use Rattle.kmem_model.specs.Report.{is_end_by, is_gone_entry};
ghost use Rattle.kmem_model.specs.Settle.{Stage, EndedMove, Course, said_at, moved, scanned, is_rest_marked, is_done, with_scan, settled_in};
ghost use Rattle.kmem_model.specs.SettleRows.{six_slabs, settle_moves, settle_slabs, movable_moves, movable_slabs, fixed_moves, fixed_slabs};
ghost use Rattle.kmem_model.specs.SettleWhole.{IsWhole, IsWholeStage, IsSettled, AreAllMovable, HasFewestSlabs, is_known, enough};
ghost use Rattle.kmem_model.specs.SettleMarks.{is_at_most_one_plain};
ghost use Rattle.kmem_model.specs.SettleMeasure.{IsInSettle, scanned_all, settled};
ghost use Rattle.kmem_model.specs.SettleTurns.{with_cache, course_at, course_moved, IsMoveOn, IsScanOn};

/// A cache is whole at its opening, as a stage beside a client that knows no object. Every entry keeps it whole,
/// also while moves are pending, and so do the parts of an end; so every state that a legal history reaches is whole.
pub fn law_whole()
    ensures opening { (sizes : CacheSizes) → 0 < sizes.chunks → 0 < sizes.limit →
        IsWholeStage (record { cache = opening sizes; says = replicate (sizes.slabs * sizes.chunks) DontKnow }) }
    ensures kept { (s t : CacheState) (entry : CacheEntry) → IsWhole s → enter s entry ≡ Some t → IsWhole t }
    ensures answered { (s : CacheState) (b : ℕ) (said : Said) → IsWhole s → IsWhole (with_answer s b said) }
    ensures unpended { (s : CacheState) (j : ℕ) → IsWhole s → IsWhole (without_move s j) }
    ensures reached { (sizes : CacheSizes) (history : List (ℕ × CacheEntry)) (s : CacheState) → 0 < sizes.chunks → 0 < sizes.limit →
        Reaches sizes history s → IsWhole s }
{}

/// Settle ends: scans enough are made in each whole stage. Whatever number is allowed, what it leaves is whole
/// and settled; and a greater number allowed changes nothing.
pub fn law_settle()
    ensures ends { (stage : Stage) → IsWholeStage stage → IsSome (settled_in (enough stage) stage) }
    ensures leaves { (n : ℕ) (stage : Stage) (result : Course) → IsWholeStage stage →
        settled_in n stage ≡ Some result → IsWholeStage result.stage × IsSettled result.stage }
    ensures stays { (n k : ℕ) (stage : Stage) (result : Course) →
        settled_in n stage ≡ Some result → settled_in (n + k) stage ≡ Some result }
{}

/// Where everything can be moved, settle leaves as many buffers out, on as few slabs as can hold them.
pub fn law_fewest()
    ensures { (n : ℕ) (stage : Stage) (result : Course) → IsWholeStage stage → AreAllMovable stage →
        settled_in n stage ≡ Some result → HasFewestSlabs stage.cache result.stage.cache }
{}

/// The turns of a scan, as a loop over a cache makes them: a scan is started, moves are begun and ended until the
/// cache is idle, and where it then stands is where the scan ends.
pub fn law_moves()
    ensures started { (stage : Stage) (cache : CacheState) → IsWholeStage stage →
        enter stage.cache (Scan true) ≡ Some cache →
        IsWholeStage (with_cache stage cache) × (scanned stage ≡ moved (course_at (with_cache stage cache))) }
    // The old buffer stays out, the client knows the object there, and each of its answers may end the move.
    ensures begun { (stage : Stage) (j from to : ℕ) (cache : CacheState) → IsWholeStage stage →
        enter stage.cache (Begin j from to) ≡ Some cache →
        (is_out cache from ≡ true) × (is_known (said_at stage from) ≡ true) × ((said : Said) → MayEnter cache (End j said)) }
    ensures ended { (course : Course) (j from to : ℕ) (begun ended : CacheState) → IsWholeStage course.stage →
        enter course.stage.cache (Begin j from to) ≡ Some begun →
        enter begun (End j (said_at course.stage from)) ≡ Some ended →
        IsMoveOn course (course_moved course from to ended) }
    ensures idle { (course : Course) → is_idle course.stage.cache ≡ true → moved course ≡ Some course }
{}

/// The turns of settle, as a loop over a cache makes them: everything is forgotten, scans are made until one is
/// done, and where that one ends settle ends.
pub fn law_scans()
    ensures forgotten { (stage : Stage) (cache : CacheState) → IsWholeStage stage →
        enter stage.cache Forget ≡ Some cache →
        IsInSettle (with_cache stage cache) × (settled stage ≡ scanned_all (course_at (with_cache stage cache))) }
    ensures inside { (stage : Stage) (scan : Course) → IsInSettle stage → scanned stage ≡ Some scan → IsInSettle scan.stage }
    ensures further { (course scan : Course) → IsInSettle course.stage → scanned course.stage ≡ Some scan →
        is_done scan ≡ false → IsScanOn course (with_scan course.moves scan) }
    ensures last { (course scan : Course) → scanned course.stage ≡ Some scan → is_done scan ≡ true →
        scanned_all course ≡ Some (with_scan course.moves scan) }
{}

/// The entries of a settle: they lead from the cache before it to the cache after it, and end just its moves. And how many of the entries
/// of moves end them so; none ends unasked.
pub fn law_settle_entries()
    ensures entries { (stage : Stage) (course : Course) → IsWholeStage stage → settled stage ≡ Some course →
        (entries : List CacheEntry) × AreEntriesOf stage course entries }
    ensures ends { (is : Said → Bool) (moves : List EndedMove) →
        count_by (is_end_by is) (moves_entries moves) ≡ count_by (λ (move : EndedMove). is move.said) moves }
    ensures none_gone { (moves : List EndedMove) → count_by is_gone_entry (moves_entries moves) ≡ 0 }
{}

/// Every partial slab after the first has a mark exactly where at most one has none, and where that one is the only partial slab.
pub fn law_rest_marked()
    ensures { (slabs : List SlabState) → is_rest_marked slabs ≡ is_at_most_one_plain slabs }
{}

/// Worked settles make the moves, and leave the slabs, that were worked out by hand.
pub fn law_settle_rows()
    ensures movable { (settle_moves 3 (six_slabs Yes Yes) ≡ Some movable_moves)
        × (settle_slabs 3 (six_slabs Yes Yes) ≡ Some movable_slabs) }
    ensures fixed { (settle_moves 3 (six_slabs Later No) ≡ Some fixed_moves)
        × (settle_slabs 3 (six_slabs Later No) ≡ Some fixed_slabs) }
    // one scan less doesn't do
    ensures fixed_wrong { settle_moves 2 (six_slabs Later No) ≡ None }
{}

#[cfg(test)]
mod tests {
    use super::{
        law_fewest, law_moves, law_rest_marked, law_scans, law_settle, law_settle_entries,
        law_settle_rows, law_whole,
    };

    #[test]
    fn laws_can_be_called() {
        law_whole();
        law_settle();
        law_fewest();
        law_moves();
        law_scans();
        law_rest_marked();
        law_settle_entries();
        law_settle_rows();
    }
}
