//! Laws of tallies and of what is noted of a mover's work.

ghost use Rattle.std.specs.Prelude.{◌≡◌, ◌++◌, ◌-◌, ◌^◌, List, [], length, min};
ghost use Rattle.kmem_model.specs.Report.{ends_in, counted_in};
ghost use Rattle.kmem_model.specs.CacheScans.{is_begin};
ghost use Rattle.kmem_model.specs.declared.cache_entry.CacheEntry.{CacheEntry};
ghost use Rattle.consolidator.specs.Notes.{Notes, noted_all};
ghost use Rattle.kmem_model.specs.SettleEntries.{moves_entries};
ghost use Rattle.kmem_model.specs.Settle.{EndedMove};
ghost use Rattle.consolidator.specs.Tallies.{tally_of, tally_sum, ends_of};

use kmem_model::law_settle_entries;

/// The tally of moves counts them, and by their entries how they ended. That of moves one after another is the sum of their tallies. Each
/// count stands still at its greatest.
pub fn law_tally()
    ensures begun { (moves : List EndedMove) → (tally_of moves).begun ≡ min (length moves) (2 ^ 64 - 1) }
    ensures yes { (moves : List EndedMove) → (tally_of moves).yes ≡ (ends_in (moves_entries moves)).yes }
    ensures no { (moves : List EndedMove) → (tally_of moves).no ≡ (ends_in (moves_entries moves)).no }
    ensures later { (moves : List EndedMove) → (tally_of moves).later ≡ (ends_in (moves_entries moves)).later }
    ensures dont_need { (moves : List EndedMove) → (tally_of moves).dont_need ≡ (ends_in (moves_entries moves)).dont_need }
    ensures dont_know { (moves : List EndedMove) → (tally_of moves).dont_know ≡ (ends_in (moves_entries moves)).dont_know }
    ensures gone { (moves : List EndedMove) → (tally_of moves).gone ≡ (ends_in (moves_entries moves)).gone }
    ensures sum { (xs ys : List EndedMove) → tally_of (xs ++ ys) ≡ tally_sum (tally_of xs) (tally_of ys) }
{
    law_settle_entries();
}

/// What a mover's entries add to a tally that was empty: the moves that they begin, and by how they end. The tallies of two movers together
/// count the entries of both.
pub fn law_notes()
    ensures begun { (n : Notes) (entries : List CacheEntry) → n.tally ≡ tally_of [] →
        (noted_all entries n).tally.begun ≡ counted_in entries is_begin }
    ensures ends { (n : Notes) (entries : List CacheEntry) → n.tally ≡ tally_of [] → ends_of (noted_all entries n).tally ≡ ends_in entries }
    ensures both_begun { (n m : Notes) (xs ys : List CacheEntry) → n.tally ≡ tally_of [] → m.tally ≡ tally_of [] →
        (tally_sum (noted_all xs n).tally (noted_all ys m).tally).begun ≡ counted_in (xs ++ ys) is_begin }
    ensures both_ends { (n m : Notes) (xs ys : List CacheEntry) → n.tally ≡ tally_of [] → m.tally ≡ tally_of [] →
        ends_of (tally_sum (noted_all xs n).tally (noted_all ys m).tally) ≡ ends_in (xs ++ ys) }
{}
