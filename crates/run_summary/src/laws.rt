//! Laws of summaries. Each is the contract of a function with an empty body.

ghost use Rattle.std.specs.Prelude.{◌≡◌, ◌⊎◌, ◌++◌, ℕ, List, All, false, codes, length, map, sum};
ghost use Rattle.kmem_text.specs.Replies.{reply_text};
ghost use Rattle.kmem_text.specs.declared.command.Reply.{Reply};
ghost use Rattle.kmem_model.specs.declared.record_entry.RecordEntry.{RecordEntry};
ghost use Rattle.kmem_model.specs.History.{is_refusal};
ghost use Rattle.run_summary.specs.Summary.{first_word, kinds, count_of};

/// The counts of a summary add up to its commands; none is counted as `full` where none is refused; and a reply's kind is the first word
/// of its text, behind which there is nothing or a space.
pub fn law_summary()
    ensures all { (history : List (ℕ × RecordEntry)) → sum (map (λ kind. count_of kind history) kinds) ≡ length history }
    ensures full { (history : List (ℕ × RecordEntry)) → All (λ e. is_refusal e.1.reply ≡ false) history →
        count_of (codes "full") history ≡ 0 }
    ensures first { (names : List (List ℕ)) (reply : Reply) → (reply_text names reply ≡ first_word reply)
        ⊎ ((rest : List ℕ) × (reply_text names reply ≡ first_word reply ++ codes " " ++ rest)) }
{}
