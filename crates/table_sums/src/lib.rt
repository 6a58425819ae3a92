//! Sums over lists of views. The rules of tables state by them that each of some numbers stands with one seat, once.
#![tactic(auto)]

ghost use Rattle.std.specs.Prelude.{◌≡◌, ℕ, List};
ghost use Rattle.std.specs.List.{sum_by, range_with_len};
ghost use Rattle.table_sums.specs.Spread.{IsNumbering};

/// Numbers that weigh the same as 0, 1 and so on up to a count, however numbers are weighed, are these, each once.
pub fn law_numbering()
    ensures { (numbers : List ℕ) (count : ℕ) →
        ((weight : ℕ → ℕ) → sum_by weight numbers ≡ sum_by weight (range_with_len 0 count)) → IsNumbering numbers count }
{}
