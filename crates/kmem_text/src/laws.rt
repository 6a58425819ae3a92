//! Laws of the grammar. Each is the contract of a function with an empty body.

ghost use Rattle.std.specs.Prelude.{◌≡◌, ◌↔◌, ◌<◌, ◌^◌, ◌++◌, ◌∷◌, ℕ, List, false, None};
ghost use Rattle.std.specs.List.{AllByRecursion};
ghost use Rattle.kmem_text.specs.Grammar.{lines_of, tokens_of, holds_command, spelled_lines, first_bad, first_bad_of};
ghost use Rattle.kmem_text.specs.Grammar.{script_of, script_of_lines};
ghost use Rattle.kmem_text.specs.Layout.{HasNoLineFeed, as_lines, Laid, IsLaid, laid_text, laid_tokens, IsGoodLine, written};
ghost use Rattle.kmem_text.specs.declared.spelling.SpelledLine.{SpelledLine};

/// What in an input counts for nothing: the lines are those that were put one behind the other; a line's tokens are the same
/// for any blanks between them and with a carriage return at its end; and a line that holds no command, as a comment and a
/// blank line, changes no command.
pub fn law_layout()
    ensures lines { (lines : List (List ℕ)) (rest : List ℕ) → AllByRecursion HasNoLineFeed lines →
        lines_of (as_lines lines ++ rest) ≡ lines ++ lines_of rest }
    ensures tokens { (line : Laid) → IsLaid line → tokens_of (laid_text line) ≡ laid_tokens line }
    ensures one_line { (line : Laid) → IsLaid line → HasNoLineFeed (laid_text line) }
    ensures commands { (workers : ℕ) (before after : List (List ℕ)) (line : List ℕ) → holds_command (tokens_of line) ≡ false →
        spelled_lines workers (before ++ line ∷ after) ≡ spelled_lines workers (before ++ after) }
    ensures faults { (workers number : ℕ) (before after : List (List ℕ)) (line : List ℕ) → holds_command (tokens_of line) ≡ false →
        (first_bad workers number (before ++ line ∷ after) ≡ None) ↔ (first_bad workers number (before ++ after) ≡ None) }
{}

/// A script that is written by the grammar is read as itself.
pub fn law_written()
    ensures good { (workers : ℕ) (lines : List SpelledLine) → workers < 2 ^ 32 → AllByRecursion (IsGoodLine workers) lines →
        first_bad_of workers (written lines) ≡ None }
    ensures script { (workers : ℕ) (lines : List SpelledLine) → workers < 2 ^ 32 → AllByRecursion (IsGoodLine workers) lines →
        script_of workers (written lines) ≡ script_of_lines lines }
{}
