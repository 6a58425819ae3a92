//! Counting moves by how they ended.

ghost use Rattle.std.specs.Prelude.{◌≡◌, []};
ghost use Rattle.kmem_answers.specs.Words.{said_of};
ghost use Rattle.consolidator.specs.Tallies.{counted, tally_begun, tally_gone, tally_answered, tally_of, tally_sum};

use kmem_buf::Verdict;
use object_cache::Tally;

/// No move.
pub fn no_moves() -> Tally
    ensures { result ≡ tally_of [] }
{
    Tally {
        begun: 0,
        yes: 0,
        no: 0,
        later: 0,
        dont_need: 0,
        dont_know: 0,
        gone: 0,
    }
}

/// Counts a move that was begun. A count that is at its greatest stays, here and below.
pub fn count_begun(tally: &mut Tally)
    ensures { tally.new ≡ tally_begun tally.old }
{
    tally.begun = tally.begun.saturating_add(1);
}

/// Counts a move that ended unasked.
pub fn count_gone(tally: &mut Tally)
    ensures { tally.new ≡ tally_gone tally.old }
{
    tally.gone = tally.gone.saturating_add(1);
}

/// Counts a move that ended by this answer.
pub fn count_answer(tally: &mut Tally, verdict: Verdict)
    ensures { tally.new ≡ tally_answered (said_of verdict) tally.old }
{
    match verdict {
        Verdict::Yes => tally.yes = tally.yes.saturating_add(1),
        Verdict::No => tally.no = tally.no.saturating_add(1),
        Verdict::Later => tally.later = tally.later.saturating_add(1),
        Verdict::DontNeed => tally.dont_need = tally.dont_need.saturating_add(1),
        Verdict::DontKnow => tally.dont_know = tally.dont_know.saturating_add(1),
    }
}

/// Counts a move that was begun and ended by this answer.
pub fn count(tally: &mut Tally, verdict: Verdict)
    ensures { tally.new ≡ counted tally.old (said_of verdict) }
{
    count_begun(tally);
    count_answer(tally, verdict);
}

/// Counts as many moves more as another tally does, by how they ended. A count that would pass its greatest stays there.
pub fn add(tally: &mut Tally, more: &Tally)
    ensures { tally.new ≡ tally_sum tally.old more.now }
{
    tally.begun = tally.begun.saturating_add(more.begun);
    tally.yes = tally.yes.saturating_add(more.yes);
    tally.no = tally.no.saturating_add(more.no);
    tally.later = tally.later.saturating_add(more.later);
    tally.dont_need = tally.dont_need.saturating_add(more.dont_need);
    tally.dont_know = tally.dont_know.saturating_add(more.dont_know);
    tally.gone = tally.gone.saturating_add(more.gone);
}
