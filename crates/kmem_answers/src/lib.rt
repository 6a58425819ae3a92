//! A client's answer as the entry rules of a cache name it.
#![tactic(auto)]

ghost use Rattle.std.specs.Prelude.{◌≡◌};
ghost use Rattle.kmem_answers.specs.Words.{said_of};

use kmem_buf::Verdict;
use kmem_model::Said;

/// The entry rules' word for an answer.
pub fn said_of(verdict: Verdict) -> Said
    ensures { result ≡ said_of verdict }
{
    match verdict {
        Verdict::Yes => Said::Yes,
        Verdict::No => Said::No,
        Verdict::Later => Said::Later,
        Verdict::DontNeed => Said::DontNeed,
        Verdict::DontKnow => Said::DontKnow,
    }
}
