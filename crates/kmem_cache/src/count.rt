//! Counts that only clauses read.
ghost use Rattle.std.specs.Prelude.{◌≡◌, ◌+◌};
ghost use Rattle.kmem_answers.specs.Words.{said_of};
ghost use Rattle.kmem_model.specs.CacheCounts.{handed_by};

use boxcar::tag::{Names, Tag};
use kmem_buf::Verdict;
use std::marker::Model;

/// A number that never comes to an end. It has no bytes: to contracts it is the number.
#[derive(Drop)]
pub struct Count {
    // As many numbers as were counted.
    tag: Tag,
}

impl Model for Count {
    ghost use Rattle.std.specs.Prelude.{ℕ, length};

    ghost Value = { ℕ };

    ghost view = { λ c. length c.tag.numbers };
}

struct OneMore;

impl Names<Tag> for OneMore {
    ghost use Rattle.std.specs.Prelude.{◌∷◌};

    ghost numbers = { λ tag. 0 ∷ tag.numbers };
}

impl Count {
    pub fn none() -> Count
        ensures { result ≡ 0 }
    {
        Count { tag: Tag::empty() }
    }

    pub fn one_more(&self) -> Count
        ensures { result ≡ self.now + 1 }
    {
        Count {
            tag: Tag::of::<Tag, OneMore>(&self.tag),
        }
    }

    /// Counts the buffers that such an answer hands back.
    pub fn more_by(&self, verdict: Verdict) -> Count
        ensures { result ≡ self.now + handed_by (said_of verdict) }
    {
        let one = self.one_more();
        match verdict {
            Verdict::DontNeed => one.one_more(),
            Verdict::Yes | Verdict::No | Verdict::Later | Verdict::DontKnow => one,
        }
    }
}
