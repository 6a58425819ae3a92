//! Words that are read one by one, each read being counted.
ghost use Rattle.std.specs.Prelude.{◌≡◌, ◌+◌, ◌<◌, ◌^◌, IfOk, length, replicate, slice_index, slice_set};

use crate::steps::Steps;
use std::alloc::{AllocError, Global};
use std::marker::Model;

/// A row of words. To contracts it is their list.
#[derive(Drop)]
pub struct Words {
    words: Vec<u64>,
}

impl Model for Words {
    ghost use Rattle.std.specs.Prelude.{ℕ, List};

    ghost Value = { List ℕ };

    ghost view = { λ w. w.words.items };
}

impl Words {
    /// All words are 0.
    pub fn create(alloc: Global, len: usize) -> Result<Words, AllocError>
        ensures { IfOk result (λ w. w ≡ replicate len 0) }
    {
        Ok(Words {
            words: Vec::from_elem(alloc, 0, len)?,
        })
    }

    /// The word at this place. There is no other way to read one.
    pub fn word(&self, at: usize, steps: &mut Steps) -> u64
        requires range { at < length self.now }
        requires steps { steps.old < 2 ^ 63 }
        ensures word { result ≡ slice_index self.now at }
        ensures counted { steps.new ≡ steps.old + 1 }
    {
        steps.add();
        self.words[at]
    }

    /// Writes the word at this place.
    pub fn set(&mut self, at: usize, word: u64)
        requires { at < length self.old }
        ensures { self.new ≡ slice_set self.old at word }
    {
        self.words[at] = word;
    }
}
