//! The lines of an input, one after the other.

ghost use Rattle.std.specs.Prelude.{◌≡◌, ◌+◌, ◌≤◌, ◌∷◌, ◌≢◌, [], length, MatchOption, OnOk, IfErr, Some, slice_get, is_some, if◌then◌else◌};
ghost use Rattle.std.specs.Str.Lines.{strip_carriage_return};
ghost use Rattle.run_check.specs.Cursor.{lines_in};

use crate::fault::Fault;
use kmem_text::{CARRIAGE_RETURN, cut_line};

/// The lines that are left, and how many were taken before them.
#[derive(Drop)]
pub struct Lines<'a> {
    pub rest: &'a [u8],
    pub taken: u32,
    ghost small: { taken + length rest.now ≤ 16777216 },
}

impl<'a> Lines<'a> {
    /// The next line, without a carriage return at its end.
    pub fn next(&mut self) -> Option<&'a [u8]>
        ensures line { MatchOption result (lines_in self.old.rest.now ≡ []) (λ line. lines_in self.old.rest.now ≡ line.now ∷ lines_in self.new.rest.now) }
        ensures taken { self.new.taken ≡ (if is_some result then self.old.taken + 1 else self.old.taken) }
    {
        if self.rest.is_empty() {
            return None;
        }
        let (line, rest) = cut_line(self.rest);
        *self = Lines {
            rest,
            taken: self.taken + 1,
        };
        Some(without_return(line))
    }

    /// The number of the next line, counted from 1, whether it is there or not.
    pub fn number(&self) -> u32
        ensures number { result ≡ self.now.taken + 1 }
    {
        self.taken + 1
    }

    /// Takes the next line, which has to be this one.
    pub fn expect(&mut self, header: &[u8]) -> Result<(), Fault>
        ensures ok { OnOk result ((lines_in self.old.rest.now ≡ header.now ∷ lines_in self.new.rest.now) × (self.new.taken ≡ self.old.taken + 1)) }
        ensures err { IfErr result (λ fault. (fault ≡ Fault.Illegal (self.old.taken + 1)) × (slice_get (lines_in self.old.rest.now) 0 ≢ Some header.now)) }
    {
        let number = self.number();
        match self.next() {
            Some(line) if line == header => Ok(()),
            _ => Err(Fault::Illegal { line: number }),
        }
    }
}

/// The line without one carriage return at its end.
pub fn without_return(line: &[u8]) -> &[u8]
    ensures { result.now ≡ strip_carriage_return line.now }
{
    match line {
        [front @ .., CARRIAGE_RETURN] => front,
        _ => line,
    }
}
