//! Record commands and their replies, and a script of commands.

ghost use Rattle.std.specs.Prelude.{◌≡◌, ◌<◌};

use super::{Name, Value};
use std::marker::Model;

/// The place of a name in a script's list of names, which ascends, so that the order of places is the order of names.
#[derive(Clone, Copy, Debug, PartialEq, Eq)]
pub struct NameId(pub u32);

/// One of a worker's tags, 0 to 7.
#[derive(Clone, Copy, Debug, PartialEq, Eq)]
pub struct Tag {
    number: u8,
}

impl Model for Tag {
    ghost use Rattle.std.specs.Prelude.{ℕ, ◌<◌};

    ghost Value = { ℕ };

    ghost view = { λ tag. tag.number };

    ghost invariant = { λ tag. tag.number < 8 };

    ghost inverse = { λ number. record { number = number } };
}

impl Tag {
    pub fn new(number: u8) -> Tag
        requires { number < 8 }
        ensures { result ≡ number }
    {
        Tag { number }
    }

    pub fn number(self) -> u8
        ensures is { result ≡ self }
        ensures small { result < 8 }
    {
        self.number
    }
}

#[derive(Clone, Copy, Debug, PartialEq, Eq)]
pub enum Command {
    /// Gives a name a value: a new record's, or its own record's in place of the old one.
    Put(NameId, Value),
    /// Asks for the value of a name.
    Get(NameId),
    /// Takes a name out.
    Del(NameId),
    /// Asks for the least name.
    First,
    /// Asks for the least name that is greater than this one.
    Next(NameId),
    /// Asks for the number of names.
    Count,
    /// Gives the record of the first name the second name too.
    Link(NameId, NameId),
    /// Lets a tag of the worker hold the record of a name.
    Hold(Tag, NameId),
    /// Asks for the value of the record that a tag holds.
    Read(Tag),
    /// Gives the record that a tag holds a value.
    Write(Tag, Value),
    /// Lets the record go that a tag holds.
    Drop(Tag),
    /// Fixes the record of a name, so that it isn't moved.
    Fix(NameId),
    /// Lets the record of a name be moved again.
    Loose(NameId),
}

#[derive(Clone, Copy, Debug, PartialEq, Eq)]
pub enum Reply {
    /// The name has a new record.
    New,
    /// The old value, in place of which there is a new one.
    Was(Value),
    /// There is no room for a record.
    Full,
    /// The value of the name that was taken out.
    Gone(Value),
    /// The value that was asked for.
    Val(Value),
    /// There is no such name.
    Absent,
    /// The name that was asked for, and its value.
    At(NameId, Value),
    /// How many names there are.
    Number(u32),
    /// The command was carried out.
    Done,
    /// The second name of a link is there already.
    Taken,
    /// The record has as many names as a record may have.
    Many,
    /// The tag holds a record already.
    Used,
    /// The tag holds no record.
    Idle,
}

/// One command of a worker. Workers are counted from 1.
#[derive(Clone, Copy, Debug, PartialEq, Eq)]
pub struct Line {
    pub worker: u32,
    pub command: Command,
}

/// The commands of all workers, in the order of the file. `names` has each name once, ascending by bytes.
#[derive(Drop)]
pub struct Script {
    pub names: Vec<Name>,
    pub lines: Vec<Line>,
}
