//! The object of a record.
ghost use Rattle.std.specs.Prelude.{◌≡◌, ◌+◌, ◌-◌, ◌<◌, ◌≤◌, ◌==◌, ◌^◌, Some, length};
ghost use Rattle.kmem_model.specs.Heap.{blank};
ghost use Rattle.kmem_model.specs.Says.{answer_about};
ghost use Rattle.kmem_answers.specs.Words.{said_of};
ghost use Rattle.record_heap.specs.Objects.{with_value, with_fixed, with_back, without_back, held_more, held_less, is_unused};

use arrayvec::ArrayVec;
use kmem_buf::{Kind, Verdict};
use kmem_text::{NameId, Value};
use std::alloc::AllocError;
use std::marker::Model;

/// The most names that a record may have.
pub const MOST_NAMES: usize = 8;

/// What lies in a buffer: the value of its record, the names that lead here, how many tags hold it, and whether it is fixed.
#[derive(Drop)]
pub struct RecordCell {
    value: Option<Value>,
    names: ArrayVec<u32, MOST_NAMES>,
    holds: u32,
    fixed: bool,
}

impl Model for RecordCell {
    ghost use Rattle.kmem_model.specs.Heap.{Object};
    ghost use Rattle.record_heap.specs.Objects.{object_code};

    ghost Value = { Object };

    ghost coded = { object_code };

    ghost view = { λ c. record { value = c.value; names = c.names.items; holds = c.holds; fixed = c.fixed } };
}

/// The kind of the objects of records. It never refuses.
#[derive(Drop)]
pub struct RecordKind;

impl Kind for RecordKind {
    type Object = RecordCell;

    ghost use Rattle.std.specs.Prelude.{◌≡◌, true};
    ghost use Rattle.kmem_model.specs.Heap.{blank};

    ghost constructed = { λ o. o ≡ blank };

    ghost never_refuses = { true };

    fn construct(&mut self) -> Result<RecordCell, AllocError> {
        Ok(RecordCell::blank())
    }

    fn destruct(&mut self, _object: RecordCell) {}
}

impl RecordCell {
    /// An object of no record.
    pub fn blank() -> RecordCell
        ensures { result ≡ blank }
    {
        RecordCell {
            value: None,
            names: ArrayVec::new(),
            holds: 0,
            fixed: false,
        }
    }

    pub fn value(&self) -> Option<Value>
        ensures { result ≡ self.now.value }
    {
        self.value
    }

    /// Its names.
    pub fn names(&self) -> &[u32]
        ensures { result.now ≡ self.now.names }
    {
        self.names.as_slice()
    }

    /// Whether it has as many names as a record may have.
    pub fn is_full(&self) -> bool
        ensures full { result ≡ (length self.now.names == 8) }
        ensures fits { length self.now.names ≤ 8 }
    {
        self.names.is_full()
    }

    /// Whether no name and no tag leads to it.
    pub fn is_unused(&self) -> bool
        ensures { result ≡ is_unused self.now }
    {
        self.names.is_empty() && self.holds == 0
    }

    /// The answer to the question whether it could move.
    pub fn verdict(&self) -> Verdict
        ensures { said_of result ≡ answer_about (Some self.now) }
    {
        if self.value.is_none() {
            Verdict::DontNeed
        } else if self.fixed {
            Verdict::No
        } else if self.holds > 0 {
            Verdict::Later
        } else {
            Verdict::Yes
        }
    }

    pub(crate) fn clear(&mut self)
        ensures { self.new ≡ blank }
    {
        *self = RecordCell::blank();
    }

    pub(crate) fn set_value(&mut self, value: Value)
        ensures { self.new ≡ with_value value self.old }
    {
        self.value = Some(value);
    }

    pub(crate) fn set_fixed(&mut self, fixed: bool)
        ensures { self.new ≡ with_fixed fixed self.old }
    {
        self.fixed = fixed;
    }

    pub(crate) fn add_name(&mut self, name: NameId)
        requires { length self.old.names < 8 }
        ensures { self.new ≡ with_back name.0 self.old }
    {
        self.names.push(name.0);
    }

    pub(crate) fn remove_name(&mut self, name: NameId)
        ensures { self.new ≡ without_back name.0 self.old }
    {
        self.names.retain(|other| *other != name.0);
    }

    pub(crate) fn add_hold(&mut self)
        requires { self.old.holds + 1 < 2 ^ 32 }
        ensures { self.new ≡ held_more self.old }
    {
        self.holds += 1;
    }

    pub(crate) fn remove_hold(&mut self)
        requires { 0 < self.old.holds }
        ensures { self.new ≡ held_less self.old }
    {
        self.holds -= 1;
    }
}
