//! The steps of the plain map.

ghost use Rattle.std.specs.Prelude.{◌≡◌, ◌+◌, ◌*◌, ◌<◌, ◌≤◌, ◌^◌, length, OnOk, IfOk, IfSome, IfNone, ℕ, true, false};
ghost use Rattle.std.specs.Ordering.{nat_cmp};
ghost use Rattle.std.specs.BTreeSet.{contains};
ghost use Rattle.kmem_model.specs.Records.{id_of, held_at, least_name, no_records, tag_place, present_count};
ghost use Rattle.kmem_model.specs.RecordStep.{put_step, get_step, at_step, link_step, hold_step, read_step, write_step};
ghost use Rattle.run_check.specs.PlainMaps.{del_kept, drop_kept, fix_kept};
ghost use Rattle.run_check.specs.Kept.{kept_map, IsKept};

use crate::plain_map::PlainMap;
use kmem_model::law_order;
use kmem_text::{NameId, Reply, Value};
use std::alloc::{AllocError, Global};
use std::collections::BTreeSet;

/// The most names that a record may have.
const MOST_NAMES: u32 = 8;

impl PlainMap {
    /// The map without records, with room for these names and for the tags of these workers.
    pub fn create(alloc: Global, names: usize, workers: u32) -> Result<PlainMap, AllocError>
        requires names { names < 2 ^ 32 }
        requires workers { workers ≤ 16 }
        ensures { IfOk result (λ map. IsKept map × (kept_map map ≡ no_records names workers)) }
    {
        Ok(PlainMap {
            names: vec![in alloc; None; names]?,
            tags: vec![in alloc; None; 8 * workers as usize]?,
            values: Vec::new(alloc),
            counts: Vec::new(alloc),
            present: BTreeSet::new(alloc),
            count: 0,
        })
    }

    pub fn put(&mut self, name: NameId, value: &Value) -> Result<Reply, AllocError>
        requires kept { IsKept self.old }
        requires name { name.0 < length self.old.names.items }
        requires few { (length self.old.names.items < 2 ^ 31) × (length self.old.values.items < 2 ^ 31) }
        ensures kept { OnOk result (IsKept self.new) }
        ensures map { OnOk result (kept_map self.new ≡ (put_step (kept_map self.old) name.0 value.now (id_of (kept_map self.old) name.0)).map) }
        ensures reply { IfOk result (λ reply. reply ≡ (put_step (kept_map self.old) name.0 value.now (id_of (kept_map self.old) name.0)).reply) }
    {
        match self.names[name.0 as usize] {
            Some(id) => {
                let old = self.values[id as usize];
                self.values[id as usize] = *value;
                Ok(Reply::Was(old))
            }
            None => {
                let id = self.values.len() as u32;
                self.present.insert(name.0)?;
                self.values.push(*value)?;
                self.counts.push(1)?;
                self.names[name.0 as usize] = Some(id);
                self.count += 1;
                Ok(Reply::New)
            }
        }
    }

    pub fn get(&self, name: NameId) -> Reply
        requires kept { IsKept self.now }
        requires name { name.0 < length self.now.names.items }
        ensures { result ≡ (get_step (kept_map self.now) (id_of (kept_map self.now) name.0)).reply }
    {
        match self.names[name.0 as usize] {
            Some(id) => Reply::Val(self.values[id as usize]),
            None => Reply::Absent,
        }
    }

    pub fn del(&mut self, name: NameId) -> Reply
        requires kept { IsKept self.old }
        requires name { name.0 < length self.old.names.items }
        ensures kept { IsKept self.new }
        ensures map { kept_map self.new ≡ (del_kept (kept_map self.old) name.0 (id_of (kept_map self.old) name.0)).map }
        ensures reply { result ≡ (del_kept (kept_map self.old) name.0 (id_of (kept_map self.old) name.0)).reply }
    {
        let Some(id) = self.names[name.0 as usize] else {
            return Reply::Absent;
        };
        let value = self.values[id as usize];
        self.names[name.0 as usize] = None;
        self.present.remove(&name.0);
        self.count -= 1;
        self.counts[id as usize] -= 1;
        Reply::Gone(value)
    }

    /// The least name from this one on, with its value.
    pub fn next(&self, from: u32) -> Reply
        requires kept { IsKept self.now }
        requires names { length self.now.names.items < 2 ^ 31 }
        ensures { result ≡ (at_step (kept_map self.now) (least_name (kept_map self.now) from)).reply }
    {
        law_order();
        let Some(name) = self.least(from) else {
            return Reply::Absent;
        };
        match self.names[name as usize] {
            Some(id) => Reply::At(NameId(name), self.values[id as usize]),
            None => unreachable!(),
        }
    }

    /// The least name that is present, from this one on.
    fn least(&self, from: u32) -> Option<u32>
        requires { IsKept self.now }
        ensures { result ≡ least_name (kept_map self.now) from }
    {
        law_order();
        first_from(&self.present, from)
    }

    pub fn link(&mut self, name: NameId, other: NameId) -> Result<Reply, AllocError>
        requires kept { IsKept self.old }
        requires names { (name.0 < length self.old.names.items) × (other.0 < length self.old.names.items) }
        requires few { length self.old.names.items < 2 ^ 31 }
        ensures kept { OnOk result (IsKept self.new) }
        ensures map { OnOk result (kept_map self.new ≡ (link_step (kept_map self.old) other.0 (id_of (kept_map self.old) name.0)).map) }
        ensures reply { IfOk result (λ reply. reply ≡ (link_step (kept_map self.old) other.0 (id_of (kept_map self.old) name.0)).reply) }
    {
        let Some(id) = self.names[name.0 as usize] else {
            return Ok(Reply::Absent);
        };
        if self.names[other.0 as usize].is_some() {
            return Ok(Reply::Taken);
        }
        if self.counts[id as usize] == MOST_NAMES {
            return Ok(Reply::Many);
        }
        self.present.insert(other.0)?;
        self.names[other.0 as usize] = Some(id);
        self.counts[id as usize] += 1;
        self.count += 1;
        Ok(Reply::Done)
    }

    pub fn hold(&mut self, place: usize, name: NameId) -> Reply
        requires kept { IsKept self.old }
        requires name { name.0 < length self.old.names.items }
        requires place { place < length self.old.tags.items }
        ensures kept { IsKept self.new }
        ensures map { kept_map self.new
            ≡ (hold_step (kept_map self.old) place (held_at (kept_map self.old) place) (id_of (kept_map self.old) name.0)).map }
        ensures reply { result
            ≡ (hold_step (kept_map self.old) place (held_at (kept_map self.old) place) (id_of (kept_map self.old) name.0)).reply }
    {
        if self.tags[place].is_some() {
            return Reply::Used;
        }
        let Some(id) = self.names[name.0 as usize] else {
            return Reply::Absent;
        };
        self.tags[place] = Some(id);
        Reply::Done
    }

    pub fn read(&self, place: usize) -> Reply
        requires kept { IsKept self.now }
        requires place { place < length self.now.tags.items }
        ensures { result ≡ (read_step (kept_map self.now) (held_at (kept_map self.now) place)).reply }
    {
        match self.tags[place] {
            Some(id) => Reply::Val(self.values[id as usize]),
            None => Reply::Idle,
        }
    }

    pub fn write(&mut self, place: usize, value: &Value) -> Reply
        requires kept { IsKept self.old }
        requires place { place < length self.old.tags.items }
        ensures kept { IsKept self.new }
        ensures map { kept_map self.new ≡ (write_step (kept_map self.old) value.now (held_at (kept_map self.old) place)).map }
        ensures reply { result ≡ (write_step (kept_map self.old) value.now (held_at (kept_map self.old) place)).reply }
    {
        let Some(id) = self.tags[place] else {
            return Reply::Idle;
        };
        let old = self.values[id as usize];
        self.values[id as usize] = *value;
        Reply::Was(old)
    }

    pub fn release(&mut self, place: usize) -> Reply
        requires kept { IsKept self.old }
        requires place { place < length self.old.tags.items }
        ensures kept { IsKept self.new }
        ensures map { kept_map self.new ≡ (drop_kept (kept_map self.old) place (held_at (kept_map self.old) place)).map }
        ensures reply { result ≡ (drop_kept (kept_map self.old) place (held_at (kept_map self.old) place)).reply }
    {
        if self.tags[place].is_none() {
            return Reply::Idle;
        }
        self.tags[place] = None;
        Reply::Done
    }

    /// The reply to fix and loose: no reply tells whether a record is fixed, so it isn't kept.
    pub fn fix(&self, name: NameId) -> Reply
        requires { name.0 < length self.now.names.items }
        ensures { result ≡ (fix_kept (kept_map self.now) (id_of (kept_map self.now) name.0)).reply }
    {
        match self.names[name.0 as usize] {
            Some(_) => Reply::Done,
            None => Reply::Absent,
        }
    }
}

/// The least key from this one on.
fn first_from(keys: &BTreeSet<u32>, from: u32) -> Option<u32>
    ensures none { IfNone result ((q : ℕ) → from ≤ q → contains nat_cmp keys.now q ≡ false) }
    ensures within { IfSome result (λ key. from ≤ key) }
    ensures there { IfSome result (λ key. contains nat_cmp keys.now key ≡ true) }
    ensures least { IfSome result (λ key. (q : ℕ) → from ≤ q → contains nat_cmp keys.now q ≡ true → key ≤ q) }
{
    keys.range(from..).next().copied()
}
