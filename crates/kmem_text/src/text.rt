//! Names and values: short texts, each in place.

ghost use Rattle.std.specs.Prelude.{◌≡◌, ◌==◌, ◌<◌, ◌≤◌, true, length, Some, None, ⊤, if◌then◌else◌};
ghost use Rattle.std.specs.List.{list_all};
ghost use Rattle.std.specs.Cmp.Lexicographic.{slice_cmp, pointwise};
ghost use Rattle.std.proofs.Common.{rules};
ghost use Rattle.std.specs.Cmp.{partial_order_from_own_ties};
ghost use Rattle.std.specs.Cmp.Rules.{comparing};
ghost use Rattle.std.specs.Ordering.{nat_cmp, as_partial_cmp};
ghost use Rattle.kmem_text.specs.Texts.{is_within, is_name_byte, is_value_byte, is_name, is_value};

use std::alloc::AllocError;
use std::cmp::Ordering;
use std::marker::Model;

/// A name: 1 to 32 bytes of `a` to `z`, `0` to `9`, `_`, `-` and `.`. Names are ordered by their bytes.
#[derive(Copy, Debug)]
pub struct Name {
    bytes: [u8; 32],
    len: u8,
}

impl Model for Name {
    ghost use Rattle.std.specs.Prelude.{◌-◌, ℕ, List, ◌++◌, length, take, replicate};
    ghost use Rattle.kmem_text.specs.Padded.{IsPadded, unpadded};
    ghost use Rattle.kmem_text.specs.Texts.{is_name};

    ghost Value = { List ℕ };

    ghost view = { λ n. take n.len n.bytes };

    ghost invariant = { λ n. IsPadded is_name 32 n.bytes n.len };

    ghost inverse = { λ text. record { bytes = text ++ replicate (32 - length text) 0; len = length text } };

    ghost inverse_ok = { λ n h. λ i.
        record { bytes = (unpadded is_name 32 n.bytes n.len h).0 i; len = (unpadded is_name 32 n.bytes n.len h).1 i } };
}

impl Clone for Name {
    ghost is_clone = { λ x y. y ≡ x };

    ghost is_infallible = { λ _. ⊤ };

    fn clone(&self) -> Result<Name, AllocError> {
        Ok(*self)
    }
}

impl PartialEq for Name {
    ghost eq = { pointwise ◌==◌ };

    ghost laws = { Prim.search (comparing, rules) };

    fn eq(&self, other: &Name) -> bool {
        self.as_bytes() == other.as_bytes()
    }
}

impl Eq for Name {
    ghost laws = { Prim.search (comparing, rules) };
}

impl PartialOrd for Name {
    ghost partial_cmp = { as_partial_cmp (slice_cmp nat_cmp) };

    ghost laws = { partial_order_from_own_ties (Prim.search (comparing, rules)) (Prim.search (comparing, rules)) };

    fn partial_cmp(&self, other: &Name) -> Option<Ordering> {
        Some(self.cmp(other))
    }
}

impl Ord for Name {
    ghost cmp = { slice_cmp nat_cmp };

    ghost total = { Prim.search (comparing, rules) };

    ghost matches_partial_cmp = { Prim.search (comparing, rules) };

    ghost matches_eq = { Prim.search (comparing, rules) };

    fn cmp(&self, other: &Name) -> Ordering {
        self.as_bytes().cmp(other.as_bytes())
    }
}

impl Name {
    /// The bytes as a name, if they are one.
    pub fn from_bytes(bytes: &[u8]) -> Option<Name>
        ensures { result ≡ (if is_name bytes.now then Some bytes.now else None) }
    {
        if !is_name(bytes) {
            return None;
        }
        let mut row = [0u8; 32];
        row[..bytes.len()].copy_from_slice(bytes);
        Some(Name {
            bytes: row,
            len: bytes.len() as u8,
        })
    }

    pub fn as_bytes(&self) -> &[u8]
        ensures text { result.now ≡ self.now }
        ensures short { length self.now ≤ 32 }
        ensures good { is_name self.now ≡ true }
    {
        &self.bytes[..self.len as usize]
    }
}

fn is_name(bytes: &[u8]) -> bool
    ensures { result ≡ is_name bytes.now }
{
    is_within(bytes.len(), 1, 32) && all_name_bytes(bytes)
}

fn all_name_bytes(bytes: &[u8]) -> bool
    ensures { result ≡ list_all is_name_byte bytes.now }
{
    bytes.iter().all(|byte| is_name_byte(*byte))
}

fn is_name_byte(byte: u8) -> bool
    ensures { result ≡ is_name_byte byte }
{
    matches!(byte, b'a'..=b'z' | b'0'..=b'9' | b'_' | b'-' | b'.')
}

/// A value: 1 to 64 bytes from 0x21 to 0x7E.
#[derive(Copy, Debug)]
pub struct Value {
    bytes: [u8; 64],
    len: u8,
}

impl Model for Value {
    ghost use Rattle.std.specs.Prelude.{◌-◌, ℕ, List, ◌++◌, length, take, replicate};
    ghost use Rattle.kmem_text.specs.Padded.{IsPadded, unpadded};
    ghost use Rattle.kmem_text.specs.Texts.{is_value};

    ghost Value = { List ℕ };

    ghost view = { λ n. take n.len n.bytes };

    ghost invariant = { λ n. IsPadded is_value 64 n.bytes n.len };

    ghost inverse = { λ text. record { bytes = text ++ replicate (64 - length text) 0; len = length text } };

    ghost inverse_ok = { λ n h. λ i.
        record { bytes = (unpadded is_value 64 n.bytes n.len h).0 i; len = (unpadded is_value 64 n.bytes n.len h).1 i } };
}

impl Clone for Value {
    ghost is_clone = { λ x y. y ≡ x };

    ghost is_infallible = { λ _. ⊤ };

    fn clone(&self) -> Result<Value, AllocError> {
        Ok(*self)
    }
}

impl PartialEq for Value {
    ghost eq = { pointwise ◌==◌ };

    ghost laws = { Prim.search (comparing, rules) };

    fn eq(&self, other: &Value) -> bool {
        self.as_bytes() == other.as_bytes()
    }
}

impl Eq for Value {
    ghost laws = { Prim.search (comparing, rules) };
}

impl Value {
    /// The bytes as a value, if they are one.
    pub fn from_bytes(bytes: &[u8]) -> Option<Value>
        ensures { result ≡ (if is_value bytes.now then Some bytes.now else None) }
    {
        if !is_value(bytes) {
            return None;
        }
        let mut row = [0u8; 64];
        row[..bytes.len()].copy_from_slice(bytes);
        Some(Value {
            bytes: row,
            len: bytes.len() as u8,
        })
    }

    pub fn as_bytes(&self) -> &[u8]
        ensures text { result.now ≡ self.now }
        ensures short { length self.now ≤ 64 }
        ensures good { is_value self.now ≡ true }
    {
        &self.bytes[..self.len as usize]
    }
}

fn is_value(bytes: &[u8]) -> bool
    ensures { result ≡ is_value bytes.now }
{
    is_within(bytes.len(), 1, 64) && all_value_bytes(bytes)
}

fn all_value_bytes(bytes: &[u8]) -> bool
    ensures { result ≡ list_all is_value_byte bytes.now }
{
    bytes.iter().all(|byte| is_value_byte(*byte))
}

fn is_value_byte(byte: u8) -> bool
    ensures { result ≡ is_value_byte byte }
{
    matches!(byte, 0x21..=0x7E)
}

fn is_within(size: usize, low: usize, high: usize) -> bool
    ensures { result ≡ is_within low high size }
{
    low <= size && size <= high
}
