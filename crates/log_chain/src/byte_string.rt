//! Byte strings, which are compared by their bytes.

ghost use Rattle.std.specs.Prelude.{◌≡◌, ◌↔◌, [], IfOk, IsTrue, List, length};
ghost use Rattle.std.specs.Cmp.Lexicographic.{pointwise};
ghost use Rattle.std.specs.Prelude.{nat_eq};
ghost use Rattle.std.proofs.Common.{rules};
ghost use Rattle.std.specs.Cmp.Rules.{comparing, hashing};
ghost use Rattle.std.specs.Cmp.{partial_order_from_own_ties};
ghost use Rattle.std.specs.Ordering.{as_partial_cmp, nat_cmp};
ghost use Rattle.std.specs.Cmp.Lexicographic.{slice_cmp};
ghost use Rattle.std.specs.Hash as fed;

use outcome::Memory;
use std::alloc::Global;
use std::cmp::Ordering;
use std::convert::AsSlice;
use std::hash::{Hash, Hasher};
use std::marker::Model;

/// A byte string. A contract sees the list of its bytes.
#[derive(Debug, Drop)]
pub struct ByteString {
    bytes: Vec<u8>,
}

impl Model for ByteString {
    ghost use Rattle.std.specs.Prelude.{ℕ, List};

    ghost Value = { List ℕ };

    ghost view = { λ b. b.bytes.items };
}

impl ByteString {
    /// Makes a byte string of the vector's bytes. It takes no memory.
    pub fn from_vec(bytes: Vec<u8>) -> ByteString
        ensures { result ≡ bytes.items }
    {
        ByteString { bytes }
    }

    /// Returns the bytes as a vector. It takes no memory.
    pub fn into_vec(self) -> Vec<u8>
        ensures { result.items ≡ self }
    {
        self.bytes
    }

    /// Copies the bytes into a byte string. Returns `Memory` if memory runs out.
    pub fn from_slice(alloc: Global, bytes: &[u8]) -> Result<ByteString, Memory>
        ensures { IfOk result (λ b. b ≡ bytes.now) }
    {
        Ok(ByteString {
            bytes: Vec::from_slice(alloc, bytes)?,
        })
    }

    /// Copies the byte string. Returns `Memory` if memory runs out.
    pub fn try_clone(&self, alloc: Global) -> Result<ByteString, Memory>
        ensures { IfOk result (λ b. b ≡ self.now) }
    {
        ByteString::from_slice(alloc, self.as_slice())
    }

    /// Returns the bytes.
    pub fn as_slice(&self) -> &[u8]
        ensures { result.now ≡ self.now }
    {
        self.bytes.as_slice()
    }

    /// Returns how many bytes there are.
    pub fn len(&self) -> usize
        ensures { result ≡ length self.now }
    {
        self.bytes.len()
    }

    /// Returns whether there is no byte.
    pub fn is_empty(&self) -> bool
        ensures { IsTrue result ↔ (self.now ≡ []) }
    {
        self.bytes.is_empty()
    }
}

impl AsSlice<u8> for ByteString {
    ghost items = { λ b. b };

    fn as_slice(&self) -> &[u8] {
        self.bytes.as_slice()
    }
}

impl PartialEq for ByteString {
    ghost eq = { pointwise nat_eq };

    ghost laws = { Prim.search (comparing, rules) };

    fn eq(&self, other: &ByteString) -> bool {
        self.bytes.as_slice() == other.bytes.as_slice()
    }
}

impl Eq for ByteString {
    ghost laws = { Prim.search (comparing, rules) };
}

impl Hash for ByteString {
    ghost hash_input = { fed.slice fed.u8 };

    ghost respects_eq = { Prim.search (hashing, rules) };

    fn hash<H: Hasher>(&self, state: &mut H) {
        self.bytes.as_slice().hash(state);
    }
}

impl Ord for ByteString {
    ghost cmp = { slice_cmp nat_cmp };

    ghost total = { Prim.search (comparing, rules) };

    ghost matches_partial_cmp = { Prim.search (comparing, rules) };

    ghost matches_eq = { Prim.search (comparing, rules) };

    fn cmp(&self, other: &ByteString) -> Ordering {
        self.bytes.as_slice().cmp(other.bytes.as_slice())
    }
}

impl PartialOrd for ByteString {
    ghost partial_cmp = { as_partial_cmp (slice_cmp nat_cmp) };

    ghost laws = { partial_order_from_own_ties (Prim.search (comparing, rules)) (Prim.search (comparing, rules)) };

    fn partial_cmp(&self, other: &ByteString) -> Option<Ordering> {
        Some(self.cmp(other))
    }
}
