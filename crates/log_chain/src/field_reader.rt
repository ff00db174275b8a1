//! Reading fields from the front of bytes. No call here takes memory.

ghost use Rattle.std.specs.Prelude.{◌≡◌, [], IfOk, length};
ghost use Rattle.std.specs.Int.{w8, w32, w64};
ghost use Rattle.outcome.specs.Outcome.{Reads};
ghost use Rattle.log_chain.specs.Fields.{bytes_at, number_at, take_at};

use crate::fault::FieldFault;
use crate::hash::Hash;
use std::marker::Model;

/// A reader of fields, from the front of bytes. A contract sees the bytes that are left.
///
/// A refused call takes nothing, not even the four bytes of a length.
#[derive(Debug, Drop)]
pub struct FieldReader<'a> {
    bytes: &'a [u8],
}

impl<'a> Model for FieldReader<'a> {
    ghost use Rattle.std.specs.Prelude.{ℕ, List};

    ghost Value = { List ℕ };

    ghost view = { λ r. r.bytes.now };
}

impl<'a> FieldReader<'a> {
    /// Makes a reader at the front of the bytes.
    pub fn new(bytes: &'a [u8]) -> FieldReader<'a>
        ensures { result ≡ bytes.now }
    {
        FieldReader { bytes }
    }

    /// Returns how many bytes are left.
    pub fn left(&self) -> usize
        ensures { result ≡ length self.now }
    {
        self.bytes.len()
    }

    /// Returns the bytes that are left, and does not take them.
    pub fn as_slice(&self) -> &'a [u8]
        ensures { result.now ≡ self.now }
    {
        self.bytes
    }

    /// Takes all bytes that are left. Nothing is left after it.
    pub fn rest(&mut self) -> &'a [u8]
        ensures all { result.now ≡ self.old }
        ensures none { self.new ≡ [] }
    {
        let (front, rest) = self.bytes.split_at(self.bytes.len());
        self.bytes = rest;
        front
    }

    /// Takes the next `len` bytes. Returns `Truncated` if fewer are left.
    pub fn take(&mut self, len: usize) -> Result<&'a [u8], FieldFault>
        ensures reads { Reads (λ x. x.now) result self.old self.new (take_at len self.old) }
        ensures len { IfOk result (λ x. length x.now ≡ len) }
    {
        if self.bytes.len() < len {
            return Err(FieldFault::Truncated);
        }
        let (front, rest) = self.bytes.split_at(len);
        self.bytes = rest;
        Ok(front)
    }

    /// Reads a number of one byte. Returns `Truncated` if none is left.
    pub fn u8(&mut self) -> Result<u8, FieldFault>
        ensures { Reads (λ x. x) result self.old self.new (number_at w8 self.old) }
    {
        let front = self.take(1)?;
        Ok(front[0])
    }

    /// Reads a big-endian number of four bytes. Returns `Truncated` if fewer are left.
    pub fn u32(&mut self) -> Result<u32, FieldFault>
        ensures { Reads (λ x. x) result self.old self.new (number_at w32 self.old) }
    {
        let front = self.take(4)?;
        Ok(u32::from_be_bytes([front[0], front[1], front[2], front[3]]))
    }

    /// Reads a big-endian number of eight bytes. Returns `Truncated` if fewer are left.
    pub fn u64(&mut self) -> Result<u64, FieldFault>
        ensures { Reads (λ x. x) result self.old self.new (number_at w64 self.old) }
    {
        let front = self.take(8)?;
        Ok(u64::from_be_bytes([
            front[0], front[1], front[2], front[3], front[4], front[5], front[6], front[7],
        ]))
    }

    /// Reads a hash of 32 bytes. Returns `Truncated` if fewer are left.
    pub fn hash(&mut self) -> Result<Hash, FieldFault>
        ensures { Reads (λ x. x) result self.old self.new (take_at 32 self.old) }
    {
        let front = self.take(32)?;
        let mut hash = [0u8; 32];
        hash.copy_from_slice(front);
        Ok(Hash(hash))
    }

    /// Reads a length of four bytes, big-endian, and takes that many bytes. Its faults, in this order, are:
    ///
    /// - `Truncated` if fewer than four bytes are left,
    /// - `TooLong` if the length is above `max`,
    /// - `Truncated` if fewer bytes are left than the length says.
    pub fn bytes(&mut self, max: usize) -> Result<&'a [u8], FieldFault>
        ensures { Reads (λ x. x.now) result self.old self.new (bytes_at max self.old) }
    {
        if self.bytes.len() < 4 {
            return Err(FieldFault::Truncated);
        }
        let (front, rest) = self.bytes.split_at(4);
        let len = u32::from_be_bytes([front[0], front[1], front[2], front[3]]) as usize;
        if len > max {
            return Err(FieldFault::TooLong);
        }
        if rest.len() < len {
            return Err(FieldFault::Truncated);
        }
        let (body, after) = rest.split_at(len);
        self.bytes = after;
        Ok(body)
    }
}
