//! Writing fields, one after another.

ghost use Rattle.std.specs.Prelude.{◌≡◌, ◌<◌, ◌^◌, [], ◌∷◌, IfOk, length, take};
ghost use Rattle.std.specs.Int.{w32, w64, to_be_bytes};
ghost use Rattle.log_chain.specs.Fields.{Writes, bytes_text};

use crate::hash::Hash;
use outcome::Memory;
use std::alloc::Global;
use std::marker::Model;

/// A writer of fields, one after another. A contract sees the bytes that are written.
///
/// The only refusal is `Memory`. It leaves what was written as it was.
#[derive(Debug, Drop)]
pub struct FieldWriter {
    bytes: Vec<u8>,
}

impl Model for FieldWriter {
    ghost use Rattle.std.specs.Prelude.{ℕ, List};

    ghost Value = { List ℕ };

    ghost view = { λ w. w.bytes.items };
}

impl FieldWriter {
    /// Makes a writer that has written nothing. It takes no memory.
    pub fn new(alloc: Global) -> FieldWriter
        ensures { result ≡ [] }
    {
        FieldWriter {
            bytes: Vec::new(alloc),
        }
    }

    /// Makes a writer that has written nothing, with room for `capacity` bytes. Later calls take no memory up to that many bytes.
    pub fn with_capacity(alloc: Global, capacity: usize) -> Result<FieldWriter, Memory>
        ensures { IfOk result (λ w. w ≡ []) }
    {
        Ok(FieldWriter {
            bytes: Vec::with_capacity(alloc, capacity)?,
        })
    }

    /// Returns how many bytes are written.
    pub fn written(&self) -> usize
        ensures { result ≡ length self.now }
    {
        self.bytes.len()
    }

    /// Takes back what was written after the first `len` bytes. So a text whose writing is refused can leave nothing of itself.
    pub fn truncate(&mut self, len: usize)
        ensures { self.new ≡ take len self.old }
    {
        self.bytes.truncate(len);
    }

    /// Writes a number of one byte.
    pub fn u8(&mut self, value: u8) -> Result<(), Memory>
        ensures { Writes result self.old self.new (value ∷ []) }
    {
        self.bytes.push(value)?;
        Ok(())
    }

    /// Writes a big-endian number of four bytes.
    pub fn u32(&mut self, value: u32) -> Result<(), Memory>
        ensures { Writes result self.old self.new (to_be_bytes w32 value) }
    {
        self.bytes.extend_from_slice(&value.to_be_bytes())?;
        Ok(())
    }

    /// Writes a big-endian number of eight bytes.
    pub fn u64(&mut self, value: u64) -> Result<(), Memory>
        ensures { Writes result self.old self.new (to_be_bytes w64 value) }
    {
        self.bytes.extend_from_slice(&value.to_be_bytes())?;
        Ok(())
    }

    /// Writes a hash of 32 bytes.
    pub fn hash(&mut self, hash: Hash) -> Result<(), Memory>
        ensures { Writes result self.old self.new hash }
    {
        self.bytes.extend_from_slice(&hash.0)?;
        Ok(())
    }

    /// Writes the bytes' length in four bytes, big-endian, and then the bytes.
    pub fn bytes(&mut self, bytes: &[u8]) -> Result<(), Memory>
        requires { length bytes.now < 2 ^ 32 }
        ensures { Writes result self.old self.new (bytes_text bytes.now) }
    {
        let room = bytes.len() + 4;
        self.bytes.reserve(room)?;
        let len = bytes.len() as u32;
        self.bytes.extend_from_slice(&len.to_be_bytes())?;
        self.bytes.extend_from_slice(bytes)?;
        Ok(())
    }

    /// Writes the bytes without a length, as for a field that goes to the end.
    pub fn rest(&mut self, bytes: &[u8]) -> Result<(), Memory>
        ensures { Writes result self.old self.new bytes.now }
    {
        self.bytes.extend_from_slice(bytes)?;
        Ok(())
    }

    /// Returns what was written. It takes no memory.
    pub fn finish(self) -> Vec<u8>
        ensures { result.items ≡ self }
    {
        self.bytes
    }
}
