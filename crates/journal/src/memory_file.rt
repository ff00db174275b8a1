//! A file in memory. Each call is done at once, so a crash leaves what is there. It keeps each past content.

ghost use Rattle.std.specs.Prelude.{◌≡◌, ◌⊎◌, [], ◌∷◌, ◌++◌, length, take, drop, refl, OnOk, OnErr};
ghost use Rattle.std.proofs.Common.{inl};
ghost use Rattle.journal.specs.Past.{HadBeen, only_bytes};

use crate::device::Device;
use crate::fault::DeviceFault;
use std::alloc::{AllocError, Global};

/// A file in memory, for tests. It keeps what it had at each moment, so each write and each cut takes memory for one more copy.
#[derive(Drop)]
pub struct MemoryFile {
    alloc: Global,
    bytes: Vec<u8>,
    past: Vec<Vec<u8>>,
    /// How many bytes have been read.
    read: usize,
}

impl MemoryFile {
    ghost use Rattle.journal.specs.MemoryFile.{bytes_of, read_of};

    /// Returns a file with these bytes. All of them count as on the disk, and none has been read.
    pub fn new(alloc: Global, bytes: Vec<u8>) -> Self
        ensures bytes { bytes_of result ≡ bytes.items }
        ensures unread { read_of result ≡ 0 }
    {
        MemoryFile {
            alloc,
            bytes,
            past: Vec::new(alloc),
            read: 0,
        }
    }

    /// Returns the bytes that the file has now.
    pub fn bytes(&self) -> &[u8]
        ensures { result.now ≡ bytes_of self.now }
    {
        &self.bytes
    }
}

/// Puts other bytes in the place of those that are there. It keeps the old ones.
fn replace(
    alloc: Global,
    bytes: &mut Vec<u8>,
    past: &mut Vec<Vec<u8>>,
    next: Vec<u8>,
) -> Result<(), AllocError>
    ensures ok { OnOk result (bytes.new.items ≡ next.items) }
    ensures err { OnErr result (bytes.new.items ≡ bytes.old.items) }
    ensures past { OnOk result ((v : _) × (v.items ≡ bytes.old.items) × (past.new.items ≡ past.old.items ++ v ∷ [])) }
    ensures past_err { OnErr result (past.new.items ≡ past.old.items) }
{
    past.push(bytes.to_vec(alloc)?)?;
    *bytes = next;
    Ok(())
}

impl Device for MemoryFile {
    ghost found = { λ m. take m.read m.bytes.items };

    ghost seen = { λ m. m.bytes.items };

    ghost may_leave = { λ m c. c ≡ m.bytes.items };

    ghost moment = { λ m. length m.past.items };

    ghost left_since = { λ m t c. (c ≡ m.bytes.items) ⊎ HadBeen (drop t m.past.items) c };

    ghost faults = { λ m. 0 };

    ghost counts_now = { λ m t c le now. inl now };

    ghost only_now = { λ m c left. only_bytes m.past.items m.bytes.items c left };

    ghost seen_may_stay = { λ m. refl };

    fn read(&mut self, alloc: Global, most: usize) -> Result<Vec<u8>, DeviceFault> {
        let at = self.read.min(self.bytes.len());
        let end = at + most.min(self.bytes.len() - at);
        let piece = self.bytes[at..end].to_vec(alloc)?;
        self.read = end;
        Ok(piece)
    }

    fn write_at(&mut self, at: usize, bytes: &[u8]) -> Result<(), DeviceFault> {
        let mut next = self.bytes[..at].to_vec(self.alloc)?;
        next.extend_from_slice(bytes)?;
        if bytes.len() < self.bytes.len() - at {
            next.extend_from_slice(&self.bytes[at + bytes.len()..])?;
        }
        Ok(replace(self.alloc, &mut self.bytes, &mut self.past, next)?)
    }

    fn cut(&mut self, len: usize) -> Result<(), DeviceFault> {
        let next = self.bytes[..len].to_vec(self.alloc)?;
        Ok(replace(self.alloc, &mut self.bytes, &mut self.past, next)?)
    }

    fn sync(&mut self) -> Result<(), DeviceFault> {
        Ok(())
    }
}
