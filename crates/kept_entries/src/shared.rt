//! Entries that several segments share.

ghost use Rattle.std.specs.Prelude.{◌≡◌, IfOk};
ghost use Rattle.kept_entries.specs.within.Keeping.{wanted_entry};

use crate::body::Body;
use crate::keeping::Wanted;
use log_chain::{ByteString, Entry, Hash};
use outcome::Memory;
use std::alloc::Global;
use std::marker::Model;

/// An entry with three hashes: the hash before it, its own hash, and the hash of the statement that it quotes, if it has a genuine quote. A
/// contract sees these four.
///
/// It is 88 bytes wide. A content of at most 13 bytes that quotes nothing, such as a TIMER's, stands in it. Any other content has blocks of
/// its own.
#[derive(Drop)]
pub struct SharedEntry {
    prev: Hash,
    hash: Hash,
    seq: u64,
    body: Body,
}

const _: () = prove!(size_of::<SharedEntry>() == 88);

impl Model for SharedEntry {
    ghost use Rattle.kept_entries.specs.Shared.{SharedEntry};
    ghost use Rattle.kept_entries.specs.within.Keeping.{entry_in, quoted_in};

    ghost Value = { SharedEntry };

    ghost view = { λ s. record { prev = s.prev; entry = entry_in s.seq s.body; hash = s.hash; quoted = quoted_in s.body } };
}

impl SharedEntry {
    /// Returns a copy of the wanted entry.
    pub(crate) fn of(alloc: Global, wanted: &Wanted<'_>) -> Result<SharedEntry, Memory>
        ensures { IfOk result (λ s. s ≡ wanted_entry wanted.now) }
    {
        let body = Body::of(alloc, wanted.kind, wanted.content, wanted.quoted)?;
        Ok(SharedEntry {
            prev: wanted.prev,
            hash: wanted.hash,
            seq: wanted.seq,
            body,
        })
    }

    /// Returns the hash before the entry.
    pub fn prev(&self) -> Hash
        ensures { result ≡ self.now.prev }
    {
        self.prev
    }

    /// Returns the entry's number.
    pub fn seq(&self) -> u64
        ensures { result ≡ self.now.entry.seq }
    {
        self.seq
    }

    /// Returns the entry's kind.
    pub fn kind(&self) -> u8
        ensures { result ≡ self.now.entry.kind }
    {
        self.body.kind()
    }

    /// Returns the entry's content.
    pub fn content(&self) -> &[u8]
        ensures { result.now ≡ self.now.entry.content }
    {
        self.body.content()
    }

    /// Returns the entry's own hash.
    pub fn hash(&self) -> Hash
        ensures { result ≡ self.now.hash }
    {
        self.hash
    }

    /// Returns the hash of the statement that the entry quotes, or `None` if it has no genuine quote.
    pub fn quoted(&self) -> Option<Hash>
        ensures { result ≡ self.now.quoted }
    {
        self.body.quoted()
    }

    /// Returns a copy of the entry alone, without the hashes.
    pub fn to_entry(&self, alloc: Global) -> Result<Entry, Memory>
        ensures { IfOk result (λ e. e ≡ self.now.entry) }
    {
        let content = ByteString::from_slice(alloc, self.content())?;
        Ok(Entry {
            seq: self.seq,
            kind: self.kind(),
            content,
        })
    }
}
