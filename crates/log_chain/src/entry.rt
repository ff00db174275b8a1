//! Entries of a log, and their hashes.

ghost use Rattle.std.specs.Prelude.{◌≡◌, ◌+◌, ◌≤◌, ◌++◌, ◌∷◌, ℕ, IfOk, List, length, take};
ghost use Rattle.std.specs.Int.{to_be_bytes, w64};
ghost use Rattle.sha2.specs.Sha256.{sha256};
ghost use Rattle.log_chain.specs.Chain.{chain_end, entry_hash};
ghost use Rattle.log_chain.specs.Pieces.{joined};

use crate::byte_string::ByteString;
use crate::hash::Hash;
use outcome::Memory;
use sha2::{Digest, Sha256};
use std::alloc::Global;

/// An entry of a log.
#[derive(Debug, Drop, PartialEq, Eq)]
pub struct Entry {
    /// Its number. The numbers of a log rise strictly, and may have gaps.
    pub seq: u64,
    /// Its kind, which says what the content is: see [`crate::kind`]. The chain accepts any byte.
    pub kind: u8,
    /// Its content.
    pub content: ByteString,
}

impl Entry {
    /// Copies the entry. Returns `Memory` if memory runs out.
    pub fn try_clone(&self, alloc: Global) -> Result<Entry, Memory>
        ensures { IfOk result (λ e. e ≡ self.now) }
    {
        let content = self.content.try_clone(alloc)?;
        Ok(Entry {
            seq: self.seq,
            kind: self.kind,
            content,
        })
    }
}

/// Writes the bytes into a text, from a place on.
fn put(text: &mut [u8], place: usize, bytes: &[u8])
    requires { place + length bytes.now ≤ length text.old }
    ensures { take (place + length bytes.now) text.new ≡ take place text.old ++ bytes.now }
{
    text[place..place + bytes.len()].copy_from_slice(bytes);
}

/// Returns the bytes that are hashed for an entry. Of the entry's content they have only the digest.
pub(crate) fn hashed_text(prev: Hash, seq: u64, kind: u8, digest: [u8; 32]) -> [u8; 73]
    ensures { result ≡ prev ++ to_be_bytes w64 seq ++ kind ∷ digest }
{
    let mut text = [0u8; 73];
    put(&mut text, 0, &prev.0);
    put(&mut text, 32, &seq.to_be_bytes());
    put(&mut text, 40, &[kind]);
    put(&mut text, 41, &digest);
    text
}

/// Returns an entry's hash, given the hash before it and the SHA-256 digest of its content.
#[tactic(auto, unfolding(crate::specs::Chain::entry_text))]
fn hash_of_digest(prev: Hash, seq: u64, kind: u8, digest: [u8; 32]) -> Hash
    ensures { (content : List ℕ) → digest ≡ sha256 content → result ≡ entry_hash prev (record { seq = seq; kind = kind; content = content }) }
{
    Hash(Sha256::digest(hashed_text(prev, seq, kind, digest)))
}

/// Returns the digest of the pieces, one after the other.
fn digest_of_pieces(pieces: &[&[u8]]) -> [u8; 32]
    ensures { result ≡ sha256 (joined pieces.now) }
{
    let mut hasher = Sha256::new();
    for piece in pieces {
        hasher.update(piece);
    }
    hasher.finalize()
}

/// Returns an entry's hash, given the hash before it. The entry's content is the pieces, one after the other, which need not be put
/// together for this. It takes no memory.
pub fn entry_hash_of_pieces(prev: Hash, seq: u64, kind: u8, pieces: &[&[u8]]) -> Hash
    ensures { result ≡ entry_hash prev (record { seq = seq; kind = kind; content = joined pieces.now }) }
{
    hash_of_digest(prev, seq, kind, digest_of_pieces(pieces))
}

/// Returns an entry's hash, given the hash before it. It computes one digest of the content, and one of 73 bytes. It takes no memory.
pub fn entry_hash(prev: Hash, entry: &Entry) -> Hash
    ensures { result ≡ entry_hash prev entry.now }
{
    let digest = Sha256::digest(entry.content.as_slice());
    hash_of_digest(prev, entry.seq, entry.kind, digest)
}

/// Returns the hash of the last entry, given the hash `prev` before the first. Returns `prev` if there is no entry. It takes no
/// memory.
pub fn chain_end(prev: Hash, entries: &[Entry]) -> Hash
    ensures { result ≡ chain_end prev entries.now }
{
    let mut hash = prev;
    for entry in entries {
        hash = entry_hash(hash, entry);
    }
    hash
}
