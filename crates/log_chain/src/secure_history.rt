//! Logs that only grow, with the hash of each entry.

ghost use Rattle.std.specs.Prelude.{◌≡◌, ◌≢◌, ◌↔◌, ◌<◌, ◌≤◌, [], Err, IfErr, IfOk, IsErrAnd, IsOk, IsTrue, None, Ok, OnErr, OnOk, length, take};
ghost use Rattle.outcome.specs.Outcome.{Fails, Gives};
ghost use Rattle.log_chain.specs.declared.fault.AppendFault.{AppendFault};
ghost use Rattle.log_chain.specs.declared.fault.AppendFault.TheVariants as refusal;
ghost use Rattle.log_chain.specs.declared.fault.SegmentFault.{SegmentFault};
ghost use Rattle.log_chain.specs.declared.fault.SegmentFault.TheVariants as fault;
ghost use Rattle.log_chain.specs.Chain.{Rising, base, chain_end};
ghost use Rattle.log_chain.specs.History.{append_fault, appended, grown, hash_at, last_stamp, roomy, segment_of};

use crate::byte_string::ByteString;
use crate::entry::{Entry, entry_hash};
use crate::entry_list::EntryList;
use crate::fault::{AppendFault, SegmentFault};
use crate::finding::{append_fault, place_of, segment_places};
use crate::hash::{Hash, base_hash};
use outcome::Memory;
use std::alloc::Global;
use std::fmt;
use std::marker::Model;
use thiserror::Error;

/// A log that only grows, with the hash of each entry beside it.
///
/// A contract sees the hash before the first entry, the entries, and for how many more entries there is room.
#[derive(Drop)]
pub struct SecureHistory {
    alloc: Global,
    prev: Hash,
    entries: Vec<Entry>,
    hashes: Vec<Hash>,
    room: usize,
}

impl Model for SecureHistory {
    ghost use Rattle.log_chain.specs.History.{History};

    ghost Value = { History };

    ghost use Rattle.log_chain.specs.within.Keeping.{IsKept, seen};

    ghost view = { seen };

    ghost invariant = { IsKept };
}

/// Shows how many entries there are, and for how many more there is room. It shows no entry.
impl fmt::Debug for SecureHistory {
    fn fmt<W: fmt::Write>(&self, f: &mut fmt::Formatter<W>) -> fmt::Result {
        f.debug_struct("SecureHistory")
            .field("len", &self.len())
            .field("spare", &self.spare())
            .finish()
    }
}

/// A refused entry: the fault, and the entry's content. It is displayed as the fault is.
#[derive(Debug, Drop, Error)]
#[error("{fault}")]
pub struct AppendRefused {
    /// Why the entry is refused.
    pub fault: AppendFault,
    /// The content, which is given back.
    pub content: ByteString,
}

impl SecureHistory {
    /// Makes a history with no entry, after the base hash. It takes no memory.
    pub fn new(alloc: Global) -> SecureHistory
        ensures { result ≡ record { prev = base; entries = []; room = 0 } }
    {
        SecureHistory {
            alloc,
            prev: base_hash(),
            entries: Vec::new(alloc),
            hashes: Vec::new(alloc),
            room: 0,
        }
    }

    /// Makes room for `n` more entries, so that the next `n` appends find memory. It succeeds if that room is there already. If memory
    /// runs out, it returns `Memory` and the history is as it was.
    pub fn reserve(&mut self, n: usize) -> Result<(), Memory>
        ensures ok { OnOk result (self.new ≡ roomy self.old n) }
        ensures err { OnErr result (self.new ≡ self.old) }
        ensures held { n ≤ self.old.room → IsOk result }
    {
        self.entries.reserve(n)?;
        self.hashes.reserve(n)?;
        if self.room < n {
            self.room = n;
        }
        Ok(())
    }

    /// Returns for how many more entries there is certainly room. If it is above 0, an append does not run out of memory. Each entry
    /// that is added lowers it by one.
    pub fn spare(&self) -> usize
        ensures { result ≡ self.now.room }
    {
        self.room
    }

    /// Returns how many entries there are.
    pub fn len(&self) -> usize
        ensures { result ≡ length self.now.entries }
    {
        self.entries.len()
    }

    /// Returns whether there is no entry.
    pub fn is_empty(&self) -> bool
        ensures { IsTrue result ↔ (self.now.entries ≡ []) }
    {
        self.entries.is_empty()
    }

    /// Returns the entries. Their numbers rise.
    pub fn entries(&self) -> &[Entry]
        ensures entries { result.now ≡ self.now.entries }
        ensures rising { Rising self.now.entries }
    {
        self.entries.as_slice()
    }

    /// Returns the last entry's number and hash, or `None` if there is no entry.
    pub fn last(&self) -> Option<(u64, Hash)>
        ensures { result ≡ last_stamp self.now }
    {
        let last = self.entries.last()?;
        Some((last.seq, self.end()))
    }

    /// Returns the hash of the entry with the number `seq`, or `None` if no entry has it. It is a binary search, and computes no hash.
    pub fn hash_at(&self, seq: u64) -> Option<Hash>
        ensures { result ≡ hash_at self.now seq }
    {
        let place = place_of(&self.entries, seq)?;
        Some(self.hash_before(place + 1))
    }

    /// Returns the hash before the entry numbered `from`, and copies of the entries from there to the one numbered `to`. It looks them
    /// up by binary search, and computes no hash. Its faults, in this order, are:
    ///
    /// - `NoEntry` if one of the two numbers is no entry's, or `from` is above `to`,
    /// - `SegmentTooLong` if there are more than [`crate::MOST_ENTRIES`] entries,
    /// - `Memory` if memory runs out.
    pub fn segment(&self, from: u64, to: u64) -> Result<(Hash, EntryList), SegmentFault>
        ensures given { Gives fault.Memory (λ x. x) result (segment_of self.now from to) }
        // Why there is no segment is reported, whether there is memory or not.
        ensures none { (e : SegmentFault) → segment_of self.now from to ≡ Err e → result ≡ Err e }
    {
        let (start, end) = segment_places(&self.entries, from, to)?;
        let entries = EntryList::from_slice(self.alloc, &self.entries[start..end])?;
        Ok((self.hash_before(start), entries))
    }

    /// Adds an entry at the end, and returns its hash. A refusal gives the content back, and leaves the history as it was. The faults,
    /// in this order, are:
    ///
    /// - `SeqNotRising` if the number is not above the last entry's,
    /// - `ContentTooLong` if the content has more than [`crate::LONGEST_CONTENT`] bytes,
    /// - `Memory` if memory runs out, which cannot happen if [`SecureHistory::spare`] is above 0.
    pub fn append(&mut self, seq: u64, kind: u8, content: ByteString) -> Result<Hash, AppendRefused>
        ensures appended { OnOk result (appended self.old (record { seq = seq; kind = kind; content = content }) ≡ Ok self.new) }
        ensures hash { IfOk result (λ hash. hash ≡ chain_end self.new.prev self.new.entries) }

        // The fault is the one that forbids the entry, unless memory ran out.
        ensures refused { IfErr result (λ r. Fails refusal.Memory r.fault (appended self.old (record { seq = seq; kind = kind; content = content }))) }
        // What forbids the entry is reported, whether there is memory or not.
        ensures forbidden { (e : AppendFault) → appended self.old (record { seq = seq; kind = kind; content = content }) ≡ Err e → IsErrAnd result (λ r. r.fault ≡ e) }
        ensures content { IfErr result (λ r. r.content ≡ content) }
        ensures unchanged { OnErr result (self.new ≡ self.old) }
        ensures room { 0 < self.old.room → IfErr result (λ r. r.fault ≢ refusal.Memory) }
    {
        let entry = Entry { seq, kind, content };
        if let Some(fault) = append_fault(&self.entries, &entry) {
            let content = entry.content;
            return Err(AppendRefused { fault, content });
        }
        if self.reserve(1).is_err() {
            let content = entry.content;
            return Err(AppendRefused {
                fault: AppendFault::Memory,
                content,
            });
        }
        Ok(self.push(entry))
    }

    /// Adds an entry that is allowed, in room that is there.
    fn push(&mut self, entry: Entry) -> Hash
        requires room { 0 < self.old.room }
        requires allowed { append_fault self.old.entries entry ≡ None }
        ensures grown { self.new ≡ grown self.old entry }
        ensures hash { result ≡ chain_end self.new.prev self.new.entries }
    {
        let hash = entry_hash(self.end(), &entry);
        self.entries.push_reserved(entry);
        self.hashes.push_reserved(hash);
        self.room -= 1;
        hash
    }

    /// Returns the hash before the entry at a place.
    fn hash_before(&self, place: usize) -> Hash
        requires { place ≤ length self.now.entries }
        ensures { result ≡ chain_end self.now.prev (take place self.now.entries) }
    {
        if place == 0 {
            return self.prev;
        }
        self.hashes[place - 1]
    }

    /// Returns the hash of the last entry, or the one before the first if there is none.
    fn end(&self) -> Hash
        ensures { result ≡ chain_end self.now.prev self.now.entries }
    {
        self.hash_before(self.entries.len())
    }
}
