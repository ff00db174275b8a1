//! Which items convict a node, alone or with others.

use item_forms::{Hash, Segment};
use log_chain::base_hash;
use outcome::Memory;
use std::alloc::Global;

/// A hash that a node signed for a number, or that its log has there; and the item in which that stands.
#[derive(Clone, Copy, Debug, PartialEq, Eq, PartialOrd, Ord)]
pub(crate) struct Stated {
    pub(crate) seq: u64,
    pub(crate) hash: Hash,
    pub(crate) item: u64,
}

/// A segment of a node's log whose numbers rise.
#[derive(Clone, Copy, Debug)]
struct Stretch {
    item: u64,
    first: u64,
    last: u64,
    /// The hash before its first entry.
    prev: Hash,
    /// How many entries of other segments stand before its own; and that number with its own added.
    from: usize,
    to: usize,
}

/// What the items have of an exposed node.
#[derive(Debug, Drop)]
pub(crate) struct Held {
    /// Its statements.
    statements: Vec<Stated>,
    /// Its segments whose numbers rise, and their entries one behind the other.
    segments: Vec<Stretch>,
    entries: Vec<Stated>,
    /// The items of those that deviate.
    deviating: Vec<u64>,
}

/// The first of all hashes in order.
const LEAST: Hash = Hash([0; 32]);

const GREATEST: Hash = Hash([255; 32]);

/// Returns where a hash of a number begins and ends among others in order. Numbers of items lie between.
fn at(seq: u64, hash: Hash) -> (Stated, Stated) {
    let begin = Stated { seq, hash, item: 0 };
    let end = Stated {
        seq,
        hash,
        item: u64::MAX,
    };
    (begin, end)
}

/// Returns how many of these, which are in order, come before this one.
fn before(sorted: &[Stated], one: Stated) -> u64 {
    match sorted.binary_search(&one) {
        Ok(count) | Err(count) => count as u64,
    }
}

/// Returns how many of these, which are in order, have the number and the hash.
fn count_of(sorted: &[Stated], seq: u64, hash: Hash) -> u64 {
    let (begin, end) = at(seq, hash);
    before(sorted, end).saturating_sub(before(sorted, begin))
}

/// Returns how many of these, which are in order, have a number from `first` to `last`.
fn count_within(sorted: &[Stated], first: u64, last: u64) -> u64 {
    let (begin, _) = at(first, LEAST);
    let (_, end) = at(last, GREATEST);
    before(sorted, end).saturating_sub(before(sorted, begin))
}

/// Returns whether one of these, which are in order, has the number and another hash.
fn has_other(sorted: &[Stated], seq: u64, hash: Hash) -> bool {
    count_within(sorted, seq, seq) > count_of(sorted, seq, hash)
}

/// Returns whether the numbers rise.
fn are_rising(entries: &[Stated]) -> bool {
    let mut last: Option<u64> = None;
    for entry in entries {
        if let Some(before) = last
            && entry.seq <= before
        {
            return false;
        }
        last = Some(entry.seq);
    }
    true
}

/// The segments of a node in the orders in which they are asked.
#[derive(Debug, Drop)]
struct Orders {
    /// By first number, with the hash before.
    starts: Vec<Stated>,
    /// By last number.
    ends: Vec<Stated>,
    /// Their entries.
    entries: Vec<Stated>,
    /// The greatest first number of segments that begin the log; `None` if there is none.
    begun: Option<u64>,
}

/// Returns an entry with the hash before a segment at its first number, and one with the least hash at its last number.
fn sides_of(one: &Stretch) -> (Stated, Stated) {
    let item = one.item;
    let start = Stated {
        seq: one.first,
        hash: one.prev,
        item,
    };
    let end = Stated {
        seq: one.last,
        hash: LEAST,
        item,
    };
    (start, end)
}

impl Orders {
    /// Returns the orders of these segments.
    fn of(alloc: Global, held: &Held) -> Result<Orders, Memory> {
        let mut orders = Orders {
            starts: Vec::new(alloc),
            ends: Vec::new(alloc),
            entries: Vec::from_slice(alloc, &held.entries)?,
            begun: None,
        };
        for one in &held.segments {
            let (start, end) = sides_of(one);
            orders.starts.push(start)?;
            orders.ends.push(end)?;
            if one.prev == base_hash() {
                orders.begun = Some(one.first.max(orders.begun.unwrap_or(0)));
            }
        }
        orders.starts.sort()?;
        orders.ends.sort()?;
        orders.entries.sort()?;
        Ok(orders)
    }

    /// Returns how many segments have entries up to this number and from it on.
    fn count_around(&self, seq: u64) -> u64 {
        let begun = count_within(&self.starts, 0, seq);
        let (end, _) = at(seq, LEAST);
        begun.saturating_sub(before(&self.ends, end))
    }

    /// Returns whether some segment contradicts a statement of the number and the hash.
    fn deny(&self, seq: u64, hash: Hash) -> bool {
        if self.count_around(seq) > count_of(&self.entries, seq, hash) {
            return true;
        }
        let is_off_start = match seq.checked_add(1) {
            Some(next) => has_other(&self.starts, next, hash),
            None => false,
        };
        let is_before_log = match self.begun {
            Some(first) => seq < first,
            None => false,
        };
        is_off_start || is_before_log
    }
}

/// The statements of a node in order, and each number and hash of them once.
#[derive(Debug, Drop)]
struct Statements {
    all: Vec<Stated>,
    each: Vec<Stated>,
}

impl Statements {
    /// Returns these statements in order.
    fn of(alloc: Global, held: &Held) -> Result<Statements, Memory> {
        let mut all = Vec::from_slice(alloc, &held.statements)?;
        all.sort()?;
        let mut each = Vec::new(alloc);
        for one in &all {
            each.push(Stated { item: 1, ..*one })?;
        }
        each.dedup();
        Ok(Statements { all, each })
    }

    /// Returns how many of the entries are stated.
    fn count_in(&self, entries: &[Stated]) -> u64 {
        let mut count: u64 = 0;
        for entry in entries {
            if count_of(&self.each, entry.seq, entry.hash) > 0 {
                count = count.saturating_add(1);
            }
        }
        count
    }

    /// Returns whether some statement contradicts the segment, which has these entries.
    fn deny(&self, one: &Stretch, entries: &[Stated]) -> bool {
        if count_within(&self.each, one.first, one.last) > self.count_in(entries) {
            return true;
        }
        let is_off_start = match one.first.checked_sub(1) {
            Some(seq) => has_other(&self.each, seq, one.prev),
            None => false,
        };
        let (begin, _) = at(one.first, LEAST);
        is_off_start || one.prev == base_hash() && before(&self.each, begin) > 0
    }
}

impl Held {
    /// Returns a value that holds nothing. It takes no memory.
    pub(crate) fn new(alloc: Global) -> Held {
        Held {
            statements: Vec::new(alloc),
            segments: Vec::new(alloc),
            entries: Vec::new(alloc),
            deviating: Vec::new(alloc),
        }
    }

    /// Notes a statement.
    pub(crate) fn note(&mut self, stated: Stated) -> Result<(), Memory> {
        self.statements.push(stated)?;
        Ok(())
    }

    /// Notes that the segment of this item deviates.
    pub(crate) fn note_deviating(&mut self, item: u64) -> Result<(), Memory> {
        self.deviating.push(item)?;
        Ok(())
    }

    /// Notes a segment, whose entries have these hashes.
    pub(crate) fn note_segment(
        &mut self,
        item: u64,
        segment: &Segment,
        hashes: &[Hash],
    ) -> Result<(), Memory> {
        let from = self.entries.len();
        for (entry, hash) in segment.entries.as_slice().iter().zip(hashes) {
            self.entries.push(Stated {
                seq: entry.seq,
                hash: *hash,
                item,
            })?;
        }
        let own = self.entries.as_slice().get(from..).unwrap_or(&[]);
        let ([first, ..], [.., last]) = (own, own) else {
            return Ok(());
        };
        let stretch = Stretch {
            item,
            first: first.seq,
            last: last.seq,
            prev: segment.prev,
            from,
            to: self.entries.len(),
        };
        if are_rising(own) {
            self.segments.push(stretch)?;
        } else {
            self.entries.truncate(from);
        }
        Ok(())
    }

    /// Returns the items of the statements that contradict another one, or a segment.
    fn denying(&self, alloc: Global) -> Result<Vec<u64>, Memory> {
        let orders = Orders::of(alloc, self)?;
        let statements = Statements::of(alloc, self)?;
        let mut items = Vec::new(alloc);
        for one in &statements.all {
            if has_other(&statements.each, one.seq, one.hash) || orders.deny(one.seq, one.hash) {
                items.push(one.item)?;
            }
        }
        Ok(items)
    }

    /// Returns the items of the segments that a statement contradicts.
    fn denied(&self, alloc: Global) -> Result<Vec<u64>, Memory> {
        let statements = Statements::of(alloc, self)?;
        let mut items = Vec::new(alloc);
        for one in &self.segments {
            let entries = self.entries.as_slice().get(one.from..one.to).unwrap_or(&[]);
            if statements.deny(one, entries) {
                items.push(one.item)?;
            }
        }
        Ok(items)
    }

    /// Returns the items that convict the node: those with a statement that contradicts another one or a segment, and the segments that a
    /// statement contradicts or that deviate. They ascend, each once. The time is that of sorting what there is.
    pub(crate) fn convicting(&self, alloc: Global) -> Result<Vec<u64>, Memory> {
        let mut items = self.denying(alloc)?;
        items.append(&mut self.denied(alloc)?)?;
        items.extend_from_slice(&self.deviating)?;
        items.sort()?;
        items.dedup();
        Ok(items)
    }
}
