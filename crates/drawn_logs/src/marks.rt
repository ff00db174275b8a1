//! The entries that sentences speak of.

use authenticators::NodeId;
use known_logs::{Numbered, Place};
use sentences::{Explanation, NamedHash, NodeExplanation, Sentence};
use std::alloc::{AllocError, Global};
use std::collections::{BTreeMap, BTreeSet};

/// A sentence: the number of the node that it is about, and its own number among that node's sentences, from 1.
#[derive(Clone, Copy, Debug)]
pub struct SentenceId {
    /// The node's number.
    pub node: u32,
    /// The sentence's number, from 1.
    pub number: u64,
}

/// For each number under which entries are marked, the first sentence that marks it; and the hashes that sentences name.
#[derive(Debug, Drop)]
pub struct Marks {
    by_node: BTreeMap<u32, BTreeMap<u64, SentenceId>>,
    named: BTreeSet<Place>,
    hashed: BTreeSet<Numbered>,
}

impl Marks {
    /// Returns the marks of an explanation.
    pub fn of_explanation(alloc: Global, explanation: &Explanation) -> Result<Marks, AllocError> {
        let mut marks = Marks {
            by_node: BTreeMap::new(alloc),
            named: BTreeSet::new(alloc),
            hashed: BTreeSet::new(alloc),
        };
        for told in &explanation.nodes {
            marks.note_node(alloc, told)?;
        }
        Ok(marks)
    }

    /// Notes the marks of a node's sentences.
    fn note_node(&mut self, alloc: Global, told: &NodeExplanation) -> Result<(), AllocError> {
        let NodeId(node) = told.node;
        let mut number: u64 = 1;
        for sentence in &told.sentences {
            self.note_sentence(alloc, SentenceId { node, number }, sentence)?;
            number = number.saturating_add(1);
        }
        Ok(())
    }

    /// Notes the marks of a sentence, and the hashes that it names.
    fn note_sentence(
        &mut self,
        alloc: Global,
        id: SentenceId,
        sentence: &Sentence,
    ) -> Result<(), AllocError> {
        for mark in &sentence.marks {
            let entries = self
                .by_node
                .entry(mark.node.0)?
                .or_insert(BTreeMap::new(alloc));
            entries.entry(mark.seq)?.or_insert(id);
        }
        self.note_named(&sentence.named)
    }

    /// Notes hashes that a sentence names.
    fn note_named(&mut self, named: &[NamedHash]) -> Result<(), AllocError> {
        for one in named {
            let node = one.node;
            let seq = one.seq;
            let hash = one.hash;
            self.named.insert(Place { node, seq, hash })?;
            self.hashed.insert(Numbered { node, seq })?;
        }
        Ok(())
    }

    /// Returns the sentence that marks an entry. If sentences name hashes of its number, its hash must be one of these.
    pub(crate) fn sentence_of(&self, place: Place) -> Option<SentenceId> {
        let by_number = self.sentence(place.node, place.seq)?;
        let number = Numbered {
            node: place.node,
            seq: place.seq,
        };
        if self.hashed.contains(&number) && !self.named.contains(&place) {
            return None;
        }
        Some(by_number)
    }

    /// Returns the numbers under which entries are marked.
    pub(crate) fn numbers(&self, alloc: Global) -> Result<BTreeSet<Numbered>, AllocError> {
        let mut numbers = BTreeSet::new(alloc);
        for (node, entries) in self.by_node.iter() {
            add_numbers(&mut numbers, NodeId(*node), entries)?;
        }
        Ok(numbers)
    }

    /// Returns the marked entries of a node, by number.
    pub(crate) fn of(&self, node: NodeId) -> Option<&BTreeMap<u64, SentenceId>> {
        self.by_node.get(&node.0)
    }

    /// Returns the sentence that marks the number of an entry.
    pub(crate) fn sentence(&self, node: NodeId, seq: u64) -> Option<SentenceId> {
        self.of(node)?.get(&seq).copied()
    }
}

/// Adds the numbers of a node's entries.
fn add_numbers(
    to: &mut BTreeSet<Numbered>,
    node: NodeId,
    entries: &BTreeMap<u64, SentenceId>,
) -> Result<(), AllocError> {
    for seq in entries.keys() {
        let seq = *seq;
        to.insert(Numbered { node, seq })?;
    }
    Ok(())
}
