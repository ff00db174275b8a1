//! Sentences about a node, one after the other.

ghost use Rattle.std.specs.Prelude.{◌≡◌, IfOk};

use crate::explanation::{Mark, NamedHash, Sentence};
use authenticators::NodeId;
use log_chain::Hash;
use outcome::Memory;
use std::alloc::Global;

impl Sentence {
    /// Returns a sentence that speaks of no contradiction. It takes no memory.
    pub fn plain(alloc: Global, text: String) -> Sentence
        ensures { result.text ≡ text }
    {
        Sentence {
            text,
            marks: Vec::new(alloc),
            named: Vec::new(alloc),
        }
    }

    /// Returns a sentence which says that what has this number contradicts something.
    pub fn of_number(
        alloc: Global,
        node: NodeId,
        seq: u64,
        text: String,
    ) -> Result<Sentence, Memory>
        ensures { IfOk result (λ s. s.text ≡ text) }
    {
        let mut marks = Vec::new(alloc);
        marks.push(Mark { node, seq })?;
        let named = Vec::new(alloc);
        Ok(Sentence { text, marks, named })
    }

    /// Returns a sentence which says that the entry with this number and hash contradicts something, and no other entry with the number.
    pub fn of_entry(
        alloc: Global,
        node: NodeId,
        seq: u64,
        hash: Hash,
        text: String,
    ) -> Result<Sentence, Memory>
        ensures { IfOk result (λ s. s.text ≡ text) }
    {
        let mut marks = Vec::new(alloc);
        marks.push(Mark { node, seq })?;
        let mut named = Vec::new(alloc);
        named.push(NamedHash { node, seq, hash })?;
        Ok(Sentence { text, marks, named })
    }

    /// Returns a sentence that names the hash of an entry which contradicts something.
    pub fn of_hash(
        alloc: Global,
        node: NodeId,
        seq: u64,
        hash: Hash,
        text: String,
    ) -> Result<Sentence, Memory>
        ensures { IfOk result (λ s. s.text ≡ text) }
    {
        let mut named = Vec::new(alloc);
        named.push(NamedHash { node, seq, hash })?;
        let marks = Vec::new(alloc);
        Ok(Sentence { text, marks, named })
    }
}

/// The sentences about a node, so far.
#[derive(Debug, Drop)]
pub struct Lines {
    alloc: Global,
    sentences: Vec<Sentence>,
}

impl Lines {
    /// Returns a list without a sentence. It takes no memory.
    pub fn new(alloc: Global) -> Lines {
        Lines {
            alloc,
            sentences: Vec::new(alloc),
        }
    }

    /// Returns the allocator.
    pub fn alloc(&self) -> Global {
        self.alloc
    }

    /// Adds a sentence that speaks of no contradiction.
    pub fn say(&mut self, text: String) -> Result<(), Memory> {
        let sentence = Sentence::plain(self.alloc, text);
        self.add(sentence)
    }

    /// Adds a sentence.
    pub fn add(&mut self, sentence: Sentence) -> Result<(), Memory> {
        self.sentences.push(sentence)?;
        Ok(())
    }

    /// Returns the sentences in order.
    pub fn into_sentences(self) -> Vec<Sentence> {
        self.sentences
    }
}
