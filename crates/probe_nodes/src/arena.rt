//! The values that a script named, and the verbs of these.

use crate::{acks, calls, feeding, looks, sending};
use commitment::Node;
use messages::{Ack, Message};
use probe_keys::Keyring;
use probe_words::{Answer, Answers, Mistake, Table, Words};
use ref_programs::Tally;
use sha2::{Digest, Sha256};
use std::alloc::Global;

/// Messages, acknowledgements and nodes by their names, beside those of the keyring.
#[derive(Drop)]
pub struct Arena {
    pub below: Keyring,
    pub messages: Table<Message>,
    pub acks: Table<Ack>,
    pub nodes: Table<Node<Tally>>,
    /// The digest of what was fed since the last answer `digest`.
    pub digest: Sha256,
}

impl Arena {
    /// Makes the arena in which nothing has a name.
    pub fn new(alloc: Global) -> Arena {
        Arena {
            below: Keyring::new(alloc),
            messages: Table::new(alloc),
            acks: Table::new(alloc),
            nodes: Table::new(alloc),
            digest: Sha256::new(),
        }
    }

    fn answer_of_nodes(&mut self, words: &Words) -> Result<Answer, Mistake> {
        match words.verb() {
            "node" => calls::begin(self, words),
            "next_key" => calls::next_key(self, words),
            "receive" => calls::receive(self, words),
            "timer" => calls::timer(self, words),
            "checkpoint" => calls::checkpoint(self, words),
            "accept" => calls::accept(self, words),
            "received" => looks::received(self, words),
            "kept" => looks::kept(self, words),
            "awaited" => looks::awaited(self, words),
            "look" => looks::look(self, words),
            "knows" => looks::knows(self, words),
            "directory_of" => looks::directory_of(self, words),
            "feed_message" => feeding::feed_message(self, words),
            "feed_ack" => feeding::feed_ack(self, words),
            "feed_signed" => feeding::feed_signed(self, words),
            "digest" => feeding::digest(self, words),
            _ => self.below.answer(words),
        }
    }
}

impl Answers for Arena {
    fn answer(&mut self, words: &Words) -> Result<Answer, Mistake> {
        match words.verb() {
            "message" => sending::make(self, words),
            "craft" => sending::craft(self, words),
            "change" => sending::change(self, words),
            "copy_message" => sending::copy(self, words),
            "same_message" => sending::same(self, words),
            "valid_message" => sending::valid(self, words),
            "message_hash" => sending::hash(self, words),
            "received_hash" => sending::received_hash(self, words),
            "message_sig" => sending::sig(self, words),
            "ack" => acks::make(self, words),
            "change_ack" => acks::change(self, words),
            "copy_ack" => acks::copy(self, words),
            "same_ack" => acks::same(self, words),
            "valid_ack" => acks::valid(self, words),
            "ack_hash" => acks::hash(self, words),
            "ack_sig" => acks::sig(self, words),
            _ => self.answer_of_nodes(words),
        }
    }

    fn seen(&self, words: &Words) -> Result<Vec<u8>, Mistake> {
        let mut bytes = self.below.seen(words)?;
        if let Ok(node) = self.nodes.get(1, words.word(1)) {
            looks::put_seen(self.below.alloc, &mut bytes, node)?;
        }
        Ok(bytes)
    }

    fn refuse(&mut self, growth: u32) {
        self.below.growths.refuse(growth);
    }
}
