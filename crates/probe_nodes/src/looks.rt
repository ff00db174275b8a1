//! Verbs that look at nodes, and change nothing.

use crate::arena::Arena;
use crate::{acks, sending};
use authenticators::NodeId;
use commitment::Node;
use probe_words::{Answer, Mistake, Words, shown};
use ref_programs::Tally;
use std::alloc::{AllocError, Global};

/// `received NODE FROM NUMBER as MESSAGE ACK`: answers what the node received from this node with this number, and its acknowledgement, or `none`.
pub fn received(on: &mut Arena, words: &Words) -> Result<Answer, Mistake> {
    words.take(3, 2)?;
    let alloc = on.below.alloc;
    let node = on.nodes.get(1, words.word(1))?;
    let Some((message, ack)) = node.received(NodeId(words.short(2)?), words.number(3)?) else {
        return Ok(Answer::of(alloc, "none")?);
    };
    let message_told = sending::told(alloc, message)?;
    let ack_told = acks::told(alloc, ack)?;
    if let Ok(name) = words.name(0) {
        on.messages.put(name, message.try_clone(alloc)?)?;
    }
    if let Ok(name) = words.name(1) {
        on.acks.put(name, ack.try_clone(alloc)?)?;
    }
    Ok(Answer::told(format!(in alloc; "{message_told}, {ack_told}")?))
}

/// `kept NODE NUMBER as MESSAGE`: answers the message that the node sent with this number, or `none`.
pub fn kept(on: &mut Arena, words: &Words) -> Result<Answer, Mistake> {
    words.take(2, 1)?;
    let alloc = on.below.alloc;
    let node = on.nodes.get(1, words.word(1))?;
    let Some(message) = node.message(words.number(2)?) else {
        return Ok(Answer::of(alloc, "none")?);
    };
    let text = sending::told(alloc, message)?;
    if let Ok(name) = words.name(0) {
        on.messages.put(name, message.try_clone(alloc)?)?;
    }
    Ok(Answer::told(text))
}

/// `awaited NODE`: answers the numbers of its messages without an acknowledgement.
pub fn awaited(on: &mut Arena, words: &Words) -> Result<Answer, Mistake> {
    words.take(1, 0)?;
    let node = on.nodes.get(1, words.word(1))?;
    let mut text = String::from_str(on.below.alloc, "numbers")?;
    for seq in node.unacknowledged() {
        write!(text, " {seq}")?;
    }
    Ok(Answer::told(text))
}

/// Returns what `look` answers.
fn node_text(alloc: Global, node: &Node<Tally>) -> Result<String, AllocError> {
    let entries = node.history().entries().len();
    let signed = node.signed().len();
    let awaited = node.unacknowledged().len();
    let left = node.remaining();
    let end = match node.history().last() {
        None => String::from_str(alloc, "no end")?,
        Some((seq, hash)) => {
            let hash = shown(alloc, &hash.0)?;
            format!(in alloc; "{seq} {hash}")?
        }
    };
    format!(in alloc; "{entries} entries, {signed} signed, {awaited} awaited, {left} leaves, {end}")
}

/// Writes what a call of the node could change: what `look` answers, and the statements that it signed.
pub fn put_seen(alloc: Global, bytes: &mut Vec<u8>, node: &Node<Tally>) -> Result<(), AllocError> {
    let text = node_text(alloc, node)?;
    bytes.extend_from_slice(text.as_bytes())?;
    for statement in node.signed() {
        bytes.extend_from_slice(&statement.hash.0)?;
        bytes.extend_from_slice(statement.sig.as_slice())?;
    }
    Ok(())
}

/// `look NODE`: answers how many entries, statements, awaited acknowledgements and leaves there are, and how the log ends.
pub fn look(on: &mut Arena, words: &Words) -> Result<Answer, Mistake> {
    words.take(1, 0)?;
    let node = on.nodes.get(1, words.word(1))?;
    Ok(Answer::told(node_text(on.below.alloc, node)?))
}

/// `directory_of NODE as DIRECTORY`: makes a copy of the node's directory.
pub fn directory_of(on: &mut Arena, words: &Words) -> Result<Answer, Mistake> {
    words.take(1, 1)?;
    let copy = on.nodes.get(1, words.word(1))?.directory().try_clone()?;
    on.below.directories.put(words.name(0)?, copy)?;
    on.below.done()
}

/// `knows NODE ID`: answers whether the node is that one, and whether its directory lists that one.
pub fn knows(on: &mut Arena, words: &Words) -> Result<Answer, Mistake> {
    words.take(2, 0)?;
    let node = on.nodes.get(1, words.word(1))?;
    let id = NodeId(words.short(2)?);
    let text = match (node.id() == id, node.directory().contains(id)) {
        (true, true) => "itself, listed",
        (true, false) => "itself, unlisted",
        (false, true) => "listed",
        (false, false) => "unlisted",
    };
    Ok(Answer::of(on.below.alloc, text)?)
}
