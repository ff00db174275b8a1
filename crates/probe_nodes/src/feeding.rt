//! Verbs that feed values to a digest: their fields in order. Before each text comes its length in 8 bytes.

use crate::arena::Arena;
use probe_words::{Answer, Mistake, Words, shown};
use sha2::{Digest, Sha256};

fn feed_text(digest: &mut Sha256, text: &[u8]) {
    digest.update(text.len().to_be_bytes());
    digest.update(text);
}

/// `feed_message MESSAGE`: feeds a message.
pub fn feed_message(on: &mut Arena, words: &Words) -> Result<Answer, Mistake> {
    words.take(1, 0)?;
    let message = on.messages.get(1, words.word(1))?;
    on.digest.update(message.from.0.to_be_bytes());
    on.digest.update(message.to.0.to_be_bytes());
    on.digest.update(message.seq.to_be_bytes());
    on.digest.update(message.prev.0);
    feed_text(&mut on.digest, message.sig.as_slice());
    feed_text(&mut on.digest, message.payload.as_slice());
    on.below.done()
}

/// `feed_ack ACK`: feeds an acknowledgement.
pub fn feed_ack(on: &mut Arena, words: &Words) -> Result<Answer, Mistake> {
    words.take(1, 0)?;
    let ack = on.acks.get(1, words.word(1))?;
    on.digest.update(ack.from.0.to_be_bytes());
    on.digest.update(ack.send_seq.to_be_bytes());
    on.digest.update(ack.seq.to_be_bytes());
    on.digest.update(ack.prev.0);
    feed_text(&mut on.digest, ack.sig.as_slice());
    on.below.done()
}

/// `feed_signed NODE`: feeds the statements that the node signed, in order.
pub fn feed_signed(on: &mut Arena, words: &Words) -> Result<Answer, Mistake> {
    words.take(1, 0)?;
    for statement in on.nodes.get(1, words.word(1))?.signed() {
        on.digest.update(statement.node.0.to_be_bytes());
        on.digest.update(statement.seq.to_be_bytes());
        on.digest.update(statement.hash.0);
        feed_text(&mut on.digest, statement.sig.as_slice());
    }
    on.below.done()
}

/// `digest`: answers the SHA-256 of what was fed. What is fed after it belongs to the next digest.
pub fn digest(on: &mut Arena, words: &Words) -> Result<Answer, Mistake> {
    words.take(0, 0)?;
    let fed = std::mem::replace(&mut on.digest, Sha256::new());
    Ok(Answer::told(shown(on.below.alloc, fed.finalize().as_slice())?))
}
