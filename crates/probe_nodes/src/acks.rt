//! Verbs of acknowledgements.

use crate::arena::Arena;
use authenticators::NodeId;
use log_chain::{ByteString, Hash};
use messages::Ack;
use probe_words::{Answer, Mistake, Words, shown};
use std::alloc::{AllocError, Global};

/// Returns `ack FROM@NUMBER of MESSAGE_NUMBER`.
pub fn told(alloc: Global, ack: &Ack) -> Result<String, AllocError> {
    let from = ack.from;
    let seq = ack.seq;
    let of = ack.send_seq;
    format!(in alloc; "ack {from}@{seq} of {of}")
}

/// `ack FROM MESSAGE_NUMBER NUMBER PREV SIGNATURE as ACK`: makes an acknowledgement of these fields.
pub fn make(on: &mut Arena, words: &Words) -> Result<Answer, Mistake> {
    words.take(5, 1)?;
    let sig = words.bytes(&on.below.bytes, 5)?;
    let ack = Ack {
        from: NodeId(words.short(1)?),
        send_seq: words.number(2)?,
        seq: words.number(3)?,
        prev: Hash(words.array(&on.below.bytes, 4)?),
        sig: ByteString::from_vec(sig),
    };
    on.acks.put(words.name(0)?, ack)?;
    on.below.done()
}

/// `change_ack ACK FIELD VALUE as ACK`: makes a copy, and changes one field.
pub fn change(on: &mut Arena, words: &Words) -> Result<Answer, Mistake> {
    words.take(3, 1)?;
    let old = on.acks.get(1, words.word(1))?;
    let mut new = old.try_clone(on.below.alloc)?;
    match words.word(2) {
        "from" => new.from = NodeId(words.short(3)?),
        "of" => new.send_seq = words.number(3)?,
        "number" => new.seq = words.number(3)?,
        "prev" => new.prev = Hash(words.array(&on.below.bytes, 3)?),
        "sig" => new.sig = ByteString::from_vec(words.bytes(&on.below.bytes, 3)?),
        _ => return Err(Mistake::Choice(2)),
    }
    on.acks.put(words.name(0)?, new)?;
    on.below.done()
}

/// `copy_ack ACK as ACK`: makes a copy.
pub fn copy(on: &mut Arena, words: &Words) -> Result<Answer, Mistake> {
    words.take(1, 1)?;
    let ack = on.acks.get(1, words.word(1))?;
    on.below.growths.begin();
    let copied = ack.try_clone(on.below.alloc);
    on.below.growths.end();
    match copied {
        Ok(copy) => {
            on.acks.put(words.name(0)?, copy)?;
            on.below.done()
        }
        Err(fault) => on.below.memory(fault),
    }
}

/// `same_ack ACK ACK`: answers whether both are equal.
pub fn same(on: &mut Arena, words: &Words) -> Result<Answer, Mistake> {
    words.take(2, 0)?;
    let one = on.acks.get(1, words.word(1))?;
    let other = on.acks.get(2, words.word(2))?;
    on.below.whether(*one == *other)
}

fn is_valid(on: &Arena, words: &Words) -> Result<bool, Mistake> {
    let directory = on.below.directories.get(1, words.word(1))?;
    let ack = on.acks.get(2, words.word(2))?;
    let message = on.messages.get(3, words.word(3))?;
    Ok(ack.is_valid(directory, message))
}

/// `valid_ack DIRECTORY ACK MESSAGE`: answers whether the acknowledgement is valid for the message.
pub fn valid(on: &mut Arena, words: &Words) -> Result<Answer, Mistake> {
    words.take(3, 0)?;
    let holds = is_valid(on, words)?;
    on.below.whether(holds)
}

/// `ack_hash ACK MESSAGE`: answers the hash that its signature signs.
pub fn hash(on: &mut Arena, words: &Words) -> Result<Answer, Mistake> {
    words.take(2, 0)?;
    let ack = on.acks.get(1, words.word(1))?;
    let hash = ack.signed_hash(on.messages.get(2, words.word(2))?);
    Ok(Answer::told(shown(on.below.alloc, &hash.0)?))
}

/// `ack_sig ACK as NAME`: gives the signature's bytes a name.
pub fn sig(on: &mut Arena, words: &Words) -> Result<Answer, Mistake> {
    words.take(1, 1)?;
    let sig = on.acks.get(1, words.word(1))?.sig.as_slice();
    let text = shown(on.below.alloc, sig)?;
    let bytes = Vec::from_slice(on.below.alloc, sig)?;
    on.below.bytes.put(words.name(0)?, bytes)?;
    Ok(Answer::told(text))
}
