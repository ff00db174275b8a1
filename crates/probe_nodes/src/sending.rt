//! Verbs of messages.

use crate::arena::Arena;
use authenticators::{NodeId, statement_text};
use log_chain::{ByteString, Hash};
use messages::Message;
use probe_words::{Answer, Mistake, Words, shown};
use std::alloc::{AllocError, Global};

/// Returns `FROM>TO@NUMBER`.
pub fn told(alloc: Global, message: &Message) -> Result<String, AllocError> {
    let from = message.from;
    let to = message.to;
    let seq = message.seq;
    format!(in alloc; "{from}>{to}@{seq}")
}

/// `message FROM TO NUMBER PREV SIGNATURE PAYLOAD as MESSAGE`: makes a message of these fields.
pub fn make(on: &mut Arena, words: &Words) -> Result<Answer, Mistake> {
    words.take(6, 1)?;
    let sig = words.bytes(&on.below.bytes, 5)?;
    let payload = words.bytes(&on.below.bytes, 6)?;
    let message = Message {
        from: NodeId(words.short(1)?),
        to: NodeId(words.short(2)?),
        seq: words.number(3)?,
        prev: Hash(words.array(&on.below.bytes, 4)?),
        sig: ByteString::from_vec(sig),
        payload: ByteString::from_vec(payload),
    };
    on.messages.put(words.name(0)?, message)?;
    on.below.done()
}

/// `craft KEY FROM TO NUMBER PREV PAYLOAD C as MESSAGE`: makes a message that the key signs with the randomizer `C`.
pub fn craft(on: &mut Arena, words: &Words) -> Result<Answer, Mistake> {
    words.take(7, 1)?;
    let payload = words.bytes(&on.below.bytes, 6)?;
    let c = words.array(&on.below.bytes, 7)?;
    let mut message = Message {
        from: NodeId(words.short(2)?),
        to: NodeId(words.short(3)?),
        seq: words.number(4)?,
        prev: Hash(words.array(&on.below.bytes, 5)?),
        sig: ByteString::from_vec(Vec::new(on.below.alloc)),
        payload: ByteString::from_vec(payload),
    };
    let text = statement_text(message.seq, message.signed_hash());
    let key = on.below.keys.get_mut(1, words.word(1))?;
    match key.sign(on.below.alloc, &text, c) {
        Ok(sig) => {
            message.sig = ByteString::from_vec(sig);
            on.messages.put(words.name(0)?, message)?;
            on.below.done()
        }
        Err(fault) => on.below.refused(fault.number(), fault.name(), &fault),
    }
}

/// `change MESSAGE FIELD VALUE as MESSAGE`: makes a copy, and changes one field.
pub fn change(on: &mut Arena, words: &Words) -> Result<Answer, Mistake> {
    words.take(3, 1)?;
    let old = on.messages.get(1, words.word(1))?;
    let mut new = old.try_clone(on.below.alloc)?;
    match words.word(2) {
        "from" => new.from = NodeId(words.short(3)?),
        "to" => new.to = NodeId(words.short(3)?),
        "number" => new.seq = words.number(3)?,
        "prev" => new.prev = Hash(words.array(&on.below.bytes, 3)?),
        "sig" => new.sig = ByteString::from_vec(words.bytes(&on.below.bytes, 3)?),
        "payload" => new.payload = ByteString::from_vec(words.bytes(&on.below.bytes, 3)?),
        _ => return Err(Mistake::Choice(2)),
    }
    on.messages.put(words.name(0)?, new)?;
    on.below.done()
}

/// `copy_message MESSAGE as MESSAGE`: makes a copy.
pub fn copy(on: &mut Arena, words: &Words) -> Result<Answer, Mistake> {
    words.take(1, 1)?;
    let message = on.messages.get(1, words.word(1))?;
    on.below.growths.begin();
    let copied = message.try_clone(on.below.alloc);
    on.below.growths.end();
    match copied {
        Ok(copy) => {
            on.messages.put(words.name(0)?, copy)?;
            on.below.done()
        }
        Err(fault) => on.below.memory(fault),
    }
}

/// `same_message MESSAGE MESSAGE`: answers whether both are equal.
pub fn same(on: &mut Arena, words: &Words) -> Result<Answer, Mistake> {
    words.take(2, 0)?;
    let one = on.messages.get(1, words.word(1))?;
    let other = on.messages.get(2, words.word(2))?;
    on.below.whether(*one == *other)
}

fn is_valid(on: &Arena, words: &Words) -> Result<bool, Mistake> {
    let directory = on.below.directories.get(1, words.word(1))?;
    let message = on.messages.get(2, words.word(2))?;
    Ok(message.is_valid(directory))
}

/// `valid_message DIRECTORY MESSAGE`: answers whether the message is valid.
pub fn valid(on: &mut Arena, words: &Words) -> Result<Answer, Mistake> {
    words.take(2, 0)?;
    let holds = is_valid(on, words)?;
    on.below.whether(holds)
}

/// `message_hash MESSAGE`: answers the hash that its signature signs.
pub fn hash(on: &mut Arena, words: &Words) -> Result<Answer, Mistake> {
    words.take(1, 0)?;
    let hash = on.messages.get(1, words.word(1))?.signed_hash();
    Ok(Answer::told(shown(on.below.alloc, &hash.0)?))
}

/// `received_hash MESSAGE NUMBER PREV`: answers the hash of the receiver's entry with this number after this hash.
pub fn received_hash(on: &mut Arena, words: &Words) -> Result<Answer, Mistake> {
    words.take(3, 0)?;
    let seq = words.number(2)?;
    let prev = Hash(words.array(&on.below.bytes, 3)?);
    let hash = on.messages.get(1, words.word(1))?.received_hash(seq, prev);
    Ok(Answer::told(shown(on.below.alloc, &hash.0)?))
}

/// `message_sig MESSAGE as NAME`: gives the signature's bytes a name.
pub fn sig(on: &mut Arena, words: &Words) -> Result<Answer, Mistake> {
    words.take(1, 1)?;
    let sig = on.messages.get(1, words.word(1))?.sig.as_slice();
    let text = shown(on.below.alloc, sig)?;
    let bytes = Vec::from_slice(on.below.alloc, sig)?;
    on.below.bytes.put(words.name(0)?, bytes)?;
    Ok(Answer::told(text))
}
