//! Verbs of directories.

use crate::keyring::Keyring;
use authenticators::{Directory, NodeId};
use lms_sign::PublicKey;
use probe_words::{Answer, Mistake, Words, shown};
use std::alloc::{AllocError, Global};

/// `directory as DIRECTORY`: makes one without nodes.
pub fn begin(on: &mut Keyring, words: &Words) -> Result<Answer, Mistake> {
    words.take(0, 1)?;
    let directory = Directory::new(on.alloc);
    on.directories.put(words.name(0)?, directory)?;
    on.done()
}

/// Returns how many nodes there are, and which.
fn nodes_text(alloc: Global, directory: &Directory) -> Result<String, AllocError> {
    if directory.is_empty() {
        return String::from_str(alloc, "none");
    }
    let count = directory.len();
    let mut text = format!(in alloc; "{count}")?;
    let mut before = ": ";
    for node in directory.nodes() {
        write!(text, "{before}{node}")?;
        before = " ";
    }
    Ok(text)
}

/// `read_directory BYTES as DIRECTORY`: reads the text of a directory. Answers its nodes.
pub fn read(on: &mut Keyring, words: &Words) -> Result<Answer, Mistake> {
    words.take(1, 1)?;
    let text = words.bytes(&on.bytes, 1)?;
    on.growths.begin();
    let read = Directory::from_bytes(on.alloc, &text);
    on.growths.end();
    match read {
        Ok(directory) => {
            let text = nodes_text(on.alloc, &directory)?;
            on.directories.put(words.name(0)?, directory)?;
            Ok(Answer::told(text))
        }
        Err(fault) => on.refused(fault.number(), fault.name(), &fault),
    }
}

/// `write_directory DIRECTORY as NAME`: gives its text a name.
pub fn write(on: &mut Keyring, words: &Words) -> Result<Answer, Mistake> {
    words.take(1, 1)?;
    let directory = on.directories.get(1, words.word(1))?;
    on.growths.begin();
    let written = directory.to_bytes();
    on.growths.end();
    match written {
        Ok(bytes) => {
            let text = shown(on.alloc, &bytes)?;
            on.bytes.put(words.name(0)?, bytes)?;
            Ok(Answer::told(text))
        }
        Err(fault) => on.memory(fault),
    }
}

/// `copy_directory DIRECTORY as DIRECTORY`: makes a copy.
pub fn copy(on: &mut Keyring, words: &Words) -> Result<Answer, Mistake> {
    words.take(1, 1)?;
    let directory = on.directories.get(1, words.word(1))?;
    on.growths.begin();
    let copied = directory.try_clone();
    on.growths.end();
    match copied {
        Ok(copy) => {
            on.directories.put(words.name(0)?, copy)?;
            on.done()
        }
        Err(fault) => on.memory(fault),
    }
}

/// `same_directory DIRECTORY DIRECTORY`: answers whether both are equal.
pub fn same(on: &mut Keyring, words: &Words) -> Result<Answer, Mistake> {
    words.take(2, 0)?;
    let one = on.directories.get(1, words.word(1))?;
    let other = on.directories.get(2, words.word(2))?;
    on.whether(*one == *other)
}

/// `add DIRECTORY NODE KEY`: adds a node with the public key of these bytes.
pub fn add(on: &mut Keyring, words: &Words) -> Result<Answer, Mistake> {
    words.take(3, 0)?;
    let text = words.bytes(&on.bytes, 3)?;
    let key = match PublicKey::from_bytes(&text) {
        Ok(key) => key,
        Err(fault) => return on.refused(fault.number(), fault.name(), &fault),
    };
    let directory = on.directories.get_mut(1, words.word(1))?;
    on.growths.begin();
    let added = directory.add(NodeId(words.short(2)?), key);
    on.growths.end();
    match added {
        Ok(()) => on.done(),
        Err(fault) => on.refused(fault.number(), fault.name(), &fault),
    }
}

/// `add_key DIRECTORY NODE KEY`: adds the public key to a node's keys. Answers its number.
pub fn add_key(on: &mut Keyring, words: &Words) -> Result<Answer, Mistake> {
    words.take(3, 0)?;
    let text = words.bytes(&on.bytes, 3)?;
    let key = match PublicKey::from_bytes(&text) {
        Ok(key) => key,
        Err(fault) => return on.refused(fault.number(), fault.name(), &fault),
    };
    let directory = on.directories.get_mut(1, words.word(1))?;
    on.growths.begin();
    let added = directory.add_key(NodeId(words.short(2)?), key);
    on.growths.end();
    match added {
        Ok(number) => Ok(Answer::told(format!(in on.alloc; "{number}")?)),
        Err(fault) => on.refused(fault.number(), fault.name(), &fault),
    }
}

/// `nodes DIRECTORY`: answers how many nodes there are, and which.
pub fn nodes(on: &mut Keyring, words: &Words) -> Result<Answer, Mistake> {
    words.take(1, 0)?;
    let directory = on.directories.get(1, words.word(1))?;
    Ok(Answer::told(nodes_text(on.alloc, directory)?))
}

/// `lists DIRECTORY NODE`: answers whether the node is listed.
pub fn lists(on: &mut Keyring, words: &Words) -> Result<Answer, Mistake> {
    words.take(2, 0)?;
    let directory = on.directories.get(1, words.word(1))?;
    on.whether(directory.contains(NodeId(words.short(2)?)))
}

/// Returns the two typecodes, the identifier and the root.
fn key_text(alloc: Global, key: &PublicKey) -> Result<String, AllocError> {
    let text = key.to_bytes();
    let (types, id) = text.split_at(8);
    let (id, root) = id.split_at(16);
    let types = shown(alloc, types)?;
    let id = shown(alloc, id)?;
    let root = shown(alloc, root)?;
    format!(in alloc; "{types} {id} {root}")
}

fn told_key(alloc: Global, key: Option<&PublicKey>) -> Result<Answer, Mistake> {
    match key {
        Some(key) => Ok(Answer::told(key_text(alloc, key)?)),
        None => Ok(Answer::of(alloc, "none")?),
    }
}

/// `key_of DIRECTORY NODE`: answers the node's first key.
pub fn key_of(on: &mut Keyring, words: &Words) -> Result<Answer, Mistake> {
    words.take(2, 0)?;
    let directory = on.directories.get(1, words.word(1))?;
    told_key(on.alloc, directory.key_of(NodeId(words.short(2)?)))
}

/// `key_at DIRECTORY NODE NUMBER`: answers the node's key with this number.
pub fn key_at(on: &mut Keyring, words: &Words) -> Result<Answer, Mistake> {
    words.take(3, 0)?;
    let directory = on.directories.get(1, words.word(1))?;
    told_key(
        on.alloc,
        directory.key(NodeId(words.short(2)?), words.byte(3)?),
    )
}

/// `key_count DIRECTORY NODE`: answers how many keys the node has.
pub fn key_count(on: &mut Keyring, words: &Words) -> Result<Answer, Mistake> {
    words.take(2, 0)?;
    let directory = on.directories.get(1, words.word(1))?;
    let count = directory.key_count(NodeId(words.short(2)?));
    Ok(Answer::told(format!(in on.alloc; "{count}")?))
}

/// `keys_of DIRECTORY NODE`: answers the identifiers of the node's keys, in order.
pub fn keys_of(on: &mut Keyring, words: &Words) -> Result<Answer, Mistake> {
    words.take(2, 0)?;
    let directory = on.directories.get(1, words.word(1))?;
    let Some(keys) = directory.keys_of(NodeId(words.short(2)?)) else {
        return Ok(Answer::of(on.alloc, "none")?);
    };
    let mut text = String::from_str(on.alloc, "keys")?;
    for key in keys {
        let id = shown(on.alloc, &key.id)?;
        write!(text, " {id}")?;
    }
    Ok(Answer::told(text))
}
