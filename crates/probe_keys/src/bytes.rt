//! Verbs of bytes.

use crate::keyring::Keyring;
use probe_words::{Answer, Mistake, Words, shown};

/// `bytes BYTES as NAME`: gives the bytes a name.
pub fn name(on: &mut Keyring, words: &Words) -> Result<Answer, Mistake> {
    words.take(1, 1)?;
    let bytes = words.bytes(&on.bytes, 1)?;
    let text = shown(on.alloc, &bytes)?;
    on.bytes.put(words.name(0)?, bytes)?;
    Ok(Answer::told(text))
}

/// `same BYTES BYTES`: answers whether both are the same.
pub fn same(on: &mut Keyring, words: &Words) -> Result<Answer, Mistake> {
    words.take(2, 0)?;
    let one = words.bytes(&on.bytes, 1)?;
    let other = words.bytes(&on.bytes, 2)?;
    on.whether(one.as_slice() == other.as_slice())
}

/// `length BYTES`: answers how many there are.
pub fn length(on: &mut Keyring, words: &Words) -> Result<Answer, Mistake> {
    words.take(1, 0)?;
    let count = words.bytes(&on.bytes, 1)?.len();
    Ok(Answer::told(format!(in on.alloc; "{count}")?))
}
