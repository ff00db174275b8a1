//! Verbs of statements.

use crate::keyring::Keyring;
use authenticators::{Authenticator, Claim, Directory, NodeId, statement_text};
use log_chain::{ByteString, Hash};
use probe_words::{Answer, Growths, Mistake, Words, shown};
use std::alloc::{AllocError, Global};

/// Returns the statement that words spell, from this place on: `NODE NUMBER HASH SIGNATURE`.
pub fn statement_of(on: &Keyring, words: &Words, from: usize) -> Result<Authenticator, Mistake> {
    let sig = words.bytes(&on.bytes, from.saturating_add(3))?;
    Ok(Authenticator {
        node: NodeId(words.short(from)?),
        seq: words.number(from.saturating_add(1))?,
        hash: Hash(words.array(&on.bytes, from.saturating_add(2))?),
        sig: ByteString::from_vec(sig),
    })
}

/// `statement_text NUMBER HASH as NAME`: gives the bytes that are signed a name.
pub fn text(on: &mut Keyring, words: &Words) -> Result<Answer, Mistake> {
    words.take(2, 1)?;
    let text = statement_text(words.number(1)?, Hash(words.array(&on.bytes, 2)?));
    let bytes = Vec::from_slice(on.alloc, &text)?;
    on.bytes.put(words.name(0)?, bytes)?;
    Ok(Answer::told(shown(on.alloc, &text)?))
}

/// `valid DIRECTORY NODE NUMBER HASH SIGNATURE`: answers whether the statement is valid.
pub fn valid(on: &mut Keyring, words: &Words) -> Result<Answer, Mistake> {
    words.take(5, 0)?;
    let statement = statement_of(on, words, 2)?;
    let directory = on.directories.get(1, words.word(1))?;
    on.whether(statement.is_valid(directory))
}

/// `same_statement NODE NUMBER HASH SIGNATURE NODE NUMBER HASH SIGNATURE`: answers whether both are equal.
pub fn same(on: &mut Keyring, words: &Words) -> Result<Answer, Mistake> {
    words.take(8, 0)?;
    let one = statement_of(on, words, 1)?;
    let other = statement_of(on, words, 5)?;
    on.whether(one == other)
}

/// Returns the claims of the statements, in order.
fn claims_of<'a>(alloc: Global, list: &'a [Authenticator]) -> Result<Vec<Claim<'a>>, AllocError> {
    let mut claims = Vec::with_capacity(alloc, list.len())?;
    for one in list {
        claims.push(Claim::new(one.node, one.seq, one.hash, one.sig.as_slice()))?;
    }
    Ok(claims)
}

/// Returns `yes` or `no` for each, in order.
fn told_each(alloc: Global, answers: &[bool]) -> Result<String, AllocError> {
    let mut text = String::from_str(alloc, "answers")?;
    for answer in answers {
        text.push_str(if *answer { " yes" } else { " no" })?;
    }
    Ok(text)
}

/// Verifies the statements together. The error says that memory ran out beside the call.
fn verified(
    alloc: Global,
    growths: &Growths,
    directory: &Directory,
    list: &[Authenticator],
) -> Result<Result<Vec<bool>, AllocError>, AllocError> {
    let claims = claims_of(alloc, list)?;
    growths.begin();
    let verified = directory.verifies_all(alloc, &claims);
    growths.end();
    Ok(verified)
}

/// `verifies_all DIRECTORY LIST`: verifies the statements of the list together. Answers of each whether it is signed.
pub fn verifies_all(on: &mut Keyring, words: &Words) -> Result<Answer, Mistake> {
    words.take(2, 0)?;
    let directory = on.directories.get(1, words.word(1))?;
    let list = on.lists.get(2, words.word(2))?;
    match verified(on.alloc, &on.growths, directory, list)? {
        Ok(answers) => Ok(Answer::told(told_each(on.alloc, &answers)?)),
        Err(fault) => on.memory(fault),
    }
}
