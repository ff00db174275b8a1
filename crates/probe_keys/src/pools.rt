//! Verbs of lists of statements, and of stores of statements, which scripts call pools.

use crate::keyring::Keyring;
use crate::statements::statement_of;
use authenticators::{Authenticator, AuthenticatorStore, NodeId};
use probe_words::{Answer, Mistake, Words, shown};
use std::alloc::{AllocError, Global};

/// Returns `NODE@NUMBER:HASH:SIGNATURE`.
fn statement_shown(alloc: Global, of: &Authenticator) -> Result<String, AllocError> {
    let node = of.node;
    let seq = of.seq;
    let hash = shown(alloc, &of.hash.0)?;
    let sig = shown(alloc, of.sig.as_slice())?;
    format!(in alloc; "{node}@{seq}:{hash}:{sig}")
}

/// Returns how many statements there are, and each.
pub fn list_text(alloc: Global, list: &[Authenticator]) -> Result<String, AllocError> {
    let count = list.len();
    let mut text = format!(in alloc; "{count}")?;
    for one in list {
        let one = statement_shown(alloc, one)?;
        write!(text, " {one}")?;
    }
    Ok(text)
}

fn told_list(alloc: Global, list: &[Authenticator]) -> Result<Answer, Mistake> {
    Ok(Answer::told(list_text(alloc, list)?))
}

/// `list as LIST`: makes an empty list of statements.
pub fn begin_list(on: &mut Keyring, words: &Words) -> Result<Answer, Mistake> {
    words.take(0, 1)?;
    on.lists.put(words.name(0)?, Vec::new(on.alloc))?;
    on.done()
}

/// `gather LIST NODE NUMBER HASH SIGNATURE`: adds the statement at the end of the list.
pub fn gather(on: &mut Keyring, words: &Words) -> Result<Answer, Mistake> {
    words.take(5, 0)?;
    let statement = statement_of(on, words, 2)?;
    match on.lists.get_mut(1, words.word(1))?.push(statement) {
        Ok(()) => on.done(),
        Err(_) => Err(Mistake::Memory),
    }
}

/// `pool as POOL`: makes an empty store of statements.
pub fn begin(on: &mut Keyring, words: &Words) -> Result<Answer, Mistake> {
    words.take(0, 1)?;
    on.pools
        .put(words.name(0)?, AuthenticatorStore::new(on.alloc))?;
    on.done()
}

/// `insert POOL NODE NUMBER HASH SIGNATURE`: inserts the statement. Answers `new` or `known`.
pub fn insert(on: &mut Keyring, words: &Words) -> Result<Answer, Mistake> {
    words.take(5, 0)?;
    let statement = statement_of(on, words, 2)?;
    let pool = on.pools.get_mut(1, words.word(1))?;
    on.growths.begin();
    let inserted = pool.insert(statement);
    on.growths.end();
    match inserted {
        Ok(true) => Ok(Answer::of(on.alloc, "new")?),
        Ok(false) => Ok(Answer::of(on.alloc, "known")?),
        Err(_) => on.memory(AllocError),
    }
}

/// Returns copies of the statements, in order.
fn copies(alloc: Global, list: &[Authenticator]) -> Result<Vec<Authenticator>, AllocError> {
    let mut copies = Vec::new(alloc);
    for one in list {
        copies.push(one.try_clone(alloc)?)?;
    }
    Ok(copies)
}

/// `insert_all POOL LIST`: inserts the statements of the list at once.
pub fn insert_all(on: &mut Keyring, words: &Words) -> Result<Answer, Mistake> {
    words.take(2, 0)?;
    let statements = copies(on.alloc, on.lists.get(2, words.word(2))?)?;
    let pool = on.pools.get_mut(1, words.word(1))?;
    on.growths.begin();
    let inserted = pool.insert_all(statements);
    on.growths.end();
    match inserted {
        Ok(()) => on.done(),
        Err(fault) => on.memory(fault),
    }
}

/// `all POOL`: answers how many statements there are, and each.
pub fn all(on: &mut Keyring, words: &Words) -> Result<Answer, Mistake> {
    words.take(1, 0)?;
    told_list(on.alloc, on.pools.get(1, words.word(1))?.as_slice())
}

/// `count POOL`: answers how many statements there are, or `none`.
pub fn count(on: &mut Keyring, words: &Words) -> Result<Answer, Mistake> {
    words.take(1, 0)?;
    let pool = on.pools.get(1, words.word(1))?;
    if pool.is_empty() {
        return Ok(Answer::of(on.alloc, "none")?);
    }
    let count = pool.len();
    Ok(Answer::told(format!(in on.alloc; "{count}")?))
}

/// `of_node POOL NODE`: answers the statements of the node.
pub fn of_node(on: &mut Keyring, words: &Words) -> Result<Answer, Mistake> {
    words.take(2, 0)?;
    let pool = on.pools.get(1, words.word(1))?;
    told_list(on.alloc, pool.of_node(NodeId(words.short(2)?)))
}

/// `at POOL NODE NUMBER`: answers the statements of the node with this number.
pub fn at(on: &mut Keyring, words: &Words) -> Result<Answer, Mistake> {
    words.take(3, 0)?;
    let pool = on.pools.get(1, words.word(1))?;
    told_list(on.alloc, pool.at(NodeId(words.short(2)?), words.number(3)?))
}

/// `range POOL NODE FROM TO`: answers the statements of the node with these numbers.
pub fn range(on: &mut Keyring, words: &Words) -> Result<Answer, Mistake> {
    words.take(4, 0)?;
    let pool = on.pools.get(1, words.word(1))?;
    let node = NodeId(words.short(2)?);
    told_list(
        on.alloc,
        pool.range(node, words.number(3)?, words.number(4)?),
    )
}

/// `conflict POOL NODE`: answers the two statements by which the node contradicts itself, or `none`.
pub fn conflict(on: &mut Keyring, words: &Words) -> Result<Answer, Mistake> {
    words.take(2, 0)?;
    let pool = on.pools.get(1, words.word(1))?;
    match pool.conflict(NodeId(words.short(2)?)) {
        None => Ok(Answer::of(on.alloc, "none")?),
        Some((one, other)) => {
            let one = statement_shown(on.alloc, one)?;
            let other = statement_shown(on.alloc, other)?;
            Ok(Answer::told(format!(in on.alloc; "{one} {other}")?))
        }
    }
}
