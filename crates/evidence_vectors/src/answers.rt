//! What two stores answer once each has the other's items.

use crate::filling::store_of;
use anyhow::{Result, bail};
use authenticators::{Directory, NodeId};
use evidence_store::{Evidence, Item};
use proofs::{Proof, check_proof};
use ref_programs::Tally;
use sha2::{Digest, Sha256};
use std::alloc::Global;

/// The parts of a line: the items that two witnesses took, and the answer of each store that has them all.
#[derive(Clone, Copy)]
struct Line<'a> {
    first: &'a str,
    second: &'a str,
    answer: &'a str,
}

/// Returns the parts of the line, or `None` if one is missing.
fn line_of(rest: &str) -> Option<Line<'_>> {
    let (first, rest) = rest.split_once(' ')?;
    let (second, answer) = rest.split_once(' ')?;
    Some(Line {
        first,
        second,
        answer,
    })
}

/// Returns the node that the proof convicts.
fn convicted_by<S: Evidence<Tally>>(alloc: Global, store: &S, proof: &Proof) -> Result<String> {
    let node = check_proof(alloc, &Tally, store.directory(), proof)?;
    Ok(format!(in alloc; "{node}")?)
}

/// Returns the node that the store's proof against this node convicts, or `-` if there is no proof.
fn convicted<S: Evidence<Tally>>(alloc: Global, store: &S, node: NodeId) -> Result<String> {
    let Some(proof) = store.proof(node)? else {
        return Ok(String::from_str(alloc, "-")?);
    };
    convicted_by(alloc, store, &proof)
}

/// Returns what the store says of one node.
fn said_of<S: Evidence<Tally>>(alloc: Global, store: &S, node: NodeId) -> Result<String> {
    let indication = store.indication(node)?;
    let open = store.open_challenges(node)?.len();
    let convicted = convicted(alloc, store, node)?;
    Ok(format!(in alloc; "{node} {indication} {open} {convicted}")?)
}

/// Returns the store's answer: its count, what it says of each node, and the digest of its export.
fn answer_of<S: Evidence<Tally>>(alloc: Global, store: &S) -> Result<String> {
    let count = store.count();
    let mut answer = format!(in alloc; "{count}")?;
    for node in store.directory().nodes() {
        let said = said_of(alloc, store, *node)?;
        answer = format!(in alloc; "{answer} {said}")?;
    }
    let digest: [u8; 32] = Sha256::digest(store.export()?.as_slice());
    let digits = hex::encode(alloc, digest)?;
    Ok(format!(in alloc; "{answer} {digits}")?)
}

/// Returns the item at the place, if there is one.
fn item_at<S: Evidence<Tally>>(store: &S, place: u64) -> Result<Option<Item>> {
    match store.item_at(place)? {
        Some(checked) => Ok(Some(checked.into_item())),
        None => Ok(None),
    }
}

/// Returns whether the item at the place is below the next one.
fn rises<S: Evidence<Tally>>(store: &S, place: u64) -> Result<bool> {
    let lower = item_at(store, place)?;
    let upper = item_at(store, place.saturating_add(1))?;
    Ok(lower.is_some() && lower < upper)
}

/// Returns whether the store has as many items as it counts, each above the one before.
fn ascends<S: Evidence<Tally>>(store: &S) -> Result<bool> {
    let count = store.count();
    for place in 1..count {
        if !rises(store, place - 1)? {
            return Ok(false);
        }
    }
    Ok(item_at(store, count)?.is_none())
}

/// Returns whether the first store gives this answer once it has merged the second, and includes the second's items.
fn merges<S: Evidence<Tally>>(
    alloc: Global,
    first: &mut S,
    second: &S,
    answer: &str,
) -> Result<bool> {
    if !first.shares_directory(second) {
        bail!("two directories");
    }
    let before = first.count();
    let new = first.merge(second)?;
    if before.checked_add(new) != Some(first.count()) || !first.includes(second) {
        return Ok(false);
    }
    Ok(ascends(first)? && answer_of(alloc, first)?.as_str() == answer)
}

/// Returns whether the store gives this answer once it has imported the text.
fn imports<S: Evidence<Tally>>(
    alloc: Global,
    store: &mut S,
    text: &[u8],
    answer: &str,
) -> Result<bool> {
    let before = store.count();
    let new = store.import(&Tally, text)?;
    if before.checked_add(new) != Some(store.count()) {
        return Ok(false);
    }
    Ok(answer_of(alloc, store)?.as_str() == answer)
}

/// Returns whether both stores give this answer, the first once it has merged the second, and the second once it has imported the first's
/// export.
fn both_answer<S: Evidence<Tally>>(
    alloc: Global,
    first: &mut S,
    second: &mut S,
    answer: &str,
) -> Result<bool> {
    let text = first.export()?;
    let merged = merges(alloc, first, second, answer)?;
    let imported = imports(alloc, second, &text, answer)?;
    Ok(merged && imported && second.includes(first))
}

/// Returns whether the line's stores answer as it says.
pub(crate) fn agrees<S: Evidence<Tally>>(
    alloc: Global,
    directory: &Directory,
    rest: &str,
) -> Result<bool> {
    let Some(line) = line_of(rest) else {
        return Ok(false);
    };
    let mut first: S = store_of(alloc, directory, line.first)?;
    let mut second: S = store_of(alloc, directory, line.second)?;
    both_answer(alloc, &mut first, &mut second, line.answer)
}
