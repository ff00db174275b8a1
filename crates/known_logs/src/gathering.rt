//! What is known of the logs of nodes, from the items of a store or the parts of a proof.

use crate::known::Known;
use crate::rows::Rows;
use crate::walking::{walk, walk_auth, walk_segment};
use crate::wanted::Wanted;
use authenticators::Directory;
use evidence::Evidence;
use item_forms::Segment;
use log_chain::{Hash, entry_hash};
use outcome::Memory;
use proofs::{Parts, Proof};
use replay_verifier::{Program, quoted_hashes};
use std::alloc::Global;

/// Notes what is known from item `n` of the store.
fn note_item<P: Program, S: Evidence<P>>(
    alloc: Global,
    known: &mut Known,
    store: &S,
    n: u64,
) -> Result<(), Memory> {
    let Some(mut checked) = store.item_at(n)? else {
        return Ok(());
    };
    checked.find(alloc, store.directory())?;
    walk(known, &checked)
}

/// Notes what is known from the items of the store.
fn note_items<P: Program, S: Evidence<P>>(
    alloc: Global,
    known: &mut Known,
    store: &S,
) -> Result<(), Memory> {
    for n in 0..store.count() {
        note_item::<P, S>(alloc, known, store, n)?;
    }
    Ok(())
}

/// Returns what is known of the wanted logs from the items of a store.
///
/// It passes over the items once. It passes over them a second time if nodes that were not wanted quote entries of
/// [`Wanted::quoted`](crate::Wanted). It verifies no signature and hashes no content if that was done before.
pub fn rows_of<P: Program, S: Evidence<P>>(
    alloc: Global,
    store: &S,
    wanted: Wanted,
) -> Result<Rows, Memory> {
    let mut known = Known::new(alloc, wanted);
    note_items::<P, S>(alloc, &mut known, store)?;
    if known.turn(alloc)? {
        note_items::<P, S>(alloc, &mut known, store)?;
    }
    known.into_rows(alloc)
}

/// Returns the hash of each entry of a segment.
fn hashes_of(alloc: Global, segment: &Segment) -> Result<Vec<Hash>, Memory> {
    let mut hashes = Vec::new(alloc);
    let mut hash = segment.prev;
    for entry in segment.entries.as_slice() {
        hash = entry_hash(hash, entry);
        hashes.push(hash)?;
    }
    Ok(hashes)
}

/// Notes what is known from a segment of which nothing was found yet.
fn note_segment(
    alloc: Global,
    known: &mut Known,
    directory: &Directory,
    segment: &Segment,
) -> Result<(), Memory> {
    let hashes = hashes_of(alloc, segment)?;
    let quotes = quoted_hashes(alloc, directory, segment.node, segment.entries.as_slice())?;
    walk_segment(known, segment, &hashes, quotes.as_slice())
}

/// Returns what is known of the logs of nodes from the parts of a proof. It takes the statements as they are, and does not check whether
/// the proof is valid.
pub fn rows_of_proof(alloc: Global, directory: &Directory, proof: &Proof) -> Result<Rows, Memory> {
    let mut known = Known::new(alloc, Wanted::all(alloc));
    match proof.parts() {
        Parts::TwoAuths(first, second) => {
            walk_auth(&mut known, first)?;
            walk_auth(&mut known, second)?;
        }
        Parts::AuthSegment(auth, segment) => {
            walk_auth(&mut known, auth)?;
            note_segment(alloc, &mut known, directory, segment)?;
        }
        Parts::Nonconforming(segment) => note_segment(alloc, &mut known, directory, segment)?,
    }
    known.into_rows(alloc)
}
