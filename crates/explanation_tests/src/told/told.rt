//! For the tests: what is told of items and of proofs.

use authenticators::{Directory, NodeId};
use evidence_item::Item;
use evidence_store::{Evidence, IndexedStore};
use explanations::{PlainVoice, explain_proof, explain_store, text_of};
use ref_programs::Tally;
use std::alloc::Global;
use std::test::Fail;
use store_samples::{new_store, take};

/// A store under the directory, of these items, which are valid.
fn store_of(
    alloc: Global,
    directory: &Directory,
    items: Vec<Item>,
) -> Result<Box<IndexedStore<Tally>>, Fail> {
    let mut store: Box<IndexedStore<Tally>> = new_store(alloc, directory)?;
    for item in items {
        take::<IndexedStore<Tally>>(alloc, &mut store, Box::new(alloc, item)?)?;
    }
    Ok(store)
}

/// What is told of the items.
pub(crate) fn explanation_of_items(
    alloc: Global,
    directory: &Directory,
    items: Vec<Item>,
) -> Result<Vec<u8>, Fail> {
    let store = store_of(alloc, directory, items)?;
    let explanation = explain_store::<Tally, IndexedStore<Tally>, PlainVoice>(
        alloc,
        &Tally,
        &PlainVoice,
        &store,
    )?;
    Ok(text_of(alloc, &explanation)?)
}

/// What is told of a proof against the node, which the items expose.
pub(crate) fn explanation_of_proof(
    alloc: Global,
    directory: &Directory,
    items: Vec<Item>,
    node: NodeId,
) -> Result<Vec<u8>, Fail> {
    let store = store_of(alloc, directory, items)?;
    let Some(proof) = store.proof(node)? else {
        return Ok(Vec::new(alloc));
    };
    let told = explain_proof(alloc, &Tally, &PlainVoice, directory, &proof)?;
    Ok(text_of(alloc, &told.explanation)?)
}
