//! Stores of the items that a line names.

use anyhow::{Result, bail};
use authenticators::Directory;
use evidence_item::{Item, check_item};
use evidence_store::Evidence;
use ref_programs::Tally;
use std::alloc::Global;

/// Checks the item that the digits spell, and takes it.
fn take<S: Evidence<Tally>>(alloc: Global, store: &mut S, digits: &str) -> Result<()> {
    let bytes = hex::decode(alloc, digits)?;
    let item = Item::decode(alloc, &bytes)?;
    let checked = check_item(alloc, &Tally, store.directory(), item)?;
    match store.take(checked) {
        Ok(_) => Ok(()),
        Err(_) => bail!("an item was refused"),
    }
}

/// Takes the items in their order.
fn take_each<S: Evidence<Tally>>(alloc: Global, store: &mut S, items: &str) -> Result<()> {
    if items == "-" {
        return Ok(());
    }
    for digits in items.split(',') {
        take(alloc, store, digits)?;
    }
    Ok(())
}

/// Returns the store of a witness that took the items in this order.
pub(crate) fn store_of<S: Evidence<Tally>>(
    alloc: Global,
    directory: &Directory,
    items: &str,
) -> Result<S> {
    let directory = directory.try_clone()?;
    let Ok(mut store) = S::new(alloc, directory) else {
        bail!("no store");
    };
    take_each(alloc, &mut store, items)?;
    Ok(store)
}
