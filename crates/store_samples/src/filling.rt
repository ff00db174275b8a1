//! Stores that take items.

use authenticators::Directory;
use evidence::Evidence;
use evidence_item::{Item, check_item};
use ref_programs::Tally;
use std::alloc::Global;
use std::test::Fail;

/// Creates a store without items, under a copy of the directory.
pub fn new_store<S: Evidence<Tally>>(alloc: Global, directory: &Directory) -> Result<Box<S>, Fail> {
    let store = S::new(alloc, directory.try_clone()?)?;
    Ok(Box::new(alloc, store)?)
}

/// Checks the item under the store's directory, and takes it. Returns whether it is new. It fails if the item is not valid.
pub fn take<S: Evidence<Tally>>(
    alloc: Global,
    store: &mut S,
    item: Box<Item>,
) -> Result<bool, Fail> {
    let checked = check_item(alloc, &Tally, store.directory(), Box::into_inner(item))?;
    Ok(store.take(checked)?)
}

/// Does the same with a copy of the item.
pub fn take_copy<S: Evidence<Tally>>(
    alloc: Global,
    store: &mut S,
    item: &Item,
) -> Result<bool, Fail> {
    let copy = item.try_clone(alloc)?;
    take(alloc, store, Box::new(alloc, copy)?)
}

/// Takes copies of the items at these places, in this order. It fails if there is no item at one of them, or if one is not valid.
pub fn take_some<S: Evidence<Tally>>(
    alloc: Global,
    store: &mut S,
    items: &[Item],
    places: &[usize],
) -> Result<(), Fail> {
    for place in places {
        let item = items.get(*place).ok_or("no such item")?;
        take_copy::<S>(alloc, store, item)?;
    }
    Ok(())
}
