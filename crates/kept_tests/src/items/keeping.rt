//! The seven items as they are kept.

use crate::items::seven_items::{SAMPLES, World, make_world};
use authenticators::Directory;
use evidence_item::{Item, check_item};
use kept_entries::EntryPool;
use kept_items::laws::checked_items_can_be_kept;
use kept_items::{Keeping, KeptItem};
use ref_programs::Tally;
use std::alloc::Global;
use std::test::Fail;

/// The item, which is valid, as it will be kept.
pub(crate) fn keep(
    alloc: Global,
    pool: &mut EntryPool,
    directory: &Directory,
    item: Box<Item>,
) -> Result<Box<Keeping<Tally>>, Fail> {
    checked_items_can_be_kept();
    let mut checked = check_item(alloc, &Tally, directory, Box::into_inner(item))?;
    checked.find(alloc, directory)?;
    match KeptItem::keep(alloc, pool, checked) {
        Ok(keeping) => Ok(Box::new(alloc, keeping)?),
        Err(_) => Err("memory ran out")?,
    }
}

/// The samples, and the same as they are kept, with one pool.
#[derive(Drop)]
pub(crate) struct Kept {
    pub(crate) world: World,
    pub(crate) pool: EntryPool,
    pub(crate) items: Vec<Item>,
    pub(crate) kept: Vec<KeptItem<Tally>>,
}

/// Keeps a copy of the item beside the others.
fn add(alloc: Global, kept: &mut Kept, item: Box<Item>) -> Result<(), Fail> {
    let copy = item.try_clone(alloc)?;
    kept.items.push(copy)?;
    let keeping = keep(alloc, &mut kept.pool, &kept.world.directory, item)?;
    kept.kept.push(Box::into_inner(keeping).commit())?;
    Ok(())
}

/// All samples.
pub(crate) fn keep_all(alloc: Global) -> Result<Box<Kept>, Fail> {
    let kept = Kept {
        world: make_world(alloc)?,
        pool: EntryPool::new(alloc),
        items: Vec::new(alloc),
        kept: Vec::new(alloc),
    };
    let mut kept = Box::new(alloc, kept)?;
    for sample in SAMPLES {
        let item = kept.world.item(alloc, sample)?;
        add(alloc, &mut kept, item)?;
    }
    Ok(kept)
}
