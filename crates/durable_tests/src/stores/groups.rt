//! Groups of items: what is told of them, and what is written.

use crate::stores::fixtures::{BOTH, Seen, begun, bytes_in, item_of, open, take, take_two, whole};
use crate::texts::{first_item, item_head, second_item};
use evidence_store::{Evidence, IndexedStore, PlainStore};
use ref_programs::Tally;
use std::alloc::Global;
use std::test::Fail;
use std::thread::Threads;

/// What is told of a group of two, what the store then says, and what its journal has.
#[derive(Drop)]
struct Taken {
    told: Vec<bool>,
    seen: Seen,
    bytes: Vec<u8>,
}

/// The store of this journal takes two items as one group.
fn take_in<R: Threads + Sync, S: Evidence<Tally>>(
    rt: &R,
    alloc: Global,
    bytes: Vec<u8>,
    first: &str,
    second: &str,
) -> Result<Taken, Fail> {
    let first = item_of(alloc, first)?;
    let second = item_of(alloc, second)?;
    let mut store = open::<R, S>(rt, alloc, bytes, 0)?;
    let told = take_two(alloc, &mut store, first, second)??;
    Ok(Taken {
        told,
        seen: Seen::of(&store)?,
        bytes: bytes_in(&store).to_vec(alloc)?,
    })
}

/// Whether a group of two is told to be new, and a new journal has then all that the page says.
fn is_written<R: Threads + Sync, S: Evidence<Tally>>(rt: &R, alloc: Global) -> Result<bool, Fail> {
    let taken = take_in::<R, S>(rt, alloc, Vec::new(alloc), first_item(), second_item())?;
    Ok(
        taken.told.as_slice() == [true; 2].as_slice()
            && taken.seen == BOTH
            && taken.bytes == whole(alloc)?,
    )
}

#[test]
fn a_group_is_written_as_the_page_says(rt: HostRuntime) -> Result<(), Fail> {
    assert!(rt; is_written::<HostRuntime, PlainStore<Tally>>(&rt, rt.alloc())?);
    assert!(rt; is_written::<HostRuntime, IndexedStore<Tally>>(&rt, rt.alloc())?);
    Ok(())
}

/// Whether a group that the journal has is told to be known, and not written again.
fn is_known<R: Threads + Sync, S: Evidence<Tally>>(rt: &R, alloc: Global) -> Result<bool, Fail> {
    let taken = take_in::<R, S>(rt, alloc, whole(alloc)?, second_item(), first_item())?;
    Ok(
        taken.told.as_slice() == [false; 2].as_slice()
            && taken.seen == BOTH
            && taken.bytes == whole(alloc)?,
    )
}

#[test]
fn a_group_that_is_taken_twice_is_known(rt: HostRuntime) -> Result<(), Fail> {
    assert!(rt; is_known::<HostRuntime, PlainStore<Tally>>(&rt, rt.alloc())?);
    assert!(rt; is_known::<HostRuntime, IndexedStore<Tally>>(&rt, rt.alloc())?);
    Ok(())
}

#[test]
fn of_a_group_what_the_journal_lacks_is_written(rt: HostRuntime) -> Result<(), Fail> {
    let alloc = rt.alloc();
    let one = begun(alloc, &[item_head(), first_item(), "00"])?;
    let taken = take_in::<HostRuntime, PlainStore<Tally>>(
        &rt,
        alloc,
        one,
        first_item(),
        second_item(),
    )?;
    assert!(rt; taken.told.as_slice() == [false, true].as_slice());
    assert!(rt; taken.bytes == whole(alloc)?);
    Ok(())
}

/// How many items the store of this journal has.
fn count_in<R: Threads + Sync>(rt: &R, alloc: Global, bytes: Vec<u8>) -> Result<u64, Fail> {
    let store = open::<R, PlainStore<Tally>>(rt, alloc, bytes, 0)?;
    Ok(store.store().count())
}

/// It is new once, and written as often as the group has it.
#[test]
fn an_item_twice_in_a_group_has_two_texts(rt: HostRuntime) -> Result<(), Fail> {
    let alloc = rt.alloc();
    let taken = take_in::<HostRuntime, PlainStore<Tally>>(
        &rt,
        alloc,
        Vec::new(alloc),
        first_item(),
        first_item(),
    )?;
    let texts = begun(
        alloc,
        &[item_head(), first_item(), item_head(), first_item(), "00"],
    )?;
    assert!(rt; taken.told.as_slice() == [true, false].as_slice());
    assert!(rt; taken.seen.count == 1 && taken.bytes == texts);
    assert!(rt; count_in(&rt, alloc, texts)? == 1);
    Ok(())
}

/// The journal that a store leaves which takes the items one after the other.
fn written_in_turn<R: Threads + Sync>(rt: &R, alloc: Global) -> Result<Vec<u8>, Fail> {
    let mut store = open::<R, PlainStore<Tally>>(rt, alloc, Vec::new(alloc), 0)?;
    let _ = take(alloc, &mut store, item_of(alloc, first_item())?)??;
    let _ = take(alloc, &mut store, item_of(alloc, second_item())?)??;
    Ok(bytes_in(&store).to_vec(alloc)?)
}

#[test]
fn groups_stand_one_behind_the_other(rt: HostRuntime) -> Result<(), Fail> {
    let alloc = rt.alloc();
    assert!(rt; written_in_turn(&rt, alloc)? == whole(alloc)?);
    Ok(())
}

/// How many answers a new store gives of a group without an item, and what its journal has then.
fn take_nothing<R: Threads + Sync>(rt: &R, alloc: Global) -> Result<(usize, Vec<u8>), Fail> {
    let mut store = open::<R, PlainStore<Tally>>(rt, alloc, Vec::new(alloc), 0)?;
    let told = store.take_group(Vec::new(alloc))?;
    Ok((told.len(), bytes_in(&store).to_vec(alloc)?))
}

#[test]
fn a_group_without_an_item_begins_no_journal(rt: HostRuntime) -> Result<(), Fail> {
    let (count, bytes) = take_nothing(&rt, rt.alloc())?;
    assert!(rt; count == 0 && bytes.as_slice() == [0].as_slice());
    Ok(())
}
