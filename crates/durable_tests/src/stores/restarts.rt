//! What a store has that is opened again.

ghost use Rattle.std.specs.Prelude.{◌≡◌, []};

use crate::stores::fixtures::{
    BOTH, EMPTY, File, Kept, Seen, begun, bytes_in, bytes_of, directory_of, file_of, item_of, open,
    open_on, take, take_two, whole,
};
use crate::texts::{
    counted_head, directory, first_item, item_head, second_item, staged_head, store_head,
};
use evidence_samples::{Nodes, ZEROS, make_nodes};
use evidence_store::{Evidence, IndexedStore, Item, PlainStore};
use journal::Device;
use journal_file::FileDevice;
use ref_programs::Tally;
use std::alloc::Global;
use std::fs;
use std::test::Fail;
use std::thread::Threads;

/// The text of the set of both items.
fn text_of_both(alloc: Global) -> Result<Vec<u8>, Fail> {
    bytes_of(
        alloc,
        &[
            store_head(),
            counted_head(),
            first_item(),
            counted_head(),
            second_item(),
        ],
    )
}

/// Whether a store that so many workers open has both items, and its journal is as it was.
fn comes_back<R: Threads + Sync, S: Evidence<Tally>>(
    rt: &R,
    alloc: Global,
    workers: usize,
) -> Result<bool, Fail> {
    let listed = directory_of(alloc, directory())?;
    let file = file_of(alloc, whole(alloc)?, 0);
    let store = open_on::<R, S, File>(rt, alloc, "tally", listed, file, workers)??;
    Ok(
        Seen::of(&store)? == BOTH
            && store.store().export()? == text_of_both(alloc)?
            && *bytes_in(&store) == *whole(alloc)?,
    )
}

#[test]
fn the_items_come_back_whoever_checks_them(rt: HostRuntime) -> Result<(), Fail> {
    for workers in [1, 2, 8] {
        assert!(rt; comes_back::<HostRuntime, PlainStore<Tally>>(&rt, rt.alloc(), workers)?);
        assert!(rt; comes_back::<HostRuntime, IndexedStore<Tally>>(&rt, rt.alloc(), workers)?);
    }
    Ok(())
}

/// Whether a store without items is opened of this file, which has then a closed gate and nothing else.
fn is_new<R: Threads + Sync>(rt: &R, alloc: Global, bytes: Vec<u8>) -> Result<bool, Fail> {
    let store = open::<R, PlainStore<Tally>>(rt, alloc, bytes, 0)?;
    Ok(Seen::of(&store)? == EMPTY && bytes_in(&store) == [0].as_slice())
}

/// A crash may leave at most a byte of a new file, whatever the byte is.
#[test]
fn a_new_journal_has_no_item(rt: HostRuntime) -> Result<(), Fail> {
    let alloc = rt.alloc();
    for digits in ["", "00", "ff"] {
        assert!(rt; is_new(&rt, alloc, bytes_of(alloc, &[digits])?)?);
    }
    Ok(())
}

/// What comes of a journal of the first item that has another end.
#[derive(Clone, Copy, Debug, PartialEq, Eq)]
struct Torn {
    /// How many items come back.
    count: u64,
    /// The end is cut off behind the closed gate.
    is_cut: bool,
    /// The second item is told to be new, and then the journal has both.
    is_whole: bool,
}

/// Opens the journal, and has the store take the second item.
fn open_torn<R: Threads + Sync>(rt: &R, alloc: Global, end: &[&str]) -> Result<Torn, Fail> {
    let mut bytes = begun(alloc, &[item_head(), first_item()])?;
    bytes.extend_from_slice(&bytes_of(alloc, end)?)?;
    let one = begun(alloc, &[item_head(), first_item(), "00"])?;
    let mut store = open::<R, PlainStore<Tally>>(rt, alloc, bytes, 0)?;
    let count = store.store().count();
    let is_cut = *bytes_in(&store) == *one;
    let told = take(alloc, &mut store, item_of(alloc, second_item())?)??;
    Ok(Torn {
        count,
        is_cut,
        is_whole: told.as_slice() == [true].as_slice() && *bytes_in(&store) == *whole(alloc)?,
    })
}

/// The second item's group, whose gate is closed, is not there, however much of it is. The first item, which was acknowledged, is.
#[test]
fn a_torn_end_is_dropped(rt: HostRuntime) -> Result<(), Fail> {
    let wanted = Torn {
        count: 1,
        is_cut: true,
        is_whole: true,
    };
    let ends: [&[&str]; 4] = [
        &["00"],
        &["00ff"],
        &[staged_head(), "0101"],
        &[staged_head(), second_item(), "00"],
    ];
    for end in ends {
        assert!(rt; open_torn(&rt, rt.alloc(), end)? == wanted);
    }
    Ok(())
}

/// The store takes an item of each form, each as a group of its own.
fn take_each(
    alloc: Global,
    nodes: &mut Nodes,
    store: &mut Kept<PlainStore<Tally>>,
) -> Result<(), Fail> {
    let _ = take(alloc, store, nodes.one.statement(alloc, 5, ZEROS, 9)?)??;
    let _ = take(alloc, store, nodes.two.log_from(alloc, 1)?)??;
    let _ = take(alloc, store, nodes.two.audit(alloc, Some(2))?)??;
    let message = nodes.one.message(alloc, 7, b"hello", 9)?;
    let demand = Item::send(message.try_clone(alloc)?)?;
    let _ = take(alloc, store, Box::new(alloc, demand)?)??;
    let _ = take(alloc, store, nodes.two.acknowledged(alloc, message)?)??;
    Ok(())
}

/// The text of a store that took an item of each form, and that of the one that comes back.
fn both_exports<R: Threads + Sync>(rt: &R, alloc: Global) -> Result<(Vec<u8>, Vec<u8>), Fail> {
    let mut nodes = make_nodes(alloc)?;
    let listed = nodes.directory.try_clone()?;
    let file = file_of(alloc, Vec::new(alloc), 0);
    let mut store = open_on::<R, PlainStore<Tally>, File>(rt, alloc, "tally", listed, file, 1)??;
    take_each(alloc, &mut nodes, &mut store)?;
    let listed = nodes.directory.try_clone()?;
    let file = file_of(alloc, bytes_in(&store).to_vec(alloc)?, 0);
    let again = open_on::<R, PlainStore<Tally>, File>(rt, alloc, "tally", listed, file, 1)??;
    Ok((store.store().export()?, again.store().export()?))
}

#[test]
fn items_of_each_form_come_back(rt: HostRuntime) -> Result<(), Fail> {
    let (before, after) = both_exports(&rt, rt.alloc())?;
    assert!(rt; before == after);
    // The count stands behind the first eight bytes.
    assert!(rt; before.get(8..16) == Some([0, 0, 0, 0, 0, 0, 0, 5].as_slice()));
    Ok(())
}

/// What the store says whose journal this device has, once it took both items if it is to.
fn seen_on<R: Threads + Sync>(
    rt: &R,
    alloc: Global,
    device: FileDevice,
    takes: bool,
) -> Result<Seen, Fail>
    requires { ⟦<FileDevice as Device>⟧.found device ≡ [] }
{
    let listed = directory_of(alloc, directory())?;
    let mut store = open_on::<R, IndexedStore<Tally>, FileDevice>(
        rt, alloc, "tally", listed, device, 2,
    )??;
    if takes {
        let first = item_of(alloc, first_item())?;
        let second = item_of(alloc, second_item())?;
        let _ = take_two(alloc, &mut store, first, second)??;
    }
    Seen::of(&store)
}

#[test]
fn a_file_keeps_its_items(rt: HostRuntime) -> Result<(), Fail> {
    let alloc = rt.alloc();
    let path = "kept.items";
    let before = seen_on(&rt, alloc, FileDevice::open(&rt, path)?, true)?;
    let bytes = fs::read(&rt, path)?;
    let after = seen_on(&rt, alloc, FileDevice::open(&rt, path)?, false)?;
    fs::remove_file(&rt, path)?;
    assert!(rt; [before, after] == [BOTH; 2]);
    assert!(rt; bytes == whole(alloc)?);
    Ok(())
}
