//! What the tests of stores share: journals, stores over them, and groups of two items.

ghost use Rattle.std.specs.Prelude.{◌≡◌, []};

use crate::planned::Planned;
use crate::texts::{directory, directory_head, first_item, item_head, program, second_item};
use authenticators::{Directory, NodeId};
use durable_store::{DurableStore, OpenFault, Opening, TakeFault};
use evidence_item::{Item, check_item};
use evidence_store::{Evidence, Indication};
use journal::{Device, DeviceFault, MemoryFile};
use ref_programs::Tally;
use std::alloc::Global;
use std::test::Fail;
use std::thread::Threads;

/// A file in memory, of whose calls some fail.
pub type File = Planned<MemoryFile>;

/// A store under Tally that is kept in such a file.
pub type Kept<S> = DurableStore<Tally, S, File>;

/// The bytes of these digits, one text behind the other.
pub fn bytes_of(alloc: Global, digits: &[&str]) -> Result<Vec<u8>, Fail> {
    let mut bytes = Vec::new(alloc);
    for text in digits {
        bytes.extend_from_slice(&hex::decode(alloc, *text)?)?;
    }
    Ok(bytes)
}

/// A journal that is begun, and has these bytes behind its basis.
pub fn begun(alloc: Global, behind: &[&str]) -> Result<Vec<u8>, Fail> {
    let mut file = bytes_of(alloc, &[program(), directory_head(), directory()])?;
    file.extend_from_slice(&bytes_of(alloc, behind)?)?;
    Ok(file)
}

/// The journal of both items.
pub fn whole(alloc: Global) -> Result<Vec<u8>, Fail> {
    begun(
        alloc,
        &[item_head(), first_item(), item_head(), second_item(), "00"],
    )
}

/// The directory of the journals.
pub fn directory_of(alloc: Global, digits: &str) -> Result<Directory, Fail> {
    Ok(Directory::from_bytes(alloc, &hex::decode(alloc, digits)?)?)
}

/// The file, all of it on the disk, whose calls fail by this plan.
pub fn file_of(alloc: Global, bytes: Vec<u8>, plan: u32) -> File
    ensures { ⟦<Planned<MemoryFile> as Device>⟧.found result ≡ [] }
{
    Planned::new(MemoryFile::new(alloc, bytes), plan)
}

/// Opens the journal of this program and this directory that the device has, or tells why it is refused as it is read.
pub fn open_on<R: Threads + Sync, S: Evidence<Tally>, D: Device + Drop>(
    rt: &R,
    alloc: Global,
    name: &str,
    directory: Directory,
    device: D,
    workers: usize,
) -> Result<Result<Box<DurableStore<Tally, S, D>>, OpenFault>, Fail>
    requires { D.found device ≡ [] }
{
    let mut opening: Opening<Tally, S, D> = Opening::new(alloc, name, directory, device)?;
    match opening.read(rt, &Tally, workers) {
        Ok(()) => {}
        Err(fault) => return Ok(Err(fault)),
    }
    match opening.finish() {
        Ok(store) => Ok(Ok(Box::new(alloc, store)?)),
        Err(_) => Err("not finished")?,
    }
}

/// The store of a journal with these bytes, whose calls fail by this plan. It fails where the journal is refused.
pub fn open<R: Threads + Sync, S: Evidence<Tally>>(
    rt: &R,
    alloc: Global,
    bytes: Vec<u8>,
    plan: u32,
) -> Result<Box<Kept<S>>, Fail> {
    let listed = directory_of(alloc, directory())?;
    let file = file_of(alloc, bytes, plan);
    Ok(open_on::<R, S, File>(rt, alloc, "tally", listed, file, 1)??)
}

/// What the store's journal has.
pub fn bytes_in<S: Evidence<Tally>>(store: &Kept<S>) -> &[u8] {
    store.device().inner().bytes()
}

/// The item of these digits.
pub fn item_of(alloc: Global, digits: &str) -> Result<Box<Item>, Fail> {
    let item = Item::decode(alloc, &hex::decode(alloc, digits)?)?;
    Ok(Box::new(alloc, item)?)
}

/// The store takes the item as a group of its own.
pub fn take<S: Evidence<Tally>, D: Device>(
    alloc: Global,
    store: &mut DurableStore<Tally, S, D>,
    item: Box<Item>,
) -> Result<Result<Vec<bool>, TakeFault>, Fail> {
    let checked = check_item(
        alloc,
        &Tally,
        store.store().directory(),
        Box::into_inner(item),
    )?;
    let group = vec![in alloc; checked]?;
    Ok(store.take_group(group))
}

/// The store takes both as one group.
pub fn take_two<S: Evidence<Tally>, D: Device>(
    alloc: Global,
    store: &mut DurableStore<Tally, S, D>,
    first: Box<Item>,
    second: Box<Item>,
) -> Result<Result<Vec<bool>, TakeFault>, Fail> {
    let directory = store.store().directory();
    let first = check_item(alloc, &Tally, directory, Box::into_inner(first))?;
    let second = check_item(alloc, &Tally, directory, Box::into_inner(second))?;
    let group = vec![in alloc; first, second]?;
    Ok(store.take_group(group))
}

/// What tests look at of a store: how many items it has, what it says of node 1, the length of its journal, and why it is closed.
#[derive(Clone, Copy, Debug, PartialEq, Eq)]
pub struct Seen {
    pub count: u64,
    pub one: Indication,
    pub len: usize,
    pub closed: Option<DeviceFault>,
}

impl Seen {
    pub fn of<S: Evidence<Tally>, D: Device>(
        store: &DurableStore<Tally, S, D>,
    ) -> Result<Seen, Fail> {
        Ok(Seen {
            count: store.store().count(),
            one: store.store().indication(NodeId(1))?,
            len: store.journal_len(),
            closed: store.closed(),
        })
    }
}

/// The store without items.
pub const EMPTY: Seen = Seen {
    count: 0,
    one: Indication::Trusted,
    len: 0,
    closed: None,
};

/// The store with both.
pub const BOTH: Seen = Seen {
    count: 2,
    one: Indication::Exposed,
    len: 2865,
    closed: None,
};
