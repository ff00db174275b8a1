//! What a file that fails leaves of a store, whose journal has the first item.
//!
//! As it is opened, the file is read seven times, cut and synced: the calls 0 to 8. A group is written (9), synced (10), and its gate is
//! opened (11) and synced (12). A repair cuts and syncs.

use crate::stores::fixtures::{
    EMPTY, File, Kept, Seen, begun, bytes_in, directory_of, file_of, item_of, open, open_on, take,
    whole,
};
use crate::texts::{directory, first_item, item_head, second_item};
use durable_store::{OpenFault, Opening};
use evidence_store::{Evidence, PlainStore};
use journal::DeviceFault;
use ref_programs::Tally;
use std::alloc::Global;
use std::test::Fail;
use std::thread::Threads;

/// The journal of the first item.
fn journal_of_first(alloc: Global) -> Result<Vec<u8>, Fail> {
    begun(alloc, &[item_head(), first_item(), "00"])
}

/// What comes of the second item.
#[derive(Clone, Copy, Debug, PartialEq, Eq)]
struct Failed {
    /// The numbers by which it is refused at first, and once more; 0 where it is taken.
    told: [u8; 2],
    /// The store after the first refusal, and whether its journal is then as it was.
    seen: Seen,
    is_as_before: bool,
    /// How many items come back, if the process ends there.
    left: u64,
    /// At last the journal has both items.
    is_whole: bool,
}

/// The store takes the second item. Gives the number of the refusal, or 0.
fn number_of(alloc: Global, store: &mut Kept<PlainStore<Tally>>) -> Result<u8, Fail> {
    match take(alloc, store, item_of(alloc, second_item())?)? {
        Ok(_) => Ok(0),
        Err(fault) => Ok(fault.number()),
    }
}

/// The store takes the second item twice, while calls fail by this plan.
fn take_twice<R: Threads + Sync>(rt: &R, alloc: Global, plan: u32) -> Result<Failed, Fail> {
    let mut store = open::<R, PlainStore<Tally>>(rt, alloc, journal_of_first(alloc)?, plan)?;
    let first = number_of(alloc, &mut store)?;
    let seen = Seen::of(&store)?;
    let left = bytes_in(&store).to_vec(alloc)?;
    let is_as_before = left == journal_of_first(alloc)?;
    let second = number_of(alloc, &mut store)?;
    let again = open::<R, PlainStore<Tally>>(rt, alloc, left, 0)?;
    Ok(Failed {
        told: [first, second],
        seen,
        is_as_before,
        left: again.store().count(),
        is_whole: *bytes_in(&store) == *whole(alloc)?,
    })
}

/// The store with the first item.
const FIRST: Seen = Seen {
    count: 1,
    len: 1515,
    ..EMPTY
};

/// The journal is repaired, and the item is taken as it comes again.
#[test]
fn a_failure_leaves_the_store_as_it_was(rt: HostRuntime) -> Result<(), Fail> {
    let repaired = Failed {
        told: [120, 0],
        seen: FIRST,
        is_as_before: true,
        left: 1,
        is_whole: true,
    };
    for plan in [1 << 9, 1 << 10] {
        assert!(rt; take_twice(&rt, rt.alloc(), plan)? == repaired, "at {plan}");
    }
    Ok(())
}

/// Where the repair fails too, and where the group's gate may be open or not, the store is closed. What comes back has the item or not.
#[test]
fn a_failure_that_is_not_repaired_closes_the_store(rt: HostRuntime) -> Result<(), Fail> {
    let closed = Some(DeviceFault::Failed);
    for (plan, left) in [
        (0b11 << 9, 1),
        (0b101 << 9, 1),
        (0b11 << 10, 1),
        (0b101 << 10, 1),
        (1 << 11, 1),
        (1 << 12, 2),
    ] {
        let failed = take_twice(&rt, rt.alloc(), plan)?;
        assert!(rt; failed.told == [121; 2] && failed.left == left, "at {plan}");
        assert!(rt; failed.seen == Seen { closed, ..FIRST }, "at {plan}");
    }
    Ok(())
}

/// Why the journal is not opened of a file whose calls fail by this plan.
fn refusal<R: Threads + Sync>(rt: &R, alloc: Global, plan: u32) -> Result<OpenFault, Fail> {
    let listed = directory_of(alloc, directory())?;
    let file = file_of(alloc, journal_of_first(alloc)?, plan);
    match open_on::<R, PlainStore<Tally>, File>(rt, alloc, "tally", listed, file, 1)? {
        Ok(_) => Err("opened")?,
        Err(fault) => Ok(fault),
    }
}

#[test]
fn a_file_that_cannot_be_read_is_refused(rt: HostRuntime) -> Result<(), Fail> {
    for plan in [1, 1 << 1, 1 << 2, 1 << 3, 1 << 4, 1 << 5, 1 << 6] {
        let fault = refusal(&rt, rt.alloc(), plan)?;
        assert!(rt;
            fault == OpenFault::DiskFailed && fault.number() == 120,
            "at {plan}"
        );
    }
    Ok(())
}

/// Why a journal that was read is not finished, of a file whose calls fail by this plan; nothing where it is.
fn not_finished<R: Threads + Sync>(
    rt: &R,
    alloc: Global,
    plan: u32,
) -> Result<Option<DeviceFault>, Fail> {
    let listed = directory_of(alloc, directory())?;
    let file = file_of(alloc, journal_of_first(alloc)?, plan);
    let mut opening: Opening<Tally, PlainStore<Tally>, File> = Opening::new(
        alloc, "tally", listed, file,
    )?;
    opening.read(rt, &Tally, 1)?;
    match opening.finish() {
        Ok(_) => Ok(None),
        Err(refused) => Ok(Some(refused.fault)),
    }
}

#[test]
fn a_file_that_cannot_be_cut_or_synced_is_not_opened(rt: HostRuntime) -> Result<(), Fail> {
    let failed = Some(DeviceFault::Failed);
    for (plan, wanted) in [(1 << 7, failed), (1 << 8, failed), (1 << 9, None)] {
        assert!(rt; not_finished(&rt, rt.alloc(), plan)? == wanted, "at {plan}");
    }
    Ok(())
}
