//! Journals that are not opened, and the numbers and words of what is refused.

ghost use Rattle.std.specs.Prelude.{◌≡◌, []};

use crate::stores::fixtures::{File, begun, bytes_of, directory_of, file_of, open_on, whole};
use crate::texts::{directory, directory_head, first_item, item_head, program, second_item};
use durable_store::{OpenFault, TakeFault};
use evidence_store::PlainStore;
use journal::{Device, DeviceFault};
use journal_file::FileDevice;
use parallel_checking::MOST_WORKERS;
use ref_programs::Tally;
use std::alloc::Global;
use std::fs;
use std::test::Fail;
use std::thread::Threads;

/// Why the journal with these bytes is not opened under this program's name and the directory of these digits, by so many workers.
fn refusal_by<R: Threads + Sync>(
    rt: &R,
    alloc: Global,
    name: &str,
    listed: &str,
    bytes: Vec<u8>,
    workers: usize,
) -> Result<OpenFault, Fail> {
    let listed = directory_of(alloc, listed)?;
    let file = file_of(alloc, bytes, 0);
    match open_on::<R, PlainStore<Tally>, File>(rt, alloc, name, listed, file, workers)? {
        Ok(_) => Err("opened")?,
        Err(fault) => Ok(fault),
    }
}

/// The same under the journals' own name and directory, by one worker.
fn refusal<R: Threads + Sync>(rt: &R, alloc: Global, bytes: Vec<u8>) -> Result<OpenFault, Fail> {
    refusal_by(rt, alloc, "tally", directory(), bytes, 1)
}

#[test]
fn the_journal_of_another_program_is_refused(rt: HostRuntime) -> Result<(), Fail> {
    let alloc = rt.alloc();
    for name in ["relay", "tall", "tally2", ""] {
        let fault = refusal_by(&rt, alloc, name, directory(), whole(alloc)?, 1)?;
        assert!(rt; fault == OpenFault::OtherProgram && fault.number() == 123);
    }
    // A text that is none of a store's, and the empty one.
    for digits in ["ff00000001fffffffe0700", "ff00000000ffffffff00"] {
        let fault = refusal(&rt, alloc, bytes_of(alloc, &[digits])?)?;
        assert!(rt; fault == OpenFault::OtherProgram);
    }
    Ok(())
}

/// The directory of no node.
const NO_NODE: &str = "505244495245433200000000";

#[test]
fn the_journal_of_another_directory_is_refused(rt: HostRuntime) -> Result<(), Fail> {
    let alloc = rt.alloc();
    let other = refusal_by(&rt, alloc, "tally", NO_NODE, whole(alloc)?, 1)?;
    assert!(rt; other == OpenFault::OtherDirectory && other.number() == 124);
    // The second text is missing; it is another one, be it that of an item.
    let behind: [&[&str]; 3] = [
        &["00"],
        &["ff0000000cfffffff3", NO_NODE, "00"],
        &[item_head(), first_item(), "00"],
    ];
    for digits in behind {
        let mut bytes = bytes_of(alloc, &[program()])?;
        bytes.extend_from_slice(&bytes_of(alloc, digits)?)?;
        assert!(rt; refusal(&rt, alloc, bytes)? == OpenFault::OtherDirectory);
    }
    Ok(())
}

#[test]
fn a_text_that_is_no_item_is_refused(rt: HostRuntime) -> Result<(), Fail> {
    let alloc = rt.alloc();
    let rows: [(&[&str], u64); 4] = [
        // The empty text.
        (&["ff00000000ffffffff", "00"], 2),
        // A tag alone, behind an item and before one.
        (
            &[
                item_head(),
                first_item(),
                "ff00000001fffffffe01",
                item_head(),
                second_item(),
                "00",
            ],
            3,
        ),
        // The basis once more.
        (&[program(), "00"], 2),
        (
            &[
                item_head(),
                first_item(),
                item_head(),
                first_item(),
                directory_head(),
                directory(),
                "00",
            ],
            4,
        ),
    ];
    for (behind, place) in rows {
        let fault = refusal(&rt, alloc, begun(alloc, behind)?)?;
        assert!(rt; fault == OpenFault::BadItem(place) && fault.number() == 125);
    }
    Ok(())
}

/// The journal of both items, where a bit of the byte at this place is another one.
fn turned(alloc: Global, place: usize) -> Result<Vec<u8>, Fail> {
    let mut bytes = whole(alloc)?;
    if let Some(byte) = bytes.get_mut(place) {
        *byte ^= 1;
    }
    Ok(bytes)
}

/// The blocks begin at 0, 22, 165 and 1515, each with nine bytes before its text, and end at 2865.
#[test]
fn a_bit_that_changed_is_told(rt: HostRuntime) -> Result<(), Fail> {
    let alloc = rt.alloc();
    for (place, wanted) in [
        // A length and what it lacks, the closed gate.
        (4, OpenFault::Damaged),
        (8, OpenFault::Damaged),
        (1516, OpenFault::Damaged),
        (2865, OpenFault::Damaged),
        // The eight bytes, the program, the directory.
        (9, OpenFault::OtherProgram),
        (21, OpenFault::OtherProgram),
        (31, OpenFault::OtherDirectory),
        (164, OpenFault::OtherDirectory),
        // An item's tag, its node's number, its hash, and the last byte of its signature.
        (174, OpenFault::BadItem(2)),
        (178, OpenFault::BadItem(2)),
        (1540, OpenFault::BadItem(3)),
        (2864, OpenFault::BadItem(3)),
    ] {
        assert!(rt;
            refusal(&rt, alloc, turned(alloc, place)?)? == wanted,
            "at {place}"
        );
    }
    Ok(())
}

/// However much of its end a file lost, but for all of it and all but a byte.
#[test]
fn a_file_that_lost_its_end_is_damaged(rt: HostRuntime) -> Result<(), Fail> {
    let alloc = rt.alloc();
    for len in [2, 9, 10, 22, 165, 1514, 1515, 1523, 1524, 2864, 2865] {
        let mut bytes = whole(alloc)?;
        bytes.truncate(len);
        let fault = refusal(&rt, alloc, bytes)?;
        assert!(rt;
            fault == OpenFault::Damaged && fault.number() == 122,
            "at {len}"
        );
    }
    Ok(())
}

/// The workers are told of before anything is read.
#[test]
fn no_worker_and_too_many_are_refused(rt: HostRuntime) -> Result<(), Fail> {
    let alloc = rt.alloc();
    for workers in [0, MOST_WORKERS + 1] {
        let damaged = bytes_of(alloc, &["ffff"])?;
        let fault = refusal_by(&rt, alloc, "relay", directory(), damaged, workers)?;
        assert!(rt; fault == OpenFault::BadWorkers && fault.number() == 90);
    }
    Ok(())
}

/// Why the device's journal is not opened.
fn refusal_on<R: Threads + Sync>(
    rt: &R,
    alloc: Global,
    device: FileDevice,
) -> Result<OpenFault, Fail>
    requires { ⟦<FileDevice as Device>⟧.found device ≡ [] }
{
    let listed = directory_of(alloc, directory())?;
    match open_on::<R, PlainStore<Tally>, FileDevice>(rt, alloc, "tally", listed, device, 1)? {
        Ok(_) => Err("opened")?,
        Err(fault) => Ok(fault),
    }
}

/// Nothing of the file is cut, and nothing is written, also where it ends as a crash may leave it.
#[test]
fn a_refused_file_stays_as_it_was(rt: HostRuntime) -> Result<(), Fail> {
    let alloc = rt.alloc();
    let path = "refused.items";
    let mut torn = turned(alloc, 2864)?;
    torn.extend_from_slice(b"torn")?;
    fs::write(&rt, path, torn.as_slice())?;
    let fault = refusal_on(&rt, alloc, FileDevice::open(&rt, path)?)?;
    let left = fs::read(&rt, path)?;
    fs::remove_file(&rt, path)?;
    assert!(rt; fault == OpenFault::BadItem(3));
    assert!(rt; left == torn);
    Ok(())
}

#[test]
fn refusals_to_open_have_numbers_names_and_lines(rt: HostRuntime) -> Result<(), Fail> {
    for (fault, told) in [
        (
            OpenFault::BadWorkers,
            "90 BadWorkers: the number of workers is not allowed",
        ),
        (
            OpenFault::DiskFailed,
            "120 DiskFailed: the journal's file failed",
        ),
        (
            OpenFault::Damaged,
            "122 Damaged: the journal is damaged in a way that no crash causes",
        ),
        (
            OpenFault::OtherProgram,
            "123 OtherProgram: the journal is of another program, or it is no journal of items",
        ),
        (
            OpenFault::OtherDirectory,
            "124 OtherDirectory: the journal is of another directory",
        ),
        (
            OpenFault::BadItem(2),
            "125 BadItem: a text of the journal is not that of a valid item",
        ),
        (OpenFault::Memory, "99 Memory: memory ran out"),
    ] {
        let line = format!(in rt.alloc(); "{} {}: {fault}", fault.number(), fault.name())?;
        assert!(rt; line.as_str() == told);
    }
    Ok(())
}

#[test]
fn refusals_to_take_have_numbers_names_and_lines(rt: HostRuntime) -> Result<(), Fail> {
    for (fault, told) in [
        (
            TakeFault::GroupTooLong,
            "118 GroupTooLong: the group is longer than a journal takes at once",
        ),
        (
            TakeFault::JournalFull,
            "119 JournalFull: the journal is full",
        ),
        (
            TakeFault::DiskFailed,
            "120 DiskFailed: the journal's file failed",
        ),
        (
            TakeFault::Lost(DeviceFault::Failed),
            "121 Lost: the store is closed until its journal is opened again",
        ),
        (TakeFault::Memory, "99 Memory: memory ran out"),
    ] {
        let line = format!(in rt.alloc(); "{} {}: {fault}", fault.number(), fault.name())?;
        assert!(rt; line.as_str() == told);
    }
    Ok(())
}

/// Whatever stopped it, the store is closed by no other refusal.
#[test]
fn a_store_is_closed_where_it_is_lost(rt: HostRuntime) {
    for why in [DeviceFault::Failed, DeviceFault::Memory] {
        assert!(rt; TakeFault::Lost(why).closed_by() == Some(why));
    }
    for fault in [
        TakeFault::GroupTooLong,
        TakeFault::JournalFull,
        TakeFault::DiskFailed,
        TakeFault::Memory,
    ] {
        assert!(rt; fault.closed_by().is_none());
    }
}
