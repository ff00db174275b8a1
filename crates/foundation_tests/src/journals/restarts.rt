//! What is there after a restart.

use journal::{MemoryFile, Reading};
use journal_file::FileDevice;
use std::fs;
use std::io::ErrorKind;
use std::test::*;

/// A text of two bytes, and behind it a group that a crash cut short before its gate was opened.
const TORN: [u8; 17] = [
    255, 0, 0, 0, 2, 255, 255, 255, 253, 5, 50, 0, 0, 0, 0, 9, 255,
];

#[test]
fn a_torn_end_is_cut(rt: HostRuntime) -> Result<(), Fail> {
    let alloc = rt.alloc();
    let mut reading = Reading::new(MemoryFile::new(alloc, TORN.to_vec(alloc)?));
    let text = reading.next(alloc)?.ok_or("a text")?;
    assert!(rt; text.as_slice() == [5, 50].as_slice());
    match reading.next(alloc)? {
        None => {}
        Some(_) => return Err(Fail::from("a second text")),
    }
    match reading.finish() {
        Ok(journal) => assert!(rt; journal.device().bytes() == &TORN[..12]),
        Err(_) => return Err(Fail::from("refused")),
    }
    Ok(())
}

/// Makes a journal of a text at a path where no file is.
fn write_one(rt: &HostRuntime, path: &str) -> Result<(), Fail> {
    let alloc = rt.alloc();
    let mut reading = Reading::new(FileDevice::open(rt, path)?);
    match reading.next(alloc)? {
        None => {}
        Some(_) => return Err(Fail::from("a text")),
    }
    let mut journal = match reading.finish() {
        Ok(journal) => journal,
        Err(_) => return Err(Fail::from("refused")),
    };
    let texts = vec![in alloc; [7, 8].to_vec(alloc)?]?;
    journal.append(alloc, &texts)?;
    Ok(())
}

/// The first text of the journal there.
fn first_of(rt: &HostRuntime, path: &str) -> Result<Vec<u8>, Fail> {
    let mut reading = Reading::new(FileDevice::open(rt, path)?);
    Ok(reading.next(rt.alloc())?.ok_or("a text")?)
}

#[test]
fn a_file_keeps_its_text(rt: HostRuntime) -> Result<(), Fail> {
    let path = "kept.journal";
    write_one(&rt, path)?;
    let text = first_of(&rt, path)?;
    fs::remove_file(&rt, path)?;
    assert!(rt; text.as_slice() == [7, 8].as_slice());
    Ok(())
}

#[test]
fn a_file_is_opened_once(rt: HostRuntime) -> Result<(), Fail> {
    let path = "locked.journal";
    let first = FileDevice::open(&rt, path)?;
    let is_blocked = match FileDevice::open(&rt, path) {
        Ok(_) => false,
        Err(error) => error.kind() == ErrorKind::WouldBlock,
    };
    drop(first);
    let is_free = FileDevice::open(&rt, path).is_ok();
    fs::remove_file(&rt, path)?;
    assert!(rt; (is_blocked, is_free) == (true, true));
    Ok(())
}
