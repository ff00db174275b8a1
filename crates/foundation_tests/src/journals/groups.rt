//! A group is added, and the longest one.

ghost use Rattle.std.specs.Prelude.{IfOk};
ghost use Rattle.journal.specs.Journal.{IsSettled};

use journal::{AppendFault, Journal, MOST_GROUP, MemoryFile, Reading};
use std::alloc::Global;
use std::test::*;

/// A new journal.
fn new_journal(alloc: Global) -> Result<Journal<MemoryFile>, Fail>
    ensures { IfOk result (λ journal. IsSettled ⟦<MemoryFile as journal::Device>⟧.seen ⟦<MemoryFile as journal::Device>⟧.may_leave journal) }
{
    let mut reading = Reading::new(MemoryFile::new(alloc, Vec::new(alloc)));
    match reading.next(alloc)? {
        None => {}
        Some(_) => return Err(Fail::from("a text")),
    }
    match reading.finish() {
        Ok(journal) => Ok(journal),
        Err(_) => Err(Fail::from("refused")),
    }
}

#[test]
fn a_group_is_added(rt: HostRuntime) -> Result<(), Fail> {
    let alloc = rt.alloc();
    let mut journal = new_journal(alloc)?;
    let texts = vec![in alloc; [7].to_vec(alloc)?, Vec::new(alloc)]?;
    journal.append(alloc, &texts)?;
    let expected = [
        255, 0, 0, 0, 1, 255, 255, 255, 254, 7, 255, 0, 0, 0, 0, 255, 255, 255, 255, 0,
    ];
    let is = journal.device().bytes() == expected.as_slice();
    assert!(rt; (is, journal.len()) == (true, 19));
    Ok(())
}

/// What comes of adding a text of so many zeros.
fn added(alloc: Global, size: usize) -> Result<Result<(), AppendFault>, Fail> {
    let mut journal = new_journal(alloc)?;
    let texts = vec![in alloc; vec![in alloc; 0u8; size]?]?;
    Ok(journal.append(alloc, &texts))
}

#[test]
fn the_longest_group(rt: HostRuntime) -> Result<(), Fail> {
    let alloc = rt.alloc();
    assert!(rt; added(alloc, MOST_GROUP - 9)?.is_ok());
    assert!(rt; added(alloc, MOST_GROUP - 8)? == Err(AppendFault::TooLong));
    Ok(())
}
