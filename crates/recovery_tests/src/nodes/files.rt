//! A node's journal in its file.

ghost use Rattle.std.specs.Prelude.{◌≡◌, [], IfOk};
ghost use Rattle.journal.specs.Journal.{IsSettled};

use super::fixtures::{Seen, hash_of, rebuild_by, secrets, texts_of, whole};
use crate::texts::{
    beginning, directory, end, file, received, received_end, received_signed, ticked, ticked_end,
    ticked_signed,
};
use journal::{Device, Journal, MemoryFile, Reading};
use log_chain::Hash;
use sha2::{Digest, Sha256};
use std::alloc::Global;
use std::test::Fail;

/// A new journal.
fn new_journal(alloc: Global) -> Result<Journal<MemoryFile>, Fail>
    ensures { IfOk result (λ journal. IsSettled ⟦<MemoryFile as Device>⟧.seen ⟦<MemoryFile as Device>⟧.may_leave journal) }
{
    let mut reading = Reading::new(MemoryFile::new(alloc, Vec::new(alloc)));
    match reading.next(alloc)? {
        None => {}
        Some(_) => return Err(Fail::from("a text")),
    }
    match reading.finish() {
        Ok(journal) => Ok(journal),
        Err(_) => Err(Fail::from("refused")),
    }
}

/// The file of a journal of these texts, written as one group. It fails where there is none.
fn file_of(alloc: Global, digits: &[&str]) -> Result<Vec<u8>, Fail> {
    let texts = texts_of(alloc, digits)?;
    if texts.is_empty() {
        return Err("no text")?;
    }
    let mut journal = new_journal(alloc)?;
    journal.append(alloc, &texts)?;
    Ok(journal.device().bytes().to_vec(alloc)?)
}

#[test]
fn a_journals_file_is_as_the_page_says(rt: HostRuntime) -> Result<(), Fail> {
    let bytes = file_of(rt.alloc(), &whole())?;
    assert!(rt; Hash(Sha256::digest(bytes.as_slice())) == hash_of(file())?);
    Ok(())
}

/// The texts of the device's journal, eight at most.
fn texts_in<D: Device + Drop>(alloc: Global, device: D) -> Result<Vec<Vec<u8>>, Fail>
    requires { D.found device ≡ [] }
{
    let mut reading = Reading::new(device);
    let mut texts = Vec::new(alloc);
    'texts: for _ in 0..8 {
        match reading.next(alloc)? {
            Some(text) => texts.push(text)?,
            None => return Ok(texts),
        }
    }
    Err("more texts")?
}

/// Node 2 of the journal that has this file.
fn node_in(alloc: Global, bytes: Vec<u8>) -> Result<Seen, Fail> {
    let listed = hex::decode(alloc, directory())?;
    let texts = texts_in(alloc, MemoryFile::new(alloc, bytes))?;
    let node = rebuild_by(alloc, b"tally", &listed, &secrets(), &texts)??;
    Ok(Seen::of(node.node()))
}

/// Node 2 of the file of so many texts of the journal.
fn node_of(alloc: Global, count: usize) -> Result<Seen, Fail> {
    let texts = whole();
    let written = texts.get(..count).ok_or("so many texts")?;
    let bytes = file_of(alloc, written)?;
    node_in(alloc, bytes)
}

#[test]
fn a_node_comes_back_from_its_file(rt: HostRuntime) -> Result<(), Fail> {
    let receiving = Seen::wanted((3, 2, 1, 30), 7, received_end(), received_signed())?;
    let last = Seen::wanted((6, 3, 1, 32), 10, end(), ticked_signed())?;
    for (count, wanted) in [(2, receiving), (6, last)] {
        assert!(rt; node_of(rt.alloc(), count)? == wanted, "of {count}");
    }
    Ok(())
}

/// Node 2 of the file that has the beginning and the message, and then these bytes.
fn node_with(alloc: Global, digits: &[&str]) -> Result<Seen, Fail> {
    let mut bytes = file_of(alloc, &[beginning(), received()])?;
    let _ = bytes.pop();
    for text in digits {
        bytes.extend_from_slice(&hex::decode(alloc, *text)?)?;
    }
    node_in(alloc, bytes)
}

/// The record of a tick has 41 bytes. While its gate is closed it is not there, however much of it is.
#[test]
fn a_torn_end_is_dropped(rt: HostRuntime) -> Result<(), Fail> {
    let before = Seen::wanted((3, 2, 1, 30), 7, received_end(), received_signed())?;
    let after = Seen::wanted((5, 3, 2, 29), 9, ticked_end(), ticked_signed())?;
    let numbers = "00000029ffffffd6";
    let rows: [(&[&str], Seen); 5] = [
        (&["00"], before),
        (&["00", "ffffff"], before),
        (&["00", numbers, "020b0b"], before),
        (&["00", numbers, ticked(), "00"], before),
        (&["ff", numbers, ticked(), "00"], after),
    ];
    for (end, wanted) in rows {
        assert!(rt; node_with(rt.alloc(), end)? == wanted);
    }
    Ok(())
}
