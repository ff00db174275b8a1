//! Journals of which no node is rebuilt.

use super::fixtures::{rebuild_by, secret_of, secrets, texts_of};
use crate::texts::{beginning, checkpointed, directory, received, rekeyed, ticked};
use authenticators::{Directory, NodeId};
use node_journals::{Beginning, RebuildFault, Secret};
use std::alloc::Global;
use std::test::Fail;

/// Why the texts are not rebuilt under this name and the directory of this text, and of these secrets.
fn refusal_by(
    alloc: Global,
    name: &[u8],
    listed: &[u8],
    secrets: &[Secret],
    digits: &[&str],
) -> Result<RebuildFault, Fail> {
    let texts = texts_of(alloc, digits)?;
    match rebuild_by(alloc, name, listed, secrets, &texts)? {
        Ok(_) => Err("rebuilt")?,
        Err(fault) => Ok(fault),
    }
}

/// The same under the journal's own name and directory, and of its node's secrets.
fn refusal(alloc: Global, digits: &[&str]) -> Result<RebuildFault, Fail> {
    let listed = hex::decode(alloc, directory())?;
    refusal_by(alloc, b"tally", &listed, &secrets(), digits)
}

#[test]
fn a_journal_without_a_beginning_is_refused(rt: HostRuntime) -> Result<(), Fail> {
    let empty = refusal(rt.alloc(), &[])?;
    assert!(rt; empty == RebuildFault::EmptyJournal && empty.number() == 126);
    // The empty text, a record, and the first text of a journal of items.
    for first in ["", ticked(), "50524b455054303174616c6c79"] {
        let fault = refusal(rt.alloc(), &[first, beginning()])?;
        assert!(rt; fault == RebuildFault::NoBeginning && fault.number() == 127);
    }
    Ok(())
}

#[test]
fn the_journal_of_another_program_is_refused(rt: HostRuntime) -> Result<(), Fail> {
    let listed = hex::decode(rt.alloc(), directory())?;
    let names: [&[u8]; 4] = [b"relay", b"tall", b"tally2", b""];
    for name in names {
        let fault = refusal_by(rt.alloc(), name, &listed, &secrets(), &[beginning()])?;
        assert!(rt; fault == RebuildFault::OtherProgram && fault.number() == 123);
    }
    Ok(())
}

/// Why node 2's beginning is refused under the directory of this text.
fn refusal_under(alloc: Global, listed: &[u8]) -> Result<RebuildFault, Fail> {
    refusal_by(alloc, b"tally", listed, &secrets(), &[beginning()])
}

/// The directory of no node, and one where a key of node 3 is another one.
#[test]
fn the_journal_of_another_directory_is_refused(rt: HostRuntime) -> Result<(), Fail> {
    let alloc = rt.alloc();
    let none = hex::decode(alloc, "505244495245433200000000")?;
    let fault = refusal_under(alloc, &none)?;
    assert!(rt; fault == RebuildFault::OtherDirectory && fault.number() == 124);
    let mut other = hex::decode(alloc, directory())?;
    if let Some(byte) = other.last_mut() {
        *byte ^= 1;
    }
    assert!(rt; refusal_under(alloc, &other)? == RebuildFault::OtherDirectory);
    Ok(())
}

/// Node 2's secret of its key 0, where the seed is another one.
fn other_seed() -> Secret {
    Secret {
        seed: [9; 32],
        ..secret_of(2, 0)
    }
}

/// The first secret that has the key's identifier counts.
#[test]
fn the_journal_of_another_seed_is_refused(rt: HostRuntime) -> Result<(), Fail> {
    let listed = hex::decode(rt.alloc(), directory())?;
    let [first, second] = secrets();
    let rows: [&[Secret]; 4] = [
        &[],
        &[second, secret_of(1, 0)],
        &[other_seed()],
        &[other_seed(), first],
    ];
    for of in rows {
        let fault = refusal_by(rt.alloc(), b"tally", &listed, of, &[beginning()])?;
        assert!(rt; fault == RebuildFault::OtherKey && fault.number() == 128);
    }
    Ok(())
}

/// Why a journal is refused by which this node began by node 2's key 0.
fn refusal_of_node(alloc: Global, node: u32) -> Result<RebuildFault, Fail> {
    let text = hex::decode(alloc, directory())?;
    let listed = Directory::from_bytes(alloc, &text)?;
    let key = *listed.key(NodeId(2), 0).ok_or("a key")?;
    let began = Beginning::new(alloc, b"tally", &listed, NodeId(node), key, 5)?;
    let texts = vec![in alloc; began.to_bytes(alloc)?]?;
    match rebuild_by(alloc, b"tally", &text, &secrets(), &texts)? {
        Ok(_) => Err("rebuilt")?,
        Err(fault) => Ok(fault),
    }
}

#[test]
fn a_node_that_is_not_listed_so_is_refused(rt: HostRuntime) -> Result<(), Fail> {
    let unknown = refusal_of_node(rt.alloc(), 4)?;
    assert!(rt; unknown == RebuildFault::UnknownNode && unknown.number() == 30);
    let wrong = refusal_of_node(rt.alloc(), 3)?;
    assert!(rt; wrong == RebuildFault::WrongKey && wrong.number() == 31);
    Ok(())
}

/// The first text that is no record, or names a key that no secret makes, is told.
#[test]
fn a_text_that_is_no_record_is_refused(rt: HostRuntime) -> Result<(), Fail> {
    let alloc = rt.alloc();
    let listed = hex::decode(alloc, directory())?;
    let (bad, other) = (RebuildFault::BadRecord, RebuildFault::OtherKey);
    assert!(rt; (bad.number(), other.number()) == (129, 128));
    let rows: [(&[&str], RebuildFault); 5] = [
        (&[beginning(), ""], bad),
        (&[beginning(), beginning()], bad),
        (
            &[beginning(), received(), checkpointed(), "06", rekeyed()],
            bad,
        ),
        (&[beginning(), checkpointed(), rekeyed(), "06"], other),
        (&[beginning(), rekeyed()], other),
    ];
    for (digits, wanted) in rows {
        let fault = refusal_by(alloc, b"tally", &listed, &[secret_of(2, 0)], digits)?;
        assert!(rt; fault == wanted);
    }
    Ok(())
}
