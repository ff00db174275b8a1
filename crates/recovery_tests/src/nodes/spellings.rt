//! Beginnings and records as bytes.

use super::fixtures::{directory_of, whole};
use crate::texts::{beginning, directory};
use authenticators::NodeId;
use log_chain::Hash;
use node_journals::{Beginning, DraftFault, LONGEST_NAME, Recorded};
use sha2::{Digest, Sha256};
use std::alloc::Global;
use std::test::Fail;

/// The beginning of node 2 under the directory, with a program of this name.
fn beginning_of(alloc: Global, name: &[u8]) -> Result<Result<Beginning, DraftFault>, Fail> {
    let listed = directory_of(alloc, directory())?;
    let key = *listed.key(NodeId(2), 0).ok_or("a key")?;
    Ok(Beginning::new(alloc, name, &listed, NodeId(2), key, 5))
}

#[test]
fn a_beginning_is_spelled_as_the_page_says(rt: HostRuntime) -> Result<(), Fail> {
    let alloc = rt.alloc();
    let text = hex::decode(alloc, beginning())?;
    let began = beginning_of(alloc, b"tally")??;
    assert!(rt; began.program.as_slice().len() <= LONGEST_NAME);
    assert!(rt; began.to_bytes(alloc)? == text);
    Ok(())
}

#[test]
fn a_beginning_is_read_as_the_page_says(rt: HostRuntime) -> Result<(), Fail> {
    let alloc = rt.alloc();
    let text = hex::decode(alloc, beginning())?;
    let began = Beginning::from_bytes(alloc, &text)?;
    assert!(rt; (began.me, began.first_seq) == (NodeId(2), 5));
    let listed = hex::decode(alloc, directory())?;
    assert!(rt; began.directory == Hash(Sha256::digest(listed.as_slice())));
    assert!(rt; began.program.as_slice() == b"tally".as_slice());
    assert!(rt; began.to_bytes(alloc)? == text);
    Ok(())
}

/// A name has at most 255 bytes.
#[test]
fn the_longest_name_is_taken_and_no_longer_one(rt: HostRuntime) -> Result<(), Fail> {
    let alloc = rt.alloc();
    let name = [b'n'; 256];
    let longest = beginning_of(alloc, &name[..LONGEST_NAME])?;
    assert!(rt; longest.is_ok() && LONGEST_NAME == 255);
    assert!(rt; beginning_of(alloc, &name)?.err() == Some(DraftFault::TooLong));
    Ok(())
}

#[test]
fn each_record_is_read_and_spelled_as_it_was(rt: HostRuntime) -> Result<(), Fail> {
    let alloc = rt.alloc();
    let [_, received, ticked, checkpointed, acknowledged, rekeyed] = whole();
    for digits in [received, ticked, checkpointed, acknowledged, rekeyed] {
        let text = hex::decode(alloc, digits)?;
        let recorded = Recorded::from_bytes(alloc, &text)?;
        assert!(rt; recorded.fits());
        assert!(rt; recorded.to_bytes(alloc)? == text);
    }
    Ok(())
}
