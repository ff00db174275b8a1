//! Records that are drafted, and those that are not.

use super::fixtures::{directory_of, draft_of, secret_of, secrets, whole};
use crate::texts::{checkpointed, directory, rekeyed, ticked};
use authenticators::NodeId;
use commitment::{Ack, ByteString, Hash, Message};
use lms_sign::PublicKey;
use node_journals::{DraftFault, DraftRefused, Recorded};
use std::alloc::Global;
use std::test::Fail;

/// The draft of each text has this text.
#[test]
fn drafts_have_the_texts_of_the_page(rt: HostRuntime) -> Result<(), Fail> {
    let alloc = rt.alloc();
    let [_, received, ticked, checkpointed, acknowledged, rekeyed] = whole();
    for digits in [received, ticked, checkpointed, acknowledged, rekeyed] {
        let drafted = draft_of(alloc, digits)?;
        assert!(rt; drafted.text == hex::decode(alloc, digits)?);
    }
    Ok(())
}

/// A key of the directory.
fn key_of(alloc: Global, node: u32, number: u8) -> Result<PublicKey, Fail> {
    let listed = directory_of(alloc, directory())?;
    Ok(*listed.key(NodeId(node), number).ok_or("a key")?)
}

/// Whether the record is drafted with this text.
fn is_drafted(alloc: Global, recorded: Recorded, digits: &str) -> Result<bool, Fail> {
    match recorded.draft(alloc, &secrets()) {
        Ok(drafted) => Ok(drafted.text == hex::decode(alloc, digits)?),
        Err(refused) => Err(refused.fault)?,
    }
}

#[test]
fn records_are_spelled_as_the_page_says(rt: HostRuntime) -> Result<(), Fail> {
    let alloc = rt.alloc();
    assert!(rt; is_drafted(alloc, Recorded::Ticked(5, [11; 32]), ticked())?);
    assert!(rt; is_drafted(alloc, Recorded::Checkpointed, checkpointed())?);
    let key = key_of(alloc, 2, 1)?;
    assert!(rt; is_drafted(alloc, Recorded::Rekeyed(key), rekeyed())?);
    Ok(())
}

/// So many bytes 7.
fn bytes_of(alloc: Global, len: usize) -> Result<ByteString, Fail> {
    Ok(ByteString::from_vec(vec![in alloc; 7u8; len]?))
}

/// The record of a message with a signature and a payload of so many bytes.
fn message_of(alloc: Global, sig: usize, payload: usize) -> Result<Recorded, Fail> {
    Ok(Recorded::Received(
        Message {
            from: NodeId(1),
            to: NodeId(2),
            seq: 2,
            prev: Hash([0; 32]),
            sig: bytes_of(alloc, sig)?,
            payload: bytes_of(alloc, payload)?,
        },
        [1; 32],
    ))
}

/// The record of an acknowledgement with a signature of so many bytes.
fn ack_of(alloc: Global, sig: usize) -> Result<Recorded, Fail> {
    Ok(Recorded::Acknowledged(Ack {
        from: NodeId(3),
        send_seq: 9,
        seq: 2,
        prev: Hash([0; 32]),
        sig: bytes_of(alloc, sig)?,
    }))
}

/// How long the record's text is; or why it has none.
fn drafted(alloc: Global, recorded: Recorded) -> Result<usize, DraftFault> {
    match recorded.draft(alloc, &[]) {
        Ok(drafted) => Ok(drafted.text.len()),
        Err(refused) => Err(refused.fault),
    }
}

/// A signature has at most 9,325 bytes, and a payload at most 65,536. The record of a message takes 94 bytes beside these, and
/// that of an acknowledgement 57.
#[test]
fn the_longest_records_are_drafted_and_no_longer_ones(rt: HostRuntime) -> Result<(), Fail> {
    let alloc = rt.alloc();
    let long = Err(DraftFault::TooLong);
    for (sig, payload, wanted) in [
        (9_325, 65_536, Ok(9_325 + 65_536 + 94)),
        (9_326, 65_536, long),
        (9_325, 65_537, long),
    ] {
        let recorded = message_of(alloc, sig, payload)?;
        assert!(rt; recorded.fits() == wanted.is_ok());
        assert!(rt; drafted(alloc, recorded) == wanted);
    }
    for (sig, wanted) in [(9_325, Ok(9_325 + 57)), (9_326, long)] {
        let recorded = ack_of(alloc, sig)?;
        assert!(rt; recorded.fits() == wanted.is_ok());
        assert!(rt; drafted(alloc, recorded) == wanted);
    }
    assert!(rt; DraftFault::TooLong.number() == 42);
    Ok(())
}

/// Why the record of this key is not drafted of the secrets of the keys 0 of nodes 1 and 2, where it is given back.
fn refusal(alloc: Global, key: PublicKey) -> Result<DraftFault, Fail> {
    match Recorded::Rekeyed(key).draft(alloc, &[secret_of(1, 0), secret_of(2, 0)]) {
        Ok(_) => Err("drafted")?,
        Err(refused) => {
            let DraftRefused { fault, recorded } = refused;
            match recorded {
                Recorded::Rekeyed(back) if back == key => Ok(fault),
                _ => Err("another record")?,
            }
        }
    }
}

/// None of the secrets makes a key of its identifier; and one makes another key.
#[test]
fn a_key_that_no_secret_makes_is_given_back(rt: HostRuntime) -> Result<(), Fail> {
    let alloc = rt.alloc();
    let fault = refusal(alloc, key_of(alloc, 2, 1)?)?;
    assert!(rt; fault == DraftFault::OtherKey && fault.number() == 128);
    let mut other = key_of(alloc, 2, 0)?;
    other.root[31] ^= 1;
    assert!(rt; refusal(alloc, other)? == DraftFault::OtherKey);
    Ok(())
}
