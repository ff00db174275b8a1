//! What answers a challenge, and what contradicts a segment.

use crate::items::keeping::{Kept, keep_all};
use crate::items::seven_items::hash_in_log;
use authenticators::NodeId;
use evidence_samples::ZEROS;
use kept_items::{KeptItem, Said};
use log_chain::Hash;
use ref_programs::Tally;
use std::alloc::Global;
use std::test::*;

/// Which of the samples answer the one, a bit for each, the first the lowest.
fn answering(kept: &Kept, challenge: &KeptItem<Tally>) -> u32 {
    let mut bits = 0u32;
    let mut bit = 1u32;
    for one in &kept.kept {
        if one.answers(challenge) {
            bits |= bit;
        }
        bit = bit.wrapping_mul(2);
    }
    bits
}

/// The same of each sample.
fn answered(alloc: Global) -> Result<Vec<u32>, Fail> {
    let kept = keep_all(alloc)?;
    let mut answered = Vec::new(alloc);
    for one in &kept.kept {
        answered.push(answering(&kept, one))?;
    }
    Ok(answered)
}

#[test]
fn challenges_are_answered(rt: HostRuntime) -> Result<(), Fail> {
    // The demand by the whole log; the message by both parts of the log, and by its acknowledgement.
    let wanted = [0, 0, 0, 0, 0b10, 0b100_0110, 0];
    assert!(rt; answered(rt.alloc())?.as_slice() == wanted.as_slice());
    Ok(())
}

/// Which of the samples the statement of node 2 contradicts.
fn denied(kept: &Kept, seq: u64, hash: Hash) -> u32 {
    let said = Said {
        node: NodeId(2),
        seq,
        hash,
        sig: b"",
    };
    let mut bits = 0u32;
    let mut bit = 1u32;
    for one in &kept.kept {
        if one.is_denied(&said) {
            bits |= bit;
        }
        bit = bit.wrapping_mul(2);
    }
    bits
}

/// Of the numbers 0, 3 and 4 with a hash of zeros, and of the number 3 with its own.
fn all_denied(alloc: Global) -> Result<[u32; 4], Fail> {
    let kept = keep_all(alloc)?;
    let own = hash_in_log(alloc, &kept.world.message, 3)?;
    Ok([
        denied(&kept, 0, ZEROS),
        denied(&kept, 3, ZEROS),
        denied(&kept, 4, ZEROS),
        denied(&kept, 3, own),
    ])
}

#[test]
fn segments_are_denied(rt: HostRuntime) -> Result<(), Fail> {
    // A segment whose numbers do not rise is contradicted by nothing.
    assert!(rt; all_denied(rt.alloc())? == [0b110, 0b10, 0, 0]);
    Ok(())
}

/// How many samples are challenges against node 2, and against node 1.
fn against(alloc: Global) -> Result<[usize; 2], Fail> {
    let kept = keep_all(alloc)?;
    let two = kept.kept.iter().filter(|k| k.is_against(NodeId(2))).count();
    let one = kept.kept.iter().filter(|k| k.is_against(NodeId(1))).count();
    Ok([two, one])
}

#[test]
fn challenges_are_against_their_node(rt: HostRuntime) -> Result<(), Fail> {
    assert!(rt; against(rt.alloc())? == [2, 0]);
    Ok(())
}
