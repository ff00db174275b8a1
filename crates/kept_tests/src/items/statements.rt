//! The statements of kept items by their positions, and what an item tells of its node.

use crate::items::keeping::{Kept, keep_all};
use crate::items::seven_items::hash_in_log;
use authenticators::NodeId;
use evidence_samples::ZEROS;
use kept_items::{KeptItem, Said, compare_said};
use log_chain::{Hash, base_hash};
use ref_programs::Tally;
use std::alloc::Global;
use std::cmp::Ordering;
use std::test::*;

/// A statement without its signature.
#[derive(Clone, Copy, Debug, PartialEq, Eq)]
struct Seen {
    node: u32,
    seq: u64,
    hash: Hash,
}

fn seen_at(kept: &Kept, place: usize, position: u32) -> Option<Seen> {
    let Some(one) = kept.kept.get(place) else {
        return None;
    };
    let Some(said) = one.statement(position) else {
        return None;
    };
    Some(Seen {
        node: said.node.0,
        seq: said.seq,
        hash: said.hash,
    })
}

/// The statements of the first five positions of a sample.
fn statements(kept: &Kept, place: usize) -> [Option<Seen>; 5] {
    [
        seen_at(kept, place, 0),
        seen_at(kept, place, 1),
        seen_at(kept, place, 2),
        seen_at(kept, place, 3),
        seen_at(kept, place, 4),
    ]
}

const fn says(node: u32, seq: u64, hash: Hash) -> Option<Seen> {
    Some(Seen { node, seq, hash })
}

/// Of node 2's log and of the acknowledged message, beside what is wanted.
fn of_log(alloc: Global) -> Result<bool, Fail> {
    let kept = keep_all(alloc)?;
    let end = hash_in_log(alloc, &kept.world.message, 3)?;
    let sent = kept.world.message.signed_hash();
    let wanted = [says(2, 3, end), None, says(1, 7, sent), None, None];
    Ok(statements(&kept, 1) == wanted)
}

fn of_ack(alloc: Global) -> Result<bool, Fail> {
    let kept = keep_all(alloc)?;
    let sent = kept.world.message.signed_hash();
    let received = kept.world.message.received_hash(11, ZEROS);
    let wanted = [says(1, 7, sent), says(2, 11, received), None, None, None];
    Ok(statements(&kept, 6) == wanted)
}

#[test]
fn statements_stand_at_their_positions(rt: HostRuntime) -> Result<(), Fail> {
    assert!(rt; of_log(rt.alloc())?);
    assert!(rt; of_ack(rt.alloc())?);
    Ok(())
}

/// What an item tells beside its statements: how many positions it has, its subject, and the numbers within its reach.
#[derive(Clone, Copy, Debug, PartialEq, Eq)]
struct Told {
    positions: u32,
    subject: Option<u32>,
    reach: Option<(u64, u64)>,
}

fn tell(kept: &KeptItem<Tally>) -> Told {
    Told {
        positions: kept.positions(),
        subject: kept.subject().map(|node| node.0),
        reach: kept.reach().map(|reach| (reach.low, reach.last)),
    }
}

/// Of the statement, of the three segments and of the message.
fn all_told(alloc: Global) -> Result<Vec<Told>, Fail> {
    let kept = keep_all(alloc)?;
    let mut told = Vec::new(alloc);
    for one in &kept.kept {
        told.push(tell(one))?;
    }
    Ok(told)
}

const fn tells(positions: u32, subject: Option<u32>, reach: Option<(u64, u64)>) -> Told {
    Told {
        positions,
        subject,
        reach,
    }
}

#[test]
fn what_items_tell_of_their_node(rt: HostRuntime) -> Result<(), Fail> {
    let wanted = [
        tells(1, None, None),
        tells(4, Some(2), Some((0, 3))),
        tells(3, Some(2), Some((0, 2))),
        tells(4, Some(2), Some((u64::MAX, 0))),
        tells(2, Some(2), None),
        tells(1, Some(2), None),
        tells(2, Some(2), None),
    ];
    assert!(rt; all_told(rt.alloc())?.as_slice() == wanted.as_slice());
    Ok(())
}

/// The numbers of an item's first four links, and whether each follows the hash before it, from a log's beginning to its statement.
#[derive(Clone, Copy, Debug, PartialEq, Eq)]
struct Linked {
    numbers: [Option<u64>; 4],
    follow: bool,
}

fn follow(kept: &KeptItem<Tally>) -> bool {
    let mut last = base_hash();
    for position in 0..4 {
        if let Some(link) = kept.link(position) {
            if link.prev != last {
                return false;
            }
            last = link.hash;
        }
    }
    match kept.statement(0) {
        None => false,
        Some(said) => said.hash == last,
    }
}

fn links_of(kept: &KeptItem<Tally>) -> Linked {
    let number = |position| kept.link(position).map(|link| link.seq);
    Linked {
        numbers: [number(0), number(1), number(2), number(3)],
        follow: follow(kept),
    }
}

fn all_linked(alloc: Global) -> Result<Vec<Linked>, Fail> {
    let kept = keep_all(alloc)?;
    let mut all = Vec::new(alloc);
    for one in &kept.kept {
        all.push(links_of(one))?;
    }
    Ok(all)
}

const fn links(numbers: [Option<u64>; 4], follow: bool) -> Linked {
    Linked { numbers, follow }
}

#[test]
fn entries_of_segments_are_links(rt: HostRuntime) -> Result<(), Fail> {
    // Node 2's log has the numbers 1, 2 and 3; the segment whose numbers do not rise has 1, 3 and 3.
    let wanted = [
        links([None; 4], false),
        links([Some(1), Some(2), Some(3), None], true),
        links([Some(1), Some(2), None, None], true),
        links([Some(1), Some(3), Some(3), None], true),
        links([None; 4], false),
        links([None; 4], false),
        links([None; 4], false),
    ];
    assert!(rt; all_linked(rt.alloc())?.as_slice() == wanted.as_slice());
    Ok(())
}

fn said(seq: u64, hash: Hash, sig: &[u8]) -> Said<'_> {
    Said {
        node: NodeId(2),
        seq,
        hash,
        sig,
    }
}

#[test]
fn statements_are_ordered_by_number_hash_and_signature(rt: HostRuntime) -> Result<(), Fail> {
    let one = said(3, ZEROS, b"a");
    assert!(rt; compare_said(&one, &one) == Ordering::Equal);
    assert!(rt; compare_said(&one, &said(3, ZEROS, b"b")) == Ordering::Less);
    assert!(rt; compare_said(&one, &said(3, Hash([1; 32]), b"")) == Ordering::Less);
    assert!(rt; compare_said(&one, &said(2, Hash([1; 32]), b"b")) == Ordering::Greater);
    Ok(())
}
