//! What checking finds of a valid item, and what is found again where only item and verdict are left.

ghost use Rattle.std.specs.Prelude.{IfOk};
ghost use Rattle.evidence_item.specs.Checking.{IsChecked};
ghost use Rattle.item_tests.specs.Idling.{idling};

use crate::validity::idle::Idle;
use crate::validity::valid_items::{valid_ack, valid_auth, valid_segment, valid_send};
use authenticators::Directory;
use evidence_item::{Checked, Findings, Form, Item, check_item};
use evidence_samples::{Nodes, make_nodes};
use log_chain::Hash;
use replay_verifier::{Reason, Verdict};
use std::alloc::Global;
use std::test::Fail;

/// The hash of the SEND entry of node 1's message, as a program in Python over its `hashlib` has it.
const SENT: Hash = Hash([
    0x9b, 0x5f, 0xeb, 0x1b, 0x21, 0xf1, 0x93, 0xfc, 0xfe, 0x97, 0x93, 0x17, 0x15, 0xe3, 0x18, 0x0d,
    0xd7, 0xcc, 0x4d, 0x0e, 0x02, 0x48, 0x46, 0x75, 0xdd, 0xec, 0x39, 0x91, 0x41, 0x9b, 0x3c, 0x91,
]);

/// What checking told of a segment: the verdict, how many hashes, and what three entries quote genuinely.
#[derive(Clone, Copy, Debug, PartialEq, Eq)]
struct Told {
    verdict: Option<Verdict>,
    hashes: usize,
    quotes: [Option<Hash>; 3],
}

fn finding_of(checked: &Checked<Idle>) -> Option<Told> {
    let Some(Findings::Segment(found)) = checked.findings() else {
        return None;
    };
    let [first, second, third] = found.quotes.as_slice() else {
        return None;
    };
    Some(Told {
        verdict: checked.verdict().copied(),
        hashes: found.hashes.as_slice().len(),
        quotes: [*first, *second, *third],
    })
}

/// What is to be told of node 2's segment.
const EXPECTED: Told = Told {
    verdict: Some(Verdict::Deviates {
        at: 1,
        reason: Reason::BadReceipt,
    }),
    hashes: 3,
    quotes: [None, None, Some(SENT)],
};

/// The item, which is valid.
fn checked(
    alloc: Global,
    directory: &Directory,
    item: Box<Item>,
) -> Result<Box<Checked<Idle>>, Fail>
    ensures { IfOk result (λ c. IsChecked directory.now idling c.value) }
{
    let checked = check_item(alloc, &Idle, directory, Box::into_inner(item))?;
    Ok(Box::new(alloc, checked)?)
}

/// Leaves item and verdict alone, and finds again what is then missing.
fn completed(
    alloc: Global,
    directory: &Directory,
    checked: Box<Checked<Idle>>,
) -> Result<Box<Checked<Idle>>, Fail>
    requires { IsChecked directory.now idling checked.value }
{
    let verdict = checked.verdict().copied();
    let item = Box::into_inner(checked).into_item();
    let mut bare = Box::new(alloc, Checked::from_parts(item, verdict))?;
    bare.find(alloc, directory)?;
    Ok(bare)
}

fn finding_of_copy(alloc: Global, checked: &Checked<Idle>) -> Result<Option<Told>, Fail> {
    let copy = checked.try_clone(alloc)?;
    Ok(finding_of(&copy))
}

/// What checking tells of node 2's segment, and what a copy tells.
fn findings_of_both(alloc: Global, nodes: &mut Nodes) -> Result<[Option<Told>; 2], Fail> {
    let item = valid_segment(alloc, nodes)?;
    let checked = checked(alloc, &nodes.directory, item)?;
    Ok([finding_of(&checked), finding_of_copy(alloc, &checked)?])
}

#[test]
fn a_segment_that_deviates_is_valid(rt: HostRuntime) -> Result<(), Fail> {
    let mut nodes = make_nodes(rt.alloc())?;
    assert_eq!(rt;
        findings_of_both(rt.alloc(), &mut nodes)?,
        [Some(EXPECTED); 2]
    );
    Ok(())
}

/// What is found again, where only item and verdict are left.
fn found_again(alloc: Global, nodes: &mut Nodes) -> Result<Option<Told>, Fail> {
    let item = valid_segment(alloc, nodes)?;
    let checked = checked(alloc, &nodes.directory, item)?;
    let found = completed(alloc, &nodes.directory, checked)?;
    Ok(finding_of(&found))
}

#[test]
fn what_is_missing_is_found_again(rt: HostRuntime) -> Result<(), Fail> {
    let mut nodes = make_nodes(rt.alloc())?;
    assert_eq!(rt; found_again(rt.alloc(), &mut nodes)?, Some(EXPECTED));
    Ok(())
}

/// The hashes that were found of a message, or of an acknowledged one.
#[derive(Clone, Copy, Debug, PartialEq, Eq)]
struct Hashes {
    sent: Hash,
    received: Option<Hash>,
}

fn hashes_of(checked: &Checked<Idle>) -> Option<Hashes> {
    match checked.findings() {
        Some(Findings::Send(sent)) => Some(Hashes {
            sent: *sent,
            received: None,
        }),
        Some(Findings::Ack { sent, received }) => Some(Hashes {
            sent: *sent,
            received: Some(*received),
        }),
        Some(Findings::Segment(_)) | None => None,
    }
}

/// The hashes that checking found, and those that are found again.
fn found_twice(
    alloc: Global,
    directory: &Directory,
    item: Box<Item>,
) -> Result<[Option<Hashes>; 2], Fail> {
    let checked = checked(alloc, directory, item)?;
    let first = hashes_of(&checked);
    let found = completed(alloc, directory, checked)?;
    Ok([first, hashes_of(&found)])
}

/// The hash of the RECV entry of an acknowledged message.
fn received_hash(item: &Item) -> Option<Hash> {
    match item.form() {
        Form::Ack(ack) => Some(ack.message.received_hash(ack.seq, ack.prev)),
        _ => None,
    }
}

#[test]
fn the_statement_of_a_message_is_found(rt: HostRuntime) -> Result<(), Fail> {
    let alloc = rt.alloc();
    let hashes = Hashes {
        sent: SENT,
        received: None,
    };
    let mut nodes = make_nodes(alloc)?;
    let item = valid_send(alloc, &mut nodes)?;
    assert_eq!(rt;
        found_twice(alloc, &nodes.directory, item)?,
        [Some(hashes); 2]
    );
    Ok(())
}

#[test]
fn both_statements_of_an_acknowledged_message_are_found(rt: HostRuntime) -> Result<(), Fail> {
    let alloc = rt.alloc();
    let mut nodes = make_nodes(alloc)?;
    let item = valid_ack(alloc, &mut nodes)?;
    let received = received_hash(&item);
    let found = found_twice(alloc, &nodes.directory, item)?;
    assert!(rt; received.is_some());
    assert_eq!(rt;
        found,
        [Some(Hashes {
            sent: SENT,
            received
        }); 2]
    );
    Ok(())
}

#[test]
fn nothing_is_found_of_a_statement(rt: HostRuntime) -> Result<(), Fail> {
    let alloc = rt.alloc();
    let mut nodes = make_nodes(alloc)?;
    let item = valid_auth(alloc, &mut nodes)?;
    assert_eq!(rt; found_twice(alloc, &nodes.directory, item)?, [None; 2]);
    Ok(())
}
