//! Challenges to node 2, its answers, and its refusals.

use crate::demands::asking::{Part, answered, audit, checked, part_of, refusal};
use crate::demands::log_hashes::{BASE, FOURTH, SECOND, SIXTH};
use crate::demands::node_two::{ADDS_ONE, node_with_log, receive_up_to};
use authenticators::{Authenticator, NodeId};
use challenges::{AnswerFault, ChallengeFault, audit_challenge, send_challenge};
use commitment::Node;
use evidence_samples::{Nodes, Signer, ZEROS, make_nodes};
use item_forms::{Form, Item};
use log_chain::{ByteString, Hash};
use ref_programs::Tally;
use std::alloc::Global;
use std::test::Fail;

/// What the node shows where it is asked from the entry `first`, if one is given, to entry 6. It sends no messages.
fn shown(
    alloc: Global,
    node: &mut Node<Tally>,
    two: &mut Signer,
    first: Option<(u64, Hash)>,
) -> Result<Option<Part>, Fail> {
    let item = audit(alloc, two, first, (6, SIXTH))?;
    let given = answered(alloc, node, item)?;
    if !given.messages.is_empty() {
        return Ok(None);
    }
    part_of(alloc, node, Box::into_inner(given).item)
}

/// The refusal of an audit, whose statements the signer signs.
fn audit_refusal(
    alloc: Global,
    node: &mut Node<Tally>,
    signer: &mut Signer,
    first: Option<(u64, Hash)>,
    last: (u64, Hash),
) -> Result<u8, Fail> {
    let item = audit(alloc, signer, first, last)?;
    refusal(alloc, node, item)
}

/// The refusal of a message of the signer to the other node.
fn message_refusal(alloc: Global, node: &mut Node<Tally>, signer: &mut Signer) -> Result<u8, Fail> {
    let message = signer.message(alloc, 21, b"X", 9)?;
    refusal(alloc, node, send_challenge(Box::into_inner(message))?)
}

/// The refusal of a statement, which is no challenge.
fn statement_refusal(
    alloc: Global,
    node: &mut Node<Tally>,
    signer: &mut Signer,
) -> Result<u8, Fail> {
    let statement = signer.statement(alloc, 6, SIXTH, 9)?;
    refusal(alloc, node, Box::into_inner(statement))
}

/// The place in the receiver's log that an acknowledged message has: the number of the RECV entry, and the hash before it.
#[derive(Clone, Copy, Debug, PartialEq, Eq)]
struct Place {
    seq: u64,
    prev: Hash,
}

/// The place that the item has, which is valid, where it is an acknowledged message.
fn place_of(alloc: Global, node: &Node<Tally>, item: Item) -> Result<Option<Place>, Fail> {
    let checked = checked(alloc, node, item)?;
    let Form::Ack(ack) = checked.item().form() else {
        return Ok(None);
    };
    Ok(Some(Place {
        seq: ack.seq,
        prev: ack.prev,
    }))
}

/// What answers a message that is asked for twice: the place, how many messages the node sends each time, how many entries its log
/// has then, and whether both answers are equal.
#[derive(Clone, Copy, Debug, PartialEq, Eq)]
struct Told {
    place: Option<Place>,
    messages: [usize; 2],
    entries: usize,
    is_same: bool,
}

fn answer_twice(alloc: Global, node: &mut Node<Tally>, item: Box<Item>) -> Result<Told, Fail> {
    let first = answered(alloc, node, item.try_clone(alloc)?)?;
    let again = answered(alloc, node, Box::into_inner(item))?;
    let is_same = first.item == again.item;
    let messages = [first.messages.len(), again.messages.len()];
    Ok(Told {
        place: place_of(alloc, node, Box::into_inner(first).item)?,
        messages,
        entries: node.history().len(),
        is_same,
    })
}

/// What answers a message that adds one.
fn acknowledged(alloc: Global, node: &mut Node<Tally>, one: &mut Signer) -> Result<Told, Fail> {
    let message = one.message(alloc, 4, &ADDS_ONE, 9)?;
    let item = send_challenge(Box::into_inner(message))?;
    answer_twice(alloc, node, Box::new(alloc, item)?)
}

/// An audit of node 2, whose log has six entries.
#[derive(Clone, Copy)]
enum Asked {
    /// From this entry on, or from the beginning.
    From(Option<(u64, Hash)>),
    /// From the beginning, where its key has no leaf left.
    WhenSpent,
}

/// What node 2 shows.
fn part_shown(alloc: Global, asked: Asked) -> Result<Option<Part>, Fail> {
    let mut nodes = make_nodes(alloc)?;
    let mut node = node_with_log(alloc, &nodes)?;
    shown_to(alloc, &mut nodes, &mut node, asked)
}

fn shown_to(
    alloc: Global,
    nodes: &mut Nodes,
    node: &mut Node<Tally>,
    asked: Asked,
) -> Result<Option<Part>, Fail> {
    match asked {
        Asked::From(first) => shown(alloc, node, &mut nodes.two, first),
        Asked::WhenSpent => {
            receive_up_to(alloc, &mut nodes.one, node, 21)?;
            shown(alloc, node, &mut nodes.two, None)
        }
    }
}

/// What answers a message to node 2.
fn message_told(alloc: Global) -> Result<Told, Fail> {
    let mut nodes = make_nodes(alloc)?;
    let mut node = node_with_log(alloc, &nodes)?;
    acknowledged(alloc, &mut node, &mut nodes.one)
}

/// What node 2 does not answer.
#[derive(Clone, Copy)]
enum Refused {
    /// An audit of node 1.
    AuditOfAnother,
    /// An audit up to the entry of this number, with this hash.
    AuditTo(u64, Hash),
    /// The same from entry 2 on.
    AuditFromSecondTo(u64, Hash),
    /// A message to node 1.
    MessageToAnother,
    /// A message, where its key has no leaf left.
    MessageWhenSpent,
    /// A statement.
    Statement,
}

/// The number of the refusal.
fn refused_by(
    alloc: Global,
    nodes: &mut Nodes,
    node: &mut Node<Tally>,
    what: Refused,
) -> Result<u8, Fail> {
    match what {
        Refused::AuditOfAnother => audit_refusal(alloc, node, &mut nodes.one, None, (6, SIXTH)),
        Refused::AuditTo(seq, hash) => {
            audit_refusal(alloc, node, &mut nodes.two, None, (seq, hash))
        }
        Refused::AuditFromSecondTo(seq, hash) => {
            let first = Some((2, SECOND));
            audit_refusal(alloc, node, &mut nodes.two, first, (seq, hash))
        }
        Refused::MessageToAnother => message_refusal(alloc, node, &mut nodes.two),
        Refused::MessageWhenSpent => {
            receive_up_to(alloc, &mut nodes.one, node, 21)?;
            message_refusal(alloc, node, &mut nodes.one)
        }
        Refused::Statement => statement_refusal(alloc, node, &mut nodes.one),
    }
}

/// The whole log.
const WHOLE: Part = Part {
    prev: BASE,
    end: SIXTH,
    first: 1,
    last: 6,
};

#[test]
fn an_audit_is_answered_from_the_beginning(rt: HostRuntime) -> Result<(), Fail> {
    assert_eq!(rt; part_shown(rt.alloc(), Asked::From(None))?, Some(WHOLE));
    assert_eq!(rt;
        part_shown(rt.alloc(), Asked::From(Some((2, SECOND))))?,
        Some(WHOLE)
    );
    Ok(())
}

#[test]
fn an_audit_is_answered_from_a_checkpoint(rt: HostRuntime) -> Result<(), Fail> {
    let part = Part {
        prev: SECOND,
        end: SIXTH,
        first: 3,
        last: 6,
    };
    assert_eq!(rt;
        part_shown(rt.alloc(), Asked::From(Some((4, FOURTH))))?,
        Some(part)
    );
    Ok(())
}

#[test]
fn a_node_without_leaves_is_audited(rt: HostRuntime) -> Result<(), Fail> {
    assert_eq!(rt; part_shown(rt.alloc(), Asked::WhenSpent)?, Some(WHOLE));
    Ok(())
}

#[test]
fn a_message_is_acknowledged_once(rt: HostRuntime) -> Result<(), Fail> {
    let expected = Told {
        place: Some(Place {
            seq: 7,
            prev: SIXTH,
        }),
        messages: [1, 0],
        entries: 8,
        is_same: true,
    };
    assert_eq!(rt; message_told(rt.alloc())?, expected);
    Ok(())
}

#[test]
fn what_is_no_challenge_to_the_node_is_refused(rt: HostRuntime) -> Result<(), Fail> {
    let mut nodes = make_nodes(rt.alloc())?;
    let mut node = node_with_log(rt.alloc(), &nodes)?;
    for (what, number) in [
        (Refused::AuditOfAnother, 70),
        (Refused::AuditTo(6, SECOND), 71),
        (Refused::AuditTo(7, SIXTH), 71),
        (Refused::AuditFromSecondTo(5, ZEROS), 71),
        (Refused::MessageToAnother, 70),
        (Refused::MessageWhenSpent, 36),
        (Refused::Statement, 72),
    ] {
        assert_eq!(rt;
            refused_by(rt.alloc(), &mut nodes, &mut node, what)?,
            number
        );
    }
    Ok(())
}

/// A statement with a signature of so many bytes, which signs nothing.
fn unsigned(alloc: Global, node: u32, seq: u64, len: usize) -> Result<Authenticator, Fail> {
    let sig = vec![in alloc; 0u8; len]?;
    Ok(Authenticator {
        node: NodeId(node),
        seq,
        hash: ZEROS,
        sig: ByteString::from_vec(sig),
    })
}

/// Why there is no audit challenge of node 2 from a number of `node` to 6, by signatures of so many bytes.
fn no_challenge(
    alloc: Global,
    node: u32,
    seq: u64,
    len: usize,
) -> Result<Option<ChallengeFault>, Fail> {
    let first = unsigned(alloc, node, seq, len)?;
    let last = unsigned(alloc, 2, 6, 9)?;
    match audit_challenge(Some(first), last) {
        Ok(_) => Ok(None),
        Err(fault) => Ok(Some(fault)),
    }
}

#[test]
fn an_audit_challenge_has_a_range(rt: HostRuntime) -> Result<(), Fail> {
    let alloc = rt.alloc();
    for (node, seq, len, fault) in [
        (2, 5, 9325, None),
        (2, 6, 9, Some(ChallengeFault::BadRange)),
        (1, 5, 9, Some(ChallengeFault::BadRange)),
        (2, 5, 9326, Some(ChallengeFault::TooLong)),
        (1, 6, 9326, Some(ChallengeFault::TooLong)),
    ] {
        assert_eq!(rt; no_challenge(alloc, node, seq, len)?, fault);
    }
    Ok(())
}

#[test]
fn refusals_have_numbers_names_and_lines(rt: HostRuntime) -> Result<(), Fail> {
    let numbers = [
        ChallengeFault::TooLong.number(),
        AnswerFault::KeySpent.number(),
    ];
    assert_eq!(rt; numbers, [42, 36]);
    let names = [
        ChallengeFault::BadRange.name(),
        AnswerFault::NotInLog.name(),
    ];
    assert_eq!(rt; names, ["BadRange", "NotInLog"]);
    let text = format!(in rt.alloc(); "{}", AnswerFault::NotForMe)?;
    assert_eq!(rt; text.as_str(), "the challenge is against another node");
    Ok(())
}
