//! For the tests: asking a node, and what it shows.

ghost use Rattle.std.specs.Prelude.{IfOk};
ghost use Rattle.evidence_item.specs.Checking.{IsChecked};
ghost use Rattle.ref_programs.specs.TallyMeaning.{tally};

use challenges::{Answer, answer, audit_challenge};
use commitment::Node;
use evidence_item::{Checked, check_item};
use evidence_samples::Signer;
use item_forms::{Form, Item};
use log_chain::{Hash, chain_end};
use ref_programs::Tally;
use std::alloc::Global;
use std::test::Fail;

/// The item, which is valid under the node's directory.
pub(crate) fn checked(
    alloc: Global,
    node: &Node<Tally>,
    item: Item,
) -> Result<Box<Checked<Tally>>, Fail>
    ensures { IfOk result (λ c. IsChecked node.now.directory tally c.value) }
{
    let checked = check_item(alloc, &Tally, node.directory(), item)?;
    Ok(Box::new(alloc, checked)?)
}

/// The node's answer to the item.
pub(crate) fn answered(
    alloc: Global,
    node: &mut Node<Tally>,
    item: Item,
) -> Result<Box<Answer>, Fail> {
    let challenge = checked(alloc, node, item)?;
    let given = answer(alloc, node, &challenge, [7; 32])?;
    Ok(Box::new(alloc, given)?)
}

/// The number of the fault with which the node refuses to answer the item; 0 where it answers.
pub(crate) fn refusal(alloc: Global, node: &mut Node<Tally>, item: Item) -> Result<u8, Fail> {
    let challenge = checked(alloc, node, item)?;
    match answer(alloc, node, &challenge, [7; 32]) {
        Ok(_) => Ok(0),
        Err(fault) => Ok(fault.number()),
    }
}

/// What a segment has: the hash before it and at its end, the first number and the last.
#[derive(Clone, Copy, Debug, PartialEq, Eq)]
pub(crate) struct Part {
    pub(crate) prev: Hash,
    pub(crate) end: Hash,
    pub(crate) first: u64,
    pub(crate) last: u64,
}

/// What the item has, which is valid, where it is a segment.
pub(crate) fn part_of(alloc: Global, node: &Node<Tally>, item: Item) -> Result<Option<Part>, Fail> {
    let checked = checked(alloc, node, item)?;
    let Form::Segment(segment) = checked.item().form() else {
        return Ok(None);
    };
    let entries = segment.entries.as_slice();
    Ok(Some(Part {
        prev: segment.prev,
        end: chain_end(segment.prev, entries),
        first: entries.first().map_or(0, |entry| entry.seq),
        last: segment.last_seq().unwrap_or(0),
    }))
}

/// The audit of node 2 from the entry `first`, if one is given, to the entry `last`, by statements that the signer signs.
pub(crate) fn audit(
    alloc: Global,
    two: &mut Signer,
    first: Option<(u64, Hash)>,
    last: (u64, Hash),
) -> Result<Item, Fail> {
    let first = match first {
        None => None,
        Some((seq, hash)) => Some(two.authenticator(alloc, seq, hash, 9)?),
    };
    let (seq, hash) = last;
    let last = two.authenticator(alloc, seq, hash, 9)?;
    Ok(audit_challenge(first, last)?)
}
