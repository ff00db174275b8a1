//! What is found of a store's items, node by node.

use crate::further::{Held, Stated};
use crate::grounds::Grounds;
use crate::why::{NodeWhy, Why};
use authenticators::NodeId;
use item_forms::{Form, Hash, Item, Segment};
use outcome::Memory;
use proofs::Parts;
use replay_verifier::Verdict;
use sentences::{FormCounts, Role, Site};
use std::alloc::Global;

/// A segment of a node: its item, and its first and last number.
#[derive(Clone, Copy, Debug)]
pub(crate) struct Span {
    pub(crate) item: u64,
    pub(crate) first: u64,
    pub(crate) last: u64,
}

/// What the items have of a node.
#[derive(Debug, Drop)]
pub(crate) struct NodePlaces {
    /// The node.
    pub(crate) node: NodeId,
    /// At how many places statements of the node stand, beside the ends of its segments.
    pub(crate) statements: u64,
    /// How many challenges against the node there are.
    pub(crate) challenges: u64,
    /// The node's segments that have entries.
    pub(crate) segments: Vec<Span>,
    /// What is found of the parts of the proof that convicts it.
    pub(crate) grounds: Grounds,
    /// The items of the open challenges against it, in order.
    pub(crate) unanswered: Vec<u64>,
    /// What the items have of the node, if it is exposed.
    pub(crate) held: Option<Held>,
}

/// What is found of a store's items. The nodes stand in the order of the reasons.
#[derive(Debug, Drop)]
pub(crate) struct Places {
    /// The item that is walked over, from 1.
    pub(crate) item: u64,
    pub(crate) counts: FormCounts,
    pub(crate) nodes: Vec<NodePlaces>,
}

/// Counts an item.
pub(crate) fn count_form(counts: &mut FormCounts, form: Form<'_>) {
    let count = match form {
        Form::Auth(_) => &mut counts.statements,
        Form::Segment(_) => &mut counts.segments,
        Form::Audit(_) => &mut counts.audits,
        Form::Send(_) => &mut counts.sends,
        Form::Ack(_) => &mut counts.acks,
    };
    *count = count.saturating_add(1);
}

impl NodePlaces {
    /// Returns places of a node of which nothing is found yet.
    pub(crate) fn new(alloc: Global, row: &NodeWhy<'_>) -> NodePlaces {
        let (grounds, held) = match &row.why {
            Why::Exposed(proof, _) => (Grounds::of_proof(alloc, proof), Some(Held::new(alloc))),
            _ => (Grounds::none(alloc), None),
        };
        NodePlaces {
            node: row.node,
            statements: 0,
            challenges: 0,
            segments: Vec::new(alloc),
            grounds,
            unanswered: Vec::new(alloc),
            held,
        }
    }

    /// Notes a statement of the node.
    pub(crate) fn note(
        &mut self,
        seq: u64,
        hash: Hash,
        item: u64,
        role: &Role,
    ) -> Result<(), Memory> {
        if *role != Role::End {
            self.statements = self.statements.saturating_add(1);
        }
        if let Some(held) = &mut self.held {
            held.note(Stated { seq, hash, item })?;
        }
        self.grounds.note(seq, hash, item, role)
    }

    /// Notes a challenge against the node. It is open if it is the next one of those in `why`.
    pub(crate) fn note_challenge(
        &mut self,
        why: &Why<'_>,
        place: u64,
        item: &Item,
    ) -> Result<(), Memory> {
        self.challenges = self.challenges.saturating_add(1);
        if let Why::Suspected(challenges) | Why::Exposed(_, challenges) = why
            && let Some(next) = challenges.get(self.unanswered.len())
            && **next == *item
        {
            self.unanswered.push(place)?;
        }
        Ok(())
    }

    /// Notes a segment of the node, which may be the one that convicts it.
    pub(crate) fn note_segment(
        &mut self,
        why: &Why<'_>,
        place: u64,
        segment: &Segment,
        verdict: Option<Verdict>,
    ) -> Result<(), Memory> {
        if let (Some(held), Some(Verdict::Deviates { .. })) = (&mut self.held, verdict) {
            held.note_deviating(place)?;
        }
        if let ([first, ..], Some(last)) = (segment.entries.as_slice(), segment.last_seq()) {
            self.segments.push(Span {
                item: place,
                first: first.seq,
                last,
            })?;
        }
        if let Some(convicting) = convicting_segment(why)
            && *convicting == *segment
        {
            let found = &mut self.grounds.segment;
            found.sites.push(Site::item(place, Role::Segment))?;
            found.verdict = verdict;
        }
        Ok(())
    }
}

impl NodePlaces {
    /// Notes the entries of a segment of the node, which have these hashes.
    pub(crate) fn note_entries(
        &mut self,
        place: u64,
        segment: &Segment,
        hashes: &[Hash],
    ) -> Result<(), Memory> {
        match &mut self.held {
            Some(held) => held.note_segment(place, segment, hashes),
            None => Ok(()),
        }
    }
}

/// Returns the segment of the proof that convicts the node, if it has one.
fn convicting_segment<'a>(why: &'a Why<'_>) -> Option<&'a Segment> {
    match why {
        Why::Exposed(proof, _) => match proof.parts() {
            Parts::TwoAuths(..) => None,
            Parts::AuthSegment(_, segment) | Parts::Nonconforming(segment) => Some(segment),
        },
        _ => None,
    }
}
