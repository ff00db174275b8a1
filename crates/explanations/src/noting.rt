//! One pass over a store's items, which finds all that the sentences need of them.

use crate::places::{NodePlaces, Places, count_form};
use crate::why::NodeWhy;
use authenticators::NodeId;
use evidence::Evidence;
use evidence_item::{Checked, Findings, Verdict};
use item_forms::{Form, Item, Segment};
use known_logs::{Detail, Place, Walker, walk};
use outcome::Memory;
use replay_verifier::Program;
use sentences::{FormCounts, Role};
use std::alloc::Global;

/// Notes the items' statements, each with its node, if the directory lists the node.
impl Walker for Places {
    fn wants(&self, _node: NodeId) -> bool {
        false
    }

    fn statement(
        &mut self,
        place: &Place,
        role: Role,
        _detail: Option<&Detail>,
    ) -> Result<(), Memory> {
        let item = self.item;
        match self.row_of(place.node) {
            Some(row) => row.note(place.seq, place.hash, item, &role),
            None => Ok(()),
        }
    }

    fn entry(&mut self, _place: &Place, _detail: &Detail) -> Result<(), Memory> {
        Ok(())
    }

    fn quote(&mut self, _entry: &Place, _quoted: &Place) -> Result<(), Memory> {
        Ok(())
    }
}

impl Places {
    /// Returns places in which nothing is found yet.
    fn new(alloc: Global, whys: &[NodeWhy<'_>]) -> Result<Places, Memory> {
        let mut nodes = Vec::with_capacity(alloc, whys.len())?;
        for row in whys {
            nodes.push(NodePlaces::new(alloc, row))?;
        }
        Ok(Places {
            item: 0,
            counts: FormCounts::none(),
            nodes,
        })
    }

    /// Returns what is found of the node.
    fn row_of(&mut self, node: NodeId) -> Option<&mut NodePlaces> {
        let at = self.nodes.binary_search_by_key(&node, |row| row.node).ok()?;
        self.nodes.get_mut(at)
    }

    /// Notes a challenge against a node.
    fn note_challenge(
        &mut self,
        whys: &[NodeWhy<'_>],
        node: NodeId,
        item: &Item,
    ) -> Result<(), Memory> {
        let place = self.item;
        let why = why_of(whys, node);
        match (why, self.row_of(node)) {
            (Some(reason), Some(row)) => row.note_challenge(&reason.why, place, item),
            _ => Ok(()),
        }
    }

    /// Notes a segment as one of its node.
    fn note_segment(
        &mut self,
        whys: &[NodeWhy<'_>],
        segment: &Segment,
        verdict: Option<Verdict>,
    ) -> Result<(), Memory> {
        let place = self.item;
        let why = why_of(whys, segment.node);
        match (why, self.row_of(segment.node)) {
            (Some(reason), Some(row)) => row.note_segment(&reason.why, place, segment, verdict),
            _ => Ok(()),
        }
    }

    /// Notes the entries of a segment, which have the hashes that were found.
    fn note_entries(&mut self, segment: &Segment, found: Option<&Findings>) -> Result<(), Memory> {
        let place = self.item;
        match (self.row_of(segment.node), found) {
            (Some(row), Some(Findings::Segment(found))) => {
                row.note_entries(place, segment, found.hashes.as_slice())
            }
            _ => Ok(()),
        }
    }

    /// Notes an item of which everything was found.
    fn note_item<P>(&mut self, whys: &[NodeWhy<'_>], checked: &Checked<P>) -> Result<(), Memory> {
        let item = checked.item();
        count_form(&mut self.counts, item.form());
        match item.form() {
            Form::Audit(challenge) => self.note_challenge(whys, challenge.node, item)?,
            Form::Send(message) => self.note_challenge(whys, message.to, item)?,
            Form::Segment(segment) => {
                self.note_segment(whys, segment, checked.verdict().copied())?;
                self.note_entries(segment, checked.findings())?
            }
            Form::Auth(_) | Form::Ack(_) => {}
        }
        walk(self, checked)
    }
}

/// Returns why the node is what it is, if it is listed.
fn why_of<'a, 'b>(whys: &'a [NodeWhy<'b>], node: NodeId) -> Option<&'a NodeWhy<'b>> {
    let at = whys.binary_search_by_key(&node, |row| row.node).ok()?;
    whys.get(at)
}

/// Notes the item behind `behind` others. Its place is one more, since places count from 1.
fn note_at<P: Program, S: Evidence<P>>(
    alloc: Global,
    store: &S,
    whys: &[NodeWhy<'_>],
    places: &mut Places,
    behind: u64,
) -> Result<(), Memory> {
    let Some(mut checked) = store.item_at(behind)? else {
        return Ok(());
    };
    checked.find(alloc, store.directory())?;
    places.item = behind.saturating_add(1);
    places.note_item(whys, &checked)
}

/// Returns what is found of a store's items. It makes one pass, in which each item is copied and freed. If an item keeps what checking
/// found, nothing of it is hashed or verified.
pub(crate) fn places_of<P: Program, S: Evidence<P>>(
    alloc: Global,
    store: &S,
    whys: &[NodeWhy<'_>],
) -> Result<Places, Memory> {
    let mut places = Places::new(alloc, whys)?;
    for behind in 0..store.count() {
        note_at::<P, S>(alloc, store, whys, &mut places, behind)?;
    }
    Ok(places)
}
