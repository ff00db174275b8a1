//! What is known of a proof's parts in an input: where they stand, and what was found of them.

use authenticators::Authenticator;
use item_forms::Hash;
use outcome::Memory;
use proofs::{Parts, Proof};
use replay_verifier::Verdict;
use sentences::{Role, Site};
use std::alloc::Global;

/// A convicting statement, and where it stands.
#[derive(Debug, Drop)]
pub(crate) struct Found {
    pub(crate) seq: u64,
    pub(crate) hash: Hash,
    pub(crate) sites: Vec<Site>,
}

impl Found {
    /// Notes that a statement stands in the item, if it is this one.
    fn note(&mut self, seq: u64, hash: Hash, item: u64, role: &Role) -> Result<(), Memory> {
        if self.seq != seq || self.hash != hash {
            return Ok(());
        }
        self.sites.push(Site::item(item, *role))?;
        Ok(())
    }
}

/// Returns where a convicting statement stands. There are no places if none is sought.
pub(crate) fn sites_of(found: &Option<Found>) -> &[Site] {
    match found {
        Some(found) => found.sites.as_slice(),
        None => &[],
    }
}

/// Returns the first of these places, or 0 if none is known.
pub(crate) fn first_place_of(sites: &[Site]) -> u64 {
    match sites {
        [first, ..] => first.place,
        [] => 0,
    }
}

/// A convicting segment: where it stands, and its verdict.
#[derive(Debug, Drop)]
pub(crate) struct FoundSegment {
    pub(crate) sites: Vec<Site>,
    pub(crate) verdict: Option<Verdict>,
}

/// What is found of a proof's parts.
#[derive(Debug, Drop)]
pub(crate) struct Grounds {
    pub(crate) first: Option<Found>,
    pub(crate) second: Option<Found>,
    pub(crate) segment: FoundSegment,
}

/// Returns a statement of which no place is known yet. It takes no memory.
fn sought(alloc: Global, authenticator: &Authenticator) -> Found {
    Found {
        seq: authenticator.seq,
        hash: authenticator.hash,
        sites: Vec::new(alloc),
    }
}

impl Grounds {
    /// Returns grounds in which nothing is sought.
    pub(crate) fn none(alloc: Global) -> Grounds {
        Grounds {
            first: None,
            second: None,
            segment: FoundSegment {
                sites: Vec::new(alloc),
                verdict: None,
            },
        }
    }

    /// Returns grounds in which the parts of the proof are sought. It takes no memory.
    pub(crate) fn of_proof(alloc: Global, proof: &Proof) -> Grounds {
        let mut grounds = Grounds::none(alloc);
        match proof.parts() {
            Parts::TwoAuths(first, second) => {
                grounds.first = Some(sought(alloc, first));
                grounds.second = Some(sought(alloc, second));
            }
            Parts::AuthSegment(auth, _) => grounds.first = Some(sought(alloc, auth)),
            Parts::Nonconforming(_) => {}
        }
        grounds
    }

    /// Notes that a statement of the node stands in the item, if it is sought.
    pub(crate) fn note(
        &mut self,
        seq: u64,
        hash: Hash,
        item: u64,
        role: &Role,
    ) -> Result<(), Memory> {
        note_in(&mut self.first, seq, hash, item, role)?;
        note_in(&mut self.second, seq, hash, item, role)
    }
}

/// Notes that a statement stands in the item, if it is the sought one.
fn note_in(
    sought: &mut Option<Found>,
    seq: u64,
    hash: Hash,
    item: u64,
    role: &Role,
) -> Result<(), Memory> {
    match sought {
        Some(found) => found.note(seq, hash, item, role),
        None => Ok(()),
    }
}
