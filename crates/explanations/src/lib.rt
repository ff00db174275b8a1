//! What a store or a proof says of nodes, and why, as an [`Explanation`] (PeerReview, SOSP 2007: failure indications).
//!
//! - [`why_of`] returns why the store says of a node what it says: the proof that convicts the node, and the challenges that are open.
//!   [`whys_of`] returns the same for each node. `specs/Whys.antt` defines what is returned.
//! - [`explain_store`] says of each node what the store says of it, and where the items stand that say so. It finds this in one pass over
//!   the items. It replays the entries before a deviation, to find what the program awaits there.
//! - [`explained_text`] returns the text of the same.
//! - [`explain_proof`] says which node a proof convicts, and the same of the proof's parts.
#![tactic(auto)]

pub use authenticators::{Directory, NodeId};
pub use convicting::{Conviction, explain_proof};
pub use evidence::{AskFault, Evidence};
pub use evidence_item::Item;
pub use evidence_set::Indication;
pub use outcome::Memory;
pub use proofs::{Proof, ProofFault};
pub use replay_verifier::Program;
pub use sentences::{
    Basis, Explanation, Input, Mark, NamedHash, NodeExplanation, PlainVoice, Sentence, Voice,
    text_of, verdict_text,
};
pub use telling::{explain_store, explained_text};
pub use why::{NodeWhy, Why, why_of, whys_of};

mod challenging;
mod contradicting;
mod convicting;
mod deviating;
mod exposing;
mod further;
mod grounds;
mod heading;
mod joining;
mod nodes;
mod noting;
mod places;
mod telling;
mod trusting;
mod under;
mod why;
