//! Checked items as stores of evidence keep them, and what a store makes of them (PeerReview, SOSP 2007: evidence and failure
//! indications). This is what every store needs, in whatever tables it finds its items. If checking found a fact of an item,
//! nothing here verifies a signature or hashes a content for it again.
//!
//! - [`write_statements`] writes the statements that an item holds.
//! - An [`Exposure`] is what exposes a node. [`first_denial`] and [`deviating`] search for one.
//! - [`is_against`] recognises challenges against a node. [`answers_audit`] and [`answers_send`] recognise their answers.
//! - [`proof_of_two`], [`proof_of_denial`] and [`proof_of_segment`] make a proof of what exposes a node.
//! - [`find_each`] finds, for each item of a list, what checking did not find yet.
//!
//! `specs/Kept.antt` defines items in a list. `specs/Telling.antt` defines, as tests, what a list says of a node.
#![tactic(auto)]

pub use challenges::{answers_audit, answers_send, is_against};
pub use convicting::{proof_of_denial, proof_of_segment, proof_of_two};
pub use exposure::{Denial, Exposure, deviating, first_denial};
pub use findings::find_each;
pub use statements::write_statements;

mod challenges;
mod convicting;
mod exposure;
mod findings;
mod statements;
