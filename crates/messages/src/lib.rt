//! Messages between nodes, and their acknowledgements (PeerReview, SOSP 2007: commitment).
//!
//! A [`Message`] has the sender's commitment to it. An [`Ack`] has the receiver's commitment to having received it.
//! `specs/Messages.antt` defines which are valid. [`laws`] has what follows from the definitions.
#![tactic(auto)]

pub use message::{Ack, Message};
pub use replay_verifier::LONGEST_PAYLOAD;

pub mod laws;
mod message;
