//! What is known of the logs of nodes, from the items of a store or the parts of a proof.
//!
//! - [`walk`] goes over the statements and the entries of an item, and gives them to a [`Walker`].
//! - [`rows_of`] and [`rows_of_proof`] return [`Rows`]: the log entries of the nodes that are [`Wanted`], by number, each once.
//! - A [`Cell`] is such an entry. It has the number and the hash, and whether the entry stands in a segment. If more is known, a [`Detail`]
//!   has it. If a RECV entry quotes genuinely, [`Rows::quoted_place`] returns the SEND entry that it quotes.
#![tactic(auto)]

pub use authenticators::{Directory, NodeId};
pub use detail::Detail;
pub use evidence::Evidence;
pub use evidence_item::Checked;
pub use gathering::{rows_of, rows_of_proof};
pub use log_chain::Hash;
pub use outcome::Memory;
pub use proofs::Proof;
pub use replay_verifier::Program;
pub use rows::{Cell, Place, Rows};
pub use sentences::{Role, Said, Shown};
pub use walking::{Walker, walk};
pub use wanted::{Numbered, Wanted};

mod detail;
mod gathering;
mod known;
mod rows;
mod walking;
mod wanted;
