//! Shards of evidence: parts of a set of items that can be kept and asked apart. Only [`extracted`] verifies a signature, hashes anything
//! or asks a directory.
//!
//! Nodes are dealt to shards, and each shard has the items that name a node of it. It says of its nodes what the whole evidence says.
//!
//! - [`Dealing`] says how items are dealt to parts.
//! - [`add_items`] reads the items of a store's encoding, and [`gathered`] makes one set of the items of several encodings.
//! - [`extracted`] puts what segments quote beside them. A segment then need not go to each shard of which it quotes a node.
//! - [`Parting`] deals a set of items to its parts, and writes each part as the encoding of a store.
//!
//! `localities` has the definitions and the laws, and `specs/Extracts.antt` defines what is quoted. `specs/within` has the definitions of
//! private code.
#![tactic(auto)]

pub use dealing::{Dealing, MOST_SHARDS, Shards};
pub use extracting::extracted;
pub use gathering::{add_items, gathered};
pub use parting::{Part, Parting};

mod dealing;
mod extracting;
mod gathering;
pub mod laws;
mod naming;
mod parting;
