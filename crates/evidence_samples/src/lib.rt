//! Samples of evidence, for tests: the nodes 1 and 2 with their keys, and items that they sign.
//!
//! A call fails if memory or the leaves of a key are used up, or if what is asked for is beyond the limits of an item.
#![tactic(auto)]

mod entries;
mod items;
mod nodes;

pub use entries::{ZEROS, entry, receipt, turned};
pub use items::Start;
pub use nodes::{Nodes, Signer, key_of, make_nodes, next_key_of};
