//! The plain store of evidence. [`PlainStore`] keeps its items in one list in their order, and beside them the statements that
//! they hold. So a question about a node verifies no signature and hashes no content.
//!
//! Its contract is that of the trait `Evidence`. `kept_evidence` has what the store asks of single items, and the definitions
//! for lists of them.
#![tactic(auto)]

pub use plain_store::PlainStore;

mod convicting;
mod exposure;
mod grouping;
mod including;
mod indicating;
mod joining;
mod knowing;
mod listing;
mod merging;
mod opening;
mod placing;
mod plain_store;
mod suspicion;
mod taking;
