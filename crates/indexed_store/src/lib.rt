//! The indexed store of evidence. [`IndexedStore`] keeps its items as they came, their order by encodings, and what the items say of each
//! node. So a question about a node looks up what is kept of that node, and taking an item looks up its place.
//!
//! What is taken is compared with the node's segments and open challenges:
//!
//! - A challenge looks up what answers it. An acknowledgement or a segment looks up the challenges that it closes.
//! - A new statement looks at the segments that its number can contradict.
//! - Segments and audit challenges meet by hashes. An open challenge is looked at again only if a longer segment comes, up to an entry that
//!   it names.
//!
//! Its contract is that of the trait `Evidence`. In addition it reports whether anything is known of a node. `node_tables` has what it
//! keeps of a node, and `kept_items` how it keeps an item.
#![tactic(auto)]

pub use indexed_store::IndexedStore;

mod challenges;
mod convicting;
mod digests;
mod including;
mod index;
mod indexed_store;
mod indicating;
mod knowing;
mod listing;
mod merging;
mod taking;
