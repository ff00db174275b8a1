//! What is kept of each node, by the places of its items: its statements, its segments, the challenges against it that nothing answers, and
//! what exposes it. A question about a node takes a look-up. A new item changes only the tables of the nodes that it is about.
//!
//! Items stand in a list that grows only at its end. Their places in this list are their names.
//!
//! - A [`Table`] is what is kept of one node. [`place_of`] finds it.
//! - [`Row`] names a statement, and [`said_at`] lends it. [`Span`] names a segment. [`ExposingPlaces`] names what exposes the node.
//! - [`Hashes`] has what is found by hashes: a [`Mark`] says where an entry's hash stands, and a [`Naming`] which hashes an open challenge
//!   names.
//! - [`empty_tables`] makes the tables of no items. [`index`] puts the last of the items into them, and [`promise_item`] makes room for it
//!   before. Promises add up. Each ends with [`index`] or with [`release_item`].
//! - [`gap_of`] and [`gap_of_kept`] look up where an item stands, or would stand, in the order of encodings.
//!
//! `specs/Indexed.antt` defines what the tables of all nodes have of a list of items. `specs/Tables.antt` defines the table of one node,
//! `specs/Hashed.antt` what is kept by hashes, `specs/Places.antt` the order of encodings, and `specs/Rooms.antt` what is promised.
#![tactic(auto)]

pub use exposure::ExposingPlaces;
pub use hashes::Hashes;
pub use indexing::index;
pub use mark::Mark;
pub use naming::Naming;
pub use opening::empty_tables;
pub use order::{gap_of, gap_of_kept};
pub use receipt_list::ReceiptList;
pub use releasing::release_item;
pub use reserving::promise_item;
pub use row::{Row, said_at};
pub use sending::Sending;
pub use span::Span;
pub use span_list::SpanList;
pub use table::Table;
pub use tables::place_of;

mod answering;
mod asking;
mod auditing;
mod bodies;
mod bounds;
mod closing;
mod edge;
mod exposure;
mod finding;
mod hashes;
mod holding;
mod indexing;
mod mark;
mod naming;
mod opening;
mod order;
mod quoting;
mod receipt_list;
mod releasing;
mod reserving;
mod row;
mod segments;
mod sending;
mod span;
mod span_list;
mod table;
mod tables;
mod taking;
mod telling;
