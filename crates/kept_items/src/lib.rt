//! Items as a store keeps them that has many items of one log. If segments overlap, each entry is kept once.
//!
//! - A [`KeptItem`] is a checked item. [`KeptItem::keep`] makes it by way of a [`Keeping`]. A contract sees the checked item, however it is
//!   kept.
//! - [`Said`] lends a statement from where it lies. [`KeptItem::statement`] returns the statement at a position.
//! - [`Reach`] says which statements can contradict a segment. [`Link`] has what the chain of a segment's log has of an entry.
//!
//! `specs/Positions.antt` defines the statements by their positions. `specs/Keeping.antt` defines what can be kept, and which node an item
//! is about. `specs/Links.antt` defines the entries of segments. [`laws`] has what follows from these. `specs/within` has the definitions
//! of private code.
#![tactic(auto)]

pub use item::KeptItem;
pub use keeping::{KeepRefused, Keeping};
pub use link::Link;
pub use reach::Reach;
pub use said::{Said, compare_said};

mod answering;
mod copying;
mod handle;
mod hashing;
mod item;
mod keeping;
pub mod laws;
mod link;
mod lookup;
mod numbers;
mod ordering;
mod pair;
mod quoting;
mod reach;
mod said;
mod segment;
mod single;
mod statement;
mod writing;
