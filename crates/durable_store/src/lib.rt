//! A store of evidence that is kept in a journal (PeerReview, SOSP 2007: a witness's evidence). An item is on the disk before it is
//! acknowledged.
//!
//! - [`DurableStore`] is a store with the journal of its items. [`DurableStore::take_group`] takes a group of checked items.
//! - [`Opening`] reads the journal that a crash may have left, checks its items again, and opens the store that has them.
//! - [`TakeFault`] and [`OpenFault`] say why these calls are refused.
//!
//! A journal begins with its basis: one text names the program, and one is the directory. Each text behind these is an item's encoding.
//! `specs/Keeping.antt` says so. `specs/Calls.antt` says what becomes of a group, and `specs/Opening.antt` what is found in a journal.
//! [`laws`] has what follows, in `specs/Runs.antt` and `specs/Witnesses.antt`. After a crash at any moment each item that was acknowledged
//! is there, and none that nobody gave. `specs/within` has the words of private code.
#![tactic(auto)]

mod checking;
mod durable_store;
mod fault;
mod finding;
mod item_journal;
mod keeping;
pub mod laws;
mod opening;
mod taking;

pub use durable_store::DurableStore;
pub use fault::{OpenFault, TakeFault};
pub use opening::Opening;
