//! Stores of evidence that several callers share (PeerReview, SOSP 2007: witnesses and evidence).
//!
//! - [`SharedStore`] is a store under a lock. Each caller has a [`Pass`], which notes the caller's own calls and their replies. The lock
//!   guards the store and the history of all calls.
//! - [`SharedStore::close`] compares the passes with the history. If it returns `Ok`, a single thread could have made the history. It leads
//!   from the opening store to the closed one, and each reply is the one that the store gives there.
//!
//! `specs/Histories.antt` says what one thread would do. `specs/Closing.antt` says how passes agree with a history.
//! `specs/HistoryLaws.antt` says what follows, and [`laws`] proves it. `specs/within` has the words of private code. What the contracts say
//! of calls that wait holds when these return. Nothing is said of the waiting itself.
#![tactic(auto)]

pub use closing::{CloseRefused, Closed};
pub use fault::{CallFault, CloseFault, QuestionFault};
pub use history::{Call, Given, Recorded};
pub use item_set::ItemSet;
pub use pass::Pass;
pub use shared::{NotTaken, OpenRefused, SharedStore};

mod closing;
mod comparing;
mod copying;
mod fault;
mod history;
mod item_set;
mod kept;
pub mod laws;
mod pass;
mod shared;
