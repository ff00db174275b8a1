//! Several workers check items of evidence at once (PeerReview, SOSP 2007: witnesses and evidence).
//!
//! - [`check_all`] checks a list of items by one or more workers. Each place of the answer has what `check_item` gives of a copy of its
//!   item, whichever worker checked it. A [`Gate`] is called before and after each check.
//! - [`check_again`] checks those items again whose checks were refused memory, and leaves the other results.
//! - [`block_size`], [`examine_some`] and [`joined`] are for a reader that gives its own items to workers in blocks.
//!
//! `specs/Checks.antt` says what a check gives. `specs/Parts.antt` says what a list is that was worked out in parts. `specs/Again.antt`
//! says what checking again does. [`laws`] proves what follows, and `specs/within` has the words of private code. What the contracts say of
//! calls that wait holds when these return. Nothing is said of the waiting itself.
#![tactic(auto)]

pub use again::check_again;
pub use blocks::{block_size, joined};
pub use checking::{Gate, OpenGate, check_all, examine_some};
pub use fault::CheckAllFault;
pub use limits::MOST_WORKERS;

mod again;
mod blocks;
mod checking;
mod fault;
pub mod laws;
mod limits;
