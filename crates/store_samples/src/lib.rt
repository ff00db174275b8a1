//! Samples of stores, for tests: stores under Tally that take items, and what they say of the nodes 1 and 2.
//!
//! A call fails if memory is used up.
#![tactic(auto)]

mod filling;
mod said;

pub use filling::{new_store, take, take_copy, take_some};
pub use said::{Said, said_by};
