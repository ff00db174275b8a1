//! The error of a refused allocation, and the words by which contracts speak of refusals.
//!
//! `specs/Outcome.antt` defines the words. They compare a call that can run out of memory with a function on lists that
//! cannot. So "the answer is the expected one, unless memory ran out" is one word in every crate.
#![tactic(auto)]

pub use std::alloc::AllocError as Memory;

pub mod laws;
