//! Histories of shared stores (crate `shared_stores`) are runs of a world (crate `witness_core`) that has one witness (PeerReview, SOSP
//! 2007: witnesses and evidence).
//!
//! A take, a question and an export at a shared store are the events of that name. A merge is the delivery of a pack that the world keeps
//! and that has the merged items. Then no event is refused, what the witness took is what the store has, and each reply of the store is the
//! world's reply.
//!
//! `specs/Runs.antt` has the definitions and the laws, and [`laws`] proves them.
#![tactic(auto)]

pub mod laws;
