//! Proofs that are handed over in bundles: how a bundle is made, and whom its proof convicts (PeerReview, SOSP 2007: evidence of faults).
//!
//! - [`make`] returns the text of a bundle of a directory and a proof, if the proof convicts a node.
//! - [`judge`] says whom the proof of a bundle convicts under a program and a directory, and in what the bundle disagrees.
//!   [`judge_in_json`] says it to programs.
//!
//! These calls believe nothing in a line of a bundle that begins with `#`. By [`laws`], what is found of a bundle that was made is what its
//! sentences say.
#![tactic(auto)]

pub use fault::{MakeFault, TextFault};
pub use judging::{Judgement, judge};
pub use judging_json::judge_in_json;
pub use making::make;

mod convicting;
mod fault;
mod judging;
mod judging_json;
pub mod laws;
mod making;
mod sentences;
