//! The verbs of messages, acknowledgements and nodes, for scripts of calls. Nodes run Tally.
//!
//! An [`Arena`] has the values that a script named, and makes the calls. It gives a verb that it lacks to the keyring of `probe_keys`. Each verb is a
//! public call of `messages` or `commitment`, but for those that change a field, look at a node, or feed values to a digest. The comment of a
//! verb's function begins with what a script writes.
#![tactic(auto)]

pub use arena::Arena;

mod acks;
mod arena;
mod calls;
mod feeding;
mod looks;
mod sending;
