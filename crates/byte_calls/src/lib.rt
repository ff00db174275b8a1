//! The calls of the library on bytes, for hosts that are not written in Rattle. What comes in is the encoding of a directory, a proof, a
//! store or an item. What goes out is a number, such an encoding, or a text for a person to read.
//!
//! - [`check_proof`] returns the node that a proof convicts.
//! - [`stores`] has what a store of evidence is given and asked. [`transfers`] has what stores give one another. [`nodes`] has what a
//!   node is given, and what it answers. A call on a store or a node is generic in the program that nodes follow. A call on a store is
//!   generic in the store too.
//! - [`items`] makes statements and challenges of items.
//! - [`journals`] has what a host needs to keep a node's journal: the bytes of its texts, and the node of its bytes.
//!   [`laws`] says that this is the node that went on.
//! - [`explaining`] says in sentences what a store says of its nodes, or whom a proof convicts, and why.
//! - [`Refusal`] is why a call is refused.
//!
//! `specs/Refusals.antt` has the table of refusals. The other files of `specs/` define what each call makes of the bytes.
#![tactic(auto)]

pub use checking::check_proof;
pub use refusal::Refusal;

mod checking;
pub mod explaining;
pub mod items;
pub mod journals;
pub mod laws;
pub mod nodes;
mod refusal;
pub mod stores;
mod telling;
pub mod transfers;
