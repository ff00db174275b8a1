//! What `explain` writes of a store, a proof or a directory, for a person to read. The nodes may follow any program.
//!
//! - [`store_text`] returns what a store says of each node, and why. [`proof_text`] returns whom a proof convicts, and why.
//!   [`listing_text`] returns which nodes a directory lists. Each returns a text, or a page for a browser.
//! - Nothing is read here: `bulwynef` reads the evidence from files, by the crate `operating`.
//!
//! To explain the nodes of a program, call these with a [`Voice`] that says the program's payloads.
#![tactic(auto)]

pub use explanations::{PlainVoice, Voice};
pub use followed::Followed;
pub use saying::{ReadProof, listing_text, proof_text, store_text};
pub use sentences::Shown;

mod followed;
mod saying;
