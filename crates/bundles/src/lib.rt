//! Bundles. A bundle is a proof to hand over in one file, with its directory, the name of the program, and sentences for people.
//!
//! - [`write`] returns the text of a [`Bundle`].
//! - [`read`] returns the [`OpenBundle`] of a text, or refuses the text with the number of a line. It believes no sentence. What the proof
//!   exposes is for the caller to check.
//!
//! `specs/Spelling.antt` says what a bundle is, and what its one text is. `specs/Grammar.antt` says how a text is read. By [`laws`], each
//! bundle's text is read as that bundle, and no other text is read. A text of format 1 is refused as older.
#![tactic(auto)]

pub use bundle::{Bundle, OpenBundle};
pub use fault::{BundleFault, WriteFault};
pub use reading::read;
pub use writing::write;

mod bundle;
mod fault;
mod fields;
mod form;
pub mod laws;
mod lines;
mod reading;
mod writing;
