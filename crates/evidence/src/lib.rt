//! What every store of evidence does, in whatever form it keeps its items (PeerReview, SOSP 2007: evidence and failure
//! indications). A store is a set of checked items under one directory. It reports what its items say of each node.
//!
//! - [`Evidence`] is the trait of stores. [`AskFault`], [`NewStoreRefused`], [`TakeRefused`] and [`UnknownNode`] are the errors
//!   of its calls.
//! - [`write_pieces`] writes a container in pieces, as [`Evidence::export_to`] does. [`WriteFault`] is its error.
//! - [`Importer`] reads the encoding of a set that comes in pieces, and adds its items to a store. [`MAGIC`] is the eight bytes
//!   with which an export begins. [`add_all`] adds checked items to a store as an importer does.
//! - [`laws`] has the laws that follow from the definitions.
//!
//! The contracts of the trait speak only of the directory and of the set of items, in the words of `evidence_set`.
//! `specs/Contents.antt` defines what contracts see of a store, and `specs/Exports.antt` the encoding of a set.
//! `specs/Importing.antt` defines what contracts see of an importer, and `specs/Refusals.antt` the numbers of refusals.
#![tactic(auto)]

pub use adding::add_all;
pub use evidence::Evidence;
pub use fault::{AskFault, NewStoreRefused, TakeRefused, UnknownNode, WriteFault};
pub use importer::Importer;
pub use set_text::{MAGIC, magic_of};
pub use writing::write_pieces;

mod adding;
mod evidence;
mod fault;
mod importer;
pub mod laws;
mod set_text;
mod stage;
mod writing;
