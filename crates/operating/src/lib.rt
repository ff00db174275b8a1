//! What operators ask of evidence in files (PeerReview, SOSP 2007: evidence). Each question is an engine that reads the files of an
//! [`Opener`](files::Opener) and writes to a `Sink`.
//!
//! File 0 is the directory, and each other file is a store, if nothing else is said below. A file is bytes, or a line of hexadecimal
//! digits. A file may also be two lines: a directory, and a store under it. Then the engine reads both, or refuses the file with 104.
//! `specs/FileTexts.antt` has the table.
//!
//! - [`status`] writes a line for each node: `ID trusted`, `ID suspected` or `ID exposed`. It does so for all nodes, or for those of one
//!   shard.
//! - [`merge`] writes the encoding of the items of all stores.
//! - [`prove`] writes a proof that convicts a node, if there is one.
//! - [`check`] reads a directory and a proof, and writes whom the proof convicts: `exposes ID`.
//! - [`split`] reads stores without a directory, unless it makes extracts. It checks none of their items, and writes their parts by nodes.
//! - [`show`] reads one file, and writes what it is and what is in it. It checks nothing.
//! - [`play`] reads a scenario, and returns what it leaves: a directory, and a store for each witness.
//!
//! The contract of the function `run` in each of these modules is the engine's theorem. What is written is the answer to what the files
//! say, or else there is a [`Refusal`](refusal::Refusal). A refused engine has written nothing, unless the write failed; `split` may have
//! written parts. The refusal names the file and the item of the first fault. It names no file for 102 (a write that failed), and need not
//! name one for 99 (memory). 100 and 102 are reported only if a file or a write failed.
//!
//! A [`StoreWatcher`](watching::StoreWatcher) learns meanwhile how far the stores are read.
#![tactic(auto)]

pub mod asking;
pub mod check;
pub mod files;
mod gathering;
pub mod laws;
pub mod merge;
pub mod play;
pub mod prove;
pub mod reading;
pub mod refusal;
mod said;
pub mod scope;
pub mod show;
pub mod split;
mod standings;
pub mod status;
pub mod watching;
