//! The engine of `explain`, which writes what evidence in files says, for a person to read (PeerReview, SOSP 2007: failure indications).
//!
//! File 0 is the directory. The function `run` of each module carries its theorem, in the words of the engines of `operating`. It writes what
//! the files say, or nothing.
//!
//! - [`stores`] writes what stores say of each node, and why. Items are numbered by their places in the union of the stores, as `merge`
//!   writes it.
//! - [`proof`] writes whom a proof convicts, and why.
//! - [`directory`] writes which nodes the directory lists, with the SHA-256 of each key.

pub mod directory;
pub mod proof;
pub mod stores;
