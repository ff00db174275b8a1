//! The verbs of keys, directories, statements and stores of statements, for scripts of calls.
//!
//! A [`Keyring`] has the values that a script named, and makes the calls. Each verb is a public call of `lms_sign` or `authenticators`, but for
//! those of bytes, of lists and of the ends of lists. The comment of a verb's function begins with what a script writes.
#![tactic(auto)]

pub use keyring::Keyring;

mod bytes;
mod directories;
mod keyring;
mod keys;
mod pools;
mod statements;
