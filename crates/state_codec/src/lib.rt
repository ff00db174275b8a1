//! Codecs of a program's state, made of parts.
//!
//! This crate encodes a state that is made of numbers, byte strings, pairs and lists of these. It also proves the three laws of bytes
//! that a [`Program`](replay_verifier::Program) owes. What is encoded is decoded again. Only a state's own encoding is decoded. An
//! encoding has a greatest length.
//!
//! - [`Coded`] is implemented by a type whose values have an encoding. Numbers, [`Text`], pairs and [`Listed`] implement it. A struct is
//!   coded as the pairs of its parts, by `struct_coding` of `specs/Codings.antt`. Its law is `struct_lawful` of `specs/CodingLaws.antt`.
//! - [`encoded`] and [`decoded`] are a program's `encode` and `decode`. The program's `means` is a `coded_program`. Its `lawful` is
//!   `coded_lawful` of `specs/StateLaws.antt`, if no state has more than 65,536 bytes.
//! - [`Keeps`] says which items of a list a step keeps.
//!
//! The crate `mailbox` is a program that is written in this way.
#![tactic(auto)]

pub use coded::Coded;
pub use fault::CodeFault;
pub use keeps::Keeps;
pub use listed::Listed;
pub use text::Text;
pub use whole::{decoded, encoded};

mod coded;
mod fault;
mod keeps;
mod listed;
mod numbers;
mod pair;
mod text;
mod whole;
