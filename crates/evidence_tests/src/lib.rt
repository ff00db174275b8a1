//! Tests of the public calls for proofs, texts of items and sets of them.
#![tactic(auto)]

#[cfg(test)]
mod convictions;
#[cfg(test)]
mod sets;
#[cfg(test)]
mod texts;
