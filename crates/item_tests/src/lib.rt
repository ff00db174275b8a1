//! Tests of the public calls for items: their forms, their digests, and which are valid.
#![tactic(auto)]

#[cfg(test)]
mod forms;
#[cfg(test)]
mod validity;
