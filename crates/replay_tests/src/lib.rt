//! Tests of replay, of the programs of the repository, and of what codes their states.
#![tactic(auto)]

#[cfg(test)]
mod mail;
#[cfg(test)]
mod replay;
#[cfg(test)]
mod states;
