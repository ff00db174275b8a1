//! Tests of what stores give one another, and of worlds of witnesses.
#![tactic(auto)]

#[cfg(test)]
mod transfers;
#[cfg(test)]
mod worlds;

fn main() {}
