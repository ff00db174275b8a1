//! Tests of the public calls for challenges, of the law on honest nodes, and of shards.
#![tactic(auto)]

#[cfg(test)]
mod demands;
#[cfg(test)]
mod honesty;
#[cfg(test)]
mod parts;

fn main() {}
