//! Tests of what several threads do: a map, reading, and stores that callers share.
#![tactic(auto)]

#[cfg(test)]
mod passes;
#[cfg(test)]
mod reading;
#[cfg(test)]
mod workers;

fn main() {}
