//! Tests of the public calls of `evidence_store`.
#![tactic(auto)]

#[cfg(test)]
mod answers;
#[cfg(test)]
mod calls;
#[cfg(test)]
mod closings;
#[cfg(test)]
mod demands;
#[cfg(test)]
mod digests;
#[cfg(test)]
mod lookups;
#[cfg(test)]
mod merges;
#[cfg(test)]
mod pieces;
#[cfg(test)]
mod programs;
#[cfg(test)]
mod receipts;
#[cfg(test)]
mod segments;
#[cfg(test)]
mod statements;
#[cfg(test)]
mod texts;

fn main() {}
