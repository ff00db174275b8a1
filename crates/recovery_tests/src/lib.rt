//! Tests of the public calls of `node_journals`.
#![tactic(auto)]

#[cfg(test)]
mod nodes;
#[cfg(test)]
mod texts;
