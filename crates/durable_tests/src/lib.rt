//! Tests of the public calls of `durable_store`.
#![tactic(auto)]

#[cfg(test)]
mod planned;
#[cfg(test)]
mod stores;
#[cfg(test)]
mod texts;
