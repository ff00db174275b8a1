//! Tests of the public calls of the foundations, of signatures and of logs.
#![tactic(auto)]

#[cfg(test)]
mod journals;
#[cfg(test)]
mod logs;
#[cfg(test)]
mod numbers;
#[cfg(test)]
mod signatures;
#[cfg(test)]
mod tiers;
