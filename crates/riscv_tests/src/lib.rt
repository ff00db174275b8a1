//! Tests of the public calls of `riscv`.
#![tactic(auto)]

#[cfg(test)]
mod arithmetic;
#[cfg(test)]
mod compiled;
#[cfg(test)]
mod decoding;
#[cfg(test)]
mod runs;
#[cfg(test)]
mod traps;
