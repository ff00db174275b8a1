//! Tests of the public calls of `challenges`.

mod asking;
mod calls;
mod closing;
mod log_hashes;
mod node_two;
