//! Tests of the public calls of `witness_workers`.

mod at_once;
mod calls;
mod checking;
mod refused;
mod sharing;
