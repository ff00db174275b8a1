//! Tests of the public calls of `replay_verifier` and of the two programs of `ref_programs`.

mod calls;
mod crowds;
mod programs;
mod replays;
