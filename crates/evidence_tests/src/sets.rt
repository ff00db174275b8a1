//! Tests of the public calls of `evidence_set`.

mod answers;
mod calls;
