//! Tests of the public calls of `proofs`.

mod calls;
mod checking;
mod receipts;
