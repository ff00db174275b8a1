//! Tests of the public calls of `accuracy`.

mod calls;
mod receipts;
