//! Tests of the public calls of `log_chain`.

mod calls;
