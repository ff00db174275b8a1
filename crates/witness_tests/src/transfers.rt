//! Tests of the public calls of `transfer`.

mod calls;
mod refusals;
