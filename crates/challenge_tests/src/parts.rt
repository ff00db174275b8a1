//! Tests of the public calls of `shards`.

mod calls;
mod dealing;
