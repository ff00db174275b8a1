//! Tests of the public calls of `containers`.

mod calls;
