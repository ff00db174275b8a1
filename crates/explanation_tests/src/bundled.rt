//! Tests of the public calls of `bundles` and `bundling`.

mod calls;
mod handing;
