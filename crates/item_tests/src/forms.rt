//! Tests of the public calls of `item_forms` and `item_digests`.

mod digests;
mod items;
mod segments;
