//! Tests of the public calls of `witness_core`.

mod answers;
mod five_items;
mod spreading;
mod testing;
mod texts;
