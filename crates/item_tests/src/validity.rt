//! Tests of the public calls of `evidence_item`.

mod checking;
mod finding;
mod idle;
mod receipts;
mod second_key;
mod valid_items;
