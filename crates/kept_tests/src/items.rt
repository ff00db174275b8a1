//! Tests of the public calls of `kept_items`: each answers of what is kept as the items' own calls do of the items.

mod answers;
mod copies;
mod keeping;
mod orders;
mod seven_items;
mod statements;
