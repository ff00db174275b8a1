//! Entries that several segments share. Each is kept once.
//!
//! An [`EntryPool`] hands out handles of entries. For equal entries it hands out handles of one entry, which it finds by comparing all
//! bytes. A [`SharedEntry`] takes no more room than it needs: a short content that quotes nothing stands in the entry itself.
#![tactic(auto)]

pub use entry_pool::EntryPool;
pub use shared::SharedEntry;

mod body;
mod entry_pool;
mod keeping;
mod shared;
mod short_text;
