//! Digests of items. The digest of an item is the SHA-256 value (FIPS 180-4) of its encoding. By digests a store reports to another store
//! which items it has.
//!
//! [`digest_of`] hashes the fields one after the other, as they are lent. It makes no encoding, and takes no memory. A crate that keeps
//! entries in another form can feed a hasher by [`feed_entry`] and the other calls. `specs/Digests.antt` says what a digest is, and
//! `specs/Feeding.antt` says what feeding is.
#![tactic(auto)]

pub use digest::digest_of;
pub use feeding::{feed_bytes, feed_entry, feed_hash, feed_u8, feed_u32};

mod digest;
mod feeding;
