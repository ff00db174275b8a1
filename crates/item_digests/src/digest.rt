//! The digest of an item.

ghost use Rattle.std.specs.Prelude.{◌≡◌};
ghost use Rattle.item_digests.specs.Digests.{digest_of};

use crate::feeding::feed_tagged;
use item_forms::{Hash, Item};
use sha2::{Digest, Sha256};

/// Returns the item's digest: the SHA-256 value of its encoding. It hashes each field where it lies, and takes no memory.
pub fn digest_of(item: &Item) -> Hash
    ensures { result ≡ digest_of item.now }
{
    let mut hasher = Sha256::new();
    feed_tagged(&mut hasher, item.form());
    Hash(hasher.finalize())
}
