//! How a pool finds its entries.

ghost use Rattle.std.specs.Prelude.{◌≡◌, IsTrue};
ghost use Rattle.kept_entries.specs.within.Keeping.{wanted_entry};

use crate::shared::SharedEntry;
use log_chain::Hash;

/// An entry for which a handle is wanted, in its parts.
#[derive(Clone, Copy)]
pub(crate) struct Wanted<'a> {
    pub(crate) prev: Hash,
    pub(crate) seq: u64,
    pub(crate) kind: u8,
    pub(crate) content: &'a [u8],
    pub(crate) hash: Hash,
    pub(crate) quoted: Option<Hash>,
}

/// Returns the first eight bytes of a hash.
pub(crate) fn front_of(hash: Hash) -> u64 {
    let h = hash.0;
    u64::from_be_bytes([h[0], h[1], h[2], h[3], h[4], h[5], h[6], h[7]])
}

/// Returns whether the kept entry is the wanted one.
pub(crate) fn is_same(kept: &SharedEntry, wanted: &Wanted<'_>) -> bool
    ensures { IsTrue result → kept.now ≡ wanted_entry wanted.now }
{
    kept.hash() == wanted.hash
        && kept.prev() == wanted.prev
        && kept.seq() == wanted.seq
        && kept.kind() == wanted.kind
        && kept.content() == wanted.content
        && kept.quoted() == wanted.quoted
}
