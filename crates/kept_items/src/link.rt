//! Entries of a segment as links of the chain of their log.

ghost use Rattle.std.specs.Prelude.{◌≡◌, ◌≤◌, length, slice_get};
ghost use Rattle.log_chain.specs.Chain.{hashes};
ghost use Rattle.kept_entries.specs.Shared.{entries_of, hashes_of};
ghost use Rattle.kept_items.specs.Links.{links};
ghost use Rattle.kept_items.specs.within.Parts.{before};

use crate::handle::Handle;
use log_chain::Hash;

/// An entry of a segment, as the chain of its log has it.
#[derive(Clone, Copy, Debug)]
pub struct Link {
    /// The hash before the entry.
    pub prev: Hash,
    /// The entry's number.
    pub seq: u64,
    /// The entry's own hash.
    pub hash: Hash,
}

/// Returns the hash before the entry at a place.
fn hash_before(prev: Hash, handles: &[Handle], place: usize) -> Hash
    requires { place ≤ length handles.now }
    ensures { result ≡ before prev handles.now place }
{
    if place == 0 {
        return prev;
    }
    handles[place - 1].get().hash()
}

/// Returns the entry at a place. The entries follow the hash `prev`.
pub(crate) fn link_at(prev: Hash, handles: &[Handle], place: usize) -> Option<Link>
    requires { hashes_of handles.now ≡ hashes prev (entries_of handles.now) }
    ensures { result ≡ slice_get (links prev (entries_of handles.now)) place }
{
    match handles.get(place) {
        None => None,
        Some(handle) => Some(Link {
            prev: hash_before(prev, handles, place),
            seq: handle.get().seq(),
            hash: handle.get().hash(),
        }),
    }
}
