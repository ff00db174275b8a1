//! The digests of statements, and of segments whose entries are shared. Each field is hashed where it lies, and no memory is taken.

ghost use Rattle.std.specs.Prelude.{◌≡◌};
ghost use Rattle.std.specs.Int.{to_be_bytes, w64};
ghost use Rattle.std.specs.List.{All, flat_map};
ghost use Rattle.log_chain.specs.declared.limits.TheConstants.{MOST_ENTRIES};
ghost use Rattle.log_chain.specs.Fields.{IsListUpTo, counted_text};
ghost use Rattle.item_digests.specs.Digests.{digest_of};
ghost use Rattle.item_digests.specs.Feeding.{Feeds};
ghost use Rattle.item_forms.specs.Spelling.{FitsAuth, FitsEntry, FitsSegment, auth_spelling, entry_spelling, segment_spelling};
ghost use Rattle.kept_entries.specs.Shared.{entries_of};
ghost use Rattle.kept_items.specs.within.Lent.{whole};
ghost use Rattle.kept_items.specs.within.Shared.{FitsShared, shared_spelling};

use crate::handle::Handle;
use crate::segment::{KeptSegment, Parts};
use crate::statement::KeptStatement;
use authenticators::Authenticator;
use item_digests::{feed_bytes, feed_hash, feed_u8, feed_u32};
use kept_entries::SharedEntry;
use log_chain::Hash;
use sha2::{Digest, Sha256};

fn feed_u64(hasher: &mut Sha256, value: u64)
    ensures { Feeds hasher.old hasher.new (to_be_bytes w64 value) }
{
    hasher.update(value.to_be_bytes());
}

/// Feeds a statement, in its encoding.
fn feed_auth(hasher: &mut Sha256, auth: &Authenticator)
    requires { FitsAuth auth.now }
    ensures { Feeds hasher.old hasher.new (auth_spelling auth.now) }
{
    feed_u32(hasher, auth.node.0);
    feed_u64(hasher, auth.seq);
    feed_hash(hasher, auth.hash);
    feed_bytes(hasher, auth.sig.as_slice());
}

/// Feeds an entry, in the encoding that a segment has of it.
fn feed_shared(hasher: &mut Sha256, shared: &SharedEntry)
    requires { FitsShared shared.now }
    ensures { Feeds hasher.old hasher.new (shared_spelling shared.now) }
{
    feed_u64(hasher, shared.seq());
    feed_u8(hasher, shared.kind());
    feed_bytes(hasher, shared.content());
}

fn feed_each(hasher: &mut Sha256, handles: &[Handle])
    requires { All FitsShared handles.now }
    ensures { Feeds hasher.old hasher.new (flat_map shared_spelling handles.now) }
{
    for handle in handles {
        feed_shared(hasher, handle.get());
    }
}

/// Feeds the count of the entries, and then the entries.
fn feed_entries(hasher: &mut Sha256, handles: &[Handle])
    requires { IsListUpTo MOST_ENTRIES FitsEntry (entries_of handles.now) }
    ensures { Feeds hasher.old hasher.new (counted_text entry_spelling (entries_of handles.now)) }
{
    feed_u32(hasher, handles.len() as u32);
    feed_each(hasher, handles);
}

fn feed_segment(hasher: &mut Sha256, parts: &Parts<'_>)
    requires { FitsSegment (whole parts.now) }
    ensures { Feeds hasher.old hasher.new (segment_spelling (whole parts.now)) }
{
    feed_u32(hasher, parts.node.0);
    feed_hash(hasher, parts.prev);
    feed_entries(hasher, parts.handles);
    feed_bytes(hasher, parts.sig.as_slice());
}

/// Returns the SHA-256 value of the statement's encoding.
pub(crate) fn digest_of_statement(statement: &KeptStatement) -> Hash
    ensures { result ≡ digest_of statement.now.item }
{
    let mut hasher = Sha256::new();
    feed_u8(&mut hasher, 1);
    feed_auth(&mut hasher, statement.auth());
    Hash(hasher.finalize())
}

/// Returns the SHA-256 value of the segment's encoding.
pub(crate) fn digest_of_segment(segment: &KeptSegment) -> Hash
    ensures { result ≡ digest_of segment.now.item }
{
    let parts = segment.parts();
    let mut hasher = Sha256::new();
    feed_u8(&mut hasher, 2);
    feed_segment(&mut hasher, &parts);
    Hash(hasher.finalize())
}
