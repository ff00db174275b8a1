//! Numbers and hashes that are looked up among shared entries. Nothing is hashed.

ghost use Rattle.std.specs.Prelude.{◌≡◌, []};
ghost use Rattle.log_chain.specs.Chain.{Rising, hashes};
ghost use Rattle.item_forms.specs.Segments.{has_pair, logged};
ghost use Rattle.evidence_set.specs.Challenges.{covers};
ghost use Rattle.kept_entries.specs.Shared.{entries_of, hashes_of};
ghost use Rattle.kept_items.specs.within.Parts.{IsHashed, segment_of};

use crate::handle::Handle;
use crate::numbers::place_of;
use crate::pair::{Pair, is_among};
use evidence_item::AuditChallenge;
use log_chain::laws::rises_by_pairs;
use log_chain::{Hash, base_hash};

/// Returns whether one of the entries that follow the hash `prev` has the number and the hash. The numbers rise, so a binary search finds
/// it.
pub(crate) fn finds_pair(prev: Hash, handles: &[Handle], seq: u64, hash: Hash) -> bool
    requires rising { Rising (entries_of handles.now) }
    requires hashed { hashes_of handles.now ≡ hashes prev (entries_of handles.now) }
    ensures { result ≡ has_pair (logged prev (entries_of handles.now)) seq hash }
{
    rises_by_pairs();
    match place_of(handles, seq) {
        None => false,
        Some(place) => handles[place].get().hash() == hash,
    }
}

/// Returns the same for any entries that follow the hash `prev`. It looks the number up if the numbers rise, and else the pair among the
/// pairs.
fn has_pair(
    prev: Hash,
    handles: &[Handle],
    rises: bool,
    pairs: &[Pair],
    seq: u64,
    hash: Hash,
) -> bool
    requires { IsHashed prev handles.now rises pairs.now }
    ensures { result ≡ has_pair (logged prev (entries_of handles.now)) seq hash }
{
    if rises {
        finds_pair(prev, handles, seq, hash)
    } else {
        is_among(pairs, seq, hash)
    }
}

/// Returns whether the entries that follow the hash `prev` have what the challenge names.
pub(crate) fn cover(
    challenge: &AuditChallenge,
    prev: Hash,
    handles: &[Handle],
    rises: bool,
    pairs: &[Pair],
) -> bool
    requires { IsHashed prev handles.now rises pairs.now }
    ensures { result ≡ covers challenge.now.first challenge.now.last (segment_of 0 prev handles.now []) }
{
    let last = &challenge.last;
    match &challenge.first {
        None => prev == base_hash() && has_pair(prev, handles, rises, pairs, last.seq, last.hash),
        Some(first) => {
            has_pair(prev, handles, rises, pairs, first.seq, first.hash)
                && has_pair(prev, handles, rises, pairs, last.seq, last.hash)
        }
    }
}
