//! The statements of a segment, lent from where they lie.

ghost use Rattle.std.specs.Prelude.{◌≡◌, slice_get};
ghost use Rattle.std.specs.Option.{option_map};
ghost use Rattle.item_forms.specs.Segments.{last_seq};
ghost use Rattle.evidence_item.specs.Statements.{says};
ghost use Rattle.kept_entries.specs.Shared.{entries_of, hashes_of};
ghost use Rattle.kept_evidence.specs.Telling.{last_or, told_quote};
ghost use Rattle.kept_items.specs.Positions.{quote_by, shown};
ghost use Rattle.kept_items.specs.within.Shared.{quotes_of};

use crate::handle::Handle;
use crate::numbers::last_seq;
use crate::said::Said;
use authenticators::NodeId;
use kept_entries::SharedEntry;
use log_chain::Hash;
use replay_verifier::Receipt;

/// Returns the last of the hashes, or `prev` if there are no entries.
fn last_hash(prev: Hash, handles: &[Handle]) -> Hash
    ensures { result ≡ last_or prev (hashes_of handles.now) }
{
    match handles {
        [] => prev,
        [.., last] => last.get().hash(),
    }
}

/// Returns the end of a segment of these parts.
pub(crate) fn end_of<'a>(node: NodeId, prev: Hash, handles: &[Handle], sig: &'a [u8]) -> Said<'a>
    ensures { shown result ≡ says node (last_seq (entries_of handles.now)) (last_or prev (hashes_of handles.now)) sig.now }
{
    Said {
        node,
        seq: last_seq(handles),
        hash: last_hash(prev, handles),
        sig,
    }
}

/// Returns what the entry quotes, if it has a genuine quote.
fn quote_of(shared: &SharedEntry) -> Option<Said<'_>>
    ensures { option_map shown result ≡ told_quote shared.now.entry shared.now.quoted }
{
    let Some(hash) = shared.quoted() else {
        return None;
    };
    let Some(receipt) = Receipt::read(shared.content()) else {
        return None;
    };
    Some(Said {
        node: receipt.from,
        seq: receipt.seq,
        hash,
        sig: receipt.sig,
    })
}

/// Returns what the entry at a place quotes, if it has a genuine quote.
pub(crate) fn quote_at(handles: &[Handle], place: usize) -> Option<Said<'_>>
    ensures { option_map shown result ≡ quote_by (slice_get (entries_of handles.now) place) (slice_get (quotes_of handles.now) place) }
{
    match handles.get(place) {
        None => None,
        Some(handle) => quote_of(handle.get()),
    }
}
