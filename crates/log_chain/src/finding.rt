//! Tests of a new entry, and places of entries among numbers that rise.

ghost use Rattle.std.specs.Prelude.{◌≡◌, IfErr, IfOk, IfSome, None, OnOk, Some, is_some};
ghost use Rattle.log_chain.specs.Chain.{Rising};
ghost use Rattle.log_chain.specs.History.{StandsAt, append_fault, are_ends, has_seq, segment_fault};
ghost use Rattle.log_chain.specs.within.Places.{IsCut};

use crate::entry::Entry;
use crate::fault::{AppendFault, SegmentFault};
use crate::limits::{LONGEST_CONTENT, MOST_ENTRIES};

/// Returns the first fault that forbids an entry after others, if there is one.
#[tactic(auto, unfolding(crate::specs::History::append_fault))]
pub(crate) fn append_fault(entries: &[Entry], entry: &Entry) -> Option<AppendFault>
    ensures { result ≡ append_fault entries.now entry.now }
{
    if let Some(last) = entries.last()
        && entry.seq <= last.seq
    {
        return Some(AppendFault::SeqNotRising);
    }
    if entry.content.len() > LONGEST_CONTENT {
        return Some(AppendFault::ContentTooLong);
    }
    None
}

/// Returns the place of the entry with the number `seq`, in a list whose numbers rise. Returns `None` if no entry has the number. It is
/// a binary search, and takes no memory.
pub fn place_of(entries: &[Entry], seq: u64) -> Option<usize>
    requires { Rising entries.now }
    ensures has { is_some result ≡ has_seq seq entries.now }
    ensures stands { IfSome result (λ place. StandsAt entries.now seq place) }
{
    entries.binary_search_by_key(&seq, |entry| entry.seq).ok()
}

/// Returns the places at which the entries from one number to another begin and end. Returns `None` if one of the numbers is no
/// entry's, or the first is above the second.
fn cut_of(entries: &[Entry], from: u64, to: u64) -> Option<(usize, usize)>
    requires { Rising entries.now }
    ensures ends { is_some result ≡ are_ends from to entries.now }
    ensures cut { IfSome result (λ p. IsCut entries.now from to p.0 p.1) }
{
    if from > to {
        return None;
    }
    let start = place_of(entries, from)?;
    let last = place_of(entries, to)?;
    Some((start, last + 1))
}

/// Returns the places at which the entries of a segment begin and end, or why there is no segment.
#[tactic(auto, using(crate::proofs::Finds::cut_len), unfolding(crate::specs::History::segment_fault))]
pub(crate) fn segment_places(
    entries: &[Entry],
    from: u64,
    to: u64,
) -> Result<(usize, usize), SegmentFault>
    requires { Rising entries.now }
    ensures none { IfErr result (λ e. segment_fault entries.now from to ≡ Some e) }
    ensures some { OnOk result (segment_fault entries.now from to ≡ None) }
    ensures cut { IfOk result (λ p. IsCut entries.now from to p.0 p.1) }
{
    let Some((start, end)) = cut_of(entries, from, to) else {
        return Err(SegmentFault::NoEntry);
    };
    if end - start > MOST_ENTRIES {
        return Err(SegmentFault::SegmentTooLong);
    }
    Ok((start, end))
}
