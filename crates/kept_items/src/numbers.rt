//! The numbers of shared entries.

ghost use Rattle.std.specs.Prelude.{◌≡◌, IfSome, is_some};
ghost use Rattle.log_chain.specs.Chain.{Rising};
ghost use Rattle.log_chain.specs.History.{StandsAt, has_seq};
ghost use Rattle.item_forms.specs.Segments.{first_seq, last_seq};
ghost use Rattle.proofs.specs.Contradictions.{is_rising};
ghost use Rattle.kept_entries.specs.Shared.{entries_of};
ghost use Rattle.kept_items.specs.within.Shared.{rises_from};

use crate::handle::Handle;

/// Returns the number of the first entry, or 0 if there is none.
pub(crate) fn first_seq(handles: &[Handle]) -> u64
    ensures { result ≡ first_seq (entries_of handles.now) }
{
    match handles.first() {
        None => 0,
        Some(first) => first.get().seq(),
    }
}

/// Returns the number of the last entry, or 0 if there is none.
pub(crate) fn last_seq(handles: &[Handle]) -> u64
    ensures { result ≡ last_seq (entries_of handles.now) }
{
    match handles {
        [] => 0,
        [.., last] => last.get().seq(),
    }
}

/// Returns whether the numbers rise from this one on.
fn rise_from(first: u64, handles: &[Handle]) -> bool
    ensures { result ≡ rises_from first (entries_of handles.now) }
{
    let mut last = first;
    for handle in handles {
        if handle.get().seq() <= last {
            return false;
        }
        last = handle.get().seq();
    }
    true
}

/// Returns whether each number is above the one before it. It takes one pass.
pub(crate) fn are_rising(handles: &[Handle]) -> bool
    ensures { result ≡ is_rising (entries_of handles.now) }
{
    match handles {
        [] => true,
        [first, rest @ ..] => rise_from(first.get().seq(), rest),
    }
}

/// Returns the place of the entry with the number, if there is one. The numbers rise, so a binary search finds it.
pub(crate) fn place_of(handles: &[Handle], seq: u64) -> Option<usize>
    requires { Rising (entries_of handles.now) }
    ensures has { is_some result ≡ has_seq seq (entries_of handles.now) }
    ensures stands { IfSome result (λ place. StandsAt (entries_of handles.now) seq place) }
{
    handles
        .binary_search_by_key(&seq, |handle| handle.get().seq())
        .ok()
}
