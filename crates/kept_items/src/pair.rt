//! Numbers and hashes of entries, in order. A pair is looked up in them if the numbers do not rise.

ghost use Rattle.std.specs.Prelude.{◌≡◌, ◌↔◌, IfOk, false, map};
ghost use Rattle.std.specs.List.{Contains, list_any};
ghost use Rattle.std.specs.List.Sorted.{IsStrictlySortedBy};
ghost use Rattle.kept_entries.specs.Shared.{entries_of};
ghost use Rattle.proofs.specs.Contradictions.{is_rising};
ghost use Rattle.kept_items.specs.declared.pair.Pair.{Pair as ThePair};
ghost use Rattle.kept_items.specs.within.Pairing.{ArePairs, by_pair, is_pair, pair_of};

use crate::handle::Handle;
use crate::numbers::are_rising;
use log_chain::Hash;
use outcome::Memory;
use std::alloc::Global;

/// The number and the hash of an entry.
#[derive(Clone, Copy, Debug, PartialEq, Eq, PartialOrd, Ord)]
pub(crate) struct Pair {
    pub(crate) seq: u64,
    pub(crate) hash: Hash,
}

/// Returns the pair of each entry, in the entries' order.
fn listed(alloc: Global, handles: &[Handle]) -> Result<Vec<Pair>, Memory>
    ensures { IfOk result (λ pairs. pairs.items ≡ map pair_of handles.now) }
{
    let mut pairs = Vec::with_capacity(alloc, handles.len())?;
    for handle in handles {
        pairs.push(Pair {
            seq: handle.get().seq(),
            hash: handle.get().hash(),
        })?;
    }
    Ok(pairs)
}

/// Returns the pairs in ascending order, each once.
fn ascending(mut pairs: Vec<Pair>) -> Vec<Pair>
    ensures ascending { IsStrictlySortedBy by_pair result.items }
    ensures members { (p : ThePair) → Contains result.items p ↔ Contains pairs.items p }
{
    pairs.sort_unstable();
    pairs.dedup();
    pairs
}

/// Returns the pairs of entries whose numbers do not rise, in order. It returns none if the numbers rise, since those entries are looked up
/// by their numbers.
pub(crate) fn pairs_of(alloc: Global, handles: &[Handle]) -> Result<Vec<Pair>, Memory>
    ensures { IfOk result (λ pairs. is_rising (entries_of handles.now) ≡ false → ArePairs handles.now pairs.items) }
{
    if are_rising(handles) {
        return Ok(Vec::new(alloc));
    }
    let pairs = listed(alloc, handles)?;
    Ok(ascending(pairs))
}

/// Returns whether one of the pairs has the number and the hash. It takes a binary search.
pub(crate) fn is_among(pairs: &[Pair], seq: u64, hash: Hash) -> bool
    requires { IsStrictlySortedBy by_pair pairs.now }
    ensures { result ≡ list_any (is_pair seq hash) pairs.now }
{
    pairs.binary_search(&Pair { seq, hash }).is_ok()
}
