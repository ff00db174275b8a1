//! What checking found of the items that are kept.

ghost use Rattle.std.specs.Prelude.{◌≡◌, OnOk, option_copied};
ghost use Rattle.std.specs.List.{All};
ghost use Rattle.std.specs.List.Sorted.{IsStrictlySortedBy};
ghost use Rattle.item_forms.specs.Pieces.{by_bytes};
ghost use Rattle.evidence_item.specs.Checking.{IsChecked};
ghost use Rattle.evidence_set.specs.ItemSets.{pieces};
ghost use Rattle.kept_evidence.specs.Kept.{AreKept, IsWhole, found_hashes};
ghost use Rattle.kept_evidence.specs.Telling.{found_quotes};

use authenticators::Directory;
use evidence_item::{Checked, Findings, Hash};
use outcome::Memory;
use replay_verifier::Program;
use std::alloc::Global;

/// Returns the hashes of a segment's entries, or `None` if they were not found.
pub(crate) fn found_hashes<P>(checked: &Checked<P>) -> Option<&[Hash]>
    ensures { option_copied result ≡ found_hashes checked.now.findings }
{
    match checked.findings() {
        Some(Findings::Segment(found)) => Some(found.hashes.as_slice()),
        Some(Findings::Send(_) | Findings::Ack { .. }) => None,
        None => None,
    }
}

/// Returns, for each entry of a segment, the hash of the statement that it quotes genuinely. The list is empty if these were
/// not found.
pub(crate) fn found_quotes<P>(checked: &Checked<P>) -> &[Option<Hash>]
    ensures { result.now ≡ found_quotes checked.now.findings }
{
    match checked.findings() {
        Some(Findings::Segment(found)) => found.quotes.as_slice(),
        Some(Findings::Send(_) | Findings::Ack { .. }) => &[],
        None => &[],
    }
}

/// Finds what was not found yet of the item.
pub(crate) fn find<P: Program>(
    alloc: Global,
    directory: &Directory,
    checked: &mut Checked<P>,
) -> Result<(), Memory>
    requires { IsChecked directory.now P.means checked.old }
    ensures same { (checked.new.item ≡ checked.old.item) × (checked.new.verdict ≡ checked.old.verdict) }
    ensures checked { IsChecked directory.now P.means checked.new }
    ensures whole { OnOk result (IsWhole directory.now P.means checked.new) }
{
    checked.find(alloc, directory)
}

/// Finds, for each item, what was not found yet.
fn find_all<P: Program>(
    alloc: Global,
    directory: &Directory,
    items: &mut Vec<Checked<P>>,
) -> Result<(), Memory>
    requires { All (IsChecked directory.now P.means) items.old.items }
    ensures pieces { OnOk result (pieces items.new.items ≡ pieces items.old.items) }
    ensures whole { OnOk result (All (IsWhole directory.now P.means) items.new.items) }
{
    for checked in items.iter_mut() {
        find(alloc, directory, checked)?;
    }
    Ok(())
}

/// Finds, for each item of an ascending list, what checking did not find yet, so that a store can keep the items. If memory runs
/// out, it reports `Memory`, and may have found it for some of the items only.
pub fn find_each<P: Program>(
    alloc: Global,
    directory: &Directory,
    items: &mut Vec<Checked<P>>,
) -> Result<(), Memory>
    requires checked { All (IsChecked directory.now P.means) items.old.items }
    requires ascending { IsStrictlySortedBy by_bytes (pieces items.old.items) }
    ensures pieces { OnOk result (pieces items.new.items ≡ pieces items.old.items) }
    ensures kept { OnOk result (AreKept directory.now P.means items.new.items) }
{
    find_all(alloc, directory, items)?;
    Ok(())
}
