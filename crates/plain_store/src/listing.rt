//! The items of a set in their order.

ghost use Rattle.std.specs.Prelude.{◌≡◌, IfOk, OnOk, option_map, slice_get};
ghost use Rattle.std.specs.Io.KnownBytes.{Appends};
ghost use Rattle.item_digests.specs.Digests.{digest_of};
ghost use Rattle.evidence_item.specs.Checking.{Checked as TheChecked};
ghost use Rattle.evidence.specs.Exports.{export_of};
ghost use Rattle.evidence_set.specs.ItemSets.{count, listed, set_of};
ghost use Rattle.kept_evidence.specs.Kept.{IsAscending};

use containers::write_all;
use evidence::{MAGIC, WriteFault, write_pieces};
use evidence_item::{Checked, Hash};
use item_digests::digest_of;
use outcome::Memory;
use std::alloc::Global;
use std::io;

/// Returns how many items the set has.
pub(crate) fn count<P>(kept: &[Checked<P>]) -> u64
    requires { IsAscending kept.now }
    ensures { result ≡ count (set_of kept.now) }
{
    kept.len() as u64
}

/// Returns a copy of the item at a place, or `None` if there is none.
pub(crate) fn item_at<P>(
    alloc: Global,
    kept: &[Checked<P>],
    n: u64,
) -> Result<Option<Checked<P>>, Memory>
    requires { IsAscending kept.now }
    ensures item { IfOk result (λ found. option_map (λ (c : TheChecked). c.item) found ≡ slice_get (listed (set_of kept.now)) n) }
    ensures kept { IfOk result (λ found. found ≡ slice_get kept.now n) }
{
    let place = n as usize;
    if place >= kept.len() {
        return Ok(None);
    }
    Ok(Some(kept[place].try_clone(alloc)?))
}

/// Returns the digest of the item at a place, or `None` if there is none.
pub(crate) fn digest_at<P>(kept: &[Checked<P>], n: u64) -> Option<Hash>
    requires { IsAscending kept.now }
    ensures { result ≡ option_map digest_of (slice_get (listed (set_of kept.now)) n) }
{
    let place = n as usize;
    if place >= kept.len() {
        return None;
    }
    Some(digest_of(kept[place].item()))
}

/// Writes the export of the set.
pub(crate) fn export<P>(alloc: Global, kept: &[Checked<P>]) -> Result<Vec<u8>, Memory>
    requires { IsAscending kept.now }
    ensures { IfOk result (λ text. text.items ≡ export_of (set_of kept.now)) }
{
    let text = write_all(alloc, MAGIC, kept)?;
    Ok(text)
}

/// Writes the export of the set to the writer, in pieces.
pub(crate) fn export_to<P, W: io::Write>(
    alloc: Global,
    kept: &[Checked<P>],
    writer: &mut W,
) -> Result<(), WriteFault>
    requires { IsAscending kept.now }
    ensures { OnOk result (Appends (W.contents writer.old) (W.contents writer.new) (export_of (set_of kept.now))) }
{
    write_pieces(alloc, MAGIC, kept, writer)?;
    Ok(())
}
