//! The items of a set in their order.

ghost use Rattle.std.specs.Prelude.{◌≡◌, ◌++◌, ℕ, IfOk, IfSome, OnOk, Some, map, option_map, slice_get};
ghost use Rattle.std.specs.Io.KnownBytes.{Appends};
ghost use Rattle.std.specs.List.{Contains, flat_map};
ghost use Rattle.item_digests.specs.Digests.{digest_of};
ghost use Rattle.evidence_item.specs.Checking.{Checked as TheChecked};
ghost use Rattle.evidence.specs.Exports.{export_of};
ghost use Rattle.evidence_set.specs.ItemSets.{count, listed, set_of};
ghost use Rattle.node_tables.specs.Places.{named_item};
ghost use Rattle.indexed_store.specs.within.Digested.{AreDigests};
ghost use Rattle.indexed_store.specs.within.Resting.{IsOrdered};

use crate::digests::Digests;
use crate::index::Index;
use containers::{HasItem, write_all};
use evidence::{MAGIC, WriteFault, write_pieces};
use evidence_item::{Checked, Hash};
use kept_items::KeptItem;
use log_chain::FieldWriter;
use outcome::Memory;
use std::alloc::Global;
use std::io;

/// How many items the set has.
pub(crate) fn count<P>(index: &Index<P>) -> u64
    requires { IsOrdered index.now }
    ensures { result ≡ count (set_of index.now.items.items) }
{
    index.order.len() as u64
}

/// Returns the item at a place of the order, if there is one.
fn kept_at<'a, P>(index: &'a Index<P>, n: u64) -> Option<&'a KeptItem<P>>
    requires { IsOrdered index.now }
    ensures item { option_map (λ k. k.now.item) result ≡ slice_get (listed (set_of index.now.items.items)) n }
    ensures kept { IfSome result (λ k. Contains index.now.items.items k.now) }
{
    let Some(place) = index.order.get(n as usize) else {
        return None;
    };
    match index.items.get(*place as usize) {
        None => None,
        Some(kept) => Some(kept),
    }
}

/// Returns a copy of the item at a place of the order, if there is one.
pub(crate) fn item_at<P>(
    alloc: Global,
    index: &Index<P>,
    n: u64,
) -> Result<Option<Checked<P>>, Memory>
    requires { IsOrdered index.now }
    ensures item { IfOk result (λ found. option_map (λ (c : TheChecked). c.item) found ≡ slice_get (listed (set_of index.now.items.items)) n) }
    ensures kept { IfOk result (λ found. IfSome found (λ c. Contains index.now.items.items c)) }
{
    match kept_at(index, n) {
        None => Ok(None),
        Some(kept) => Ok(Some(kept.to_checked(alloc)?)),
    }
}

/// Returns the digest of the item at a place of the order, if there is one. It hashes the item where it lies.
fn hashed_at<P>(index: &Index<P>, n: u64) -> Option<Hash>
    requires { IsOrdered index.now }
    ensures { result ≡ option_map digest_of (slice_get (listed (set_of index.now.items.items)) n) }
{
    match kept_at(index, n) {
        None => None,
        Some(kept) => Some(kept.digest()),
    }
}

/// Returns that digest, if it is kept.
fn made_at<P>(index: &Index<P>, digests: &Digests, n: u64) -> Option<Hash>
    requires order { IsOrdered index.now }
    requires made { AreDigests digests.now index.now.items.items }
    ensures { IfSome result (λ d. option_map digest_of (slice_get (listed (set_of index.now.items.items)) n) ≡ Some d) }
{
    match index.order.get(n as usize) {
        None => None,
        Some(place) => digests.ask(*place),
    }
}

/// Returns the digest of the item at a place of the order, if there is one.
pub(crate) fn digest_at<P>(index: &Index<P>, digests: &Digests, n: u64) -> Option<Hash>
    requires order { IsOrdered index.now }
    requires made { AreDigests digests.now index.now.items.items }
    ensures { result ≡ option_map digest_of (slice_get (listed (set_of index.now.items.items)) n) }
{
    match made_at(index, digests, n) {
        None => hashed_at(index, n),
        Some(digest) => Some(digest),
    }
}

/// A kept item that is lent.
#[derive(Clone, Copy, Drop)]
struct Lent<'a, P> {
    kept: &'a KeptItem<P>,
}

impl<'a, P> HasItem for Lent<'a, P> {
    ghost piece = { λ lent. lent.kept.now.item };

    fn encoded_len(&self) -> usize {
        self.kept.encoded_len()
    }

    fn write(&self, writer: &mut FieldWriter) -> Result<(), Memory> {
        self.kept.write(writer)
    }
}

/// Puts the item at a place behind those that are lent.
fn lend<'a, P>(
    found: &mut Vec<Lent<'a, P>>,
    items: &'a [KeptItem<P>],
    place: u32,
) -> Result<(), Memory>
    ensures { OnOk result (map (λ l. l.kept.now.item) found.new.items ≡ map (λ l. l.kept.now.item) found.old.items ++ named_item (slice_get items.now place)) }
{
    let Some(kept) = items.get(place as usize) else {
        return Ok(());
    };
    found.push(Lent { kept })?;
    Ok(())
}

/// Puts the item that stands at a place of the order behind those that are lent.
fn lend_at<'a, P>(found: &mut Vec<Lent<'a, P>>, index: &'a Index<P>, n: usize) -> Result<(), Memory>
    ensures { OnOk result ((place : ℕ) → slice_get index.now.order.items n ≡ Some place → map (λ l. l.kept.now.item) found.new.items ≡ map (λ l. l.kept.now.item) found.old.items ++ named_item (slice_get index.now.items.items place)) }
{
    let Some(place) = index.order.get(n) else {
        return Ok(());
    };
    lend(found, &index.items, *place)
}

/// Returns the items in their order, lent.
fn in_order<'a, P>(alloc: Global, index: &'a Index<P>) -> Result<Vec<Lent<'a, P>>, Memory>
    ensures { IfOk result (λ lent. map (λ l. l.kept.now.item) lent.items ≡ flat_map (λ i. named_item (slice_get index.now.items.items i)) index.now.order.items) }
{
    let mut found: Vec<Lent<'a, P>> = Vec::with_capacity(alloc, index.order.len())?;
    for n in 0..index.order.len() {
        lend_at(&mut found, index, n)?;
    }
    Ok(found)
}

/// Returns the encoding of the set.
pub(crate) fn export<P>(alloc: Global, index: &Index<P>) -> Result<Vec<u8>, Memory>
    requires { IsOrdered index.now }
    ensures { IfOk result (λ text. text.items ≡ export_of (set_of index.now.items.items)) }
{
    let lent = in_order(alloc, index)?;
    let text = write_all(alloc, MAGIC, &lent)?;
    Ok(text)
}

/// Writes the encoding of the set to the writer, in pieces.
pub(crate) fn export_to<P, W: io::Write>(
    alloc: Global,
    index: &Index<P>,
    writer: &mut W,
) -> Result<(), WriteFault>
    requires { IsOrdered index.now }
    ensures { OnOk result (Appends (W.contents writer.old) (W.contents writer.new) (export_of (set_of index.now.items.items))) }
{
    let lent = in_order(alloc, index)?;
    write_pieces(alloc, MAGIC, &lent, writer)?;
    Ok(())
}
