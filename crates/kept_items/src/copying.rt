//! Copies of shared entries, and of what was found of them.

ghost use Rattle.std.specs.Prelude.{◌≡◌, IfOk};
ghost use Rattle.item_forms.specs.Spelling.{FitsSegment};
ghost use Rattle.item_forms.specs.declared.forms.Fields.TheVariants as form;
ghost use Rattle.kept_entries.specs.Shared.{entries_of, hashes_of};
ghost use Rattle.kept_items.specs.within.Shared.{quotes_of};

use crate::handle::Handle;
use crate::item::{Body, KeptItem};
use crate::segment::KeptSegment;
use authenticators::NodeId;
use evidence_item::{
    ByteString, Checked, Entry, Findings, Hash, HashList, Item, Memory, QuotedHashes,
    SegmentFindings,
};
use std::alloc::Global;

/// Copies of the entries.
fn copy_entries(alloc: Global, handles: &[Handle]) -> Result<Vec<Entry>, Memory>
    ensures { IfOk result (λ entries. entries.items ≡ entries_of handles.now) }
{
    let mut entries = Vec::with_capacity(alloc, handles.len())?;
    for handle in handles {
        let copy = handle.get().to_entry(alloc)?;
        entries.push(copy)?;
    }
    Ok(entries)
}

/// Their hashes.
fn copy_hashes(alloc: Global, handles: &[Handle]) -> Result<HashList, Memory>
    ensures { IfOk result (λ hashes. hashes ≡ hashes_of handles.now) }
{
    let mut hashes = Vec::with_capacity(alloc, handles.len())?;
    for handle in handles {
        hashes.push(handle.get().hash())?;
    }
    Ok(HashList::from_vec(hashes))
}

/// The hashes of what they quote.
fn copy_quotes(alloc: Global, handles: &[Handle]) -> Result<QuotedHashes, Memory>
    ensures { IfOk result (λ quotes. quotes ≡ quotes_of handles.now) }
{
    let mut quotes = Vec::with_capacity(alloc, handles.len())?;
    for handle in handles {
        quotes.push(handle.get().quoted())?;
    }
    Ok(QuotedHashes::from_vec(quotes))
}

/// The item that is a segment of these parts.
fn item_of(node: NodeId, prev: Hash, entries: Vec<Entry>, sig: ByteString) -> Item
    requires { FitsSegment (record { node = node; prev = prev; entries = entries.items; sig = sig }) }
    ensures { result.fields ≡ form.Segment (record { node = node; prev = prev; entries = entries.items; sig = sig }) }
{
    Item::segment(node, prev, entries, sig).unwrap()
}

/// A copy of the segment, with what was found of it.
fn copy_segment<P>(alloc: Global, segment: &KeptSegment) -> Result<Checked<P>, Memory>
    ensures { IfOk result (λ c. c ≡ segment.now) }
{
    let parts = segment.parts();
    let entries = copy_entries(alloc, parts.handles)?;
    let hashes = copy_hashes(alloc, parts.handles)?;
    let quotes = copy_quotes(alloc, parts.handles)?;
    let sig = parts.sig.try_clone(alloc)?;
    let item = item_of(parts.node, parts.prev, entries, sig);
    Ok(Checked::with_findings(
        item,
        segment.verdict().copied(),
        Some(Findings::Segment(SegmentFindings { hashes, quotes })),
    ))
}

impl<P> KeptItem<P> {
    /// Returns a copy of the checked item. The error `Memory` comes if a growth is refused.
    pub fn to_checked(&self, alloc: Global) -> Result<Checked<P>, Memory>
        ensures { IfOk result (λ c. c ≡ self.now) }
    {
        match &self.body {
            Body::Statement(statement) => {
                let copy = statement.try_clone(alloc)?;
                Ok(copy.into_checked())
            }
            Body::Single(checked) => {
                let copy = checked.try_clone(alloc)?;
                Ok(copy)
            }
            Body::Segment(segment) => {
                let copy = copy_segment(alloc, segment)?;
                Ok(copy)
            }
        }
    }
}
