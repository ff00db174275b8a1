//! Writing kept items. Each entry of a segment is written from where it lies.

ghost use Rattle.std.specs.Prelude.{◌≡◌, ◌≤◌, ◌++◌, OnOk, length};
ghost use Rattle.std.specs.List.{All, flat_map};
ghost use Rattle.log_chain.specs.declared.limits.TheConstants.{MOST_ENTRIES};
ghost use Rattle.log_chain.specs.Fields.{IsListUpTo, bytes_text, counted_text};
ghost use Rattle.item_forms.specs.Spelling.{FitsEntry, FitsSegment, entry_spelling, segment_spelling, spelling};
ghost use Rattle.item_forms.specs.declared.forms.Fields.TheVariants as form;
ghost use Rattle.item_forms.specs.declared.limits.TheConstants.{LONGEST_ITEM};
ghost use Rattle.kept_entries.specs.Shared.{entries_of};
ghost use Rattle.kept_items.specs.within.Lent.{whole};
ghost use Rattle.kept_items.specs.within.Shared.{FitsShared, shared_spelling};

use crate::handle::Handle;
use crate::item::{Body, KeptItem};
use crate::segment::Parts;
use containers::HasItem;
use evidence_item::Form;
use item_forms::laws::spellings_are_short;
use item_forms::write_framed;
use kept_entries::SharedEntry;
use log_chain::FieldWriter;
use outcome::Memory;

/// Returns how many bytes the entry has in a segment's encoding.
fn entry_len(shared: &SharedEntry) -> usize
    requires { FitsShared shared.now }
    ensures { result ≡ length (shared_spelling shared.now) }
{
    13 + shared.content().len()
}

/// Returns how many bytes the entries have in a segment's encoding.
fn entries_len(handles: &[Handle]) -> usize
    requires fit { All FitsShared handles.now }
    requires few { length (flat_map shared_spelling handles.now) ≤ LONGEST_ITEM }
    ensures { result ≡ length (flat_map shared_spelling handles.now) }
{
    let mut len = 0;
    for handle in handles {
        len += entry_len(handle.get());
    }
    len
}

/// Writes the entry, in the encoding that a segment has of it.
fn write_entry(writer: &mut FieldWriter, shared: &SharedEntry) -> Result<(), Memory>
    requires { FitsShared shared.now }
    ensures { OnOk result (writer.new ≡ writer.old ++ shared_spelling shared.now) }
{
    writer.u64(shared.seq())?;
    writer.u8(shared.kind())?;
    writer.bytes(shared.content())?;
    Ok(())
}

fn write_each(writer: &mut FieldWriter, handles: &[Handle]) -> Result<(), Memory>
    requires { All FitsShared handles.now }
    ensures { OnOk result (writer.new ≡ writer.old ++ flat_map shared_spelling handles.now) }
{
    for handle in handles {
        write_entry(writer, handle.get())?;
    }
    Ok(())
}

/// Writes the count of the entries, and then the entries.
fn write_entries(writer: &mut FieldWriter, handles: &[Handle]) -> Result<(), Memory>
    requires { IsListUpTo MOST_ENTRIES FitsEntry (entries_of handles.now) }
    ensures { OnOk result (writer.new ≡ writer.old ++ counted_text entry_spelling (entries_of handles.now)) }
{
    writer.u32(handles.len() as u32)?;
    write_each(writer, handles)?;
    Ok(())
}

fn segment_len(parts: &Parts<'_>) -> usize
    requires fits { FitsSegment (whole parts.now) }
    ensures len { result ≡ length (spelling (form.Segment (whole parts.now))) }
    ensures bound { result ≤ LONGEST_ITEM }
{
    spellings_are_short();
    45 + entries_len(parts.handles) + parts.sig.len()
}

fn write_segment(writer: &mut FieldWriter, parts: &Parts<'_>) -> Result<(), Memory>
    requires { FitsSegment (whole parts.now) }
    ensures { OnOk result (writer.new ≡ writer.old ++ segment_spelling (whole parts.now)) }
{
    writer.u32(parts.node.0)?;
    writer.hash(parts.prev)?;
    write_entries(writer, parts.handles)?;
    writer.bytes(parts.sig.as_slice())?;
    Ok(())
}

/// Writes the length of the segment's encoding, and then the encoding.
fn write_framed_segment(writer: &mut FieldWriter, parts: &Parts<'_>) -> Result<(), Memory>
    requires { FitsSegment (whole parts.now) }
    ensures { OnOk result (writer.new ≡ writer.old ++ bytes_text (spelling (form.Segment (whole parts.now)))) }
{
    writer.u32(segment_len(parts) as u32)?;
    writer.u8(2)?;
    write_segment(writer, parts)?;
    Ok(())
}

impl<P> HasItem for KeptItem<P> {
    ghost piece = { λ kept. kept.item };

    fn encoded_len(&self) -> usize {
        match &self.body {
            Body::Statement(statement) => Form::Auth(statement.auth()).encoded_len(),
            Body::Single(checked) => checked.item().encoded_len(),
            Body::Segment(segment) => segment_len(&segment.parts()),
        }
    }

    fn write(&self, writer: &mut FieldWriter) -> Result<(), Memory> {
        match &self.body {
            Body::Statement(statement) => write_framed(writer, Form::Auth(statement.auth())),
            Body::Single(checked) => write_framed(writer, checked.item().form()),
            Body::Segment(segment) => write_framed_segment(writer, &segment.parts()),
        }
    }
}
