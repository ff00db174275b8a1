//! Items with their lengths in front. An encoding of several items has them so, one after the other.

ghost use Rattle.std.specs.Prelude.{◌+◌, ◌≡◌, ◌≤◌, IfErr, IsOk, OnErr, length};
ghost use Rattle.log_chain.specs.Fields.{Writes};
ghost use Rattle.outcome.specs.Outcome.{Took};
ghost use Rattle.item_forms.specs.declared.fault.DecodeFault.TheVariants as fault;
ghost use Rattle.item_forms.specs.Forms.{shown};
ghost use Rattle.item_forms.specs.FramedItems.{framed, framed_at, is_other_tag};
ghost use Rattle.item_forms.specs.Skipping.{Skips, TakesNoMemory};
ghost use Rattle.item_forms.specs.Spelling.{Fits};

use crate::fault::DecodeFault;
use crate::forms::Form;
use crate::item::Item;
use crate::laws::spellings_are_short;
use crate::limits::LONGEST_ITEM;
use log_chain::{FieldReader, FieldWriter};
use outcome::Memory;
use std::alloc::Global;

/// Returns whether the bytes begin with another tag than the wanted one.
fn is_other_tag(wanted: Option<u8>, bytes: &[u8]) -> bool
    ensures { result ≡ is_other_tag wanted bytes.now }
{
    match wanted {
        None => false,
        Some(tag) => match bytes {
            [] => false,
            [first, ..] => *first != tag,
        },
    }
}

/// Reads an item that has its length in front. With `wanted` it reads only an item of this tag. After a refusal the reader stands where
/// it stood.
///
/// It reports the first of these:
///
/// - `Truncated` (40): the bytes end within the length, which has four bytes.
/// - `TooLong` (42): the length is above [`LONGEST_ITEM`].
/// - `Truncated` (40): fewer bytes are left than the length says.
/// - `BadTag` (41): these bytes begin with another tag than the wanted one.
/// - What [`Item::decode`] reports of these bytes.
///
/// `Memory` may come in place of the item, but never in place of one of these faults.
#[tactic(auto, unfolding(crate::specs::FramedItems::framed_at))]
pub fn read_framed(
    alloc: Global,
    wanted: Option<u8>,
    reader: &mut FieldReader,
) -> Result<Item, DecodeFault>
    ensures took { Took fault.Memory (λ item. item.fields) result reader.new (framed_at wanted reader.old) }
    // `Memory` comes only if there is an item: each fault of the bytes is reported without memory too.
    ensures told { IfErr result (λ e. e ≡ fault.Memory → IsOk (framed_at wanted reader.old)) }
    ensures stays { OnErr result (reader.new ≡ reader.old) }
{
    let mut ahead = FieldReader::new(reader.as_slice());
    let body = ahead.bytes(LONGEST_ITEM)?;
    if is_other_tag(wanted, body) {
        return Err(DecodeFault::BadTag);
    }
    let item = Item::decode(alloc, body)?;
    *reader = ahead;
    Ok(item)
}

/// Goes over an item that has its length in front. It reports the same faults as [`read_framed`], but never `Memory`: it takes no memory.
/// After a refusal the reader stands where it stood.
#[tactic(auto, using(crate::proofs::Skipped::field_lends), unfolding(crate::specs::FramedItems::framed_at))]
pub fn scan_framed(wanted: Option<u8>, reader: &mut FieldReader) -> Result<(), DecodeFault>
    ensures skips { Skips result reader.new (framed_at wanted reader.old) }
    ensures lent { IfErr result TakesNoMemory }
    ensures stays { OnErr result (reader.new ≡ reader.old) }
{
    let mut ahead = FieldReader::new(reader.as_slice());
    let body = ahead.bytes(LONGEST_ITEM)?;
    if is_other_tag(wanted, body) {
        return Err(DecodeFault::BadTag);
    }
    Item::scan(body)?;
    *reader = ahead;
    Ok(())
}

/// Returns how many bytes an item of this form takes with its length in front: four more than its encoding. It takes no memory.
#[tactic(auto, using(crate::proofs::FramedTexts::framed_length))]
pub fn framed_len(form: Form<'_>) -> usize
    requires { Fits (shown form) }
    ensures len { result ≡ length (framed (shown form.entry)) }
    ensures bound { result ≤ LONGEST_ITEM + 4 }
{
    spellings_are_short();
    4 + form.encoded_len()
}

/// Writes an item of this form, with its length in front, after what is written already. If memory runs out, it writes nothing.
pub fn write_framed(writer: &mut FieldWriter, form: Form<'_>) -> Result<(), Memory>
    requires { Fits (shown form) }
    ensures { Writes result writer.old writer.new (framed (shown form.entry)) }
{
    spellings_are_short();
    let before = writer.written();
    writer.u32(form.encoded_len() as u32)?;
    if let Err(memory) = form.encode_to(writer) {
        writer.truncate(before);
        return Err(memory);
    }
    Ok(())
}
