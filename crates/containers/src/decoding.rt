//! Reading the items of a container without checking them.

ghost use Rattle.std.specs.Prelude.{◌≡◌, ◌<◌, [], IfErr, IfOk, IsOk, OnOk, Ok, length, map, suc, ℕ};
ghost use Rattle.outcome.specs.Outcome.{Gives};
ghost use Rattle.item_forms.specs.Pieces.{Piece};
ghost use Rattle.item_forms.specs.Reading.{item_of};
ghost use Rattle.containers.specs.declared.fault.Cause.TheVariants as cause;
ghost use Rattle.containers.specs.Container.{import_of};
ghost use Rattle.containers.specs.DecodedItems.{decoded_of};
ghost use Rattle.containers.specs.Refusals.{IsBehindFirst, Refuses};
ghost use Rattle.containers.specs.Rest.{rest_of};

use crate::fault::{Cause, ImportFault};
use crate::texts::{next_text, read_count, read_end};
use evidence_item::Item;
use log_chain::FieldReader;
use std::alloc::Global;

/// Reads the item of `text`, which follows the text `last`.
#[tactic(auto, unfolding(crate::specs::DecodedItems::decoded_of), using(crate::proofs::Decoded::item_decoded))]
fn decoded_item(alloc: Global, last: &[u8], text: &[u8]) -> Result<Item, Cause>
    ensures exact { Gives cause.Memory (λ item. item.fields) result (decoded_of last.now text.now) }
    // Memory runs out only if the text is an item's.
    ensures memory { IfErr result (λ c. c ≡ cause.Memory → IsOk (item_of text.now)) }
{
    let item = Item::decode(alloc, text)?;
    if !last.cmp(text).is_lt() {
        return Err(Cause::NotAscending);
    }
    Ok(item)
}

/// Reads the next item and adds it to `items`, whose last item has the text `last`. Returns the new item's own text.
fn next_item<'a>(
    alloc: Global,
    reader: &mut FieldReader<'a>,
    items: &mut Vec<Item>,
    last: &[u8],
) -> Result<&'a [u8], ImportFault>
    ensures on { IfOk result (λ text. (n : ℕ) → rest_of decoded_of (suc n) last.now (map (λ (i : Piece). i.fields) items.old.items) reader.old ≡ rest_of decoded_of n text.now (map (λ (i : Piece). i.fields) items.new.items) reader.new) }
    ensures some { OnOk result (0 < length items.new.items) }
    ensures refused { IfErr result (λ f. (n : ℕ) → Refuses f (rest_of decoded_of (suc n) last.now (map (λ (i : Piece). i.fields) items.old.items) reader.old)) }
    ensures memory { IfErr result (λ f. f.cause ≡ cause.Memory → last.now ≡ [] → items.old.items ≡ [] → (n : ℕ) → IsBehindFirst (rest_of decoded_of (suc n) [] [] reader.old)) }
{
    let number = items.len() as u64;
    let text = next_text(reader, number)?;
    let item = match decoded_item(alloc, last, text) {
        Ok(item) => item,
        Err(cause) => {
            return Err(ImportFault {
                item: number,
                cause,
            });
        }
    };
    match items.push(item) {
        Ok(()) => Ok(text),
        Err(_) => Err(ImportFault {
            item: number,
            cause: Cause::Memory,
        }),
    }
}

/// Reads a whole container and returns its items in their order, and **checks none of them**. It is for a caller that only
/// counts, sorts or deals out items that others check. It needs neither a directory nor a program, and verifies no signature.
///
/// It reports the first of these faults, at the first item that shows one:
///
/// - Of the header: `Truncated` (40) of the first eight bytes, `BadMagic` (60), `Truncated` of the count.
/// - Of an item, in this order: `Truncated` of its length, `TooLong` (42) of it, `Truncated` of its bytes, its fault of reading
///   (40 to 43), `NotAscending` (61).
/// - `Trailing` (43) at the number of items, if a byte follows the last item.
///
/// `Memory` may come in place of any of them, but only after the first item was read.
pub fn decode_all(alloc: Global, magic: [u8; 8], bytes: &[u8]) -> Result<Vec<Item>, ImportFault>
    ensures items { IfOk result (λ items. import_of magic decoded_of bytes.now ≡ Ok (map (λ (i : Piece). i.fields) items.items)) }
    ensures refused { IfErr result (λ f. Refuses f (import_of magic decoded_of bytes.now)) }
    ensures memory { IfErr result (λ f. f.cause ≡ cause.Memory → IsBehindFirst (import_of magic decoded_of bytes.now)) }
{
    let mut reader = FieldReader::new(bytes);
    let count = read_count(&mut reader, &magic)?;
    let mut items = Vec::new(alloc);
    let mut last: &[u8] = &[];
    for _ in 0..count {
        last = next_item(alloc, &mut reader, &mut items, last)?;
    }
    read_end(&reader, items.len() as u64)?;
    Ok(items)
}
