//! Items of several encodings as one set.

ghost use Rattle.std.specs.Prelude.{◌≡◌, ◌⊎◌, ◌++◌, IfErr, List, OnErr, OnOk};
ghost use Rattle.std.specs.List.Sorted.{IsStrictlySortedBy};
ghost use Rattle.containers.specs.Container.{import_of};
ghost use Rattle.containers.specs.DecodedItems.{decoded_of};
ghost use Rattle.containers.specs.Refusals.{Refuses};
ghost use Rattle.containers.specs.declared.fault.Cause.TheVariants as cause;
ghost use Rattle.item_forms.specs.Pieces.{Piece, by_bytes};
ghost use Rattle.evidence.specs.Exports.{magic_of};
ghost use Rattle.evidence_set.specs.ItemSets.{insert_all, none};
ghost use Rattle.shards.specs.Parts.{Decodes};

use containers::{Cause, ImportFault, decode_all};
use evidence::magic_of;
use evidence_set::laws::sets_are_lists;
use item_forms::Item;
use std::alloc::Global;

/// Reads the items of a store's encoding, and adds them behind the others. **It checks none of them**: whoever asks a shard checks its
/// items. The encoding begins with `PRSTORE2` or `PRSTORE1`. It refuses what `decode_all` of `containers` refuses, with the same fault, and
/// gives `Memory` if a growth is refused. If it refuses, the others stay as they were.
pub fn add_items(alloc: Global, items: &mut Vec<Item>, text: &[u8]) -> Result<(), ImportFault>
    ensures added { OnOk result ((own : List Piece) × Decodes text.now own × (items.new.items ≡ items.old.items ++ own)) }
    ensures refused { IfErr result (λ f. Refuses f (import_of (magic_of text.now) decoded_of text.now) ⊎ (f.cause ≡ cause.Memory)) }
    ensures same { OnErr result (items.new.items ≡ items.old.items) }
{
    let mut own = decode_all(alloc, magic_of(text), text)?;
    let read = own.len() as u64;
    match items.append(&mut own) {
        Ok(()) => Ok(()),
        Err(_) => Err(ImportFault {
            item: read,
            cause: Cause::Memory,
        }),
    }
}

/// Returns the items in their order, each once, in whatever order and however often they came. It takes no memory.
pub fn gathered(mut items: Vec<Item>) -> Vec<Item>
    ensures ascending { IsStrictlySortedBy by_bytes result.items }
    ensures same { insert_all none result.items ≡ insert_all none items.items }
{
    sets_are_lists();
    items.sort_unstable();
    items.dedup();
    items
}
