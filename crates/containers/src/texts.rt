//! The count of a container's items, the bytes of each item, and the container's end.

ghost use Rattle.std.specs.Prelude.{◌≡◌, ◌++◌, [], IfErr, IfOk, OnErr, OnOk, Err, Ok, length, suc, List, ℕ};
ghost use Rattle.log_chain.specs.Fields.{bytes_at};
ghost use Rattle.item_forms.specs.declared.forms.Fields.{Fields};
ghost use Rattle.item_forms.specs.declared.limits.TheConstants.{LONGEST_ITEM};
ghost use Rattle.containers.specs.declared.fault.Cause.TheVariants as cause;
ghost use Rattle.containers.specs.Container.{as_fault, import_of, of_field};
ghost use Rattle.containers.specs.Rest.{ItemReader, rest_of};

use crate::fault::{Cause, ImportFault};
use item_forms::LONGEST_ITEM;
use log_chain::{FieldFault, FieldReader};

/// Returns the fault of a field of the container itself, after `item` items were read.
fn field_fault(item: u64, fault: FieldFault) -> ImportFault
    ensures { result ≡ as_fault (of_field item fault) }
{
    let cause = match fault {
        FieldFault::Truncated => Cause::Truncated,
        FieldFault::TooLong => Cause::TooLong,
    };
    ImportFault { item, cause }
}

/// Reads the header, and returns how many items the container says that it has. The header is the eight bytes `magic` and the
/// count. It takes no memory, and leaves the reader at the first item.
///
/// It reports the first of these faults, at item 0:
///
/// - `Truncated` (40), if there are fewer than eight bytes.
/// - `BadMagic` (60), if the first eight bytes are not `magic`.
/// - `Truncated`, if the count is cut off.
pub fn read_count(reader: &mut FieldReader, magic: &[u8; 8]) -> Result<u64, ImportFault>
    ensures counted { IfOk result (λ count. (reads : ItemReader) → import_of magic.now reads reader.old ≡ rest_of reads count [] [] reader.new) }
    ensures behind { OnOk result ((front : List ℕ) × (reader.old ≡ front ++ reader.new)) }
    ensures refused { IfErr result (λ f. (reads : ItemReader) → import_of magic.now reads reader.old ≡ Err f) }
    ensures memory { IfErr result (λ f. ¬ (f.cause ≡ cause.Memory)) }
{
    let front = match reader.take(8) {
        Ok(front) => front,
        Err(fault) => return Err(field_fault(0, fault)),
    };
    if front != magic.as_slice() {
        return Err(ImportFault {
            item: 0,
            cause: Cause::BadMagic,
        });
    }
    match reader.u64() {
        Ok(count) => Ok(count),
        Err(fault) => Err(field_fault(0, fault)),
    }
}

/// Returns the bytes of the next item, after `item` items were read. It takes no memory.
///
/// It reports the first of these faults, at that item: `Truncated` (40) of its length, `TooLong` (42), `Truncated` of its
/// bytes. Then the reader is as it was.
pub fn next_text<'a>(reader: &mut FieldReader<'a>, item: u64) -> Result<&'a [u8], ImportFault>
    ensures text { IfOk result (λ text. bytes_at LONGEST_ITEM reader.old ≡ Ok (text.now, reader.new)) }
    ensures refused { IfErr result (λ f. (reads : ItemReader) (n : ℕ) (last : List ℕ) (before : List Fields) → length before ≡ item → rest_of reads (suc n) last before reader.old ≡ Err f) }
    ensures memory { IfErr result (λ f. ¬ (f.cause ≡ cause.Memory)) }
    ensures same { OnErr result (reader.new ≡ reader.old) }
{
    match reader.bytes(LONGEST_ITEM) {
        Ok(text) => Ok(text),
        Err(fault) => Err(field_fault(item, fault)),
    }
}

/// Tests that no byte follows the last item of a container, of which `items` were read. It takes no memory.
///
/// If a byte follows, it reports `Trailing` (43) at the number of items.
pub fn read_end(reader: &FieldReader, items: u64) -> Result<(), ImportFault>
    ensures read { OnOk result ((reads : ItemReader) (last : List ℕ) (before : List Fields) → rest_of reads 0 last before reader.now ≡ Ok before) }
    ensures refused { IfErr result (λ f. (reads : ItemReader) (last : List ℕ) (before : List Fields) → length before ≡ items → rest_of reads 0 last before reader.now ≡ Err f) }
    ensures memory { IfErr result (λ f. ¬ (f.cause ≡ cause.Memory)) }
{
    if reader.left() > 0 {
        return Err(ImportFault {
            item: items,
            cause: Cause::Trailing,
        });
    }
    Ok(())
}
