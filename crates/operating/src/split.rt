//! The engine of `split`, which deals the items of stores to parts, by the nodes that they name. It checks none of the items. For extracts,
//! it verifies what they quote of other shards' nodes.

ghost use Rattle.std.specs.Prelude.{◌≡◌, ◌≢◌, ◌⊎◌, ◌++◌, ◌<◌, ◌≤◌, ◌^◌, IfErr, IfOk, List, None, OnErr, OnOk, Some, decimal, string_bytes, ℕ};
ghost use Rattle.std.specs.Io.KnownBytes.{Appends};
ghost use Rattle.std.specs.List.Sorted.{IsStrictlySortedBy};
ghost use Rattle.item_forms.specs.Pieces.{Piece, by_bytes};
ghost use Rattle.evidence.specs.Exports.{export_of};
ghost use Rattle.evidence_set.specs.ItemSets.{Items, count, insert_all, none};
ghost use Rattle.shards.specs.Parts.{Decodes, part, parts_of};
ghost use Rattle.commands.specs.declared.fault.Fault.TheVariants as fault;
ghost use Rattle.operating.specs.Dealt.{AreFiled, Filed, IsDealt, IsOfWriting, LeavesParts, RefusesDealt, part_line, part_lines};
ghost use Rattle.operating.specs.FileTexts.{IsOfReading, Says};
ghost use Rattle.operating.specs.Splitting.{AreExtracted, Have, RefusesExtracted, RefusesItems, RefusesStores};

use crate::asking::{Ending, write};
use crate::files::{Limits, Opener};
use crate::reading::{read_directory, read_said};
use crate::refusal::Refusal;
use commands::device::{Sink, WriteFailed};
use commands::fault::Fault;
use item_forms::Item;
use shards::{Dealing, Part, Parting, Shards, add_items, extracted, gathered};
use std::alloc::{AllocError, Global};

// ---- the set

/// Adds the items of the store that the file with this number says.
fn add_file<O: Opener>(
    alloc: Global,
    opener: &mut O,
    file: usize,
    limits: Limits,
    items: &mut Vec<Item>,
) -> Result<(), Refusal>
    requires room { (O.seen opener.old).failures < 2 ^ 63 }
    ensures added { OnOk result ((own : List Piece) × (text : List ℕ) × Says limits.most_bytes None ((O.seen opener.old).files file) text × Decodes text own × (items.new.items ≡ items.old.items ++ own)) }
    ensures refused { IfErr result (λ r. (r.file ≡ Some file) × RefusesItems limits.most_bytes ((O.seen opener.old).files file) r) }
    ensures blamed { IfErr result (λ r. IsOfReading (O.seen opener.old) (O.seen opener.new) r.fault) }
    ensures files { (O.seen opener.new).files ≡ (O.seen opener.old).files }
    ensures quiet { OnOk result ((O.seen opener.new).failures ≡ (O.seen opener.old).failures) }
{
    let text = read_said(alloc, opener, file, None, limits)?;
    match add_items(alloc, items, &text) {
        Ok(()) => Ok(()),
        Err(fault) => Err(Refusal::of_import(file, &text, fault)),
    }
}

/// Returns the items of this many stores, in order, each once. The stores are the files from 0 or from 1 on.
fn read_items<O: Opener>(
    alloc: Global,
    opener: &mut O,
    first: usize,
    stores: usize,
    limits: Limits,
) -> Result<Vec<Item>, Refusal>
    requires first { first ≤ 1 }
    requires room { (O.seen opener.old).failures < 2 ^ 63 }
    ensures ascending { IfOk result (λ v. IsStrictlySortedBy by_bytes v.items) }
    ensures items { IfOk result (λ v. (all : List Piece) × Have limits.most_bytes (O.seen opener.old).files first stores all × (insert_all none v.items ≡ insert_all none all)) }
    ensures refused { IfErr result (λ r. RefusesStores limits.most_bytes (O.seen opener.old).files first stores r) }
    ensures blamed { IfErr result (λ r. IsOfReading (O.seen opener.old) (O.seen opener.new) r.fault) }
    ensures quiet { OnOk result ((O.seen opener.new).failures ≡ (O.seen opener.old).failures) }
{
    let mut items = Vec::new(alloc);
    for number in 0..stores {
        add_file(alloc, opener, first + number, limits, &mut items)?;
    }
    Ok(gathered(items))
}

/// Returns the items of this many stores, which are the files from 1 on, with what is quoted in them, under the directory that file 0 says.
/// They come in order, each once. It verifies the signatures of these quotes, and no others.
///
/// If they are dealt as [`Dealing::Extracts`](shards::Dealing), each part is an extract for its nodes. `status` says of an extract what it
/// says of all stores ([`extracts_are_told`](crate::laws::extracts_are_told)).
fn read_extracted<O: Opener>(
    alloc: Global,
    opener: &mut O,
    shards: Shards,
    stores: usize,
    limits: Limits,
) -> Result<Vec<Item>, Refusal>
    requires room { (O.seen opener.old).failures < 2 ^ 63 }
    ensures ascending { IfOk result (λ v. IsStrictlySortedBy by_bytes v.items) }
    ensures items { IfOk result (λ v. AreExtracted limits.most_bytes (O.seen opener.old).files shards stores (insert_all none v.items)) }
    ensures refused { IfErr result (λ r. RefusesExtracted limits.most_bytes (O.seen opener.old).files stores r) }
    ensures blamed { IfErr result (λ r. IsOfReading (O.seen opener.old) (O.seen opener.new) r.fault) }
    ensures quiet { OnOk result ((O.seen opener.new).failures ≡ (O.seen opener.old).failures) }
{
    let directory = read_directory(alloc, opener, limits)?;
    let items = read_items(alloc, opener, 1, stores, limits)?;
    match extracted(alloc, &directory, shards, items) {
        Ok(items) => Ok(items),
        Err(_) => Err(Refusal::of_none(Fault::Memory)),
    }
}

/// Returns the set that is dealt, in the order of its items, each once.
fn read_dealt<O: Opener>(
    alloc: Global,
    splitting: &Splitting,
    opener: &mut O,
    limits: Limits,
) -> Result<Vec<Item>, Refusal>
    requires room { (O.seen opener.old).failures < 2 ^ 63 }
    ensures ascending { IfOk result (λ v. IsStrictlySortedBy by_bytes v.items) }
    ensures items { IfOk result (λ v. IsDealt limits.most_bytes (O.seen opener.old).files splitting.now.stores splitting.now.dealing (insert_all none v.items)) }
    ensures refused { IfErr result (λ r. RefusesDealt limits.most_bytes (O.seen opener.old).files splitting.now.stores splitting.now.dealing r) }
    ensures blamed { IfErr result (λ r. IsOfReading (O.seen opener.old) (O.seen opener.new) r.fault) }
    ensures quiet { OnOk result ((O.seen opener.new).failures ≡ (O.seen opener.old).failures) }
{
    let stores = splitting.stores;
    match splitting.dealing {
        Dealing::ByNode(_) => read_items(alloc, opener, 0, stores, limits),
        Dealing::Extracts(shards) => read_extracted(alloc, opener, shards, stores, limits),
    }
}

// ---- the parts

/// New files by the numbers of parts. It counts how many writes failed.
pub trait PartFiles {
    /// The bytes of each part's file, if they are known, and how many writes failed.
    ghost seen: { Self → Filed };

    /// Writes the file of part `k`: all of the bytes, unless a write fails. The count of failures must have room for one more.
    fn write(&mut self, k: u32, text: &[u8]) -> Result<(), WriteFailed>
        requires room { (seen self.old).failures < 2 ^ 63 }
        ensures written { OnOk result (Appends ((seen self.old).files k) ((seen self.new).files k) text.now) }
        ensures others { (n : ℕ) → n ≢ k → (seen self.new).files n ≡ (seen self.old).files n }
        ensures quiet { OnOk result ((seen self.new).failures ≡ (seen self.old).failures) }
        ensures failed { OnErr result ((seen self.old).failures < (seen self.new).failures) };
}

/// Returns a number in decimal digits.
fn decimal_of(alloc: Global, number: u64) -> Result<String, AllocError>
    ensures { IfOk result (λ word. string_bytes word ≡ decimal number) }
{
    format!(in alloc; "{number}")
}

/// Writes the line of part `k`, of `parts` parts, after the others.
fn put_line(
    alloc: Global,
    lines: &mut Vec<u8>,
    parts: u32,
    k: u32,
    items: u64,
) -> Result<(), AllocError>
    ensures { OnOk result (lines.new.items ≡ lines.old.items ++ part_line parts k items) }
{
    let number = decimal_of(alloc, u64::from(k))?;
    let parts = decimal_of(alloc, u64::from(parts))?;
    let items = decimal_of(alloc, items)?;
    lines.extend_from_slice(number.as_bytes())?;
    lines.extend_from_slice(b"/")?;
    lines.extend_from_slice(parts.as_bytes())?;
    lines.extend_from_slice(b" ")?;
    lines.extend_from_slice(items.as_bytes())?;
    lines.extend_from_slice(b"\n")
}

/// Returns part `k`, and writes its line after the others.
fn lined_part(
    alloc: Global,
    parting: &Parting,
    k: u32,
    lines: &mut Vec<u8>,
) -> Result<Part, AllocError>
    ensures text { IfOk result (λ p. p.text.items ≡ export_of (part parting.now k)) }
    ensures lines { OnOk result (lines.new.items ≡ lines.old.items ++ part_line (parts_of parting.now.dealing) k (count (part parting.now k))) }
{
    let count = parting.dealing().parts();
    let part = parting.part(alloc, k)?;
    put_line(alloc, lines, count, k, part.items)?;
    Ok(part)
}

/// Writes part `k` to its file, nothing else, and in one write. It adds the part's line after the others. It writes nothing if memory runs
/// out.
fn file_part<F: PartFiles>(
    alloc: Global,
    parting: &Parting,
    k: u32,
    parts: &mut F,
    lines: &mut Vec<u8>,
) -> Result<(), Refusal>
    requires room { (F.seen parts.old).failures < 2 ^ 63 }
    ensures written { OnOk result (Appends ((F.seen parts.old).files k) ((F.seen parts.new).files k) (export_of (part parting.now k))) }
    ensures lines { OnOk result (lines.new.items ≡ lines.old.items ++ part_line (parts_of parting.now.dealing) k (count (part parting.now k))) }
    ensures others { (n : ℕ) → n ≢ k → (F.seen parts.new).files n ≡ (F.seen parts.old).files n }
    ensures quiet { OnOk result ((F.seen parts.new).failures ≡ (F.seen parts.old).failures) }
    ensures refused { IfErr result (λ r. (r.file ≡ None) × IsOfWriting (F.seen parts.old) (F.seen parts.new) r.fault) }
    ensures unwritten { IfErr result (λ r. (parts.new ≡ parts.old) ⊎ (r.fault ≡ fault.WriteFailed)) }
{
    let Ok(part) = lined_part(alloc, parting, k, lines) else {
        return Err(Refusal::of_none(Fault::Memory));
    };
    match parts.write(k, &part.text) {
        Ok(()) => Ok(()),
        Err(_) => Err(Refusal::of_writing()),
    }
}

/// Writes each part to its file, and returns a line for each.
fn write_parts<F: PartFiles>(
    alloc: Global,
    parting: &Parting,
    parts: &mut F,
) -> Result<Vec<u8>, Refusal>
    requires room { (F.seen parts.old).failures < 2 ^ 63 }
    ensures written { OnOk result (AreFiled parting.now.dealing (insert_all none parting.now.items) (parts_of parting.now.dealing) (F.seen parts.old) (F.seen parts.new)) }
    ensures lines { IfOk result (λ lines. lines.items ≡ part_lines parting.now.dealing (insert_all none parting.now.items) (parts_of parting.now.dealing)) }
    ensures others { (k : ℕ) → parts_of parting.now.dealing ≤ k → (F.seen parts.new).files k ≡ (F.seen parts.old).files k }
    ensures quiet { OnOk result ((F.seen parts.new).failures ≡ (F.seen parts.old).failures) }
    ensures refused { IfErr result (λ r. (r.file ≡ None) × IsOfWriting (F.seen parts.old) (F.seen parts.new) r.fault) }
    ensures left { IfErr result (λ r. LeavesParts parting.now.dealing (insert_all none parting.now.items) r.fault (F.seen parts.old) (F.seen parts.new)) }
{
    let count = parting.dealing().parts();
    let mut lines = Vec::new(alloc);
    for number in 0..count {
        file_part(alloc, parting, number, parts, &mut lines)?;
    }
    Ok(lines)
}

/// What is dealt, and how.
#[derive(Clone, Copy)]
pub struct Splitting {
    /// How items are dealt to parts.
    pub dealing: Dealing,
    /// How many stores there are. They are the files from 0 on. For extracts, file 0 is a directory, and they are the files from 1 on.
    pub stores: usize,
}

/// Writes each part of the items of all stores to its file. After all parts, it writes a line for each part to the writer: the part's
/// number, the number of parts, and the part's number of items, as in `0/4 17`.
///
/// - If a store is refused, or the directory for extracts, nothing was written.
/// - If memory runs out, the first parts may have been written, each as a whole.
/// - If a write fails, the first parts may have been written, and the next part partly.
pub fn run<O: Opener, F: PartFiles, W: Sink>(
    alloc: Global,
    splitting: &Splitting,
    opener: &mut O,
    limits: Limits,
    parts: &mut F,
    writer: &mut W,
) -> Result<Ending, Refusal>
    requires room { ((O.seen opener.old).failures < 2 ^ 63) × ((F.seen parts.old).failures < 2 ^ 63) × ((W.seen writer.old).failures < 2 ^ 63) }
    ensures done { IfOk result (λ ending. (X : Items) × IsDealt limits.most_bytes (O.seen opener.old).files splitting.now.stores splitting.now.dealing X × AreFiled splitting.now.dealing X (parts_of splitting.now.dealing) (F.seen parts.old) (F.seen parts.new) × Appends (W.seen writer.old).written (W.seen writer.new).written (part_lines splitting.now.dealing X (parts_of splitting.now.dealing)) × (ending ≡ Ending.Done)) }
    ensures others { (k : ℕ) → parts_of splitting.now.dealing ≤ k → (F.seen parts.new).files k ≡ (F.seen parts.old).files k }
    ensures refused { IfErr result (λ r. (RefusesDealt limits.most_bytes (O.seen opener.old).files splitting.now.stores splitting.now.dealing r × (parts.new ≡ parts.old) × (writer.new ≡ writer.old)) ⊎ ((r.file ≡ None) × (((r.fault ≡ fault.Memory) × (writer.new ≡ writer.old)) ⊎ (r.fault ≡ fault.WriteFailed)))) }
    ensures left { IfErr result (λ r. (parts.new ≡ parts.old) ⊎ ((X : Items) × IsDealt limits.most_bytes (O.seen opener.old).files splitting.now.stores splitting.now.dealing X × LeavesParts splitting.now.dealing X r.fault (F.seen parts.old) (F.seen parts.new))) }
    ensures read_failed { IfErr result (λ r. r.fault ≡ fault.ReadFailed → (O.seen opener.old).failures < (O.seen opener.new).failures) }
    ensures write_failed { IfErr result (λ r. r.fault ≡ fault.WriteFailed → ((F.seen parts.old).failures < (F.seen parts.new).failures) ⊎ ((W.seen writer.old).failures < (W.seen writer.new).failures)) }
    ensures quiet { OnOk result (((O.seen opener.new).failures ≡ (O.seen opener.old).failures) × ((F.seen parts.new).failures ≡ (F.seen parts.old).failures) × ((W.seen writer.new).failures ≡ (W.seen writer.old).failures)) }
{
    let items = read_dealt(alloc, splitting, opener, limits)?;
    let parting = match Parting::new(alloc, splitting.dealing, &items) {
        Ok(parting) => parting,
        Err(_) => return Err(Refusal::of_none(Fault::Memory)),
    };
    let lines = write_parts(alloc, &parting, parts)?;
    write(writer, &lines)?;
    Ok(Ending::Done)
}
