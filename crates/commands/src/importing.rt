//! Reads the encoding of a set in pieces, from the digits that spell it.

ghost use Rattle.std.specs.Prelude.{◌≡◌, ◌≤◌, ◌++◌, ◌*◌, [], IfErr, IfOk, IsOk, List, Ok, OnErr, OnOk, drop, length, take, ℕ};
ghost use Rattle.hex.specs.Hex.{decode_of};
ghost use Rattle.containers.specs.CheckedItems.{checked_of};
ghost use Rattle.containers.specs.Feeding.{Feeds};
ghost use Rattle.containers.specs.Refusals.{Refuses};
ghost use Rattle.evidence.specs.Contents.{with_items};
ghost use Rattle.evidence.specs.Importing.{fed_by, import_set};
ghost use Rattle.evidence.specs.Exports.{magic_of, set_text};
ghost use Rattle.evidence_set.specs.ItemSets.{Items, Join};

use authenticators::Directory;
use containers::{Cause, ImportFault, LONGEST_STRIDE, Pending};
use evidence::laws::refused_pieces_stay;
use evidence::{Evidence, Importer};
use outcome::Memory;
use replay_verifier::Program;
use std::alloc::Global;

/// The greatest number of bytes that an importer is fed at once.
const LONGEST_PIECE: usize = 4096;

/// Feeds the bytes that a few digits spell.
fn feed_piece<P: Program>(
    importer: &mut Importer<P>,
    program: &P,
    digits: &[u8],
) -> Result<(), ImportFault>
    requires few { length digits.now ≤ 2 * LONGEST_PIECE }
    requires hex { IsOk (decode_of digits.now) }
    ensures directory { importer.new.directory ≡ importer.old.directory }
    ensures fed { (bytes : List ℕ) → decode_of digits.now ≡ Ok bytes → Feeds result (fed_by (checked_of importer.old.directory) bytes importer.old.fed) importer.new.fed }
{
    let mut buffer = [0u8; LONGEST_PIECE];
    let bytes = &mut buffer[..digits.len() / 2];
    let Ok(()) = hex::decode_to_slice(digits, bytes) else {
        unreachable!()
    };
    importer.feed(program, bytes)
}

/// Feeds the bytes that the digits spell, in pieces of at most [`LONGEST_PIECE`] bytes.
fn feed_digits<P: Program>(
    importer: &mut Importer<P>,
    program: &P,
    digits: &[u8],
) -> Result<(), ImportFault>
    requires hex { IsOk (decode_of digits.now) }
    ensures directory { importer.new.directory ≡ importer.old.directory }
    ensures fed { (bytes done : List ℕ) → decode_of digits.now ≡ Ok bytes → importer.old.fed ≡ Ok done → OnOk result (importer.new.fed ≡ Ok (done ++ bytes)) }
    ensures refused { (bytes done after : List ℕ) → decode_of digits.now ≡ Ok bytes → importer.old.fed ≡ Ok done → IfErr result (λ f. Refuses f (import_set importer.old.directory ((done ++ bytes) ++ after))) }
{
    refused_pieces_stay();
    let mut rest = digits;
    while !rest.is_empty() {
        let (piece, left) = rest.split_at(rest.len().min(2 * LONGEST_PIECE));
        feed_piece(importer, program, piece)?;
        rest = left;
    }
    Ok(())
}

/// Feeds an importer the bytes that the first `count` digits spell, and takes these digits off. The importer was fed nothing before.
fn feed_line<P: Program>(
    importer: &mut Importer<P>,
    program: &P,
    lines: &mut Pending,
    count: usize,
) -> Result<(), ImportFault>
    requires count { count ≤ length lines.old }
    requires hex { IsOk (decode_of (take count lines.old)) }
    requires begun { importer.old.fed ≡ Ok [] }
    ensures directory { importer.new.directory ≡ importer.old.directory }
    ensures rest { OnOk result (lines.new ≡ drop count lines.old) }
    ensures fed { (text : List ℕ) → decode_of (take count lines.old) ≡ Ok text → OnOk result (importer.new.fed ≡ Ok text) }
    ensures refused { (text : List ℕ) → decode_of (take count lines.old) ≡ Ok text → IfErr result (λ f. Refuses f (import_set importer.old.directory text)) }
{
    let mut left = count;
    while left > 0 {
        let stride = left.min(LONGEST_STRIDE);
        feed_digits(importer, program, &lines.rest()[..stride])?;
        lines.skip(stride);
        left -= stride;
    }
    Ok(())
}

/// Returns an importer under a copy of the directory.
fn new_importer<P: Program>(alloc: Global, directory: &Directory) -> Result<Importer<P>, Memory>
    ensures { IfOk result (λ i. i ≡ record { directory = directory.now; fed = Ok [] }) }
{
    let copy = directory.try_clone()?;
    match Importer::new(alloc, copy) {
        Ok(importer) => Ok(importer),
        Err(_) => Err(Memory),
    }
}

/// Reads the encoding of a set, which the first `count` digits of the lines spell, in pieces. It adds all items to the store, or none, and
/// takes the digits off.
pub(crate) fn import<P: Program, S: Evidence<P>>(
    alloc: Global,
    program: &P,
    store: &mut S,
    lines: &mut Pending,
    count: usize,
) -> Result<u64, ImportFault>
    requires count { count ≤ length lines.old }
    requires hex { IsOk (decode_of (take count lines.old)) }
    ensures rest { OnOk result (lines.new ≡ drop count lines.old) }
    ensures joined { (text : List ℕ) → decode_of (take count lines.old) ≡ Ok text → OnOk result ((added : Items) × (text ≡ set_text (magic_of text) added) × (S.contents store.new ≡ with_items (S.contents store.old) (Join (S.contents store.old).items added))) }
    ensures fault { (text : List ℕ) → decode_of (take count lines.old) ≡ Ok text → IfErr result (λ f. Refuses f (import_set (S.contents store.old).directory text)) }
    ensures refused { OnErr result (S.contents store.new ≡ S.contents store.old) }
{
    let Ok(mut importer) = new_importer(alloc, store.directory()) else {
        return Err(ImportFault {
            item: 0,
            cause: Cause::Memory,
        });
    };
    feed_line(&mut importer, program, lines, count)?;
    let new = importer.finish(program, store)?;
    Ok(new)
}
