//! Containers that are fed in pieces, behind the bytes by which they are known.

ghost use Rattle.std.specs.Prelude.{◌<◌};

use super::{MAGIC, Signer, at, container, make_signer, statement};
use authenticators::{Directory, NodeId, statement_text};
use containers::{Cause, ImportFault, Reading, write_all};
use evidence_item::Item;
use log_chain::kind::INIT;
use log_chain::{ByteString, Entry, base_hash, chain_end};
use ref_programs::Tally;
use std::alloc::Global;
use std::test::Fail;

/// What stands behind the first eight bytes, up to this one.
fn behind_magic(text: &[u8], end: usize) -> &[u8] {
    let (front, _) = text.split_at(end.min(text.len()));
    let (_, behind) = front.split_at(front.len().min(8));
    behind
}

/// A reading that was fed the bytes in pieces of this size.
fn fed(
    alloc: Global,
    directory: &Directory,
    bytes: &[u8],
    size: usize,
) -> Result<Reading<Tally>, ImportFault>
    requires { 0 < size }
{
    let mut reading: Reading<Tally> = Reading::new(alloc, MAGIC);
    for piece in bytes.chunks(size) {
        reading.feed(&Tally, directory, piece)?;
    }
    Ok(reading)
}

/// Whether the text's items are read of its pieces of this size.
fn is_read_in_pieces(
    alloc: Global,
    directory: &Directory,
    text: &[u8],
    size: usize,
) -> Result<bool, Fail>
    requires { 0 < size }
{
    let reading = fed(alloc, directory, behind_magic(text, text.len()), size)?;
    let items = reading.finish()?;
    let again = write_all(alloc, MAGIC, &items)?;
    Ok(again.as_slice() == text)
}

/// The same of pieces of 1, of 7 and of 4,096 bytes.
fn are_read_in_pieces(
    alloc: Global,
    directory: &Directory,
    text: &[u8],
) -> Result<[bool; 3], Fail> {
    Ok([
        is_read_in_pieces(alloc, directory, text, 1)?,
        is_read_in_pieces(alloc, directory, text, 7)?,
        is_read_in_pieces(alloc, directory, text, 4096)?,
    ])
}

/// The signer's log, which has one entry.
fn segment(alloc: Global, signer: &mut Signer) -> Result<Box<Item>, Fail> {
    let mut entries = Vec::new(alloc);
    entries.push(Entry {
        seq: 1,
        kind: INIT,
        content: ByteString::from_slice(alloc, &[0, 0, 0, 1])?,
    })?;
    let hash = chain_end(base_hash(), &entries);
    let sig = signer.key.sign(alloc, &statement_text(1, hash), [9; 32])?;
    let item = Item::segment(NodeId(1), base_hash(), entries, ByteString::from_vec(sig))?;
    Ok(Box::new(alloc, item)?)
}

/// The container of a statement and a segment.
fn container_of_both(alloc: Global, signer: &mut Signer) -> Result<Vec<u8>, Fail> {
    let mut items = Vec::new(alloc);
    items.push(Box::into_inner(statement(alloc, signer, 5)?))?;
    items.push(Box::into_inner(segment(alloc, signer)?))?;
    Ok(write_all(alloc, MAGIC, &items)?)
}

/// The same of the containers of nothing, of two statements, and of a statement and a segment.
fn three_are_read(alloc: Global) -> Result<[[bool; 3]; 3], Fail> {
    let mut signer = make_signer(alloc)?;
    let nothing: &[Item] = &[];
    let none = write_all(alloc, MAGIC, nothing)?;
    let two = container(alloc, &mut signer, [5, 6])?;
    let both = container_of_both(alloc, &mut signer)?;
    Ok([
        are_read_in_pieces(alloc, &signer.directory, &none)?,
        are_read_in_pieces(alloc, &signer.directory, &two)?,
        are_read_in_pieces(alloc, &signer.directory, &both)?,
    ])
}

#[test]
fn pieces_are_read_as_the_whole(rt: HostRuntime) -> Result<(), Fail> {
    assert_eq!(rt; three_are_read(rt.alloc())?, [[true; 3]; 3]);
    Ok(())
}

/// Why the bytes are refused in pieces of this size, if they are.
fn refusal(alloc: Global, directory: &Directory, bytes: &[u8], size: usize) -> Option<ImportFault>
    requires { 0 < size }
{
    let reading = match fed(alloc, directory, bytes, size) {
        Ok(reading) => reading,
        Err(fault) => return Some(fault),
    };
    match reading.finish() {
        Ok(_) => None,
        Err(fault) => Some(fault),
    }
}

/// Why a container of two items is refused that ends behind the magic, within the count, and within the second item.
fn refusals_of_cut_off(alloc: Global) -> Result<[Option<ImportFault>; 3], Fail> {
    let mut signer = make_signer(alloc)?;
    let text = container(alloc, &mut signer, [5, 6])?;
    let directory = &signer.directory;
    let second = 8 + text.len() / 2;
    Ok([
        refusal(alloc, directory, behind_magic(&text, 8), 7),
        refusal(alloc, directory, behind_magic(&text, 15), 7),
        refusal(alloc, directory, behind_magic(&text, second + 40), 7),
    ])
}

#[test]
fn pieces_that_are_cut_off_are_truncated(rt: HostRuntime) -> Result<(), Fail> {
    let (header, second) = (at(0, Cause::Truncated), at(1, Cause::Truncated));
    assert_eq!(rt; refusals_of_cut_off(rt.alloc())?, [header, header, second]);
    Ok(())
}

/// Why a byte behind the count 0 and a length above the limit are refused, one by one and at once. All growth of memory is that of
/// reading them.
fn refusals_of_front(alloc: Global) -> [Option<ImportFault>; 4] {
    let directory = Directory::new(alloc);
    let trailing = [0, 0, 0, 0, 0, 0, 0, 0, 1];
    let long = [0, 0, 0, 0, 0, 0, 0, 1, 0x20, 0x00, 0xf4, 0x9b];
    [
        refusal(alloc, &directory, &trailing, 1),
        refusal(alloc, &directory, &trailing, 9),
        refusal(alloc, &directory, &long, 1),
        refusal(alloc, &directory, &long, 12),
    ]
}

#[test]
fn a_fault_of_the_header_or_a_length_is_told_without_memory(rt: HostRuntime) -> Result<(), Fail> {
    let (trailing, long) = (at(0, Cause::Trailing), at(0, Cause::TooLong));
    assert_eq!(rt;
        refusals_of_front(rt.alloc()),
        [trailing, trailing, long, long]
    );
    Ok(())
}

/// The answers to a piece that is at fault, to a piece without bytes, to a header that is whole, and at the end.
fn answers(alloc: Global) -> [Result<(), ImportFault>; 4] {
    let directory = Directory::new(alloc);
    let mut reading: Reading<Tally> = Reading::new(alloc, MAGIC);
    let first = reading.feed(&Tally, &directory, &[0, 0, 0, 0, 0, 0, 0, 0, 1]);
    let second = reading.feed(&Tally, &directory, &[]);
    let third = reading.feed(&Tally, &directory, &[0; 8]);
    let end = match reading.finish() {
        Ok(_) => Ok(()),
        Err(fault) => Err(fault),
    };
    [first, second, third, end]
}

#[test]
fn a_refusal_stays(rt: HostRuntime) -> Result<(), Fail> {
    let trailing = Err(ImportFault {
        item: 0,
        cause: Cause::Trailing,
    });
    assert_eq!(rt; answers(rt.alloc()), [trailing; 4]);
    Ok(())
}
