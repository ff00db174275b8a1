//! Containers of two signed statements, as they are and with faults. `decoding` has those that are not checked, `pieces` those that come
//! in pieces.

mod decoding;
mod pending;
mod pieces;

use authenticators::{Authenticator, Directory, NodeId, statement_text};
use containers::{Cause, ImportFault, read_all, write_all};
use evidence_item::Item;
use lms_sign::{LmsType, OtsType, SecretKey};
use log_chain::{ByteString, Hash};
use ref_programs::Tally;
use std::alloc::Global;
use std::test::Fail;

const MAGIC: [u8; 8] = *b"PRSTORE2";

/// Node 1 with its key, which makes short work of signing.
#[derive(Drop)]
struct Signer {
    directory: Box<Directory>,
    key: Box<SecretKey>,
}

fn make_signer(alloc: Global) -> Result<Signer, Fail> {
    let key = SecretKey::make(alloc, LmsType::H5, OtsType::W4, [1; 16], [2; 32])?;
    let key = Box::new(alloc, key)?;
    let mut directory = Box::new(alloc, Directory::new(alloc))?;
    directory.add(NodeId(1), key.public_key())?;
    Ok(Signer { directory, key })
}

fn statement(alloc: Global, signer: &mut Signer, seq: u64) -> Result<Box<Item>, Fail> {
    let hash = Hash([0; 32]);
    let sig = signer.key.sign(alloc, &statement_text(seq, hash), [9; 32])?;
    let item = Item::auth(Authenticator {
        node: NodeId(1),
        seq,
        hash,
        sig: ByteString::from_vec(sig),
    })?;
    Ok(Box::new(alloc, item)?)
}

/// The container of the statements of these two numbers.
fn container(alloc: Global, signer: &mut Signer, seqs: [u64; 2]) -> Result<Vec<u8>, Fail> {
    let mut items = Vec::new(alloc);
    for seq in seqs {
        items.push(Box::into_inner(statement(alloc, signer, seq)?))?;
    }
    Ok(write_all(alloc, MAGIC, &items)?)
}

fn at(item: u64, cause: Cause) -> Option<ImportFault> {
    Some(ImportFault { item, cause })
}

/// Why the text is refused, if it is.
fn refusal(alloc: Global, directory: &Directory, text: &[u8]) -> Option<ImportFault> {
    match read_all(alloc, &Tally, directory, MAGIC, text) {
        Ok(_) => None,
        Err(fault) => Some(fault),
    }
}

/// The same of a container of statements of these numbers.
fn refusal_of(alloc: Global, seqs: [u64; 2]) -> Result<Option<ImportFault>, Fail> {
    let mut signer = make_signer(alloc)?;
    let text = container(alloc, &mut signer, seqs)?;
    Ok(refusal(alloc, &signer.directory, &text))
}

/// The same where one item stands twice.
fn refusal_of_twice(alloc: Global) -> Result<Option<ImportFault>, Fail> {
    let mut signer = make_signer(alloc)?;
    let item = statement(alloc, &mut signer, 5)?;
    let mut items = Vec::new(alloc);
    items.push(item.try_clone(alloc)?)?;
    items.push(Box::into_inner(item))?;
    let text = write_all(alloc, MAGIC, &items)?;
    Ok(refusal(alloc, &signer.directory, &text))
}

#[test]
fn items_ascend(rt: HostRuntime) -> Result<(), Fail> {
    let told = [
        refusal_of(rt.alloc(), [5, 6])?,
        refusal_of(rt.alloc(), [6, 5])?,
        refusal_of_twice(rt.alloc())?,
    ];
    let bad = at(1, Cause::NotAscending);
    assert_eq!(rt; told, [None, bad, bad]);
    Ok(())
}

/// The same of an item that is not signed.
fn refusal_of_unsigned(alloc: Global) -> Result<Option<ImportFault>, Fail> {
    let signer = make_signer(alloc)?;
    let item = Item::auth(Authenticator {
        node: NodeId(1),
        seq: 5,
        hash: Hash([0; 32]),
        sig: ByteString::from_vec(Vec::new(alloc)),
    })?;
    let text = write_all(alloc, MAGIC, &[item])?;
    Ok(refusal(alloc, &signer.directory, &text))
}

#[test]
fn items_are_checked(rt: HostRuntime) -> Result<(), Fail> {
    assert_eq!(rt;
        refusal_of_unsigned(rt.alloc())?,
        at(0, Cause::BadSignature)
    );
    Ok(())
}

/// The bytes up to this one.
fn front(text: &[u8], len: usize) -> &[u8] {
    let (front, _) = text.split_at(len.min(text.len()));
    front
}

/// The text with another byte at the place.
fn changed(alloc: Global, text: &[u8], place: usize, byte: u8) -> Result<Vec<u8>, Fail> {
    let mut copy = Vec::from_slice(alloc, text)?;
    if let Some(old) = copy.get_mut(place) {
        *old = byte;
    }
    Ok(copy)
}

fn refusal_of_changed(
    alloc: Global,
    directory: &Directory,
    text: &[u8],
    place: usize,
    byte: u8,
) -> Result<Option<ImportFault>, Fail> {
    let copy = changed(alloc, text, place, byte)?;
    Ok(refusal(alloc, directory, &copy))
}

/// Why the text is refused with a byte more.
fn refusal_of_longer(
    alloc: Global,
    directory: &Directory,
    text: &[u8],
) -> Result<Option<ImportFault>, Fail> {
    let mut copy = Vec::from_slice(alloc, text)?;
    copy.push(0)?;
    Ok(refusal(alloc, directory, &copy))
}

/// Why a container of two items is refused: with 7 and 15 of its bytes, under another magic, with one item, with a first length
/// above the limit, with a tag of the second item that there is not, and with a byte more.
fn faults(alloc: Global) -> Result<[Option<ImportFault>; 7], Fail> {
    let mut signer = make_signer(alloc)?;
    let text = container(alloc, &mut signer, [5, 6])?;
    let directory = &signer.directory;
    let second = 8 + text.len() / 2;
    let other_magic = refusal_of_changed(alloc, directory, &text, 7, b'1')?;
    let long = refusal_of_changed(alloc, directory, &text, 16, 0x21)?;
    let other_tag = refusal_of_changed(alloc, directory, &text, second + 4, 9)?;
    let longer = refusal_of_longer(alloc, directory, &text)?;
    Ok([
        refusal(alloc, directory, front(&text, 7)),
        refusal(alloc, directory, front(&text, 15)),
        other_magic,
        refusal(alloc, directory, front(&text, second)),
        long,
        other_tag,
        longer,
    ])
}

#[test]
fn each_fault_is_told_at_its_item(rt: HostRuntime) -> Result<(), Fail> {
    let told = faults(rt.alloc())?;
    assert_eq!(rt;
        told,
        [
            at(0, Cause::Truncated),
            at(0, Cause::Truncated),
            at(0, Cause::BadMagic),
            at(1, Cause::Truncated),
            at(0, Cause::TooLong),
            at(1, Cause::BadTag),
            at(2, Cause::Trailing),
        ]
    );
    Ok(())
}

/// Why the text of the magic and these bytes is refused, if it is.
fn refusal_behind_magic(alloc: Global, bytes: &[u8]) -> Result<Option<ImportFault>, Fail> {
    let mut text = Vec::from_slice(alloc, &MAGIC)?;
    text.extend_from_slice(bytes)?;
    Ok(refusal(alloc, &Directory::new(alloc), &text))
}

#[test]
fn a_count_takes_no_memory(rt: HostRuntime) -> Result<(), Fail> {
    assert_eq!(rt;
        refusal_behind_magic(rt.alloc(), &[0xff; 8])?,
        at(0, Cause::Truncated)
    );
    Ok(())
}

/// The same of the count 1 and of this length of the item, of which no byte is there.
fn refusal_of_length(alloc: Global, len: [u8; 4]) -> Result<Option<ImportFault>, Fail> {
    let [a, b, c, d] = len;
    refusal_behind_magic(alloc, &[0, 0, 0, 0, 0, 0, 0, 1, a, b, c, d])
}

#[test]
fn an_item_has_a_greatest_length(rt: HostRuntime) -> Result<(), Fail> {
    let told = [
        refusal_of_length(rt.alloc(), [0x20, 0x00, 0xf4, 0x9a])?,
        refusal_of_length(rt.alloc(), [0x20, 0x00, 0xf4, 0x9b])?,
        refusal_of_length(rt.alloc(), [0x20, 0x00, 0xff, 0xff])?,
    ];
    let long = at(0, Cause::TooLong);
    assert_eq!(rt; told, [at(0, Cause::Truncated), long, long]);
    Ok(())
}

/// The container of a statement, 50 bytes long with a signature of one byte, behind this length, and a byte more.
fn statement_behind(len: u8) -> [u8; 71] {
    let mut text = [0u8; 71];
    text[..8].copy_from_slice(&MAGIC);
    text[15] = 1;
    text[19] = len;
    text[20] = 1;
    text[68] = 1;
    text
}

/// Why such a text is refused under another magic, with a length above the limit, with a tag that there is not, with a length that
/// cuts off the signature, with one that has a byte more, and with one that is cut off. All growth of memory is that of reading it.
fn refusals_of_front(alloc: Global) -> [Option<ImportFault>; 6] {
    let directory = Directory::new(alloc);
    let mut other_magic = statement_behind(50);
    other_magic[7] = b'1';
    let mut long = statement_behind(50);
    long[16] = 0x21;
    let mut other_tag = statement_behind(50);
    other_tag[20] = 6;
    [
        refusal(alloc, &directory, &other_magic),
        refusal(alloc, &directory, &long),
        refusal(alloc, &directory, &other_tag),
        refusal(alloc, &directory, &statement_behind(49)),
        refusal(alloc, &directory, &statement_behind(51)),
        refusal(alloc, &directory, &statement_behind(52)),
    ]
}

#[test]
fn a_fault_of_the_front_is_told_without_memory(rt: HostRuntime) -> Result<(), Fail> {
    assert_eq!(rt;
        refusals_of_front(rt.alloc()),
        [
            at(0, Cause::BadMagic),
            at(0, Cause::TooLong),
            at(0, Cause::BadTag),
            at(0, Cause::Truncated),
            at(0, Cause::Trailing),
            at(0, Cause::Truncated),
        ]
    );
    Ok(())
}

/// Whether each proper prefix of the text is told as cut off.
fn is_cut_off(alloc: Global) -> Result<bool, Fail> {
    let mut signer = make_signer(alloc)?;
    let text = container(alloc, &mut signer, [5, 6])?;
    for len in 0..text.len() {
        match refusal(alloc, &signer.directory, front(&text, len)) {
            Some(fault) if fault.cause == Cause::Truncated => {}
            _ => return Ok(false),
        }
    }
    Ok(true)
}

#[test]
fn a_container_that_is_cut_off_is_truncated(rt: HostRuntime) -> Result<(), Fail> {
    assert!(rt; is_cut_off(rt.alloc())?);
    Ok(())
}

/// Whether what is read of a container is written as that container again.
fn is_written_again(alloc: Global) -> Result<bool, Fail> {
    let mut signer = make_signer(alloc)?;
    let text = container(alloc, &mut signer, [5, 6])?;
    let items = read_all(alloc, &Tally, &signer.directory, MAGIC, &text)?;
    let again = write_all(alloc, MAGIC, &items)?;
    Ok(again.as_slice() == text.as_slice())
}

#[test]
fn what_is_read_is_written_again(rt: HostRuntime) -> Result<(), Fail> {
    assert!(rt; is_written_again(rt.alloc())?);
    Ok(())
}

#[test]
fn a_fault_has_a_line(rt: HostRuntime) -> Result<(), Fail> {
    let bad = ImportFault {
        item: 0,
        cause: Cause::BadMagic,
    };
    let printed = format!(in rt.alloc(); "{bad}")?;
    assert_eq!(rt;
        printed.as_str(),
        "item 0: the first bytes are not those of a container"
    );
    Ok(())
}
