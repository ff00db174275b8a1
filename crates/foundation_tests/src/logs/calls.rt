//! Each call once on its happy path, with values from outside: of hashes, byte strings, fields and entries. `histories` has those of
//! histories.

mod histories;

use log_chain::{
    AppendFault, AppendRefused, ByteString, Entry, EntryList, FieldFault, FieldReader, FieldWriter,
    Hash, SegmentFault, base_hash, chain_end, entry_hash, entry_hash_of_pieces, kind,
};
use outcome::Memory;
use sha2::{Digest, Sha256};
use std::alloc::{AllocError, Global};
use std::fmt::Display;
use std::hash::{DefaultHasher, Hash as _, Hasher};
use std::test::*;

#[test]
fn the_base_hash_is_that_of_the_empty_text(rt: HostRuntime) {
    // FIPS 180-4, as printed by Python's hashlib.
    let want = [
        0xe3, 0xb0, 0xc4, 0x42, 0x98, 0xfc, 0x1c, 0x14, 0x9a, 0xfb, 0xf4, 0xc8, 0x99, 0x6f, 0xb9,
        0x24, 0x27, 0xae, 0x41, 0xe4, 0x64, 0x9b, 0x93, 0x4c, 0xa4, 0x95, 0x99, 0x1b, 0x78, 0x52,
        0xb8, 0x55,
    ];
    assert!(rt; base_hash() == Hash(want));
}

/// Whether the value is shown as this text.
fn is_shown_as<T: Display + Drop>(alloc: Global, value: T, want: &str) -> Result<bool, Fail> {
    let shown = format!(in alloc; "{value}")?;
    Ok(shown.as_str() == want)
}

#[test]
fn a_hash_is_shown_in_hexadecimal_digits(rt: HostRuntime) -> Result<(), Fail> {
    // As printed by sha256sum of the empty text.
    let want = "e3b0c44298fc1c149afbf4c8996fb92427ae41e4649b934ca495991b7852b855";
    assert!(rt; is_shown_as(rt.alloc(), base_hash(), want)?);
    Ok(())
}

#[test]
fn refusals_have_numbers_and_names(rt: HostRuntime) {
    let numbers = [
        FieldFault::Truncated.number(),
        AppendFault::SeqNotRising.number(),
        SegmentFault::SegmentTooLong.number(),
    ];
    assert!(rt; numbers == [40, 10, 13]);
    assert!(rt; FieldFault::TooLong.name() == "TooLong");
    assert!(rt; AppendFault::ContentTooLong.name() == "ContentTooLong");
    assert!(rt; SegmentFault::Memory.name() == "Memory");
}

#[test]
fn a_refused_append_has_a_line(rt: HostRuntime) -> Result<(), Fail> {
    let fault = AppendFault::ContentTooLong;
    let content = ByteString::from_vec(Vec::new(rt.alloc()));
    let refused = AppendRefused { fault, content };
    assert!(rt; is_shown_as(rt.alloc(), refused, "the entry's content is too long")?);
    Ok(())
}

/// The byte, and the numbers of four and of eight bytes, that the reader gives next.
fn read_numbers(reader: &mut FieldReader) -> Result<(u8, u32, u64), FieldFault> {
    Ok((reader.u8()?, reader.u32()?, reader.u64()?))
}

/// Whether the reader gives the first text behind its length, and then as many bytes as the second one has.
fn gives_slices(reader: &mut FieldReader, first: &[u8], second: &[u8]) -> bool {
    reader.bytes(first.len()) == Ok(first) && reader.take(second.len()) == Ok(second)
}

/// Whether the reader has these bytes left, gives them as the rest, and has none left then.
fn gives_the_rest(reader: &mut FieldReader, rest: &[u8]) -> bool {
    let left = reader.left() == rest.len() && reader.as_slice() == rest;
    left && reader.rest() == rest && reader.left() == 0
}

#[test]
fn fields_are_read_in_turn(rt: HostRuntime) {
    let text = [
        7, 0, 0, 1, 2, 0, 0, 0, 0, 0, 0, 3, 4, 0, 0, 0, 2, b'h', b'i', b'.', 9,
    ];
    let mut reader = FieldReader::new(&text);
    assert_eq!(rt; reader.left(), 21);
    assert!(rt; read_numbers(&mut reader) == Ok((7, 0x0102, 0x0304)));
    assert!(rt; gives_slices(&mut reader, b"hi", b"."));
    assert!(rt; reader.hash().is_err());
    assert!(rt; gives_the_rest(&mut reader, &[9]));
}

#[test]
fn a_hash_is_read_as_it_stands(rt: HostRuntime) {
    let mut reader = FieldReader::new(&[5; 32]);
    assert!(rt; reader.hash() == Ok(Hash([5; 32])));
}

#[test]
fn a_refused_field_leaves_the_place(rt: HostRuntime) {
    // A length of 3 with two bytes after it: above a limit of 2, cut off below a limit of 3.
    let mut reader = FieldReader::new(&[0, 0, 0, 3, 1, 2]);
    let faults = [
        reader.bytes(2).err(),
        reader.bytes(3).err(),
        reader.u64().err(),
    ];
    let truncated = Some(FieldFault::Truncated);
    assert!(rt; faults == [Some(FieldFault::TooLong), truncated, truncated]);
    assert!(rt; (reader.left(), reader.u32()) == (6, Ok(3)));
}

#[test]
fn byte_strings_are_compared(rt: HostRuntime) -> Result<(), Fail> {
    let text = ByteString::from_slice(rt.alloc(), b"abc")?;
    let copy = text.try_clone(rt.alloc())?;
    let longer = ByteString::from_slice(rt.alloc(), b"abcd")?;
    assert!(rt; text == copy && text < longer);
    Ok(())
}

/// How many bytes the string has, whether it has none, whether its vector is `bytes`, and whether that vector is again the `text`.
fn as_vector(string: ByteString, bytes: &[u8], text: &ByteString) -> (usize, bool, bool, bool) {
    let (len, empty) = (string.len(), string.is_empty());
    let vector = string.into_vec();
    let same = vector.as_slice() == bytes;
    (len, empty, same, ByteString::from_vec(vector) == *text)
}

#[test]
fn byte_strings_are_their_bytes(rt: HostRuntime) -> Result<(), Fail> {
    let text = ByteString::from_slice(rt.alloc(), b"abc")?;
    assert!(rt; as_vector(text.try_clone(rt.alloc())?, b"abc", &text) == (3, false, true, true));
    Ok(())
}

/// The digest of a byte string, and what a hasher makes of it.
fn digest_and_hash(alloc: Global, text: &[u8]) -> Result<(Hash, u64), AllocError> {
    let text = ByteString::from_slice(alloc, text)?;
    let mut hasher = DefaultHasher::new();
    text.hash(&mut hasher);
    Ok((Hash(Sha256::digest(&text)), hasher.finish()))
}

#[test]
fn a_byte_string_is_digested_as_its_bytes(rt: HostRuntime) -> Result<(), Fail> {
    let (digest, _hash) = digest_and_hash(rt.alloc(), b"abc")?;
    // FIPS 180-4, as printed by sha256sum.
    let want = "ba7816bf8f01cfea414140de5dae2223b00361a396177a9cb410ff61f20015ad";
    assert!(rt; is_shown_as(rt.alloc(), digest, want)?);
    Ok(())
}

#[test]
fn a_byte_string_hashes_as_its_slice(rt: HostRuntime) -> Result<(), Fail> {
    let (_digest, hash) = digest_and_hash(rt.alloc(), b"abc")?;
    // SipHash-1-3 under a key of zeros, of the length in eight bytes and the text: Python's `hash` under PYTHONHASHSEED=0.
    assert_eq!(rt; hash, 0x4aa3_e4b3_4416_e6c9);
    Ok(())
}

fn entry(alloc: Global, seq: u64, kind: u8, content: &[u8]) -> Result<Entry, AllocError> {
    let content = ByteString::from_slice(alloc, content)?;
    Ok(Entry { seq, kind, content })
}

/// Three entries, for whose hashes hashlib was asked.
fn three_entries(alloc: Global) -> Result<Vec<Entry>, AllocError> {
    let mut entries = Vec::new(alloc);
    entries.push(entry(alloc, 1, 1, &[0, 0, 0, 2])?)?;
    entries.push(entry(alloc, 7, 2, b"abc")?)?;
    entries.push(entry(alloc, 9, 5, b"")?)?;
    Ok(entries)
}

const FIRST: Hash = Hash([
    0xea, 0x0a, 0x68, 0x07, 0x7b, 0x8c, 0x57, 0x00, 0xa7, 0xbe, 0x9b, 0x8a, 0xf3, 0xf2, 0x62, 0x8a,
    0xbb, 0xdd, 0xae, 0x1f, 0xb9, 0x4f, 0x60, 0x12, 0x13, 0xe8, 0xf9, 0x52, 0xde, 0x13, 0xb5, 0xa8,
]);

const SECOND: Hash = Hash([
    0x55, 0x7b, 0xa9, 0x07, 0x57, 0x6c, 0xce, 0x69, 0xc5, 0xe9, 0x03, 0xc6, 0xca, 0x5f, 0x3c, 0x6d,
    0x56, 0xb0, 0x0d, 0xae, 0x2b, 0x49, 0x53, 0x5a, 0xd3, 0x5d, 0x0f, 0x12, 0x68, 0x42, 0xd9, 0xc4,
]);

const THIRD: Hash = Hash([
    0x56, 0xea, 0xfb, 0xfa, 0x2c, 0x6f, 0x9a, 0xdf, 0xb4, 0xe3, 0x7e, 0x53, 0x5a, 0x65, 0xd8, 0x12,
    0x19, 0x86, 0xc1, 0x76, 0x8f, 0x8a, 0x7e, 0x6b, 0x66, 0x8b, 0xfc, 0x6b, 0xf2, 0xed, 0xda, 0xa0,
]);

#[test]
fn an_entry_is_hashed_behind_the_hash_before_it(rt: HostRuntime) -> Result<(), Fail> {
    let abc = entry(rt.alloc(), 7, 2, b"abc")?;
    let text = [
        0xe3, 0xb0, 0xc4, 0x42, 0x98, 0xfc, 0x1c, 0x14, 0x9a, 0xfb, 0xf4, 0xc8, 0x99, 0x6f, 0xb9,
        0x24, 0x27, 0xae, 0x41, 0xe4, 0x64, 0x9b, 0x93, 0x4c, 0xa4, 0x95, 0x99, 0x1b, 0x78, 0x52,
        0xb8, 0x55, 0x00, 0x00, 0x00, 0x00, 0x00, 0x00, 0x00, 0x07, 0x02, 0xba, 0x78, 0x16, 0xbf,
        0x8f, 0x01, 0xcf, 0xea, 0x41, 0x41, 0x40, 0xde, 0x5d, 0xae, 0x22, 0x23, 0xb0, 0x03, 0x61,
        0xa3, 0x96, 0x17, 0x7a, 0x9c, 0xb4, 0x10, 0xff, 0x61, 0xf2, 0x00, 0x15, 0xad,
    ];
    let hash = Hash([
        0xde, 0xfd, 0xab, 0x51, 0x70, 0x15, 0x1d, 0x0d, 0x9f, 0xc7, 0x0e, 0x6d, 0xe2, 0xb1, 0x08,
        0xb0, 0x4c, 0xf4, 0x50, 0xa6, 0xe1, 0x57, 0x9b, 0xeb, 0xdf, 0x73, 0x6f, 0xa6, 0x84, 0xd0,
        0x31, 0xe6,
    ]);
    let pieces: [&[u8]; 3] = [b"a", b"", b"bc"];
    let hashes = [
        Hash(Sha256::digest(text)),
        entry_hash(base_hash(), &abc),
        entry_hash_of_pieces(base_hash(), 7, kind::SEND, &pieces),
    ];
    assert!(rt; hashes == [hash; 3]);
    Ok(())
}

#[test]
fn a_chain_ends_with_its_last_hash(rt: HostRuntime) -> Result<(), Fail> {
    let entries = three_entries(rt.alloc())?;
    let ends = (chain_end(base_hash(), &entries), chain_end(FIRST, &[]));
    assert!(rt; ends == (THIRD, FIRST));
    Ok(())
}

/// Whether a copy of the list is equal to it, how many entries the copy has, whether it has none, and whether its vector has the
/// same entries.
fn copied(alloc: Global, list: &EntryList) -> Result<(bool, usize, bool, bool), Memory> {
    let copy = list.try_clone(alloc)?;
    let (equal, len, empty) = (*list == copy, copy.len(), copy.is_empty());
    let entries = copy.into_vec();
    Ok((equal, len, empty, list.as_slice() == entries.as_slice()))
}

#[test]
fn a_list_of_entries_is_copied(rt: HostRuntime) -> Result<(), Fail> {
    let list = EntryList::from_vec(three_entries(rt.alloc())?);
    assert!(rt; copied(rt.alloc(), &list)? == (true, 3, false, true));
    Ok(())
}

/// A field of each kind but a hash.
const FIELDS: [u8; 20] = [
    7, 0, 0, 1, 2, 0, 0, 0, 0, 0, 0, 3, 4, 0, 0, 0, 2, b'h', b'i', b'.',
];

/// Writes these fields.
fn write_fields(writer: &mut FieldWriter) -> Result<(), AllocError> {
    writer.u8(7)?;
    writer.u32(0x0102)?;
    writer.u64(0x0304)?;
    writer.bytes(b"hi")?;
    writer.rest(b".")
}

#[test]
fn fields_are_written_in_turn(rt: HostRuntime) -> Result<(), Fail> {
    let mut writer = FieldWriter::new(rt.alloc());
    write_fields(&mut writer)?;
    assert!(rt; writer.written() == 20);
    writer.rest(b"and more")?;
    writer.truncate(20);
    assert!(rt; writer.finish().as_slice() == FIELDS.as_slice());
    Ok(())
}

#[test]
fn a_hash_is_written_as_it_stands(rt: HostRuntime) -> Result<(), Fail> {
    let mut writer = FieldWriter::with_capacity(rt.alloc(), 32)?;
    writer.hash(Hash([5; 32]))?;
    assert!(rt; writer.finish().as_slice() == [5; 32].as_slice());
    Ok(())
}
