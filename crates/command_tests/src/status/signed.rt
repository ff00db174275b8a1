//! Statements signed by keys of seeds, and what is said of their nodes.

use commands::device::{CountedReader, CountedWriter};
use commands::status::run;
use lms_sign::{LmsType, OtsType, SecretKey};
use ref_programs::Tally;
use std::alloc::Global;
use std::test::Fail;

/// A key of a node, by its number, 0 or 1: its identifier and its seed end with the node's number, and each byte before that is
/// the key's.
fn key_of(alloc: Global, node: u8, number: u8) -> Result<SecretKey, Fail> {
    let mut id = [number; 16];
    id[12..].copy_from_slice(&[0, 0, 0, node]);
    let mut seed = [number; 32];
    seed[28..].copy_from_slice(&[0, 0, 0, node]);
    let key = SecretKey::make(alloc, LmsType::H5, OtsType::W8, id, seed)?;
    Ok(key)
}

/// What others know of it.
fn public_of(alloc: Global, node: u8, number: u8) -> Result<[u8; 56], Fail> {
    let key = key_of(alloc, node, number)?;
    Ok(key.public_key().to_bytes())
}

/// Node 1's statement of the number 5 and a hash of equal bytes, signed by its key of this number with a C of equal bytes, behind
/// its length: a signature by key 1 stands behind that number.
fn item(alloc: Global, number: u8, hash: u8, c: u8) -> Result<Vec<u8>, Fail> {
    let mut statement = [hash; 40];
    statement[..8].copy_from_slice(&[0, 0, 0, 0, 0, 0, 0, 5]);
    let mut key = key_of(alloc, 1, number)?;
    let signature = key.sign(alloc, &statement, [c; 32])?;
    let (len, signature_len) = if number == 0 {
        (0x3d, 0x0c)
    } else {
        (0x3e, 0x0d)
    };
    let mut item = [0, 0, 0x05, len, 1, 0, 0, 0, 1].to_vec(alloc)?;
    item.extend_from_slice(&statement)?;
    item.extend_from_slice(&[0, 0, 0x05, signature_len])?;
    if number > 0 {
        item.push(number)?;
    }
    item.extend_from_slice(&signature)?;
    Ok(item)
}

/// Node 1 with two keys, and node 2 with one.
fn directory(alloc: Global) -> Result<Vec<u8>, Fail> {
    let mut directory = b"PRDIREC2\0\0\0\x02\0\0\0\x01\x02".to_vec(alloc)?;
    directory.extend_from_slice(&public_of(alloc, 1, 0)?)?;
    directory.extend_from_slice(&public_of(alloc, 1, 1)?)?;
    directory.extend_from_slice(&[0, 0, 0, 2, 1])?;
    directory.extend_from_slice(&public_of(alloc, 2, 0)?)?;
    Ok(directory)
}

/// The input of these nodes and two items.
fn input_of(alloc: Global, first: &[u8], second: &[u8]) -> Result<Vec<u8>, Fail> {
    let directory = directory(alloc)?;
    let mut store = b"PRSTORE2\0\0\0\0\0\0\0\x02".to_vec(alloc)?;
    store.extend_from_slice(first)?;
    store.extend_from_slice(second)?;
    let mut text = hex::encode(alloc, directory)?;
    text.push('\n')?;
    text.push_str(hex::encode(alloc, store)?.as_str())?;
    let input = text.as_bytes().to_vec(alloc)?;
    Ok(input)
}

/// What is written of two statements of node 1: the first is of the hash 1 and by key 0, the second of this hash and by the key
/// of this number.
fn report_of(alloc: Global, hash: u8, number: u8) -> Result<Vec<u8>, Fail> {
    let first = item(alloc, 0, 1, 0)?;
    let second = item(alloc, number, hash, 1)?;
    let input = input_of(alloc, &first, &second)?;
    let mut reader = CountedReader::new(input.as_slice());
    let mut writer = CountedWriter::new(Vec::new(alloc));
    run(alloc, &Tally, &mut reader, &mut writer)?;
    Ok(writer.writer)
}

#[test]
fn two_hashes_of_one_number_expose_their_node(rt: HostRuntime) -> Result<(), Fail> {
    let report = report_of(rt.alloc(), 2, 0)?;
    assert!(rt; report.as_slice() == b"1 exposed\n2 trusted\n".as_slice());
    Ok(())
}

#[test]
fn two_signatures_of_one_hash_expose_nobody(rt: HostRuntime) -> Result<(), Fail> {
    let report = report_of(rt.alloc(), 1, 0)?;
    assert!(rt; report.as_slice() == b"1 trusted\n2 trusted\n".as_slice());
    Ok(())
}

#[test]
fn two_keys_sign_for_one_node(rt: HostRuntime) -> Result<(), Fail> {
    let alike = report_of(rt.alloc(), 1, 1)?;
    let apart = report_of(rt.alloc(), 2, 1)?;
    assert!(rt; alike.as_slice() == b"1 trusted\n2 trusted\n".as_slice());
    assert!(rt; apart.as_slice() == b"1 exposed\n2 trusted\n".as_slice());
    Ok(())
}
