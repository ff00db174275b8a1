//! Statements of a node with two keys: an LMS signature by the first stands as it is, and one by the second behind the byte 1.

use authenticators::{Authenticator, Directory, NodeId, statement_text};
use evidence_item::{Item, ItemFault, check_item};
use evidence_samples::{ZEROS, key_of, next_key_of};
use lms_sign::SecretKey;
use log_chain::ByteString;
use ref_programs::Tally;
use std::alloc::Global;
use std::test::Fail;

/// Node 1 with two keys, and its signatures of the number 5 and zeros by each.
#[derive(Drop)]
struct Signed {
    directory: Box<Directory>,
    by_first: Vec<u8>,
    by_second: Vec<u8>,
}

fn sign(alloc: Global, key: &mut SecretKey) -> Result<Vec<u8>, Fail> {
    Ok(key.sign(alloc, &statement_text(5, ZEROS), [9; 32])?)
}

fn make_signed(alloc: Global) -> Result<Signed, Fail> {
    let mut first = key_of(alloc, 1)?;
    let mut second = next_key_of(alloc, 1)?;
    let mut directory = Box::new(alloc, Directory::new(alloc))?;
    directory.add(NodeId(1), first.public_key())?;
    directory.add_key(NodeId(1), second.public_key())?;
    Ok(Signed {
        directory,
        by_first: sign(alloc, &mut first)?,
        by_second: sign(alloc, &mut second)?,
    })
}

/// Why node 1's statement with this signature text is refused, if it is.
fn fault_of(
    alloc: Global,
    directory: &Directory,
    sig: ByteString,
) -> Result<Option<ItemFault>, Fail> {
    let item = Item::auth(Authenticator {
        node: NodeId(1),
        seq: 5,
        hash: ZEROS,
        sig,
    })?;
    match check_item(alloc, &Tally, directory, item) {
        Ok(_) => Ok(None),
        Err(fault) => Ok(Some(fault)),
    }
}

/// The signature behind the byte.
fn text_of(alloc: Global, number: u8, sig: &[u8]) -> Result<ByteString, Fail> {
    let mut text = Vec::new(alloc);
    text.push(number)?;
    text.extend_from_slice(sig)?;
    Ok(ByteString::from_vec(text))
}

/// The same where the signature stands behind the byte.
fn fault_behind(
    alloc: Global,
    directory: &Directory,
    number: u8,
    sig: &[u8],
) -> Result<Option<ItemFault>, Fail> {
    let text = text_of(alloc, number, sig)?;
    fault_of(alloc, directory, text)
}

/// The same where it stands as it is.
fn fault_of_bare(
    alloc: Global,
    directory: &Directory,
    sig: &[u8],
) -> Result<Option<ItemFault>, Fail> {
    let text = ByteString::from_slice(alloc, sig)?;
    fault_of(alloc, directory, text)
}

/// How long the second key's signature text is, and why these are refused: that signature behind the bytes 1, 0, 2 and 8 and as it
/// stands, and the first key's as it stands and behind the byte 1.
#[derive(Clone, Copy, Debug, PartialEq, Eq)]
struct Told {
    len: usize,
    second: [Option<ItemFault>; 5],
    first: [Option<ItemFault>; 2],
}

fn faults_of(alloc: Global, signed: &Signed) -> Result<Told, Fail> {
    let (directory, second) = (&signed.directory, signed.by_second.as_slice());
    Ok(Told {
        len: text_of(alloc, 1, second)?.len(),
        second: [
            fault_behind(alloc, directory, 1, second)?,
            fault_behind(alloc, directory, 0, second)?,
            fault_behind(alloc, directory, 2, second)?,
            fault_behind(alloc, directory, 8, second)?,
            fault_of_bare(alloc, directory, second)?,
        ],
        first: [
            fault_of_bare(alloc, directory, &signed.by_first)?,
            fault_behind(alloc, directory, 1, &signed.by_first)?,
        ],
    })
}

#[test]
fn a_signature_names_its_key(rt: HostRuntime) -> Result<(), Fail> {
    let signed = make_signed(rt.alloc())?;
    let bad = Some(ItemFault::BadSignature);
    let expected = Told {
        len: 8685,
        second: [None, bad, bad, bad, bad],
        first: [None, bad],
    };
    assert_eq!(rt; faults_of(rt.alloc(), &signed)?, expected);
    Ok(())
}
