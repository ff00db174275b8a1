//! What a proof tells of a log that receives one message twice.

use crate::convictions::calls::{ZEROS, nonconforming};
use crate::convictions::checking::{Answer, answer_to};
use authenticators::{Directory, NodeId, statement_text};
use lms_sign::{LmsType, OtsType, SecretKey};
use log_chain::{ByteString, Entry, base_hash, chain_end, entry_hash, kind};
use proofs::Item;
use std::alloc::Global;
use std::test::Fail;

/// Node 2 with its key, under the directory of the nodes 1 and 2, and what it quotes of a message of node 1.
#[derive(Drop)]
struct Receiver {
    directory: Box<Directory>,
    key: Box<SecretKey>,
    quote: Vec<u8>,
}

/// The key (H5, W4) whose identifier is the number, 16 times.
fn key_of(alloc: Global, node: u8) -> Result<Box<SecretKey>, Fail> {
    let key = SecretKey::make(alloc, LmsType::H5, OtsType::W4, [node; 16], [1; 32])?;
    Ok(Box::new(alloc, key)?)
}

/// The key's signature of the SEND entry of number 4 after zeros, which sends `A`, 5 to node 2.
fn sent(alloc: Global, key: &mut SecretKey) -> Result<Vec<u8>, Fail> {
    let entry = Entry {
        seq: 4,
        kind: kind::SEND,
        content: ByteString::from_slice(alloc, &[0, 0, 0, 2, b'A', 0, 0, 0, 0, 0, 0, 0, 5])?,
    };
    let hash = entry_hash(ZEROS, &entry);
    Ok(key.sign(alloc, &statement_text(4, hash), [9; 32])?)
}

/// What a RECV entry quotes of that message of node 1: the sender, the number, the hash before it, the signature's length, 2,348,
/// the signature, and `A`, 5.
fn quote_of(alloc: Global, sig: &[u8]) -> Result<Vec<u8>, Fail> {
    let mut quote = Vec::new(alloc);
    quote.extend_from_slice(&[0, 0, 0, 1, 0, 0, 0, 0, 0, 0, 0, 4])?;
    quote.extend_from_slice(&[0; 32])?;
    quote.extend_from_slice(&[0, 0, 0x09, 0x2c])?;
    quote.extend_from_slice(sig)?;
    quote.extend_from_slice(&[b'A', 0, 0, 0, 0, 0, 0, 0, 5])?;
    Ok(quote)
}

fn make_receiver(alloc: Global) -> Result<Receiver, Fail> {
    let mut one = key_of(alloc, 1)?;
    let key = key_of(alloc, 2)?;
    let mut directory = Box::new(alloc, Directory::new(alloc))?;
    directory.add(NodeId(1), one.public_key())?;
    directory.add(NodeId(2), key.public_key())?;
    let sig = sent(alloc, &mut one)?;
    Ok(Receiver {
        directory,
        key,
        quote: quote_of(alloc, &sig)?,
    })
}

/// Node 2's log up to the number `last`: INIT, the RECV of the message, the SEND of `T`, 5 to node 1, and the RECV again.
fn log_up_to(alloc: Global, quote: &[u8], last: u64) -> Result<Vec<Entry>, Fail> {
    let mut entries = Vec::new(alloc);
    let answer = [0, 0, 0, 1, b'T', 0, 0, 0, 0, 0, 0, 0, 5];
    for (seq, kind, content) in [
        (1, kind::INIT, [0, 0, 0, 2].as_slice()),
        (2, kind::RECV, quote),
        (3, kind::SEND, answer.as_slice()),
        (4, kind::RECV, quote),
    ] {
        if seq <= last {
            let content = ByteString::from_slice(alloc, content)?;
            entries.push(Entry { seq, kind, content })?;
        }
    }
    Ok(entries)
}

fn segment_up_to(alloc: Global, receiver: &mut Receiver, last: u64) -> Result<Box<Item>, Fail> {
    let entries = log_up_to(alloc, &receiver.quote, last)?;
    let hash = chain_end(base_hash(), &entries);
    let text = statement_text(last, hash);
    let sig = receiver.key.sign(alloc, &text, [9; 32])?;
    let item = Item::segment(NodeId(2), base_hash(), entries, ByteString::from_vec(sig))?;
    Ok(Box::new(alloc, item)?)
}

/// What is told of that segment as one that does not conform.
fn answer_up_to(alloc: Global, receiver: &mut Receiver, last: u64) -> Result<Answer, Fail> {
    let segment = segment_up_to(alloc, receiver, last)?;
    let proof = nonconforming(segment)?;
    Ok(answer_to(alloc, &receiver.directory, &proof))
}

/// The same without the second receipt and with it.
fn answers_to_both(alloc: Global) -> Result<[Answer; 2], Fail> {
    let mut receiver = make_receiver(alloc)?;
    Ok([
        answer_up_to(alloc, &mut receiver, 3)?,
        answer_up_to(alloc, &mut receiver, 4)?,
    ])
}

#[test]
fn a_second_receipt_convicts(rt: HostRuntime) -> Result<(), Fail> {
    let expected = [Answer::Refused(51), Answer::Convicted(2)];
    assert_eq!(rt; answers_to_both(rt.alloc())?, expected);
    Ok(())
}
