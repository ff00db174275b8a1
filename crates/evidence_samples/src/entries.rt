//! Entries of logs, and the log of node 2.

use log_chain::kind::{CHECKPOINT, INIT, RECV, TIMER};
use log_chain::{ByteString, Entry, Hash, base_hash, chain_end};
use messages::Message;
use std::alloc::Global;
use std::test::Fail;

/// A hash of 32 zero bytes.
pub const ZEROS: Hash = Hash([0; 32]);

/// Returns the entry with this number, kind and content.
pub fn entry(alloc: Global, seq: u64, kind: u8, content: &[u8]) -> Result<Entry, Fail> {
    Ok(Entry {
        seq,
        kind,
        content: ByteString::from_slice(alloc, content)?,
    })
}

/// Returns what a RECV entry quotes of the message.
fn quote(alloc: Global, message: &Message) -> Result<ByteString, Fail> {
    let mut content = Vec::new(alloc);
    content.extend_from_slice(&message.from.0.to_be_bytes())?;
    content.extend_from_slice(&message.seq.to_be_bytes())?;
    content.extend_from_slice(&message.prev.0)?;
    content.extend_from_slice(&u32::try_from(message.sig.len())?.to_be_bytes())?;
    content.extend_from_slice(message.sig.as_slice())?;
    content.extend_from_slice(message.payload.as_slice())?;
    Ok(ByteString::from_vec(content))
}

/// Returns the receipt of the message: the RECV entry with this number.
pub fn receipt(alloc: Global, seq: u64, message: &Message) -> Result<Entry, Fail> {
    Ok(Entry {
        seq,
        kind: RECV,
        content: quote(alloc, message)?,
    })
}

/// Returns the bytes with the lowest bit of the last byte turned over.
pub fn turned(bytes: ByteString) -> ByteString {
    let mut bytes = bytes.into_vec();
    if let Some(last) = bytes.last_mut() {
        *last ^= 1;
    }
    ByteString::from_vec(bytes)
}

/// An entry of node 2's log.
#[derive(Clone, Copy)]
struct Logged {
    seq: u64,
    kind: u8,
    content: &'static [u8],
}

const fn log_entry(seq: u64, kind: u8, content: &'static [u8]) -> Logged {
    Logged { seq, kind, content }
}

/// Returns the entries of node 2's log from one number to another. The log has six entries: its timer ticks three times, and it makes a
/// checkpoint after the first and after the last tick. No message is due.
pub(crate) fn entries_of_log(alloc: Global, from: u64, to: u64) -> Result<Vec<Entry>, Fail> {
    let mut entries = Vec::new(alloc);
    for it in [
        log_entry(1, INIT, &[0, 0, 0, 2]),
        log_entry(2, TIMER, &[0, 0, 0, 0, 0, 0, 0, 10]),
        log_entry(3, CHECKPOINT, &[0; 8]),
        log_entry(4, TIMER, &[0, 0, 0, 0, 0, 0, 0, 20]),
        log_entry(5, TIMER, &[0, 0, 0, 0, 0, 0, 0, 30]),
        log_entry(6, CHECKPOINT, &[0; 8]),
    ] {
        if from <= it.seq && it.seq <= to {
            entries.push(entry(alloc, it.seq, it.kind, it.content)?)?;
        }
    }
    Ok(entries)
}

/// Returns the hash of the entry with this number of node 2's log. For 0 it returns the hash before the first entry.
pub(crate) fn hash_in_log(alloc: Global, seq: u64) -> Result<Hash, Fail> {
    let entries = entries_of_log(alloc, 1, seq)?;
    Ok(chain_end(base_hash(), &entries))
}
