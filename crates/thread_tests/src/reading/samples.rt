//! Texts of items, and of what stands before them.

use evidence_samples::{Signer, ZEROS};
use std::alloc::Global;
use std::test::Fail;

/// The spelling of the node's statement that the entry with this number has a hash of 32 zero bytes.
pub fn statement(alloc: Global, signer: &mut Signer, seq: u64) -> Result<Vec<u8>, Fail> {
    let item = signer.statement(alloc, seq, ZEROS, 9)?;
    Ok(item.encode(alloc)?)
}

/// The item's bytes behind their length.
pub fn put_item(text: &mut Vec<u8>, item: &[u8]) -> Result<(), Fail> {
    text.extend_from_slice(&u32::try_from(item.len())?.to_be_bytes())?;
    text.extend_from_slice(item)?;
    Ok(())
}

/// The eight bytes of a set's text, and a count.
pub fn header(alloc: Global, count: u64) -> Result<Vec<u8>, Fail> {
    let mut text = Vec::new(alloc);
    text.extend_from_slice(b"PRSTORE2")?;
    text.extend_from_slice(&count.to_be_bytes())?;
    Ok(text)
}
