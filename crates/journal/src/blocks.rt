//! Blocks: how texts stand in a file.

ghost use Rattle.std.specs.Prelude.{◌≡◌, ◌+◌, ◌<◌, ◌≤◌, ◌^◌, ◌++◌, ◌∷◌, [], length, vec_len, None, IfOk, IfSome, OnOk, nat_le};
ghost use Rattle.journal.specs.Journal.{ends_closed, block_of, blocks_of, size_of, texts_of};

use std::alloc::{AllocError, Global};

/// The greatest number of bytes that the blocks of a group take. A block takes 9 bytes beside its text.
pub const MOST_GROUP: usize = 8_388_608;

/// How many bytes a block takes beside its text.
pub(crate) const HEAD: usize = 9;

/// An open gate. Every byte but 0 is one, so it stays open while one of its bits is left.
const OPEN: u8 = 255;

/// Returns whether the blocks of the texts take no more bytes than a group may.
pub(crate) fn fits(texts: &[Vec<u8>]) -> bool
    ensures { result ≡ nat_le (size_of (texts_of texts.now)) MOST_GROUP }
{
    let mut room = MOST_GROUP;
    for text in texts {
        if room < HEAD || room - HEAD < text.len() {
            return false;
        }
        room = room - HEAD - text.len();
    }
    true
}

/// Returns the open blocks of the texts, and the closed gate behind them.
pub(crate) fn group_of(alloc: Global, texts: &[Vec<u8>]) -> Result<Vec<u8>, AllocError>
    requires { size_of (texts_of texts.now) ≤ MOST_GROUP }
    ensures { IfOk result (λ v. v.items ≡ blocks_of (texts_of texts.now) ++ 0 ∷ []) }
{
    let mut bytes = Vec::new(alloc);
    for text in texts {
        put_block(&mut bytes, text)?;
    }
    bytes.push(0)?;
    Ok(bytes)
}

/// Puts the open block of a text behind the bytes.
fn put_block(bytes: &mut Vec<u8>, text: &[u8]) -> Result<(), AllocError>
    requires { length text.now < 2 ^ 32 }
    ensures { OnOk result (bytes.new.items ≡ bytes.old.items ++ block_of text.now) }
{
    let size = text.len() as u32;
    bytes.push(OPEN)?;
    bytes.extend_from_slice(&size.to_be_bytes())?;
    bytes.extend_from_slice(&(u32::MAX - size).to_be_bytes())?;
    bytes.extend_from_slice(text)?;
    Ok(())
}

/// Returns whether the bytes are a closed gate and at most a group behind it.
pub(crate) fn is_closed_end(bytes: &[u8]) -> bool
    ensures { result ≡ ends_closed bytes.now }
{
    match bytes {
        [gate, behind @ ..] => *gate == 0 && behind.len() <= MOST_GROUP,
        [] => false,
    }
}
