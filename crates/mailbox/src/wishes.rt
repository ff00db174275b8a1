//! The wishes of a node's user, as moments of its timer.
//!
//! A moment below 2^63 is the time. Any other moment is a wish. It has eight bytes, and the first, which is the highest, says what is
//! wished:
//!
//! - 0x80: The node fetches what the relay holds for it.
//! - 0x81 to 0x87: The node writes the last one to seven bytes of the moment to the end of its draft.
//! - 0x88: The node leaves the draft at the relay, for the node whose number is in the last four bytes.
//!
//! The other bytes of the moment mean nothing. A moment with another first byte does nothing. A user writes a text in pieces, and leaves
//! it as a whole.

ghost use Rattle.std.specs.Prelude.{◌≡◌, ◌≤◌, ◌^◌, IfOk, false, length, nat_lt};
ghost use Rattle.mailbox.specs.MailboxMeaning.{IsWriting, ticked};
ghost use Rattle.mailbox.specs.UserWishes.{fetching, leaving, wished, writing};
ghost use Rattle.mailbox.specs.declared.held.Held.{Held};

use authenticators::NodeId;
use outcome::Memory;
use std::alloc::Global;

/// The first byte of a wish to fetch. If it is greater by one to seven, the wish is to write as many bytes.
pub(crate) const FETCH_WISH: u8 = 0x80;

/// The first byte of a wish to leave the draft.
pub(crate) const LEAVE_WISH: u8 = 0x88;

/// The greatest number of bytes of a text that one moment writes.
const MOST_WRITTEN: usize = 7;

/// Returns the moment at which a node fetches what the relay holds for it.
pub fn fetch() -> u64
    ensures { (held : Held) → ticked held result ≡ fetching held }
{
    u64::from_be_bytes([FETCH_WISH, 0, 0, 0, 0, 0, 0, 0])
}

/// Returns the moment at which a node leaves its draft at the relay, for the node `to`.
pub fn leave(to: NodeId) -> u64
    ensures { (held : Held) → ticked held result ≡ leaving held to }
{
    let [a, b, c, d] = to.0.to_be_bytes();
    u64::from_be_bytes([LEAVE_WISH, 0, 0, 0, a, b, c, d])
}

/// Returns the moment at which a node writes these bytes to the end of its draft. There must be one to seven bytes.
fn piece(bytes: &[u8]) -> u64
    ensures wish { nat_lt result (2 ^ 63) ≡ false }
    ensures writes { (held : Held) → 1 ≤ length bytes.now → length bytes.now ≤ 7 → wished held result ≡ writing held bytes.now }
{
    match *bytes {
        [a] => u64::from_be_bytes([FETCH_WISH + 1, 0, 0, 0, 0, 0, 0, a]),
        [a, b] => u64::from_be_bytes([FETCH_WISH + 2, 0, 0, 0, 0, 0, a, b]),
        [a, b, c] => u64::from_be_bytes([FETCH_WISH + 3, 0, 0, 0, 0, a, b, c]),
        [a, b, c, d] => u64::from_be_bytes([FETCH_WISH + 4, 0, 0, 0, a, b, c, d]),
        [a, b, c, d, e] => u64::from_be_bytes([FETCH_WISH + 5, 0, 0, a, b, c, d, e]),
        [a, b, c, d, e, f] => u64::from_be_bytes([FETCH_WISH + 6, 0, a, b, c, d, e, f]),
        [a, b, c, d, e, f, g] => u64::from_be_bytes([FETCH_WISH + 7, a, b, c, d, e, f, g]),
        _ => u64::MAX,
    }
}

/// Returns the moments at which a node writes the text to the end of its draft, in order. Each writes seven bytes, and the last one those
/// that are left. A piece that does not fit is not written, but a later piece is written if it fits.
pub fn write(alloc: Global, text: &[u8]) -> Result<Vec<u64>, Memory>
    ensures { IfOk result (λ v. IsWriting text.now v.items) }
{
    Ok(
        text.chunks(MOST_WRITTEN)
            .map(|bytes| piece(bytes))
            .collect(alloc)?,
    )
}
