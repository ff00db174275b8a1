//! Short texts, which stand in place.

ghost use Rattle.std.specs.Prelude.{◌≡◌, ◌≤◌, length, take};

use std::marker::Model;

/// How many bytes a short text has at most. A `Body` is then as wide as two words.
pub(crate) const LONGEST_SHORT_TEXT: usize = 13;

/// A short text, with no block of its own. A contract sees its bytes.
#[derive(Drop)]
pub(crate) struct ShortText {
    len: u8,
    bytes: [u8; LONGEST_SHORT_TEXT],
}

impl Model for ShortText {
    ghost use Rattle.std.specs.Prelude.{◌≤◌, List, ℕ, take};
    ghost use Rattle.kept_entries.specs.declared.short_text.TheConstants.{LONGEST_SHORT_TEXT};

    ghost Value = { List ℕ };

    ghost view = { λ t. take t.len t.bytes };

    ghost invariant = { λ t. t.len ≤ LONGEST_SHORT_TEXT };
}

/// Returns the bytes, followed by zeros.
fn padded(bytes: &[u8]) -> [u8; LONGEST_SHORT_TEXT]
    requires { length bytes.now ≤ LONGEST_SHORT_TEXT }
    ensures { take (length bytes.now) result ≡ bytes.now }
{
    let mut text = [0; LONGEST_SHORT_TEXT];
    text[..bytes.len()].copy_from_slice(bytes);
    text
}

impl ShortText {
    /// Returns a copy of the bytes.
    pub(crate) fn from_slice(bytes: &[u8]) -> ShortText
        requires { length bytes.now ≤ LONGEST_SHORT_TEXT }
        ensures { result ≡ bytes.now }
    {
        ShortText {
            len: bytes.len() as u8,
            bytes: padded(bytes),
        }
    }

    /// Returns the bytes.
    pub(crate) fn as_slice(&self) -> &[u8]
        ensures { result.now ≡ self.now }
    {
        &self.bytes[..self.len as usize]
    }
}
