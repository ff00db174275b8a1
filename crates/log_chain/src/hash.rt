//! Hashes.

ghost use Rattle.std.specs.Prelude.{◌≡◌};
ghost use Rattle.log_chain.specs.Chain.{base};

use std::fmt;
use std::marker::Model;

/// A SHA-256 value (FIPS 180-4). A contract sees the list of its bytes.
#[derive(Clone, Copy, Debug, PartialEq, Eq, PartialOrd, Ord)]
pub struct Hash(pub [u8; 32]);

impl Model for Hash {
    ghost use Rattle.std.specs.Prelude.{ℕ, List};

    ghost Value = { List ℕ };

    ghost view = { λ h. h.0 };

    ghost inverse = { λ b. record { 0 = b } };
}

/// Writes 64 lower-case hexadecimal digits.
impl fmt::Display for Hash {
    ghost use Rattle.std.specs.Prelude.{Some};
    ghost use Rattle.hex.specs.Hex.{encode_lower};

    ghost output = { λ h. Some (encode_lower h) };

    fn fmt<W: fmt::Write>(&self, f: &mut fmt::Formatter<W>) -> fmt::Result {
        let mut text = [0u8; 64];
        let Ok(()) = hex::encode_to_slice(self.0, &mut text) else {
            unreachable!();
        };
        let Ok(text) = str::from_utf8(&text) else {
            unreachable!();
        };
        f.write_str(text)
    }
}

/// The 32 bytes of the SHA-256 of the empty text. The contract of [`base_hash`] ties them to it.
const BASE: [u8; 32] = [
    0xe3, 0xb0, 0xc4, 0x42, 0x98, 0xfc, 0x1c, 0x14, 0x9a, 0xfb, 0xf4, 0xc8, 0x99, 0x6f, 0xb9, 0x24,
    0x27, 0xae, 0x41, 0xe4, 0x64, 0x9b, 0x93, 0x4c, 0xa4, 0x95, 0x99, 0x1b, 0x78, 0x52, 0xb8, 0x55,
];

/// Returns the hash before a log's first entry, which is SHA-256 of the empty text. It is a constant: nothing is hashed.
pub fn base_hash() -> Hash
    ensures { result ≡ base }
{
    Hash(BASE)
}
