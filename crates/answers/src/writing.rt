//! Numbers and digits, as answers write them.

ghost use Rattle.std.specs.Prelude.{◌≡◌, ◌++◌, OnOk, decimal};
ghost use Rattle.hex.specs.Hex.{encode_lower};
ghost use Rattle.sha2.specs.Sha256.{sha256};

use sha2::{Digest, Sha256};
use std::alloc::{AllocError, Global};

/// Returns the SHA-256 value of the bytes, in hexadecimal digits.
pub(crate) fn sum_of(bytes: &[u8]) -> [u8; 64]
    ensures { result ≡ encode_lower (sha256 bytes.now) }
{
    let mut sum = [0u8; 64];
    let Ok(()) = hex::encode_to_slice(Sha256::digest(bytes), &mut sum) else {
        unreachable!();
    };
    sum
}

/// Writes a number in decimal digits.
pub(crate) fn put_number(alloc: Global, text: &mut Vec<u8>, number: u64) -> Result<(), AllocError>
    ensures { OnOk result (text.new.items ≡ text.old.items ++ decimal number) }
{
    let digits = format!(in alloc; "{number}")?;
    text.extend_from_slice(digits.as_bytes())
}

/// Writes bytes in hexadecimal digits, two for each.
pub(crate) fn put_digits(alloc: Global, text: &mut Vec<u8>, bytes: &[u8]) -> Result<(), AllocError>
    ensures { OnOk result (text.new.items ≡ text.old.items ++ encode_lower bytes.now) }
{
    let digits = hex::encode(alloc, bytes)?;
    text.extend_from_slice(digits.as_bytes())
}
