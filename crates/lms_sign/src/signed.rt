//! Messages with bytes that are claimed to be their signatures.

use crate::key::PublicKey;

/// A message, bytes that are claimed to be its signature, and the key under which they are claimed to verify.
#[derive(Clone, Copy)]
pub struct Signed<'a> {
    /// The key under which the signature is claimed to verify.
    pub key: &'a PublicKey,
    /// The message.
    pub message: &'a [u8],
    /// What is claimed to be the signature. Any bytes may stand here.
    pub signature: &'a [u8],
}
