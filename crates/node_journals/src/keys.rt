//! The keys that a node's operator can make again from their seeds.

ghost use Rattle.std.specs.Prelude.{◌≡◌, IfOk};
ghost use Rattle.node_journals.specs.Keys.{key_for, seed_of};

use lms_sign::{MakeFault, PublicKey, SecretKey};
use outcome::Memory;
use std::alloc::{AllocError, Global};

/// The identifier and the seed of a key. Each key needs an identifier of its own: of secrets with one identifier, only the
/// first is used.
#[derive(Clone, Copy)]
pub struct Secret {
    /// The identifier.
    pub id: [u8; 16],
    /// The seed, which nobody else may see.
    pub seed: [u8; 32],
}

/// Returns the seed of the first secret with the identifier.
fn seed_of(secrets: &[Secret], id: &[u8; 16]) -> Option<[u8; 32]>
    ensures { result ≡ seed_of secrets.now id.now }
{
    match secrets {
        [] => None,
        [first, rest @ ..] => {
            if first.id == *id {
                Some(first.seed)
            } else {
                seed_of(rest, id)
            }
        }
    }
}

/// Returns the key of this public key, with no leaf used, or `None` if no secret makes it. A key with a tree above the height
/// of 10 is not made.
pub(crate) fn key_for(
    alloc: Global,
    secrets: &[Secret],
    key: &PublicKey,
) -> Result<Option<SecretKey>, Memory>
    ensures { IfOk result (λ made. made ≡ key_for secrets.now key.now) }
{
    let Some(seed) = seed_of(secrets, &key.id) else {
        return Ok(None);
    };
    match SecretKey::make(alloc, key.lms_type, key.ots_type, key.id, seed) {
        Err(MakeFault::HeightTooLarge) => Ok(None),
        Err(MakeFault::Memory) => Err(AllocError),
        Ok(made) => {
            if made.public_key() != *key {
                return Ok(None);
            }
            Ok(Some(made))
        }
    }
}
