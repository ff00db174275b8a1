//! Public keys of seeds.

ghost use Rattle.std.specs.Prelude.{◌≡◌, ◌⊎◌, length, Ok};
ghost use Rattle.outcome.specs.Outcome.{Fails};
ghost use Rattle.byte_calls.specs.declared.refusal.Refusal.{Refusal as TheRefusal};
ghost use Rattle.byte_calls.specs.declared.refusal.Refusal.TheVariants.{Memory};
ghost use Rattle.byte_calls.specs.Refusals.{number_of as refusal_number};
ghost use Rattle.bulwynef_c.specs.Calls.{key_in};

use crate::taking::refusal_number;
use byte_calls::{Refusal, nodes};
use std::alloc::Global;

/// `uint8_t bulwynef_public_key(uint32_t lms_type, uint32_t ots_type, const uint8_t *key_id, size_t key_id_len, const uint8_t *seed, size_t
/// seed_len, uint8_t *key, size_t key_len)`: writes the 56 bytes of the public key (RFC 8554, section 5.3) of a seed. It refuses first with
/// 117 if the room is not 56 bytes, and then as `byte_calls::nodes::public_key` does (2, 3, 117, 4).
#[tactic(auto, using(crate::proofs::Rooms::in_room))]
#[unsafe(no_mangle)]
pub extern "C" fn bulwynef_public_key(
    alloc: Global,
    lms_type: u32,
    ots_type: u32,
    key_id: &[u8],
    seed: &[u8],
    key: &mut [u8],
) -> u8
    ensures key { result ≡ 0 → key_in (length key.old) lms_type ots_type key_id.now seed.now ≡ Ok key.new }
    ensures number { (result ≡ 0 → ⊥) → (f : TheRefusal) × (result ≡ refusal_number f) × Fails Memory f (key_in (length key.old) lms_type ots_type key_id.now seed.now) }
    ensures refused { (result ≡ 0 → ⊥) → key.new ≡ key.old }
{
    if key.len() != 56 {
        return refusal_number(Refusal::WrongLength);
    }
    match nodes::public_key(alloc, lms_type, ots_type, key_id, seed) {
        Ok(text) => {
            key.copy_from_slice(&text);
            0
        }
        Err(refusal) => refusal_number(refusal),
    }
}
