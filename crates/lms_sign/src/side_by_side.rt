//! The digests and the one-time public keys of eight signatures, side by side (RFC 8554, sections 4.6 and 5.4.2).

ghost use Rattle.std.specs.Prelude.{◌≡◌, ℕ, [], ◌+◌, ◌*◌, ◌<◌, ◌≤◌, length, take, slice_index_or};
ghost use Rattle.sha2.specs.Sha256.{sha256};
ghost use Rattle.lms_sign.specs.declared.signed.Signed.{Signed};
ghost use Rattle.lms_sign.specs.declared.types.OtsType.{OtsType};
ghost use Rattle.lms_sign.specs.Parameters.{chain_count};
ghost use Rattle.lms_sign.specs.within.Eights.{HasForm, IsGroup, digest_of, key_of};

use crate::chain_ends::{D_PBLC, put_chain_ends};
use crate::coefficients::{D_MESG, with_checksum};
use crate::open_chain::chain_place;
use crate::signed::Signed;
use crate::text::{hash_at, put, u32_at};
use crate::types::OtsType;
use sha256_lanes::eight_digests;

/// The length in bytes of the longest text that is hashed side by side. It is the text of K for W1: I, q and a mark, and then
/// the ends of 265 chains.
pub(crate) const ROOM: usize = 8502;

/// Writes the text whose digest is Q.
fn put_message(out: &mut [u8], signed: &Signed)
    requires form { HasForm signed.now.key.now signed.now.signature.now }
    requires room { 54 + length signed.now.message.now ≤ length out.old }
    ensures { sha256 (take (54 + length signed.now.message.now) out.new) ≡ digest_of signed.now }
{
    let sig = signed.signature;
    put(out, 0, &chain_place(&signed.key.id, u32_at(sig, 0), D_MESG));
    put(out, 22, hash_at(sig, 8));
    put(out, 54, signed.message);
}

/// Returns Q, the digest that each signature signs.
pub(crate) fn message_digests(
    room: &mut [[u8; ROOM]; 8],
    group: &[Signed; 8],
    len: usize,
) -> [[u8; 32]; 8]
    requires room { 54 + len ≤ ROOM }
    requires group { (ots : OtsType) × IsGroup ots len group.now }
    ensures { (j : ℕ) (d : Signed) → j < 8 → slice_index_or result j [] ≡ digest_of (slice_index_or group.now j d) }
{
    for j in 0..8usize {
        put_message(&mut room[j], &group[j]);
    }
    eight_digests(room, 54 + len)
}

/// Writes the text whose digest is K. It runs the signature's chains to their ends.
fn put_key(out: &mut [u8], signed: &Signed, digest: &[u8; 32])
    requires form { HasForm signed.now.key.now signed.now.signature.now }
    requires room { 22 + 32 * chain_count signed.now.key.now.ots_type ≤ length out.old }
    requires digest { digest.now ≡ digest_of signed.now }
    ensures { sha256 (take (22 + 32 * chain_count signed.now.key.now.ots_type) out.new) ≡ key_of signed.now }
{
    let ots = signed.key.ots_type;
    let q = u32_at(signed.signature, 0);
    put(out, 0, &chain_place(&signed.key.id, q, D_PBLC));
    put_chain_ends(
        out,
        &signed.key.id,
        q,
        ots,
        &with_checksum(digest, ots),
        &signed.signature[40..],
    );
}

/// Returns K, the one-time public key that each signature gives.
pub(crate) fn one_time_keys(
    room: &mut [[u8; ROOM]; 8],
    group: &[Signed; 8],
    ots: OtsType,
    digests: &[[u8; 32]; 8],
) -> [[u8; 32]; 8]
    requires group { (len : ℕ) × IsGroup ots len group.now }
    requires digests { (j : ℕ) (d : Signed) → j < 8 → slice_index_or digests.now j [] ≡ digest_of (slice_index_or group.now j d) }
    ensures { (j : ℕ) (d : Signed) → j < 8 → slice_index_or result j [] ≡ key_of (slice_index_or group.now j d) }
{
    for j in 0..8usize {
        put_key(&mut room[j], &group[j], &digests[j]);
    }
    eight_digests(room, 22 + 32 * usize::from(ots.chain_count()))
}
