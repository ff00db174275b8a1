//! The leaves of eight signatures, and their paths up to the roots, side by side (RFC 8554, section 5.4.2).

ghost use Rattle.std.specs.Prelude.{◌≡◌, ℕ, [], ◌+◌, ◌*◌, ◌/◌, ◌^◌, ◌<◌, ◌≤◌, length, min, take, slice_index_or};
ghost use Rattle.sha2.specs.Sha256.{sha256};
ghost use Rattle.lms_sign.specs.declared.signed.Signed.{Signed};
ghost use Rattle.lms_sign.specs.declared.types.OtsType.{OtsType};
ghost use Rattle.lms_sign.specs.MerkleTree.{inner_hash, leaf_hash};
ghost use Rattle.lms_sign.specs.Parameters.{height};
ghost use Rattle.lms_sign.specs.within.Eights.{HasForm, IsGroup, hash_above, key_of, node_of};

use crate::open_chain::chain_place;
use crate::signed::Signed;
use crate::text::{hash_at, put, u32_at};
use crate::tree::{D_INTR, D_LEAF};
use sha256_lanes::eight_digests;

/// The number of the leaf's node.
fn node_of(signed: &Signed) -> u32
    requires { HasForm signed.now.key.now signed.now.signature.now }
    ensures value { result ≡ node_of signed.now }
    ensures most { result < 2 * 2 ^ height signed.now.key.now.lms_type }
{
    signed.key.lms_type.leaf_count() + u32_at(signed.signature, 0)
}

/// The text whose digest is the hash of a leaf.
fn leaf_text(id: &[u8; 16], r: u32, key: &[u8; 32]) -> [u8; 54]
    ensures hash { sha256 result ≡ leaf_hash id.now r key.now }
    ensures len { length result ≡ 54 }
{
    let mut text = [0u8; 54];
    put(&mut text, 0, &chain_place(id, r, D_LEAF));
    put(&mut text, 22, key);
    text
}

/// The text whose digest is the hash of an inner node.
fn node_text(id: &[u8; 16], r: u32, left: &[u8], right: &[u8]) -> [u8; 86]
    requires left { length left.now ≡ 32 }
    requires right { length right.now ≡ 32 }
    ensures hash { sha256 result ≡ inner_hash id.now r left.now right.now }
    ensures len { length result ≡ 86 }
{
    let mut text = [0u8; 86];
    put(&mut text, 0, &chain_place(id, r, D_INTR));
    put(&mut text, 22, left);
    put(&mut text, 54, right);
    text
}

/// Returns the hash of each signature's leaf.
fn leaf_hashes(group: &[Signed; 8], keys: &[[u8; 32]; 8]) -> [[u8; 32]; 8]
    requires group { (ots : OtsType) × ((n : ℕ) × IsGroup ots n group.now) }
    requires keys { (j : ℕ) (d : Signed) → j < 8 → slice_index_or keys.now j [] ≡ key_of (slice_index_or group.now j d) }
    ensures { (j : ℕ) (d : Signed) → j < 8 → slice_index_or result j [] ≡ hash_above (slice_index_or group.now j d) 0 }
{
    let mut texts = [[0u8; 54]; 8];
    for j in 0..8usize {
        let key = group[j].key;
        texts[j] = leaf_text(&key.id, node_of(&group[j]), &keys[j]);
    }
    eight_digests(&texts, 54)
}

/// Returns the text whose digest is the hash of the node `k + 1` levels above the leaf. `hash` is that of the node below it.
fn text_above(signed: &Signed, k: usize, hash: &[u8; 32]) -> [u8; 86]
    requires form { HasForm signed.now.key.now signed.now.signature.now }
    requires level { k < height signed.now.key.now.lms_type }
    requires hash { hash.now ≡ hash_above signed.now k }
    ensures hash { sha256 result ≡ hash_above signed.now (k + 1) }
    ensures len { length result ≡ 86 }
{
    let node = node_of(signed) >> k;
    let place = 44 + 32 * usize::from(signed.key.ots_type.chain_count());
    let sibling = hash_at(signed.signature, place + 32 * k);
    if node % 2 == 1 {
        node_text(&signed.key.id, node / 2, sibling, hash)
    } else {
        node_text(&signed.key.id, node / 2, hash, sibling)
    }
}

/// Returns what `text_above` makes of each signature whose path goes on.
fn texts_above(group: &[Signed; 8], k: usize, hashes: &[[u8; 32]; 8]) -> [[u8; 86]; 8]
    requires group { (ots : OtsType) × ((n : ℕ) × IsGroup ots n group.now) }
    requires hashes { (j : ℕ) (d : Signed) → j < 8 → slice_index_or hashes.now j [] ≡ hash_above (slice_index_or group.now j d) (min k (height (slice_index_or group.now j d).key.now.lms_type)) }
    ensures { (j : ℕ) (d : Signed) → j < 8 → k < height (slice_index_or group.now j d).key.now.lms_type
        → sha256 (take 86 (slice_index_or result j [])) ≡ hash_above (slice_index_or group.now j d) (k + 1) }
{
    let mut texts = [[0u8; 86]; 8];
    for j in 0..8usize {
        if k < group[j].key.lms_type.height() {
            texts[j] = text_above(&group[j], k, &hashes[j]);
        }
    }
    texts
}

/// Returns the hashes of the nodes one level higher. A path that is at its end stays there.
fn risen(group: &[Signed; 8], k: usize, hashes: &[[u8; 32]; 8]) -> [[u8; 32]; 8]
    requires group { (ots : OtsType) × ((n : ℕ) × IsGroup ots n group.now) }
    requires hashes { (j : ℕ) (d : Signed) → j < 8 → slice_index_or hashes.now j [] ≡ hash_above (slice_index_or group.now j d) (min k (height (slice_index_or group.now j d).key.now.lms_type)) }
    ensures { (j : ℕ) (d : Signed) → j < 8 → slice_index_or result j [] ≡ hash_above (slice_index_or group.now j d) (min (k + 1) (height (slice_index_or group.now j d).key.now.lms_type)) }
{
    let digests = eight_digests(&texts_above(group, k, hashes), 86);
    let mut risen = [[0u8; 32]; 8];
    for j in 0..8usize {
        let goes_on = k < group[j].key.lms_type.height();
        risen[j] = if goes_on { digests[j] } else { hashes[j] };
    }
    risen
}

/// The greatest height of a tree.
fn tallest(group: &[Signed; 8]) -> usize
    ensures { (j : ℕ) (d : Signed) → j < 8 → height (slice_index_or group.now j d).key.now.lms_type ≤ result }
{
    let mut most = 0;
    for j in 0..8usize {
        most = most.max(group[j].key.lms_type.height());
    }
    most
}

/// Returns Tc, the root that each signature gives. `keys` are the one-time public keys.
pub(crate) fn root_candidates(group: &[Signed; 8], keys: &[[u8; 32]; 8]) -> [[u8; 32]; 8]
    requires group { (ots : OtsType) × ((n : ℕ) × IsGroup ots n group.now) }
    requires keys { (j : ℕ) (d : Signed) → j < 8 → slice_index_or keys.now j [] ≡ key_of (slice_index_or group.now j d) }
    ensures { (j : ℕ) (d : Signed) → j < 8 → slice_index_or result j [] ≡ hash_above (slice_index_or group.now j d) (height (slice_index_or group.now j d).key.now.lms_type) }
{
    let mut hashes = leaf_hashes(group, keys);
    for k in 0..tallest(group) {
        let next = risen(group, k, &hashes);
        hashes = next;
    }
    hashes
}
