//! The text of a signature (RFC 8554, sections 4.5 and 5.4.1).

ghost use Rattle.std.specs.Prelude.{◌≡◌, ℕ, List, ◌+◌, ◌*◌, ◌/◌, ◌^◌, ◌<◌, ◌≤◌, ◌++◌, [], length, take, slice_index, slice_index_or};
ghost use Rattle.lms_sign.specs.Numbers.{coef};
ghost use Rattle.lms_sign.specs.Parameters.{chain_count, width};
ghost use Rattle.lms_sign.specs.Signing.{chain_values, joined, sibling};

use crate::chain_order::MOST_CHAINS;
use crate::coefficients::coefficient;
use crate::seed_chains::OneTimeKeys;
use crate::text::put;
use crate::types::OtsType;

/// Writes how many steps each chain of a signature takes from its start. These are the coefficients of `text`, which is the
/// digest and its checksum.
fn write_steps(text: &[u8; 34], ots: OtsType, steps: &mut [u8])
    requires { length steps.old ≡ chain_count ots }
    ensures len { length steps.new ≡ chain_count ots }
    ensures each { (i : ℕ) → i < chain_count ots → slice_index steps.new i ≡ coef text.now i (width ots) }
{
    for i in 0..ots.chain_count() {
        steps[usize::from(i)] = coefficient(text, i, ots);
    }
}

/// Writes hashes in a row, from a place on.
fn put_hashes(out: &mut [u8], place: usize, hashes: &[[u8; 32]])
    requires { place + 32 * length hashes.now ≤ length out.old }
    ensures { (f : ℕ → List ℕ) → ((i : ℕ) → i < length hashes.now → slice_index_or hashes.now i [] ≡ f i)
        → take (place + 32 * length hashes.now) out.new ≡ take place out.old ++ joined f (length hashes.now) }
{
    for i in 0..hashes.len() {
        put(out, place + 32 * i, &hashes[i]);
    }
}

/// Writes what a signature has of the chains of leaf `q`, from a place on. `text` is the digest and its checksum.
// It is not inlined, so that the arrays stand in its own frame and in no caller's (docs/DECISIONS.md, "Signatures").
#[inline(never)]
pub(crate) fn put_chain_values(
    out: &mut [u8],
    place: usize,
    keys: &OneTimeKeys,
    q: u32,
    text: &[u8; 34],
)
    requires { place + 32 * chain_count keys.now.ots_type ≤ length out.old }
    ensures { take (place + 32 * chain_count keys.now.ots_type) out.new ≡ take place out.old ++ chain_values keys.now.ots_type keys.now.id keys.now.seed q text.now }
{
    let count = usize::from(keys.ots_type.chain_count());
    let mut steps = [0u8; MOST_CHAINS];
    let steps = &mut steps[..count];
    write_steps(text, keys.ots_type, steps);
    let mut values = [[0u8; 32]; MOST_CHAINS];
    let values = &mut values[..count];
    keys.write_chain_values(q, 1, steps, values);
    put_hashes(out, place, values);
}

/// Returns the other child of the same node.
fn sibling(r: u32) -> u32
    ensures { result ≡ sibling r }
{
    if r % 2 == 1 { r - 1 } else { r + 1 }
}

/// Writes the hashes of the siblings of the nodes from `leaf` up, from a place on.
#[tactic(auto, unfolding(crate::specs::Signing::joined))]
pub(crate) fn put_path(out: &mut [u8], place: usize, nodes: &[[u8; 32]], leaf: u32, height: usize)
    requires room { place + 32 * height ≤ length out.old }
    requires nodes { length nodes.now ≡ 2 * 2 ^ height }
    requires leaf { leaf < 2 * 2 ^ height }
    ensures { take (place + 32 * height) out.new ≡ take place out.old ++ joined (λ k. slice_index_or nodes.now (sibling (leaf / 2 ^ k)) []) height }
{
    let mut node = leaf;
    for k in 0..height {
        put(out, place + 32 * k, &nodes[sibling(node) as usize]);
        node /= 2;
    }
}
