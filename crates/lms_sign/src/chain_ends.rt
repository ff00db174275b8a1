//! One-time public keys: that of a leaf, made of the ends of its chains, and that of a signature (RFC 8554, sections 4.3 and
//! 4.6).

ghost use Rattle.std.specs.Prelude.{◌≡◌, ℕ, List, [], ◌+◌, ◌*◌, ◌<◌, ◌≤◌, ◌++◌, length, take, slice_index_or, All};
ghost use Rattle.std.specs.List.{flat_map};
ghost use Rattle.lms_sign.specs.declared.open_chain.OpenChain.{OpenChain};
ghost use Rattle.lms_sign.specs.OneTimeSignature.{chain_end, chain_ends, key_hash};
ghost use Rattle.lms_sign.specs.Parameters.{chain_count};
ghost use Rattle.lms_sign.specs.Signing.{joined};
ghost use Rattle.lms_sign.specs.within.OpenChains.{HasRoom, from_signature};

use crate::chain_order::MOST_CHAINS;
use crate::chain_runs::run_all;
use crate::coefficients::coefficient;
use crate::open_chain::{NO_CHAIN, OpenChain, chain_place, put_values, write_values};
use crate::text::array_at;
use crate::types::OtsType;
use sha2::{Digest, Sha256};

/// The mark of a text whose digest is K.
pub(crate) const D_PBLC: u16 = 0x8080;

/// Opens the chains of a signature by leaf `q`. `text` is the digest and its checksum, and `ys` begins with the chains'
/// values.
fn open_signature(
    ots: OtsType,
    id: &[u8; 16],
    q: u32,
    text: &[u8; 34],
    ys: &[u8],
    chains: &mut [OpenChain],
)
    requires values { 32 * chain_count ots ≤ length ys.now }
    requires chains { length chains.old ≡ chain_count ots }
    ensures len { length chains.new ≡ chain_count ots }
    ensures room { All HasRoom chains.new }
    ensures each { (i : ℕ) (d : OpenChain) → i < chain_count ots → slice_index_or chains.new i d ≡ from_signature ots id.now q text.now ys.now i }
{
    for i in 0..ots.chain_count() {
        let step = coefficient(text, i, ots);
        chains[usize::from(i)] = OpenChain {
            place: chain_place(id, q, i),
            step: u16::from(step),
            left: ots.last_step() - step,
            value: array_at(ys, 32 * usize::from(i)),
        };
    }
}

/// Returns K, the one-time public key, of the ends of all chains.
fn key_hash(id: &[u8; 16], q: u32, ends: &[[u8; 32]]) -> [u8; 32]
    ensures { result ≡ key_hash id.now q (flat_map (λ end. end) ends.now) }
{
    let mut hasher = Sha256::new();
    hasher.update(id);
    hasher.update(q.to_be_bytes());
    hasher.update(D_PBLC.to_be_bytes());
    hasher.update(ends.as_flattened());
    hasher.finalize()
}

/// Returns K of leaf `q`. The ends of its chains stand in `ends` from place `from` on.
pub(crate) fn key_of_ends(
    id: &[u8; 16],
    q: u32,
    ots: OtsType,
    ends: &[[u8; 32]],
    from: usize,
) -> [u8; 32]
    requires { from + chain_count ots ≤ length ends.now }
    ensures { (end : ℕ → List ℕ) → ((i : ℕ) → i < chain_count ots → slice_index_or ends.now (from + i) [] ≡ end i) → result ≡ key_hash id.now q (joined end (chain_count ots)) }
{
    let count = usize::from(ots.chain_count());
    key_hash(id, q, &ends[from..from + count])
}

/// Returns K of leaf `q`. Its chains stand at their ends.
// It is not inlined, so that the array stands in its own frame and in no caller's (docs/DECISIONS.md, "Signatures").
#[inline(never)]
fn key_of_ended_chains(id: &[u8; 16], q: u32, ots: OtsType, chains: &[OpenChain]) -> [u8; 32]
    requires { length chains.now ≡ chain_count ots }
    ensures { (end : ℕ → List ℕ) → ((i : ℕ) (d : OpenChain) → i < chain_count ots → (slice_index_or chains.now i d).value ≡ end i) → result ≡ key_hash id.now q (joined end (chain_count ots)) }
{
    let mut ends = [[0u8; 32]; MOST_CHAINS];
    let ends = &mut ends[..chains.len()];
    write_values(chains, ends);
    key_of_ends(id, q, ots, ends, 0)
}

/// Runs the chains of a signature to their ends. `text` is the digest and its checksum, and `ys` begins with the chains'
/// values.
fn run_signature(
    ots: OtsType,
    id: &[u8; 16],
    q: u32,
    text: &[u8; 34],
    ys: &[u8],
    chains: &mut [OpenChain],
)
    requires values { 32 * chain_count ots ≤ length ys.now }
    requires chains { length chains.old ≡ chain_count ots }
    ensures len { length chains.new ≡ chain_count ots }
    ensures ends { (i : ℕ) (d : OpenChain) → i < chain_count ots → (slice_index_or chains.new i d).value ≡ chain_end ots id.now q text.now ys.now i }
{
    open_signature(ots, id, q, text, ys, chains);
    run_all(chains);
}

/// Runs the chains of a signature to their ends, and returns K. `text` is the digest and its checksum, and `ys` begins with
/// the chains' values.
// It is not inlined, so that the array stands in its own frame and in no caller's (docs/DECISIONS.md, "Signatures").
#[inline(never)]
pub(crate) fn key_of_chains(
    id: &[u8; 16],
    q: u32,
    ots: OtsType,
    text: &[u8; 34],
    ys: &[u8],
) -> [u8; 32]
    requires { 32 * chain_count ots ≤ length ys.now }
    ensures { result ≡ key_hash id.now q (chain_ends ots id.now q text.now ys.now (chain_count ots)) }
{
    let mut chains = [NO_CHAIN; MOST_CHAINS];
    let chains = &mut chains[..usize::from(ots.chain_count())];
    run_signature(ots, id, q, text, ys, chains);
    key_of_ended_chains(id, q, ots, chains)
}

/// Writes the ends of a signature's chains behind 22 bytes. `text` is the digest and its checksum, and `ys` begins with the
/// chains' values.
// It is not inlined, so that the array stands in its own frame and in no caller's (docs/DECISIONS.md, "Signatures").
#[inline(never)]
pub(crate) fn put_chain_ends(
    out: &mut [u8],
    id: &[u8; 16],
    q: u32,
    ots: OtsType,
    text: &[u8; 34],
    ys: &[u8],
)
    requires values { 32 * chain_count ots ≤ length ys.now }
    requires room { 22 + 32 * chain_count ots ≤ length out.old }
    ensures { take (22 + 32 * chain_count ots) out.new ≡ take 22 out.old ++ chain_ends ots id.now q text.now ys.now (chain_count ots) }
{
    let mut chains = [NO_CHAIN; MOST_CHAINS];
    let chains = &mut chains[..usize::from(ots.chain_count())];
    run_signature(ots, id, q, text, ys, chains);
    put_values(out, 22, chains);
}
