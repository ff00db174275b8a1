//! Chains that are being run (RFC 8554, section 4.3).

ghost use Rattle.std.specs.Prelude.{◌≡◌, ℕ, List, [], ◌+◌, ◌*◌, ◌<◌, ◌≤◌, ◌++◌, length, take, slice_index_or};
ghost use Rattle.lms_sign.specs.declared.open_chain.OpenChain.{OpenChain};
ghost use Rattle.lms_sign.specs.OneTimeSignature.{chain_place};
ghost use Rattle.lms_sign.specs.Signing.{joined};

use crate::text::{put, put_hash};

/// A chain that is being run: what each of its texts begins with, the number of its next step, the steps that it has
/// left, and its value.
#[derive(Clone, Copy)]
pub(crate) struct OpenChain {
    pub(crate) place: [u8; 22],
    pub(crate) step: u16,
    pub(crate) left: u8,
    pub(crate) value: [u8; 32],
}

/// A chain of zeros, which fills an array at first.
pub(crate) const NO_CHAIN: OpenChain = OpenChain {
    place: [0; 22],
    step: 0,
    left: 0,
    value: [0; 32],
};

/// Returns what each text of chain `i` of leaf `q` begins with. Texts of other kinds have a mark in the place of `i`.
pub(crate) fn chain_place(id: &[u8; 16], q: u32, i: u16) -> [u8; 22]
    ensures { result ≡ chain_place id.now q i }
{
    let mut text = [0u8; 22];
    put(&mut text, 0, id);
    put(&mut text, 16, &q.to_be_bytes());
    put(&mut text, 20, &i.to_be_bytes());
    text
}

/// Writes the chains' values.
pub(crate) fn write_values(chains: &[OpenChain], values: &mut [[u8; 32]])
    requires { length values.old ≡ length chains.now }
    ensures len { length values.new ≡ length chains.now }
    ensures each { (i : ℕ) (d : OpenChain) → i < length chains.now → slice_index_or values.new i [] ≡ (slice_index_or chains.now i d).value }
{
    for i in 0..chains.len() {
        values[i] = chains[i].value;
    }
}

/// Writes the chains' values into a text in a row, from a place on.
pub(crate) fn put_values(out: &mut [u8], place: usize, chains: &[OpenChain])
    requires { place + 32 * length chains.now ≤ length out.old }
    ensures { (f : ℕ → List ℕ) → ((i : ℕ) (d : OpenChain) → i < length chains.now → (slice_index_or chains.now i d).value ≡ f i)
        → take (place + 32 * length chains.now) out.new ≡ take place out.old ++ joined f (length chains.now) }
{
    for i in 0..chains.len() {
        put_hash(out, place + 32 * i, &chains[i].value);
    }
}
