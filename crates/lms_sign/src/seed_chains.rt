//! Chains of leaves whose keys are made of a seed (RFC 8554, sections 4.3 and 4.5, and appendix A).

ghost use Rattle.std.specs.Prelude.{◌≡◌, ℕ, [], ◌+◌, ◌*◌, ◌^◌, ◌<◌, ◌≤◌, length, slice_index, slice_index_or, All};
ghost use Rattle.lms_sign.specs.declared.open_chain.OpenChain.{OpenChain};
ghost use Rattle.lms_sign.specs.Parameters.{chain_count};
ghost use Rattle.lms_sign.specs.Signing.{chain_at};
ghost use Rattle.lms_sign.specs.within.OpenChains.{HasRoom, from_seed, restarted};

use crate::chain_order::MOST_CHAINS;
use crate::chain_runs::run_all;
use crate::open_chain::{NO_CHAIN, OpenChain, chain_place, write_values};
use crate::types::OtsType;

/// Stands in the place of a step's number when the start of a chain is made of the seed.
const D_SECRET: u16 = 0xff;

/// What the one-time keys of a tree are made of (appendix A).
#[derive(Drop)]
pub(crate) struct OneTimeKeys {
    pub(crate) ots_type: OtsType,
    /// I, the identifier.
    pub(crate) id: [u8; 16],
    pub(crate) seed: [u8; 32],
}

/// Begins the chains again. Each is at step 0, and chain `k` has `steps[k]` steps left.
fn restart(chains: &mut [OpenChain], steps: &[u8])
    requires { length steps.now ≡ length chains.old }
    ensures len { length chains.new ≡ length chains.old }
    ensures room { All HasRoom chains.new }
    ensures each { (k : ℕ) (d : OpenChain) → k < length chains.old → slice_index_or chains.new k d ≡ restarted (slice_index_or chains.old k d) (slice_index steps.now k) }
{
    for k in 0..chains.len() {
        chains[k].step = 0;
        chains[k].left = steps[k];
    }
}

impl OneTimeKeys {
    /// Opens the chains of `leaves` leaves from leaf `q` on, one leaf after the other, before their starts are made.
    fn open_chains(&self, q: u32, leaves: u32, chains: &mut [OpenChain])
        requires few { q + leaves ≤ 2 ^ 32 }
        requires len { length chains.old ≡ leaves * chain_count self.now.ots_type }
        ensures len { length chains.new ≡ length chains.old }
        ensures room { All HasRoom chains.new }
        ensures each { (j i : ℕ) (d : OpenChain) → j < leaves → i < chain_count self.now.ots_type → slice_index_or chains.new (j * chain_count self.now.ots_type + i) d ≡ from_seed self.now.id self.now.seed (q + j) i }
    {
        let count = usize::from(self.ots_type.chain_count());
        for k in 0..chains.len() {
            let leaf = q + (k / count) as u32;
            chains[k] = OpenChain {
                place: chain_place(&self.id, leaf, (k % count) as u16),
                step: D_SECRET,
                left: 1,
                value: self.seed,
            };
        }
    }

    /// Writes a value of each chain of `leaves` leaves from leaf `q` on, one leaf after the other. Of all these chains, the
    /// value of chain `k` is `steps[k]` steps from its start. The chains of all these leaves run together.
    // It is not inlined, so that the array stands in its own frame and in no caller's (docs/DECISIONS.md, "Signatures").
    #[inline(never)]
    pub(crate) fn write_chain_values(
        &self,
        q: u32,
        leaves: u32,
        steps: &[u8],
        values: &mut [[u8; 32]],
    )
        requires few { q + leaves ≤ 2 ^ 32 }
        requires most { leaves * chain_count self.now.ots_type ≤ MOST_CHAINS }
        requires steps { length steps.now ≡ leaves * chain_count self.now.ots_type }
        requires values { length values.old ≡ leaves * chain_count self.now.ots_type }
        ensures len { length values.new ≡ leaves * chain_count self.now.ots_type }
        ensures each { (j i : ℕ) → j < leaves → i < chain_count self.now.ots_type → slice_index_or values.new (j * chain_count self.now.ots_type + i) [] ≡ chain_at self.now.id self.now.seed (q + j) i (slice_index steps.now (j * chain_count self.now.ots_type + i)) }
    {
        let mut chains = [NO_CHAIN; MOST_CHAINS];
        let chains = &mut chains[..steps.len()];
        self.open_chains(q, leaves, chains);
        run_all(chains);
        restart(chains, steps);
        run_all(chains);
        write_values(chains, values);
    }
}
