//! Chains, run to their ends.

ghost use Rattle.std.specs.Prelude.{◌≡◌, ℕ, [], ◌-◌, ◌<◌, ◌≤◌, ◌↔◌, length, slice_index, slice_index_or, true, All, Contains};
ghost use Rattle.lms_sign.specs.declared.open_chain.OpenChain.{OpenChain};
ghost use Rattle.lms_sign.specs.within.OpenChains.{HasRoom, IsAhead, leads_to};

use crate::chain_lanes::run_to_first_end;
use crate::chain_order::{MOST_CHAINS, sort_chains};
use crate::open_chain::OpenChain;
use crate::stretches::run_long_chains;

/// Returns the numbers of the chains that run next: the last eight of the first `alive` of `order`. If these are fewer, the
/// first of them stands in for those that are missing.
fn lanes(order: &[(u8, u16)], alive: usize) -> [u16; 8]
    requires some { 0 < alive }
    requires alive { alive ≤ length order.now }
    ensures { (l : ℕ) (d : ℕ × ℕ) → l < 8 → slice_index result l ≡ (slice_index_or order.now (alive - 1 - l) d).1 }
{
    let mut numbers = [0u16; 8];
    for l in 0..8usize {
        numbers[l] = order[(alive - 1).saturating_sub(l)].1;
    }
    numbers
}

/// Runs the chains that `order` lists to their ends. Those that are not at their ends stand at its front, and the last
/// eight of them have the lanes. If one ends, the last takes its place, so that the next comes in.
fn run_in_order(chains: &mut [OpenChain], order: &mut [(u8, u16)])
    requires room { All HasRoom chains.old }
    requires entries { All (λ x. x.1 < length chains.old) order.old }
    ensures len { length chains.new ≡ length chains.old }
    ensures ahead { (i : ℕ) (d : OpenChain) → i < length chains.old → IsAhead (slice_index_or chains.old i d) (slice_index_or chains.new i d) }
    ensures ended { All (λ x. (d : OpenChain) → (slice_index_or chains.new x.1 d).left ≡ 0) order.old }
{
    let count = order.len();
    for ended in 0..count {
        let alive = count - ended;
        let lane = run_to_first_end(chains, &lanes(order, alive));
        order.swap(alive - 1, (alive - 1).saturating_sub(lane));
    }
}

/// Returns whether each chain is at its end.
fn all_ended(chains: &[OpenChain]) -> bool
    ensures { result ≡ true ↔ All (λ chain. chain.left ≡ 0) chains.now }
{
    chains.iter().all(|chain| chain.left == 0)
}

/// Runs each chain to its end, eight at a time. Those with the most steps left come first. If one ends, the next takes its
/// lane.
// It is not inlined, so that the array stands in its own frame and in no caller's (docs/DECISIONS.md, "Signatures").
#[inline(never)]
fn run_longest_first(chains: &mut [OpenChain])
    requires count { length chains.old ≤ MOST_CHAINS }
    requires room { All HasRoom chains.old }
    ensures len { length chains.new ≡ length chains.old }
    ensures ahead { (i : ℕ) (d : OpenChain) → i < length chains.old → IsAhead (slice_index_or chains.old i d) (slice_index_or chains.new i d) }
    ensures ended { (i : ℕ) (d : OpenChain) → i < length chains.old → (slice_index_or chains.new i d).left ≡ 0 }
{
    let mut numbers = [(0u8, 0u16); MOST_CHAINS];
    let order = &mut numbers[..chains.len()];
    sort_chains(chains, order);
    run_in_order(chains, order);
}

/// Runs each chain to its end, eight at a time.
pub(crate) fn run_all(chains: &mut [OpenChain])
    requires count { length chains.old ≤ MOST_CHAINS }
    requires room { All HasRoom chains.old }
    ensures len { length chains.new ≡ length chains.old }
    ensures places { (i : ℕ) (d : OpenChain) → i < length chains.old → (slice_index_or chains.new i d).place ≡ (slice_index_or chains.old i d).place }
    ensures values { (i : ℕ) (d : OpenChain) → i < length chains.old → (slice_index_or chains.new i d).value ≡ leads_to (slice_index_or chains.old i d) }
{
    run_long_chains(chains);
    if !all_ended(chains) {
        run_longest_first(chains);
    }
}
