//! Chains in eight lanes.

ghost use Rattle.std.specs.Prelude.{◌≡◌, ℕ, [], ◌+◌, ◌-◌, ◌<◌, ◌≤◌, length, slice_index, slice_index_or, All};
ghost use Rattle.lms_sign.specs.declared.open_chain.OpenChain.{OpenChain};
ghost use Rattle.lms_sign.specs.within.OpenChains.{HasRoom, IsAhead};

use crate::open_chain::{NO_CHAIN, OpenChain};
use sha256_lanes::eight_chains;

/// The number of lanes.
pub(crate) const LANES: usize = 8;

/// The chains in the lanes.
fn in_lanes(chains: &[OpenChain], lanes: &[u16; LANES]) -> [OpenChain; LANES]
    requires { (l : ℕ) → l < 8 → slice_index lanes.now l < length chains.now }
    ensures { (l : ℕ) (d : OpenChain) → l < 8 → slice_index_or result l d ≡ slice_index_or chains.now (slice_index lanes.now l) d }
{
    let mut runs = [NO_CHAIN; LANES];
    for l in 0..LANES {
        runs[l] = chains[usize::from(lanes[l])];
    }
    runs
}

/// The place of the chain in each lane.
fn places(runs: &[OpenChain; LANES]) -> [[u8; 22]; LANES]
    ensures { (l : ℕ) (d : OpenChain) → l < 8 → slice_index_or result l [] ≡ (slice_index_or runs.now l d).place }
{
    let mut places = [[0u8; 22]; LANES];
    for l in 0..LANES {
        places[l] = runs[l].place;
    }
    places
}

/// The number of each lane's next step.
fn steps(runs: &[OpenChain; LANES]) -> [u8; LANES]
    requires { (l : ℕ) (d : OpenChain) → l < 8 → (slice_index_or runs.now l d).step < 256 }
    ensures { (l : ℕ) (d : OpenChain) → l < 8 → slice_index result l ≡ (slice_index_or runs.now l d).step }
{
    let mut steps = [0u8; LANES];
    for l in 0..LANES {
        steps[l] = runs[l].step as u8;
    }
    steps
}

/// The value in each lane.
fn values(runs: &[OpenChain; LANES]) -> [[u8; 32]; LANES]
    ensures { (l : ℕ) (d : OpenChain) → l < 8 → slice_index_or result l [] ≡ (slice_index_or runs.now l d).value }
{
    let mut values = [[0u8; 32]; LANES];
    for l in 0..LANES {
        values[l] = runs[l].value;
    }
    values
}

/// The chains in the lanes, `count` steps on.
fn moved(runs: &[OpenChain; LANES], count: u8) -> [OpenChain; LANES]
    requires some { 0 < count }
    requires room { (l : ℕ) (d : OpenChain) → l < 8 → HasRoom (slice_index_or runs.now l d) }
    requires count { (l : ℕ) (d : OpenChain) → l < 8 → count ≤ (slice_index_or runs.now l d).left }
    ensures ahead { (l : ℕ) (d : OpenChain) → l < 8 → IsAhead (slice_index_or runs.now l d) (slice_index_or result l d) }
    ensures left { (l : ℕ) (d : OpenChain) → l < 8 → (slice_index_or result l d).left ≡ (slice_index_or runs.now l d).left - count }
{
    let after = eight_chains(&places(runs), steps(runs), count, &values(runs));
    let mut moved = *runs;
    for l in 0..LANES {
        moved[l] = OpenChain {
            place: runs[l].place,
            step: runs[l].step + u16::from(count),
            left: runs[l].left - count,
            value: after[l],
        };
    }
    moved
}

/// Runs the chains in the lanes `count` steps on. A chain may stand in more than one lane.
pub(crate) fn run_lanes(chains: &mut [OpenChain], lanes: &[u16; LANES], count: u8)
    requires some { 0 < count }
    requires lanes { (l : ℕ) → l < 8 → slice_index lanes.now l < length chains.old }
    requires room { All HasRoom chains.old }
    requires count { (l : ℕ) (d : OpenChain) → l < 8 → count ≤ (slice_index_or chains.old (slice_index lanes.now l) d).left }
    ensures len { length chains.new ≡ length chains.old }
    ensures ahead { (i : ℕ) (d : OpenChain) → i < length chains.old → IsAhead (slice_index_or chains.old i d) (slice_index_or chains.new i d) }
    ensures left { (l : ℕ) (d : OpenChain) → l < 8 → (slice_index_or chains.new (slice_index lanes.now l) d).left ≡ (slice_index_or chains.old (slice_index lanes.now l) d).left - count }
{
    let runs = in_lanes(chains, lanes);
    let moved = moved(&runs, count);
    for l in 0..LANES {
        chains[usize::from(lanes[l])] = moved[l];
    }
}

/// The lane whose chain has the fewest steps left.
fn first_to_end(chains: &[OpenChain], lanes: &[u16; LANES]) -> usize
    requires { (l : ℕ) → l < 8 → slice_index lanes.now l < length chains.now }
    ensures lane { result < 8 }
    ensures least { (l : ℕ) (d : OpenChain) → l < 8 → (slice_index_or chains.now (slice_index lanes.now result) d).left ≤ (slice_index_or chains.now (slice_index lanes.now l) d).left }
{
    let mut first = 0;
    for l in 0..LANES {
        if chains[usize::from(lanes[l])].left < chains[usize::from(lanes[first])].left {
            first = l;
        }
    }
    first
}

/// Runs the chains in the lanes until the first is at its end, and returns its lane.
pub(crate) fn run_to_first_end(chains: &mut [OpenChain], lanes: &[u16; LANES]) -> usize
    requires lanes { (l : ℕ) → l < 8 → slice_index lanes.now l < length chains.old }
    requires room { All HasRoom chains.old }
    ensures lane { result < 8 }
    ensures len { length chains.new ≡ length chains.old }
    ensures ahead { (i : ℕ) (d : OpenChain) → i < length chains.old → IsAhead (slice_index_or chains.old i d) (slice_index_or chains.new i d) }
    ensures ended { (d : OpenChain) → (slice_index_or chains.new (slice_index lanes.now result) d).left ≡ 0 }
{
    let first = first_to_end(chains, lanes);
    let count = chains[usize::from(lanes[first])].left;
    if count > 0 {
        run_lanes(chains, lanes, count);
    }
    first
}
