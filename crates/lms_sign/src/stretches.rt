//! Long chains, run in stretches. Their steps, one chain's after another's, are cut into as many equal stretches as there are
//! lanes.

ghost use Rattle.std.specs.Prelude.{◌≡◌, ℕ, ◌*◌, ◌<◌, ◌≤◌, length, slice_index, slice_index_or, All};
ghost use Rattle.lms_sign.specs.declared.open_chain.OpenChain.{OpenChain};
ghost use Rattle.lms_sign.specs.declared.stretches.Stretch.{Stretch};
ghost use Rattle.lms_sign.specs.within.OpenChains.{HasRoom, IsAhead};

use crate::chain_lanes::{LANES, run_lanes};
use crate::chain_order::MOST_CHAINS;
use crate::open_chain::OpenChain;

/// Chains are long if they have more than this number of steps left on average.
const LONG: u32 = 64;

/// What is left of a lane's stretch: its chain, the number of steps that the lane takes of it, and of those that it takes of the
/// chains behind it.
#[derive(Clone, Copy)]
struct Stretch {
    chain: u16,
    steps: u32,
    rest: u32,
}

impl Stretch {
    /// Returns whether the lane is at the stretch's end.
    fn is_done(&self) -> bool {
        self.steps == 0 && self.rest == 0
    }

    /// The steps that the lane takes of its chain.
    fn reach(&self, chains: &[OpenChain]) -> u8
        requires { self.now.chain < length chains.now }
        ensures { (d : OpenChain) → result ≤ (slice_index_or chains.now self.now.chain d).left }
    {
        let left = chains[usize::from(self.chain)].left;
        left.min(self.steps.min(255) as u8)
    }

    /// Returns the stretch `count` steps on. If it is done with its chain, the next one comes.
    fn moved(self, chains: &[OpenChain], count: u8) -> Stretch
        requires chain { self.chain < length chains.now }
        requires most { length chains.now ≤ MOST_CHAINS }
        ensures { result.chain < length chains.now }
    {
        let steps = self.steps.saturating_sub(u32::from(count));
        if steps > 0 {
            return Stretch { steps, ..self };
        }
        let Some(next) = chains.get(usize::from(self.chain) + 1) else {
            return Stretch {
                steps: 0,
                rest: 0,
                ..self
            };
        };
        let steps = self.rest.min(u32::from(next.left));
        Stretch {
            chain: self.chain + 1,
            steps,
            rest: self.rest - steps,
        }
    }
}

/// The steps that all chains have left.
fn steps_left(chains: &[OpenChain]) -> u32
    requires { length chains.now ≤ MOST_CHAINS }
    ensures { result ≤ 255 * length chains.now }
{
    let mut steps = 0;
    for i in 0..chains.len() {
        steps += u32::from(chains[i].left);
    }
    steps
}

/// Returns the stretches of `size` steps, one for each lane. If two of them share a chain, the later one has its first steps.
/// Its lane takes them at once, and the other lane takes the rest at the end.
fn cut(chains: &[OpenChain], size: u32) -> [Stretch; LANES]
    requires some { 0 < length chains.now }
    requires most { length chains.now ≤ MOST_CHAINS }
    ensures { (l : ℕ) (d : Stretch) → l < 8 → (slice_index_or result l d).chain < length chains.now }
{
    let mut stretches = [Stretch {
        chain: 0,
        steps: 0,
        rest: 0,
    }; LANES];
    let mut lane = 0;
    let mut room = 0;
    for i in 0..chains.len() {
        let left = u32::from(chains[i].left);
        if left <= room {
            room -= left;
        } else if lane < LANES {
            let steps = left - room;
            room = size.saturating_sub(steps);
            stretches[lane] = Stretch {
                chain: i as u16,
                steps,
                rest: room,
            };
            lane += 1;
        }
    }
    stretches
}

/// Returns which lane is the first to leave its chain, of those that are not done.
fn first_to_leave(stretches: &[Stretch; LANES]) -> usize
    ensures { result < 8 }
{
    let mut first = 0;
    for l in 0..LANES {
        let is_sooner = stretches[l].steps < stretches[first].steps || stretches[first].is_done();
        if is_sooner && !stretches[l].is_done() {
            first = l;
        }
    }
    first
}

/// Returns the chains that the lanes run `count` steps on. If a lane has fewer steps to go, it gets the chain of lane `first`.
fn lanes(
    chains: &[OpenChain],
    stretches: &[Stretch; LANES],
    first: usize,
    count: u8,
) -> [u16; LANES]
    requires first { first < 8 }
    requires chains { (l : ℕ) (d : Stretch) → l < 8 → (slice_index_or stretches.now l d).chain < length chains.now }
    requires count { (e : Stretch) (d : OpenChain) → count ≤ (slice_index_or chains.now (slice_index_or stretches.now first e).chain d).left }
    ensures lanes { (l : ℕ) → l < 8 → slice_index result l < length chains.now }
    ensures count { (l : ℕ) (d : OpenChain) → l < 8 → count ≤ (slice_index_or chains.now (slice_index result l) d).left }
{
    let mut numbers = [stretches[first].chain; LANES];
    for l in 0..LANES {
        let chain = stretches[l].chain;
        if stretches[l].steps >= u32::from(count) && chains[usize::from(chain)].left >= count {
            numbers[l] = chain;
        }
    }
    numbers
}

/// Runs the chains in the lanes until the first leaves its chain, and returns the number of steps.
fn run_to_next(chains: &mut [OpenChain], stretches: &[Stretch; LANES]) -> u8
    requires chains { (l : ℕ) (d : Stretch) → l < 8 → (slice_index_or stretches.now l d).chain < length chains.old }
    requires room { All HasRoom chains.old }
    ensures len { length chains.new ≡ length chains.old }
    ensures ahead { (i : ℕ) (d : OpenChain) → i < length chains.old → IsAhead (slice_index_or chains.old i d) (slice_index_or chains.new i d) }
{
    let first = first_to_leave(stretches);
    let count = stretches[first].reach(chains);
    if count > 0 {
        let lanes = lanes(chains, stretches, first, count);
        run_lanes(chains, &lanes, count);
    }
    count
}

/// Moves each stretch `count` steps on.
fn move_on(stretches: &mut [Stretch; LANES], chains: &[OpenChain], count: u8)
    requires most { length chains.now ≤ MOST_CHAINS }
    requires chains { (l : ℕ) (d : Stretch) → l < 8 → (slice_index_or stretches.old l d).chain < length chains.now }
    ensures chains { (l : ℕ) (d : Stretch) → l < 8 → (slice_index_or stretches.new l d).chain < length chains.now }
{
    for l in 0..LANES {
        stretches[l] = stretches[l].moved(chains, count);
    }
}

/// Runs the chains by stretches of `size` steps, one for each lane. Suppose that `size` is at least an eighth of all steps, and
/// that no chain has more of them left. Then all chains are at their ends afterwards, and no lane has waited but at the end. No
/// contract says so. What stretches leave is run longest first.
fn run_stretches(chains: &mut [OpenChain], size: u32)
    requires some { 0 < length chains.old }
    requires most { length chains.old ≤ MOST_CHAINS }
    requires room { All HasRoom chains.old }
    ensures len { length chains.new ≡ length chains.old }
    ensures ahead { (i : ℕ) (d : OpenChain) → i < length chains.old → IsAhead (slice_index_or chains.old i d) (slice_index_or chains.new i d) }
{
    let mut stretches = cut(chains, size);
    for _ in 0..chains.len() + LANES {
        let count = run_to_next(chains, &stretches);
        move_on(&mut stretches, chains, count);
    }
}

/// Runs chains that have many steps left, as those of W8 do, by stretches of an eighth of all steps. Short chains stay where
/// they are. They leave their lanes so often that a cut costs more than it saves.
pub(crate) fn run_long_chains(chains: &mut [OpenChain])
    requires most { length chains.old ≤ MOST_CHAINS }
    requires room { All HasRoom chains.old }
    ensures len { length chains.new ≡ length chains.old }
    ensures ahead { (i : ℕ) (d : OpenChain) → i < length chains.old → IsAhead (slice_index_or chains.old i d) (slice_index_or chains.new i d) }
{
    let steps = steps_left(chains);
    if steps > LONG * chains.len() as u32 {
        run_stretches(chains, steps.div_ceil(LANES as u32));
    }
}
