//! Checks of a list of items by several workers.

ghost use Rattle.std.specs.Prelude.{◌≡◌, ◌↔◌, ◌+◌, ◌<◌, ◌≤◌, ◌^◌, ◌⊎◌, All, Err, IfOk, IfSome, length};
ghost use Rattle.evidence_item.specs.Examining.{IsExamined};
ghost use Rattle.parallel_checking.specs.Checks.{AreAnswers, IsAnswer};
ghost use Rattle.parallel_checking.specs.Parts.{AreKnown};
ghost use Rattle.parallel_checking.specs.within.Blocks.{AreBlocksAnswered, IsBlockAnsweredAt};
ghost use Rattle.parallel_checking.specs.declared.fault.CheckAllFault.TheVariants as all;
ghost use Rattle.parallel_checking.specs.declared.limits.TheConstants.{MOST_WORKERS};

use crate::blocks::{Block, block_size, blocks_of, joined};
use crate::fault::CheckAllFault;
use crate::limits::MOST_WORKERS;
use authenticators::Directory;
use evidence_item::{Checked, Examined, Item, ItemFault, check_examined, check_item, examine_all};
use outcome::Memory;
use parallel_map::map_claimed;
use replay_verifier::Program;
use std::alloc::{AllocError, Global};
use std::thread::Threads;

/// A receiver of the calls that workers make before and after each check. Workers in different threads call it at once.
pub trait Gate {
    /// Is called when a worker is about to check the item at this place. If the worker checks several items together, it has verified their
    /// signatures before this call.
    fn enter(&self, item: usize);

    /// Is called when the worker has checked the item at this place.
    fn leave(&self, item: usize);
}

/// A gate that does nothing.
#[derive(Clone, Copy, Debug)]
pub struct OpenGate;

impl Gate for OpenGate {
    fn enter(&self, _item: usize) {}

    fn leave(&self, _item: usize) {}
}

/// Checks a copy of the item. It returns `Memory` if the item cannot be copied.
pub(crate) fn check_copy<P: Program>(
    alloc: Global,
    program: &P,
    directory: &Directory,
    item: &Item,
) -> Result<Checked<P>, ItemFault>
    ensures { IsAnswer directory.now P.means item.now result }
{
    let copy = item.try_clone(alloc)?;
    check_item(alloc, program, directory, copy)
}

/// Checks a copy of an item of which something may be known.
fn check_known<P: Program>(
    alloc: Global,
    program: &P,
    directory: &Directory,
    item: &Item,
    examined: Option<&Examined>,
) -> Result<Checked<P>, ItemFault>
    requires { IfSome examined (λ e. IsExamined directory.now item.now.fields e.now) }
    ensures { IsAnswer directory.now P.means item.now result }
{
    let Some(examined) = examined else {
        return check_copy(alloc, program, directory, item);
    };
    let copy = item.try_clone(alloc)?;
    check_examined(alloc, program, directory, copy, *examined)
}

/// Returns what [`examine_all`] finds of the items before they are checked. It returns an empty list for fewer than three items, since
/// their signatures are verified as fast alone. It also returns an empty list if memory is refused, so the call itself has no refusal.
pub fn examine_some(alloc: Global, directory: &Directory, items: &[Item]) -> Vec<Examined>
    ensures { AreKnown directory.now items.now result.items }
{
    if items.len() < 3 {
        return Vec::new(alloc);
    }
    match examine_all(alloc, directory, items) {
        Ok(examined) => examined,
        Err(AllocError) => Vec::new(alloc),
    }
}

/// Checks a copy of each item of the block. The signatures are verified together.
fn check_block<P: Program, G: Gate>(
    alloc: Global,
    program: &P,
    directory: &Directory,
    block: &Block,
    gate: &G,
) -> Result<Vec<Result<Checked<P>, ItemFault>>, Memory>
    requires { block.now.start + length block.now.items.now < 2 ^ 64 }
    ensures { IfOk result (λ v. AreAnswers directory.now P.means block.now.items.now v.items) }
{
    let items = block.items;
    let examined = examine_some(alloc, directory, items);
    let mut answers = Vec::with_capacity(alloc, items.len())?;
    for k in 0..items.len() {
        gate.enter(block.start + k);
        let answer = check_known(alloc, program, directory, &items[k], examined.get(k));
        gate.leave(block.start + k);
        answers.push(answer)?;
    }
    Ok(answers)
}

/// Checks each block, by so many workers.
fn check_blocks<R: Threads + Sync, P: Program + Send + Sync, G: Gate + Sync>(
    rt: &R,
    alloc: Global,
    program: &P,
    directory: &Directory,
    blocks: &[Block],
    workers: usize,
    gate: &G,
) -> Result<Vec<Result<Vec<Result<Checked<P>, ItemFault>>, Memory>>, Memory>
where
    P::State: Send,
    requires workers { (0 < workers) × (workers ≤ MOST_WORKERS) }
    requires places { All (λ b. b.start + length b.items.now < 2 ^ 64) blocks.now }
    ensures { IfOk result (λ v. AreBlocksAnswered directory.now P.means blocks.now v.items) }
{
    let check = |n: usize| -> Result<Vec<Result<Checked<P>, ItemFault>>, Memory>
        requires { (n < length blocks.now) × All (λ b. b.start + length b.items.now < 2 ^ 64) blocks.now }
        ensures { IsBlockAnsweredAt directory.entry.now P.means blocks.entry.now n result }
    { check_block(alloc, program, directory, &blocks[n], gate) };
    let answers = map_claimed(rt, alloc, blocks.len(), workers, &check)?;
    Ok(answers)
}

/// Checks each item under the directory, by so many workers. Place `n` of the answer has what `check_item` gives of a copy of item `n`. The
/// gate is called before and after each check.
///
/// A worker takes neighbouring items, 32 at most. It verifies the signatures of those that are no segments together, with some 90 KB of
/// memory. If that memory is refused, it verifies each signature alone.
///
/// The call reports the first of these that applies:
///
/// - `BadWorkers` (90), if the workers are not 1 to [`MOST_WORKERS`];
/// - `Memory`, if a growth beside the checks was refused.
///
/// A check that is refused memory gives `Memory` at its own place of the answer.
pub fn check_all<R: Threads + Sync, P: Program + Send + Sync, G: Gate + Sync>(
    rt: &R,
    alloc: Global,
    program: &P,
    directory: &Directory,
    items: &[Item],
    workers: usize,
    gate: &G,
) -> Result<Vec<Result<Checked<P>, ItemFault>>, CheckAllFault>
where
    P::State: Send,
    ensures answers { IfOk result (λ v. AreAnswers directory.now P.means items.now v.items) }
    ensures refused { (result ≡ Err all.BadWorkers) ↔ ((workers ≡ 0) ⊎ (MOST_WORKERS < workers)) }
    ensures lengths { ¬ (result ≡ Err all.LengthMismatch) }
{
    if workers == 0 || workers > MOST_WORKERS {
        return Err(CheckAllFault::BadWorkers);
    }
    let blocks = match blocks_of(alloc, items, block_size(items.len(), workers)) {
        Ok(blocks) => blocks,
        Err(AllocError) => return Err(CheckAllFault::Memory),
    };
    let parts = match check_blocks(rt, alloc, program, directory, &blocks, workers, gate) {
        Ok(parts) => parts,
        Err(AllocError) => return Err(CheckAllFault::Memory),
    };
    match joined(alloc, parts) {
        Ok(answers) => Ok(answers),
        Err(AllocError) => Err(CheckAllFault::Memory),
    }
}
