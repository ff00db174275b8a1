//! Items that workers read.

ghost use Rattle.std.specs.Prelude.{◌≡◌, ◌⊎◌, ◌++◌, ◌∷◌, [], ◌<◌, ◌≤◌, IfErr, IfOk, OnOk, Err, Ok, length, map};
ghost use Rattle.std.specs.List.{All};
ghost use Rattle.containers.specs.declared.fault.Cause.TheVariants as cause;
ghost use Rattle.containers.specs.Container.{Faulty};
ghost use Rattle.parallel_checking.specs.declared.limits.TheConstants.{MOST_WORKERS};
ghost use Rattle.parallel_reading.specs.Readings.{AreReadings, gathered};
ghost use Rattle.parallel_reading.specs.within.Blocks.{AreBlocksRead, IsBlockReadAt};

use crate::blocks::{Reading, blocks_of, read_block};
use crate::workers::Workers;
use authenticators::Directory;
use containers::{Cause, ImportFault};
use evidence_item::Checked;
use outcome::Memory;
use parallel_checking::{block_size, joined};
use parallel_map::map_claimed;
use replay_verifier::Program;
use std::thread::Threads;

/// Reads the texts of each block, by the workers.
fn read_blocks<R: Threads + Sync, P: Program + Send + Sync>(
    workers: &Workers<'_, R>,
    program: &P,
    directory: &Directory,
    blocks: &[&[&[u8]]],
) -> Result<Vec<Result<Vec<Reading<P>>, Memory>>, Memory>
where
    P::State: Send,
    requires workers { (0 < workers.now.count) × (workers.now.count ≤ MOST_WORKERS) }
    requires some { All (λ b. 0 < length b.now) blocks.now }
    ensures { IfOk result (λ v. AreBlocksRead directory.now P.means blocks.now v.items) }
{
    let alloc = workers.alloc;
    let read = |n: usize| -> Result<Vec<Reading<P>>, Memory>
        requires { (n < length blocks.now) × All (λ b. 0 < length b.now) blocks.now }
        ensures { IsBlockReadAt directory.entry.now P.means blocks.entry.now n result }
    { read_block(alloc, program, directory, blocks[n]) };
    let parts = map_claimed(workers.rt, alloc, blocks.len(), workers.count, &read)?;
    Ok(parts)
}

/// Reads each text but the first, behind the one before it, by the workers. Each worker takes a block of neighbouring texts.
pub(crate) fn read_texts<R: Threads + Sync, P: Program + Send + Sync>(
    workers: &Workers<'_, R>,
    program: &P,
    directory: &Directory,
    texts: &[&[u8]],
) -> Result<Vec<Reading<P>>, Memory>
where
    P::State: Send,
    requires workers { (0 < workers.now.count) × (workers.now.count ≤ MOST_WORKERS) }
    requires some { 0 < length texts.now }
    ensures { IfOk result (λ v. AreReadings directory.now P.means (map (λ t. t.now) texts.now) v.items) }
{
    let size = block_size(texts.len(), workers.count);
    let blocks = blocks_of(workers.alloc, texts, size)?;
    let parts = read_blocks(workers, program, directory, &blocks)?;
    let readings = joined(workers.alloc, parts)?;
    Ok(readings)
}

/// Adds one item.
fn keep<P>(items: &mut Vec<Checked<P>>, item: Checked<P>) -> Result<(), Memory>
    ensures { OnOk result (items.new.items ≡ items.old.items ++ item ∷ []) }
{
    items.push(item)?;
    Ok(())
}

/// Adds the items that were read behind those before them, or reports the first fault.
pub(crate) fn keep_all<P: Program>(
    items: &mut Vec<Checked<P>>,
    readings: Vec<Result<Checked<P>, Cause>>,
) -> Result<(), ImportFault>
    ensures kept { OnOk result (gathered items.old.items readings.items ≡ Ok items.new.items) }
    ensures refused { IfErr result (λ f. (f.cause ≡ cause.Memory) ⊎ (gathered items.old.items readings.items ≡ Err (Faulty f))) }
{
    for reading in readings {
        let number = items.len() as u64;
        let item = match reading {
            Ok(item) => item,
            Err(cause) => {
                return Err(ImportFault {
                    item: number,
                    cause,
                });
            }
        };
        if keep(items, item).is_err() {
            return Err(ImportFault {
                item: number,
                cause: Cause::Memory,
            });
        }
    }
    Ok(())
}
