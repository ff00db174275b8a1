//! Blocks of neighbouring items.

ghost use Rattle.std.specs.Prelude.{◌≡◌, ◌+◌, ◌<◌, ◌≤◌, ◌^◌, All, IfOk, length};
ghost use Rattle.std.specs.List.{flat_map};
ghost use Rattle.parallel_checking.specs.Parts.{AllWhole, items_of};

use evidence_item::Item;
use outcome::Memory;
use std::alloc::{AllocError, Global};

/// The largest number of items that one worker checks together.
pub const MOST_TOGETHER: usize = 32;

/// Neighbouring items of a list, and the place of the first one.
#[derive(Clone, Copy)]
pub(crate) struct Block<'a> {
    pub(crate) start: usize,
    pub(crate) items: &'a [Item],
}

/// Returns how many items a block has, of `count` items for so many workers (1 to 15). A block has 1 to 32 items. There are at least four
/// blocks for each worker, if there are so many items.
pub fn block_size(count: usize, workers: usize) -> usize
    requires { (0 < workers) × (workers < 16) }
    ensures some { 0 < result }
    ensures few { result ≤ MOST_TOGETHER }
{
    let size = count / (workers * 4);
    size.min(MOST_TOGETHER).max(1)
}

/// Cuts the items into blocks of this size. The last block has what is left.
pub(crate) fn blocks_of<'a>(
    alloc: Global,
    items: &'a [Item],
    size: usize,
) -> Result<Vec<Block<'a>>, Memory>
    requires { 0 < size }
    ensures items { IfOk result (λ blocks. flat_map (λ b. b.items.now) blocks.items ≡ items.now) }
    ensures places { IfOk result (λ blocks. All (λ b. b.start + length b.items.now < 2 ^ 64) blocks.items) }
{
    let mut all = Vec::new(alloc);
    let mut start = 0;
    while start < items.len() {
        let end = start + size.min(items.len() - start);
        all.push(Block {
            start,
            items: &items[start..end],
        })?;
        start = end;
    }
    Ok(all)
}

/// Joins the parts, one after the other. It returns `Memory` if a part is missing or if a growth is refused.
pub fn joined<T: Drop>(alloc: Global, parts: Vec<Result<Vec<T>, Memory>>) -> Result<Vec<T>, Memory>
    ensures whole { IfOk result (λ all. AllWhole parts.items) }
    ensures items { IfOk result (λ all. all.items ≡ items_of parts.items) }
{
    let mut all = Vec::new(alloc);
    for one in parts {
        let mut part = match one {
            Ok(part) => part,
            Err(AllocError) => return Err(AllocError),
        };
        all.append(&mut part)?;
    }
    Ok(all)
}
