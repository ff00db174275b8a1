//! Marks for `checks/growths/refuse.c`, which say whose growths it must count. The marks are two growths of sizes that nothing else asks for.

use outcome::Memory;
use std::alloc::Global;

/// The size of the growth from which on growths are counted. `DISARMS` is the size of the one that ends this.
const ARMS: usize = 1_234_577;

const DISARMS: usize = 1_234_579;

/// Asks for so many bytes, and gives them back.
fn ask(alloc: Global, size: usize) -> Result<(), Memory> {
    let block: Vec<u8> = Vec::with_capacity(alloc, size)?;
    drop(block);
    Ok(())
}

/// Marks that growths are counted from here on.
pub fn arm(alloc: Global) -> Result<(), Memory> {
    ask(alloc, ARMS)
}

/// Marks that growths are not counted from here on. It does so even if there is no memory.
pub fn disarm(alloc: Global) {
    let _ = ask(alloc, DISARMS);
}
