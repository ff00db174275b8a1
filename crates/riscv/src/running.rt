//! What code does.

ghost use Rattle.std.specs.Prelude.{◌≡◌};
ghost use Rattle.riscv.specs.Running.{after_step, run_of};

use crate::executing::execute;
use crate::instruction::Instruction;
use crate::trap::{Next, Trap};

/// Where a run stopped.
#[derive(Clone, Copy, Debug, PartialEq, Eq)]
pub struct Stop {
    /// `At` says that the fuel ended first, and which instruction would be next.
    pub next: Next,
    /// The fuel that is left: it was given a unit for each instruction, also for the one that ended the run or trapped.
    pub left: u64,
}

fn step(code: &[Instruction], pc: u32, registers: &mut [u32; 32], memory: &mut [u8]) -> Next
    ensures { after_step code.now pc registers.old memory.old ≡ record { next = result; registers = registers.new; memory = memory.new } }
{
    if pc % 4 != 0 {
        return Next::Trapped {
            trap: Trap::InstructionAddressMisaligned,
            pc,
        };
    }
    match code.get((pc / 4) as usize) {
        Some(instruction) => execute(*instruction, pc, registers, memory),
        None => Next::Trapped {
            trap: Trap::InstructionAccessFault,
            pc,
        },
    }
}

/// Runs the code from the place `pc` on, for at most `fuel` instructions. A caller puts 0 into register 0, and it stays 0. The first byte of
/// the memory is at place 0, and its size is the caller's. If the fuel ends first, a further call at the reported place goes on.
pub fn run(
    code: &[Instruction],
    pc: u32,
    fuel: u64,
    registers: &mut [u32; 32],
    memory: &mut [u8],
) -> Stop
    ensures { run_of code.now fuel (Next.At pc) registers.old memory.old ≡ record { next = result.next; registers = registers.new; memory = memory.new; left = result.left } }
{
    let mut next = Next::At(pc);
    let mut left = fuel;
    while left > 0 {
        match next {
            Next::At(pc) => next = step(code, pc, registers, memory),
            Next::Ended | Next::Trapped { .. } => break,
        }
        left -= 1;
    }
    Stop { next, left }
}
