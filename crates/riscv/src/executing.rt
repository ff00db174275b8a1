//! What each instruction does.

ghost use Rattle.std.specs.Prelude.{◌≡◌, ℕ, List};
ghost use Rattle.riscv.specs.Executing.{after_load, after_store, core_after, jumped, on, sum_of};
ghost use Rattle.riscv.specs.Memory.{with_register};

use crate::arithmetic::{is_taken, value};
use crate::instruction::{Instruction, Load, Store};
use crate::memory::{load_size, loaded, store, store_size};
use crate::registers::{register, set_register};
use crate::trap::{Next, Trap};

fn sum_of(a: u32, b: u32) -> u32
    ensures { result ≡ sum_of a b }
{
    a.wrapping_add(b)
}

fn set_and_go_on(rd: u8, value: u32, pc: u32, registers: &mut [u32; 32]) -> Next
    ensures next { result ≡ Next.At (sum_of pc 4) }
    ensures registers { registers.new ≡ with_register registers.old rd value }
{
    set_register(registers, rd, value);
    Next::At(sum_of(pc, 4))
}

fn jump(target: u32, rd: u8, pc: u32, registers: &mut [u32; 32]) -> Next
    ensures { (m : List ℕ) → jumped target rd pc registers.old m ≡ record { next = result; registers = registers.new; memory = m } }
{
    if target % 4 == 0 {
        set_register(registers, rd, sum_of(pc, 4));
        Next::At(target)
    } else {
        Next::Trapped {
            trap: Trap::InstructionAddressMisaligned,
            pc,
        }
    }
}

fn load_into(op: Load, rd: u8, at: u32, pc: u32, registers: &mut [u32; 32], memory: &[u8]) -> Next
    ensures { after_load op rd at pc registers.old memory.now ≡ record { next = result; registers = registers.new; memory = memory.now } }
{
    let at = at as usize;
    if at + load_size(op) <= memory.len() {
        set_and_go_on(rd, loaded(op, memory, at), pc, registers)
    } else {
        Next::Trapped {
            trap: Trap::LoadAccessFault,
            pc,
        }
    }
}

fn store_from(op: Store, at: u32, value: u32, pc: u32, memory: &mut [u8]) -> Next
    ensures { (x : List ℕ) → after_store op at value pc x memory.old ≡ record { next = result; registers = x; memory = memory.new } }
{
    let at = at as usize;
    if at + store_size(op) <= memory.len() {
        store(op, memory, at, value);
        Next::At(sum_of(pc, 4))
    } else {
        Next::Trapped {
            trap: Trap::StoreAccessFault,
            pc,
        }
    }
}

pub(crate) fn execute(
    instruction: Instruction,
    pc: u32,
    x: &mut [u32; 32],
    memory: &mut [u8],
) -> Next
    ensures { core_after instruction pc x.old memory.old ≡ record { next = result; registers = x.new; memory = memory.new } }
{
    let trapped = |trap| Next::Trapped { trap, pc };
    match instruction {
        Instruction::Register { op, rd, rs1, rs2 } => {
            set_and_go_on(rd, value(op, register(x, rs1), register(x, rs2)), pc, x)
        }
        Instruction::Immediate { op, rd, rs1, imm } => {
            set_and_go_on(rd, value(op, register(x, rs1), imm), pc, x)
        }
        Instruction::Lui { rd, imm } => set_and_go_on(rd, imm, pc, x),
        Instruction::Auipc { rd, imm } => set_and_go_on(rd, sum_of(pc, imm), pc, x),
        Instruction::Load { op, rd, rs1, imm } => {
            load_into(op, rd, sum_of(register(x, rs1), imm), pc, x, memory)
        }
        Instruction::Store { op, rs1, rs2, imm } => {
            let at = sum_of(register(x, rs1), imm);
            store_from(op, at, register(x, rs2), pc, memory)
        }
        Instruction::Branch { op, rs1, rs2, imm } => {
            if is_taken(op, register(x, rs1), register(x, rs2)) {
                jump(sum_of(pc, imm), 0, pc, x)
            } else {
                Next::At(sum_of(pc, 4))
            }
        }
        Instruction::Jal { rd, imm } => jump(sum_of(pc, imm), rd, pc, x),
        Instruction::Jalr { rd, rs1, imm } => {
            jump(sum_of(register(x, rs1), imm) / 2 * 2, rd, pc, x)
        }
        Instruction::Fence => Next::At(sum_of(pc, 4)),
        Instruction::Ecall => Next::Ended,
        Instruction::Ebreak => trapped(Trap::Breakpoint),
        Instruction::Illegal => trapped(Trap::IllegalInstruction),
    }
}
