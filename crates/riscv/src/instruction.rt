//! Instructions, by the standard's names.

use crate::operation::{Comparison, Operation};

/// What is loaded (2.6): a byte, a half of a word or a word. `Lbu` and `Lhu` fill the word with zeros, `Lb` and `Lh` with the sign.
#[derive(Clone, Copy, Debug, PartialEq, Eq)]
pub enum Load {
    Lb,
    Lh,
    Lw,
    Lbu,
    Lhu,
}

/// What is stored (2.6): a byte, a half of a word or a word.
#[derive(Clone, Copy, Debug, PartialEq, Eq)]
pub enum Store {
    Sb,
    Sh,
    Sw,
}

/// An instruction of RV32IM. `rd`, `rs1` and `rs2` are registers, numbers below 32. `imm` is the immediate with its sign extended, a word:
/// -1 is 4,294,967,295. `op` tells instructions apart that have the same form.
#[derive(Clone, Copy, Debug, PartialEq, Eq)]
pub enum Instruction {
    /// Computes of two registers: `add`, `sub` and the others.
    Register {
        op: Operation,
        rd: u8,
        rs1: u8,
        rs2: u8,
    },
    /// Computes of a register and the immediate: `addi` has `Add`, `slli` has `Sll`.
    Immediate {
        op: Operation,
        rd: u8,
        rs1: u8,
        imm: u32,
    },
    /// `lui`: the immediate goes into the register.
    Lui {
        rd: u8,
        imm: u32,
    },
    /// `auipc`: the instruction's place and the immediate are added.
    Auipc {
        rd: u8,
        imm: u32,
    },
    /// `lw` and the others: memory is read at the sum of the register and the immediate.
    Load {
        op: Load,
        rd: u8,
        rs1: u8,
        imm: u32,
    },
    /// `sw` and the others: memory is written at the sum of the register `rs1` and the immediate.
    Store {
        op: Store,
        rs1: u8,
        rs2: u8,
        imm: u32,
    },
    /// `beq` and the others: if the registers compare so, the run goes on at the instruction's place and the immediate.
    Branch {
        op: Comparison,
        rs1: u8,
        rs2: u8,
        imm: u32,
    },
    /// `jal`: the run goes on at the instruction's place and the immediate, and `rd` keeps the place behind the instruction.
    Jal {
        rd: u8,
        imm: u32,
    },
    /// `jalr`: the same at the sum of the register and the immediate, whose lowest bit is cleared.
    Jalr {
        rd: u8,
        rs1: u8,
        imm: u32,
    },
    /// `fence`, `fence.tso` and `pause`: nothing, since nobody else sees the memory.
    Fence,
    /// `ecall`: the run has ended.
    Ecall,
    /// `ebreak`: a trap.
    Ebreak,
    /// No instruction of RV32IM: a trap.
    Illegal,
}
