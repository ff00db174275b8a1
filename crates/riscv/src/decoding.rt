//! Which instruction a word is.

ghost use Rattle.std.specs.Prelude.{◌≡◌, ◌<◌, IfOk};
ghost use Rattle.riscv.specs.Encoding.{funct3, funct7};
ghost use Rattle.riscv.specs.Decoding.{base_operation, branch_of, comparison_at, immediate_of, instruction_of, instructions_of, load_at, load_of, multiplication, other_operation, register_of, register_operation, shift_of, shift_operation, store_at, store_of, system_of};

use crate::fields::{
    funct3, funct7, immediate_b, immediate_i, immediate_j, immediate_s, immediate_u, rd, rs1, rs2,
};
use crate::instruction::{Instruction, Load, Store};
use crate::operation::{Comparison, Operation};
use std::alloc::{AllocError, Global};

fn base_operation(f3: u32) -> Operation
    requires { f3 < 8 }
    ensures { result ≡ base_operation f3 }
{
    match f3 {
        0 => Operation::Add,
        1 => Operation::Sll,
        2 => Operation::Slt,
        3 => Operation::Sltu,
        4 => Operation::Xor,
        5 => Operation::Srl,
        6 => Operation::Or,
        _ => Operation::And,
    }
}

fn multiplication(f3: u32) -> Operation
    requires { f3 < 8 }
    ensures { result ≡ multiplication f3 }
{
    match f3 {
        0 => Operation::Mul,
        1 => Operation::Mulh,
        2 => Operation::Mulhsu,
        3 => Operation::Mulhu,
        4 => Operation::Div,
        5 => Operation::Divu,
        6 => Operation::Rem,
        _ => Operation::Remu,
    }
}

fn other_operation(f3: u32) -> Option<Operation>
    ensures { result ≡ other_operation f3 }
{
    match f3 {
        0 => Some(Operation::Sub),
        5 => Some(Operation::Sra),
        _ => None,
    }
}

fn register_operation(f7: u32, f3: u32) -> Option<Operation>
    requires { f3 < 8 }
    ensures { result ≡ register_operation f7 f3 }
{
    match f7 {
        0 => Some(base_operation(f3)),
        1 => Some(multiplication(f3)),
        32 => other_operation(f3),
        _ => None,
    }
}

fn register_of(word: u32) -> Instruction
    ensures { result ≡ register_of word (register_operation (funct7 word) (funct3 word)) }
{
    match register_operation(funct7(word), funct3(word)) {
        Some(op) => Instruction::Register {
            op,
            rd: rd(word),
            rs1: rs1(word),
            rs2: rs2(word),
        },
        None => Instruction::Illegal,
    }
}

fn shift_operation(f7: u32, f3: u32) -> Option<Operation>
    requires { f3 < 8 }
    ensures { result ≡ shift_operation f7 f3 }
{
    if f7 == 0 {
        return Some(base_operation(f3));
    }
    if f7 == 32 && f3 == 5 {
        return Some(Operation::Sra);
    }
    None
}

fn shift_of(word: u32) -> Instruction
    ensures { result ≡ shift_of word (shift_operation (funct7 word) (funct3 word)) }
{
    match shift_operation(funct7(word), funct3(word)) {
        Some(op) => Instruction::Immediate {
            op,
            rd: rd(word),
            rs1: rs1(word),
            imm: rs2(word) as u32,
        },
        None => Instruction::Illegal,
    }
}

fn immediate_of(word: u32) -> Instruction
    ensures { result ≡ immediate_of word (funct3 word) }
{
    let f3 = funct3(word);
    if f3 == 1 || f3 == 5 {
        shift_of(word)
    } else {
        Instruction::Immediate {
            op: base_operation(f3),
            rd: rd(word),
            rs1: rs1(word),
            imm: immediate_i(word),
        }
    }
}

fn load_at(f3: u32) -> Option<Load>
    ensures { result ≡ load_at f3 }
{
    match f3 {
        0 => Some(Load::Lb),
        1 => Some(Load::Lh),
        2 => Some(Load::Lw),
        4 => Some(Load::Lbu),
        5 => Some(Load::Lhu),
        _ => None,
    }
}

fn load_of(word: u32) -> Instruction
    ensures { result ≡ load_of word (load_at (funct3 word)) }
{
    match load_at(funct3(word)) {
        Some(op) => Instruction::Load {
            op,
            rd: rd(word),
            rs1: rs1(word),
            imm: immediate_i(word),
        },
        None => Instruction::Illegal,
    }
}

fn store_at(f3: u32) -> Option<Store>
    ensures { result ≡ store_at f3 }
{
    match f3 {
        0 => Some(Store::Sb),
        1 => Some(Store::Sh),
        2 => Some(Store::Sw),
        _ => None,
    }
}

fn store_of(word: u32) -> Instruction
    ensures { result ≡ store_of word (store_at (funct3 word)) }
{
    match store_at(funct3(word)) {
        Some(op) => Instruction::Store {
            op,
            rs1: rs1(word),
            rs2: rs2(word),
            imm: immediate_s(word),
        },
        None => Instruction::Illegal,
    }
}

fn comparison_at(f3: u32) -> Option<Comparison>
    ensures { result ≡ comparison_at f3 }
{
    match f3 {
        0 => Some(Comparison::Beq),
        1 => Some(Comparison::Bne),
        4 => Some(Comparison::Blt),
        5 => Some(Comparison::Bge),
        6 => Some(Comparison::Bltu),
        7 => Some(Comparison::Bgeu),
        _ => None,
    }
}

fn branch_of(word: u32) -> Instruction
    ensures { result ≡ branch_of word (comparison_at (funct3 word)) }
{
    match comparison_at(funct3(word)) {
        Some(op) => Instruction::Branch {
            op,
            rs1: rs1(word),
            rs2: rs2(word),
            imm: immediate_b(word),
        },
        None => Instruction::Illegal,
    }
}

fn system_of(word: u32) -> Instruction
    ensures { result ≡ system_of word }
{
    match word {
        0x0000_0073 => Instruction::Ecall,
        0x0010_0073 => Instruction::Ebreak,
        _ => Instruction::Illegal,
    }
}

/// The instruction that the word is.
pub fn decode(word: u32) -> Instruction
    ensures { result ≡ instruction_of word }
{
    match word % 0x80 {
        0b011_0011 => register_of(word),
        0b001_0011 => immediate_of(word),
        0b000_0011 => load_of(word),
        0b010_0011 => store_of(word),
        0b110_0011 => branch_of(word),
        0b011_0111 => Instruction::Lui {
            rd: rd(word),
            imm: immediate_u(word),
        },
        0b001_0111 => Instruction::Auipc {
            rd: rd(word),
            imm: immediate_u(word),
        },
        0b110_1111 => Instruction::Jal {
            rd: rd(word),
            imm: immediate_j(word),
        },
        0b110_0111 if funct3(word) == 0 => Instruction::Jalr {
            rd: rd(word),
            rs1: rs1(word),
            imm: immediate_i(word),
        },
        0b000_1111 if funct3(word) == 0 => Instruction::Fence,
        0b111_0011 => system_of(word),
        _ => Instruction::Illegal,
    }
}

/// The instructions of an image, each decoded once: each four bytes are a word, the lowest byte first. One to three bytes behind the last
/// word are no instruction.
pub fn decode_image(alloc: Global, image: &[u8]) -> Result<Vec<Instruction>, AllocError>
    ensures { IfOk result (λ v. v.items ≡ instructions_of image.now) }
{
    let mut code = Vec::new(alloc);
    let mut rest = image;
    while let [a, b, c, d, behind @ ..] = rest {
        code.push(decode(u32::from_le_bytes([*a, *b, *c, *d])))?;
        rest = behind;
    }
    Ok(code)
}
