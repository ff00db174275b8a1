//! Which instructions words are, by LLVM's assembler, and how images are cut into words.

use riscv::{Comparison, Instruction, Load, Operation, Store, decode, decode_image};
use std::alloc::Global;
use std::test::Fail;

#[test]
fn words(rt: HostRuntime) -> Result<(), Fail> {
    // addi x1, x2, -1
    let addi = Instruction::Immediate {
        op: Operation::Add,
        rd: 1,
        rs1: 2,
        imm: u32::MAX,
    };
    assert!(rt; decode(0xfff1_0093) == addi);
    // lw x30, -4(x31)
    let lw = Instruction::Load {
        op: Load::Lw,
        rd: 30,
        rs1: 31,
        imm: 0xffff_fffc,
    };
    assert!(rt; decode(0xffcf_af03) == lw);
    // sh x7, 2047(x8)
    let sh = Instruction::Store {
        op: Store::Sh,
        rs1: 8,
        rs2: 7,
        imm: 2047,
    };
    assert!(rt; decode(0x7e74_1fa3) == sh);
    // bne x13, x14, -4096
    let bne = Instruction::Branch {
        op: Comparison::Bne,
        rs1: 13,
        rs2: 14,
        imm: 0xffff_f000,
    };
    assert!(rt; decode(0x80e6_9063) == bne);
    Ok(())
}

#[test]
fn no_words(rt: HostRuntime) -> Result<(), Fail> {
    // csrrw x0, mstatus, x0; fence.i; ld x1, 0(x1); a compressed nop; zeros
    for word in [0x3000_1073, 0x0000_100f, 0x0000_b083, 0x0000_0001, 0] {
        assert!(rt; decode(word) == Instruction::Illegal);
    }
    Ok(())
}

fn is_read_as(alloc: Global, image: &[u8], wanted: &[Instruction]) -> bool {
    match decode_image(alloc, image) {
        Ok(code) => code.as_slice() == wanted,
        Err(_) => false,
    }
}

#[test]
fn images(rt: HostRuntime) -> Result<(), Fail> {
    let image = b"\x73\x00\x10\x00\x73\x00\x00\x00\x13\x00\x00";
    let wanted = [Instruction::Ebreak, Instruction::Ecall];
    assert!(rt; is_read_as(rt.alloc(), image, &wanted));
    assert!(rt; is_read_as(rt.alloc(), b"\x13\x00\x00", &[]));
    Ok(())
}
