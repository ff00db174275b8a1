//! Each trap, with registers and memory as they were before it.

use riscv::{Next, Stop, Trap, decode, run};
use std::test::Fail;

/// How one instruction stops that is begun at this place, with -1 in register 1 and 4 bytes of memory, and whether nothing changed.
fn stopped(word: u32, pc: u32) -> (Next, bool) {
    let mut registers = [0; 32];
    registers[1] = u32::MAX;
    let before = registers;
    let mut memory = [1, 2, 3, 4];
    let stop = run(&[decode(word)], pc, 9, &mut registers, &mut memory);
    let Stop { next, left } = stop;
    (
        next,
        left == 8 && registers == before && memory == [1, 2, 3, 4],
    )
}

fn trapped(trap: Trap, pc: u32) -> (Next, bool) {
    (Next::Trapped { trap, pc }, true)
}

#[test]
fn places(rt: HostRuntime) -> Result<(), Fail> {
    let trap = Trap::InstructionAddressMisaligned;
    // jal x1, 2; jalr x1, 3(x0), whose lowest bit is cleared; beq x0, x0, 6; a nop at 2
    assert!(rt; stopped(0x0020_00ef, 0) == trapped(trap, 0));
    assert!(rt; stopped(0x0030_00e7, 0) == trapped(trap, 0));
    assert!(rt; stopped(0x0000_0363, 0) == trapped(trap, 0));
    assert!(rt; stopped(0x0000_0013, 2) == trapped(trap, 2));
    // bne x0, x0, 6 is not taken; then there is no code
    assert!(rt; stopped(0x0000_1363, 4) == trapped(Trap::InstructionAccessFault, 4));
    assert!(rt;
        stopped(0x0000_0013, 0xffff_fffc) == trapped(Trap::InstructionAccessFault, 0xffff_fffc)
    );
    Ok(())
}

#[test]
fn words(rt: HostRuntime) -> Result<(), Fail> {
    assert!(rt; stopped(0, 0) == trapped(Trap::IllegalInstruction, 0));
    assert!(rt; stopped(0x0010_0073, 0) == trapped(Trap::Breakpoint, 0));
    assert!(rt; stopped(0x0000_0073, 0) == (Next::Ended, true));
    Ok(())
}

#[test]
fn memory(rt: HostRuntime) -> Result<(), Fail> {
    let load = trapped(Trap::LoadAccessFault, 0);
    // lw x2, 1(x0); lb x2, 4(x0); lhu x2, 0(x1), at -1
    assert!(rt; stopped(0x0010_2103, 0) == load);
    assert!(rt; stopped(0x0040_0103, 0) == load);
    assert!(rt; stopped(0x0000_d103, 0) == load);
    let store = trapped(Trap::StoreAccessFault, 0);
    // sw x1, 1(x0); sh x1, 3(x0); sb x1, 0(x1), at -1
    assert!(rt; stopped(0x0010_20a3, 0) == store);
    assert!(rt; stopped(0x0010_11a3, 0) == store);
    assert!(rt; stopped(0x0010_8023, 0) == store);
    Ok(())
}
