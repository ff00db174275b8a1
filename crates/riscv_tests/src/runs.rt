//! Runs, and how their fuel is counted.

use riscv::{Instruction, Next, Stop, decode, run};
use std::test::Fail;

/// addi x1, x0, 10; addi x1, x1, -1; bne x1, x0, -4; sw x1, 0(x2); ecall: 23 instructions.
fn counting() -> [Instruction; 5] {
    [
        decode(0x00a0_0093),
        decode(0xfff0_8093),
        decode(0xfe00_9ee3),
        decode(0x0011_2023),
        decode(0x0000_0073),
    ]
}

fn stopped(fuel: u64) -> Stop {
    let mut registers = [0; 32];
    let mut memory = [1; 4];
    run(&counting(), 0, fuel, &mut registers, &mut memory)
}

#[test]
fn fuel(rt: HostRuntime) -> Result<(), Fail> {
    let next = Next::Ended;
    assert!(rt; stopped(23) == Stop { next, left: 0 });
    assert!(rt; stopped(24) == Stop { next, left: 1 });
    assert!(rt;
        stopped(u64::MAX)
            == Stop {
                next,
                left: u64::MAX - 23
            }
    );
    let next = Next::At(16);
    assert!(rt; stopped(22) == Stop { next, left: 0 });
    let next = Next::At(0);
    assert!(rt; stopped(0) == Stop { next, left: 0 });
    Ok(())
}

#[test]
fn a_run_goes_on(rt: HostRuntime) -> Result<(), Fail> {
    let mut registers = [0; 32];
    let mut memory = [1; 4];
    let first = run(&counting(), 0, 6, &mut registers, &mut memory);
    let next = Next::At(8);
    assert!(rt; first == Stop { next, left: 0 });
    assert!(rt; registers[1] == 7);
    let second = run(&counting(), 8, 100, &mut registers, &mut memory);
    let next = Next::Ended;
    assert!(rt; second == Stop { next, left: 83 });
    assert!(rt; memory == [0; 4]);
    Ok(())
}

#[test]
fn register_zero(rt: HostRuntime) -> Result<(), Fail> {
    // addi x0, x0, 10; jal x0, 4; lui x0, 1
    let code = [
        decode(0x00a0_0013),
        decode(0x0040_006f),
        decode(0x0000_1037),
    ];
    let mut registers = [0; 32];
    let stop = run(&code, 0, 3, &mut registers, &mut []);
    let next = Next::At(12);
    assert!(rt; stop == Stop { next, left: 0 });
    assert!(rt; registers == [0; 32]);
    Ok(())
}

#[test]
fn an_endless_loop(rt: HostRuntime) -> Result<(), Fail> {
    // jal x1, 0
    let mut registers = [0; 32];
    let stop = run(&[decode(0x0000_00ef)], 0, 1000, &mut registers, &mut []);
    let next = Next::At(0);
    assert!(rt; stop == Stop { next, left: 0 });
    assert!(rt; registers[1] == 4);
    Ok(())
}
