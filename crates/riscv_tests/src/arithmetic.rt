//! What instructions compute of five pairs of words, by the integers of Python: minus and plus the greatest, -7 and 2, 7 and -2, the least
//! and -1, and a divisor of 0.

use riscv::{Next, Stop, decode, run};
use std::test::Fail;

const PAIRS: [(u32, u32); 5] = [
    (0x8000_0001, 0x7fff_ffff),
    (0xffff_fff9, 0x0000_0002),
    (0x0000_0007, 0xffff_fffe),
    (0x8000_0000, 0xffff_ffff),
    (0xdead_beef, 0x0000_0000),
];

/// What the word, an instruction of the registers 1 and 2, puts into register 3.
fn computed(word: u32, pair: (u32, u32)) -> u32 {
    let mut registers = [0; 32];
    registers[1] = pair.0;
    registers[2] = pair.1;
    let stop = run(&[decode(word)], 0, 1, &mut registers, &mut []);
    let went_on = Stop {
        next: Next::At(4),
        left: 0,
    };
    if stop == went_on {
        registers[3]
    } else {
        0x5555_5555
    }
}

fn computes(word: u32, wanted: [u32; 5]) -> bool {
    computed(word, PAIRS[0]) == wanted[0]
        && computed(word, PAIRS[1]) == wanted[1]
        && computed(word, PAIRS[2]) == wanted[2]
        && computed(word, PAIRS[3]) == wanted[3]
        && computed(word, PAIRS[4]) == wanted[4]
}

#[test]
fn base(rt: HostRuntime) -> Result<(), Fail> {
    // add x3, x1, x2
    assert!(rt;
        computes(
            0x0020_81b3,
            [
                0x0000_0000,
                0xffff_fffb,
                0x0000_0005,
                0x7fff_ffff,
                0xdead_beef
            ]
        )
    );
    // sub x3, x1, x2
    assert!(rt;
        computes(
            0x4020_81b3,
            [
                0x0000_0002,
                0xffff_fff7,
                0x0000_0009,
                0x8000_0001,
                0xdead_beef
            ]
        )
    );
    // sll x3, x1, x2
    assert!(rt;
        computes(
            0x0020_91b3,
            [
                0x8000_0000,
                0xffff_ffe4,
                0xc000_0000,
                0x0000_0000,
                0xdead_beef
            ]
        )
    );
    // slt x3, x1, x2
    assert!(rt;
        computes(
            0x0020_a1b3,
            [
                0x0000_0001,
                0x0000_0001,
                0x0000_0000,
                0x0000_0001,
                0x0000_0001
            ]
        )
    );
    // sltu x3, x1, x2
    assert!(rt;
        computes(
            0x0020_b1b3,
            [
                0x0000_0000,
                0x0000_0000,
                0x0000_0001,
                0x0000_0001,
                0x0000_0000
            ]
        )
    );
    Ok(())
}

#[test]
fn bits(rt: HostRuntime) -> Result<(), Fail> {
    // xor x3, x1, x2
    assert!(rt;
        computes(
            0x0020_c1b3,
            [
                0xffff_fffe,
                0xffff_fffb,
                0xffff_fff9,
                0x7fff_ffff,
                0xdead_beef
            ]
        )
    );
    // srl x3, x1, x2
    assert!(rt;
        computes(
            0x0020_d1b3,
            [
                0x0000_0001,
                0x3fff_fffe,
                0x0000_0000,
                0x0000_0001,
                0xdead_beef
            ]
        )
    );
    // sra x3, x1, x2
    assert!(rt;
        computes(
            0x4020_d1b3,
            [
                0xffff_ffff,
                0xffff_fffe,
                0x0000_0000,
                0xffff_ffff,
                0xdead_beef
            ]
        )
    );
    // or x3, x1, x2
    assert!(rt;
        computes(
            0x0020_e1b3,
            [
                0xffff_ffff,
                0xffff_fffb,
                0xffff_ffff,
                0xffff_ffff,
                0xdead_beef
            ]
        )
    );
    // and x3, x1, x2
    assert!(rt;
        computes(
            0x0020_f1b3,
            [
                0x0000_0001,
                0x0000_0000,
                0x0000_0006,
                0x8000_0000,
                0x0000_0000
            ]
        )
    );
    Ok(())
}

#[test]
fn products(rt: HostRuntime) -> Result<(), Fail> {
    // mul x3, x1, x2
    assert!(rt;
        computes(
            0x0220_81b3,
            [
                0xffff_ffff,
                0xffff_fff2,
                0xffff_fff2,
                0x8000_0000,
                0x0000_0000
            ]
        )
    );
    // mulh x3, x1, x2
    assert!(rt;
        computes(
            0x0220_91b3,
            [
                0xc000_0000,
                0xffff_ffff,
                0xffff_ffff,
                0x0000_0000,
                0x0000_0000
            ]
        )
    );
    // mulhsu x3, x1, x2
    assert!(rt;
        computes(
            0x0220_a1b3,
            [
                0xc000_0000,
                0xffff_ffff,
                0x0000_0006,
                0x8000_0000,
                0x0000_0000
            ]
        )
    );
    // mulhu x3, x1, x2
    assert!(rt;
        computes(
            0x0220_b1b3,
            [
                0x3fff_ffff,
                0x0000_0001,
                0x0000_0006,
                0x7fff_ffff,
                0x0000_0000
            ]
        )
    );
    Ok(())
}

#[test]
fn quotients(rt: HostRuntime) -> Result<(), Fail> {
    // div x3, x1, x2
    assert!(rt;
        computes(
            0x0220_c1b3,
            [
                0xffff_ffff,
                0xffff_fffd,
                0xffff_fffd,
                0x8000_0000,
                0xffff_ffff
            ]
        )
    );
    // divu x3, x1, x2
    assert!(rt;
        computes(
            0x0220_d1b3,
            [
                0x0000_0001,
                0x7fff_fffc,
                0x0000_0000,
                0x0000_0000,
                0xffff_ffff
            ]
        )
    );
    // rem x3, x1, x2
    assert!(rt;
        computes(
            0x0220_e1b3,
            [
                0x0000_0000,
                0xffff_ffff,
                0x0000_0001,
                0x0000_0000,
                0xdead_beef
            ]
        )
    );
    // remu x3, x1, x2
    assert!(rt;
        computes(
            0x0220_f1b3,
            [
                0x0000_0002,
                0x0000_0001,
                0x0000_0007,
                0x8000_0000,
                0xdead_beef
            ]
        )
    );
    Ok(())
}
