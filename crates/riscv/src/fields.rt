//! The fields of an instruction's word.

ghost use Rattle.std.specs.Prelude.{◌≡◌, ◌^◌, ◌<◌};
ghost use Rattle.riscv.specs.Encoding.{funct3, funct7, immediate_b, immediate_i, immediate_j, immediate_s, immediate_u, rd, rs1, rs2, sign_extended};

pub(crate) fn rd(word: u32) -> u8
    ensures { result ≡ rd word }
{
    (word / 0x80 % 0x20) as u8
}

pub(crate) fn funct3(word: u32) -> u32
    ensures { result ≡ funct3 word }
{
    word / 0x1000 % 8
}

pub(crate) fn rs1(word: u32) -> u8
    ensures { result ≡ rs1 word }
{
    (word / 0x8000 % 0x20) as u8
}

pub(crate) fn rs2(word: u32) -> u8
    ensures { result ≡ rs2 word }
{
    (word / 0x10_0000 % 0x20) as u8
}

pub(crate) fn funct7(word: u32) -> u32
    ensures { result ≡ funct7 word }
{
    word / 0x200_0000
}

fn sign_extended_12(n: u32) -> u32
    requires { n < 2 ^ 12 }
    ensures { result ≡ sign_extended 12 n }
{
    if n < 0x800 { n } else { n + 0xffff_f000 }
}

pub(crate) fn immediate_i(word: u32) -> u32
    ensures { result ≡ immediate_i word }
{
    sign_extended_12(word / 0x10_0000)
}

pub(crate) fn immediate_s(word: u32) -> u32
    ensures { result ≡ immediate_s word }
{
    sign_extended_12(word / 0x200_0000 * 0x20 + word / 0x80 % 0x20)
}

pub(crate) fn immediate_b(word: u32) -> u32
    ensures { result ≡ immediate_b word }
{
    let n = word / 0x8000_0000 * 0x1000
        + word / 0x80 % 2 * 0x800
        + word / 0x200_0000 % 0x40 * 0x20
        + word / 0x100 % 0x10 * 2;
    if n < 0x1000 { n } else { n + 0xffff_e000 }
}

pub(crate) fn immediate_u(word: u32) -> u32
    ensures { result ≡ immediate_u word }
{
    word / 0x1000 * 0x1000
}

pub(crate) fn immediate_j(word: u32) -> u32
    ensures { result ≡ immediate_j word }
{
    let n = word / 0x8000_0000 * 0x10_0000
        + word / 0x1000 % 0x100 * 0x1000
        + word / 0x10_0000 % 2 * 0x800
        + word / 0x20_0000 % 0x400 * 2;
    if n < 0x10_0000 { n } else { n + 0xffe0_0000 }
}
