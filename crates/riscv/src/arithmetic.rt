//! What instructions compute of two words.

ghost use Rattle.std.specs.Prelude.{◌≡◌, ◌*◌, ◌+◌, ◌-◌, ◌/◌, ◌%◌, ◌^◌, ◌<◌};
ghost use Rattle.riscv.specs.Arithmetic.{flag, is_taken, value_of};

use crate::operation::{Comparison, Operation};

fn flag(b: bool) -> u32
    ensures { result ≡ flag b }
{
    if b { 1 } else { 0 }
}

fn less_signed(a: u32, b: u32) -> bool
    ensures { result ≡ is_taken Comparison.Blt a b }
{
    a.cast_signed() < b.cast_signed()
}

fn shift_left(a: u32, b: u32) -> u32
    ensures { result ≡ value_of Operation.Sll a b }
{
    a << (b % 32)
}

fn shift_right(a: u32, b: u32) -> u32
    ensures { result ≡ value_of Operation.Srl a b }
{
    a >> (b % 32)
}

fn shift_right_signed(a: u32, b: u32) -> u32
    ensures { result ≡ value_of Operation.Sra a b }
{
    (a.cast_signed() >> (b % 32)).cast_unsigned()
}

fn product_high(a: u32, b: u32) -> u32
    ensures { result ≡ value_of Operation.Mulhu a b }
{
    ((a as u64 * b as u64) >> 32) as u32
}

fn product_high_signed(a: u32, b: u32) -> u32
    ensures { result ≡ value_of Operation.Mulh a b }
{
    let product = i64::from(a.cast_signed()) * i64::from(b.cast_signed());
    ((product >> 32) as i32).cast_unsigned()
}

fn product_high_mixed(a: u32, b: u32) -> u32
    ensures { result ≡ value_of Operation.Mulhsu a b }
{
    let product = i64::from(a.cast_signed()) * i64::from(b);
    ((product >> 32) as i32).cast_unsigned()
}

fn quotient(a: u32, b: u32) -> u32
    ensures { result ≡ value_of Operation.Div a b }
{
    if b == 0 {
        u32::MAX
    } else {
        a.cast_signed()
            .wrapping_div(b.cast_signed())
            .cast_unsigned()
    }
}

fn quotient_unsigned(a: u32, b: u32) -> u32
    ensures { result ≡ value_of Operation.Divu a b }
{
    if b == 0 { u32::MAX } else { a / b }
}

fn remainder(a: u32, b: u32) -> u32
    ensures { result ≡ value_of Operation.Rem a b }
{
    if b == 0 {
        a
    } else {
        a.cast_signed()
            .wrapping_rem(b.cast_signed())
            .cast_unsigned()
    }
}

fn remainder_unsigned(a: u32, b: u32) -> u32
    ensures { result ≡ value_of Operation.Remu a b }
{
    if b == 0 { a } else { a % b }
}

#[inline(always)]
pub(crate) fn value(operation: Operation, a: u32, b: u32) -> u32
    ensures { result ≡ value_of operation a b }
{
    match operation {
        Operation::Add => a.wrapping_add(b),
        Operation::Sub => a.wrapping_sub(b),
        Operation::Sll => shift_left(a, b),
        Operation::Slt => flag(less_signed(a, b)),
        Operation::Sltu => flag(a < b),
        Operation::Xor => a ^ b,
        Operation::Srl => shift_right(a, b),
        Operation::Sra => shift_right_signed(a, b),
        Operation::Or => a | b,
        Operation::And => a & b,
        Operation::Mul => a.wrapping_mul(b),
        Operation::Mulh => product_high_signed(a, b),
        Operation::Mulhsu => product_high_mixed(a, b),
        Operation::Mulhu => product_high(a, b),
        Operation::Div => quotient(a, b),
        Operation::Divu => quotient_unsigned(a, b),
        Operation::Rem => remainder(a, b),
        Operation::Remu => remainder_unsigned(a, b),
    }
}

pub(crate) fn is_taken(comparison: Comparison, a: u32, b: u32) -> bool
    ensures { result ≡ is_taken comparison a b }
{
    match comparison {
        Comparison::Beq => a == b,
        Comparison::Bne => a != b,
        Comparison::Blt => less_signed(a, b),
        Comparison::Bge => !less_signed(a, b),
        Comparison::Bltu => a < b,
        Comparison::Bgeu => a >= b,
    }
}
