//! The registers.

ghost use Rattle.std.specs.Prelude.{◌≡◌};
ghost use Rattle.riscv.specs.Memory.{register, with_register};

pub(crate) fn register(registers: &[u32; 32], n: u8) -> u32
    ensures { result ≡ register registers.now n }
{
    registers[(n % 32) as usize]
}

pub(crate) fn set_register(registers: &mut [u32; 32], n: u8, value: u32)
    ensures { registers.new ≡ with_register registers.old n value }
{
    let n = n % 32;
    if n != 0 {
        registers[n as usize] = value;
    }
}
