//! What is loaded and stored.

ghost use Rattle.std.specs.Prelude.{◌≡◌, ◌+◌, ◌≤◌, length};
ghost use Rattle.riscv.specs.Memory.{load_size, loaded, store_size, stored};

use crate::instruction::{Load, Store};

pub(crate) fn load_size(load: Load) -> usize
    ensures { result ≡ load_size load }
{
    match load {
        Load::Lb | Load::Lbu => 1,
        Load::Lh | Load::Lhu => 2,
        Load::Lw => 4,
    }
}

fn half(memory: &[u8], at: usize) -> u16
    requires { at + 2 ≤ length memory.now }
    ensures { result ≡ loaded Load.Lhu memory.now at }
{
    u16::from_le_bytes([memory[at], memory[at + 1]])
}

fn word(memory: &[u8], at: usize) -> u32
    requires { at + 4 ≤ length memory.now }
    ensures { result ≡ loaded Load.Lw memory.now at }
{
    u32::from_le_bytes([memory[at], memory[at + 1], memory[at + 2], memory[at + 3]])
}

pub(crate) fn loaded(load: Load, memory: &[u8], at: usize) -> u32
    requires { at + load_size load ≤ length memory.now }
    ensures { result ≡ loaded load memory.now at }
{
    match load {
        Load::Lb => {
            let n = memory[at] as u32;
            if n < 0x80 { n } else { n + 0xffff_ff00 }
        }
        Load::Lbu => memory[at] as u32,
        Load::Lh => {
            let n = half(memory, at) as u32;
            if n < 0x8000 { n } else { n + 0xffff_0000 }
        }
        Load::Lhu => half(memory, at) as u32,
        Load::Lw => word(memory, at),
    }
}

pub(crate) fn store_size(store: Store) -> usize
    ensures { result ≡ store_size store }
{
    match store {
        Store::Sb => 1,
        Store::Sh => 2,
        Store::Sw => 4,
    }
}

fn store_half(memory: &mut [u8], at: usize, value: u16)
    requires { at + 2 ≤ length memory.old }
    ensures { memory.new ≡ stored Store.Sh memory.old at value }
{
    let [a, b] = value.to_le_bytes();
    memory[at] = a;
    memory[at + 1] = b;
}

fn store_word(memory: &mut [u8], at: usize, value: u32)
    requires { at + 4 ≤ length memory.old }
    ensures { memory.new ≡ stored Store.Sw memory.old at value }
{
    let [a, b, c, d] = value.to_le_bytes();
    memory[at] = a;
    memory[at + 1] = b;
    memory[at + 2] = c;
    memory[at + 3] = d;
}

pub(crate) fn store(store: Store, memory: &mut [u8], at: usize, value: u32)
    requires { at + store_size store ≤ length memory.old }
    ensures { memory.new ≡ stored store memory.old at value }
{
    match store {
        Store::Sb => memory[at] = (value % 0x100) as u8,
        Store::Sh => store_half(memory, at, (value % 0x1_0000) as u16),
        Store::Sw => store_word(memory, at, value),
    }
}
