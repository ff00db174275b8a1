//! RV32IM: the base integer instructions of RISC-V for 32 bits and the extension M, by the unprivileged standard of RISC-V International
//! (version 20191213, chapters 2, 7 and 24). A run is a function of its code, registers, memory and fuel: it has no clock and no input.
//!
//! - `decode` and `decode_image` say which instruction a word is: `specs/Encoding.antt` has the formats, `specs/Decoding.antt` the tables.
//! - `run` does what the instructions say: `specs/Arithmetic.antt` says what they compute, over the integers, `specs/Memory.antt` what they
//!   load and store, `specs/Executing.antt` what each does, and `specs/Running.antt` what code does from one instruction to the next.
//! - `laws` has what follows from these definitions alone.
#![tactic(auto)]

pub use decoding::{decode, decode_image};
pub use instruction::{Instruction, Load, Store};
pub use operation::{Comparison, Operation};
pub use running::{Stop, run};
pub use trap::{Next, Trap};

mod arithmetic;
mod decoding;
mod executing;
mod fields;
mod instruction;
pub mod laws;
mod memory;
mod operation;
mod registers;
mod running;
mod trap;
