//! A journal of texts in one file. A group of texts is on the disk before it is acknowledged. After a crash it is there whole or not at
//! all.
//!
//! - [`Reading`] reads the texts of a file that a crash may have left, one after the other, and opens the [`Journal`].
//! - [`Journal`] adds groups of texts behind those that are there.
//! - [`Device`] is a file as the journal sees it, and what a crash does to it. [`MemoryFile`] is one in memory.
//!
//! None of this relies on a checksum, and a torn write may leave any bytes. A crash leaves one of two kinds of file: a new file of at most
//! a byte, or whole blocks, a closed gate behind them, and at most a group behind that. Any other file is damaged. It is refused, and
//! nothing of it is cut or written. So these are reported: a length that lost bits, a file that lost its end, and more than a group behind
//! a closed gate.
//!
//! These are not reported:
//!
//! - An open gate lost each of its eight bits, and at most [`MOST_GROUP`] bytes stand behind it. It looks like an end that a crash tore,
//!   and what stands there is cut off.
//! - At most one byte of the file is left. It reads as a new one.
//! - A length and what it lacks were changed together, so that they agree again. They may lead anywhere.
//! - Bytes of a text changed. They are given as they are, and whoever takes the texts tests them.
#![tactic(auto)]

mod blocks;
mod device;
mod fault;
mod journal;
pub mod laws;
mod memory_file;
mod reading;
mod recovery;

pub use blocks::MOST_GROUP;
pub use device::Device;
pub use fault::{AppendFault, DeviceFault, OpenFault};
pub use journal::Journal;
pub use memory_file::MemoryFile;
pub use reading::{Reading, Refused};
