//! Inputs within the bounds of their bytes and their reads, and beyond them.

ghost use Rattle.std.specs.Prelude.{◌≡◌, ◌≤◌, None};

use commands::device::{Source, Taken};
use commands::fault::Fault;
use commands::input::read_input;
use std::alloc::Global;
use std::test::Fail;

/// A source that gives one byte at a time, or is interrupted at each read.
#[derive(Drop)]
struct Drip {
    rest: &'static [u8],
    is_interrupted: bool,
    reads: u64,
    ends: u64,
    ghost fewer: { ends ≤ reads },
}

impl Source for Drip {
    ghost seen = { λ s. record { left = None; reads = s.reads; ends = s.ends; failures = 0 } };

    fn read(&mut self, buffer: &mut [u8]) -> Taken {
        self.reads += 1;
        if self.is_interrupted {
            return Taken::Interrupted;
        }
        match self.rest {
            [] => {
                self.ends += 1;
                Taken::End
            }
            [byte, rest @ ..] => {
                buffer[0] = *byte;
                self.rest = rest;
                Taken::Bytes(1)
            }
        }
    }
}

/// What is read of such a source, of at most four bytes in at most five reads.
fn read(alloc: Global, rest: &'static [u8], is_interrupted: bool) -> Result<Vec<u8>, Fault> {
    let mut source = Drip {
        rest,
        is_interrupted,
        reads: 0,
        ends: 0,
    };
    read_input(alloc, &mut source, 4, 5)
}

/// The number of the refusal of what is read, or 0.
fn refusal(alloc: Global, rest: &'static [u8], is_interrupted: bool) -> u8 {
    match read(alloc, rest, is_interrupted) {
        Ok(_) => 0,
        Err(fault) => fault.number(),
    }
}

/// The fifth read meets both bounds.
#[test]
fn the_fifth_of_four_bytes_is_too_many(rt: HostRuntime) -> Result<(), Fail> {
    assert!(rt; refusal(rt.alloc(), b"12345", false) == 101);
    Ok(())
}

#[test]
fn five_interrupted_reads_meet_no_end(rt: HostRuntime) -> Result<(), Fail> {
    assert!(rt; refusal(rt.alloc(), b"", true) == 100);
    Ok(())
}

/// The fifth read meets the end.
#[test]
fn four_bytes_are_read(rt: HostRuntime) -> Result<(), Fail> {
    let bytes = read(rt.alloc(), b"1234", false)?;
    assert!(rt; bytes.as_slice() == b"1234".as_slice());
    Ok(())
}
