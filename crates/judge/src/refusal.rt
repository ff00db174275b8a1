//! Why nobody is convicted. Each refusal has a number and a name.

ghost use Rattle.std.specs.Prelude.{◌≡◌};
ghost use Rattle.judge.specs.Refusals.{judge_name, judge_number};

use authenticators::DirectoryFault;
use proofs::{DecodeFault, ProofFault};

/// Why nobody is convicted. The numbers and the names are those of the fault.
#[derive(Clone, Copy, Debug)]
pub enum Refusal {
    /// The directory's bytes are refused.
    Directory(DirectoryFault),
    /// The proof's bytes are refused.
    Reading(DecodeFault),
    /// The proof convicts nobody.
    Proof(ProofFault),
    /// 99: memory ran out while a file was read.
    Memory,
    /// 100: a file could not be read.
    ReadFailed,
    /// 102: the answer could not be written.
    WriteFailed,
}

impl Refusal {
    /// Returns the number of the refusal.
    pub fn number(&self) -> u8
        ensures { result ≡ judge_number self.now }
    {
        match self {
            Refusal::Directory(fault) => fault.number(),
            Refusal::Reading(fault) => fault.number(),
            Refusal::Proof(fault) => fault.number(),
            Refusal::Memory => 99,
            Refusal::ReadFailed => 100,
            Refusal::WriteFailed => 102,
        }
    }

    /// Returns the name of the refusal.
    pub fn name(&self) -> &'static str
        ensures { result.now ≡ judge_name self.now }
    {
        match self {
            Refusal::Directory(fault) => fault.name(),
            Refusal::Reading(fault) => fault.name(),
            Refusal::Proof(fault) => fault.name(),
            Refusal::Memory => "Memory",
            Refusal::ReadFailed => "ReadFailed",
            Refusal::WriteFailed => "WriteFailed",
        }
    }
}
