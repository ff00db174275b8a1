//! The reasons why no bundle is made, and why texts convict nobody.

ghost use Rattle.std.specs.Prelude.{◌≡◌};
ghost use Rattle.bundling.specs.declared.fault.TextFault.TheVariants as text;
ghost use Rattle.bundling.specs.declared.fault.MakeFault.TheVariants as making;

use authenticators::DirectoryFault;
use proofs::{DecodeFault, ProofFault};
use std::alloc::AllocError;
use thiserror::Error;

/// The reason why the texts of a directory and of a proof convict nobody. Each fault has the number and the name that its own crate gives
/// it.
#[derive(Clone, Copy, Debug, PartialEq, Eq, Error)]
pub enum TextFault {
    /// The first text is no directory.
    #[error("the directory: {0}")]
    Directory(DirectoryFault),
    /// The second text is no proof.
    #[error("the proof: {0}")]
    Spelling(DecodeFault),
    /// The proof convicts nobody under the directory.
    #[error("the proof: {0}")]
    Proof(ProofFault),
    /// 99: a growth of memory was refused.
    #[error("memory ran out")]
    Memory,
}

impl From<DirectoryFault> for TextFault {
    ghost from_gives = { λ low fault. fault ≡ text.Directory low };

    fn from(fault: DirectoryFault) -> TextFault {
        TextFault::Directory(fault)
    }
}

impl From<DecodeFault> for TextFault {
    ghost from_gives = { λ low fault. fault ≡ text.Spelling low };

    fn from(fault: DecodeFault) -> TextFault {
        TextFault::Spelling(fault)
    }
}

impl From<ProofFault> for TextFault {
    ghost from_gives = { λ low fault. fault ≡ text.Proof low };

    fn from(fault: ProofFault) -> TextFault {
        TextFault::Proof(fault)
    }
}

impl From<AllocError> for TextFault {
    ghost from_gives = { λ _ fault. fault ≡ text.Memory };

    fn from(_: AllocError) -> TextFault {
        TextFault::Memory
    }
}

/// The reason why no bundle is made.
#[derive(Clone, Copy, Debug, PartialEq, Eq, Error)]
pub enum MakeFault {
    /// The texts convict nobody, or memory ran out.
    #[error("{0}")]
    Text(TextFault),
    /// 106: a part of the bundle is not as [`Bundle`](bundles::Bundle) says.
    #[error("a part of the bundle is not as bundles have it")]
    BadBundle,
}

impl From<AllocError> for MakeFault {
    ghost from_gives = { λ _ fault. fault ≡ making.Text text.Memory };

    fn from(_: AllocError) -> MakeFault {
        MakeFault::Text(TextFault::Memory)
    }
}

impl From<TextFault> for MakeFault {
    ghost from_gives = { λ low fault. fault ≡ making.Text low };

    fn from(fault: TextFault) -> MakeFault {
        MakeFault::Text(fault)
    }
}
