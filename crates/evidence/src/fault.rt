//! The errors of stores.

ghost use Rattle.std.specs.Prelude.{◌≡◌};
ghost use Rattle.evidence.specs.declared.fault.AskFault.TheVariants.{Memory};
ghost use Rattle.evidence.specs.Refusals.{name_of, number_of, unknown_name, unknown_number};

use authenticators::Directory;
use evidence_item::Checked;
use std::alloc::{AllocError, AllocFailed};
use std::io;
use thiserror::Error;

/// The error if a store could not be made because a growth was refused. The directory is given back.
#[derive(Debug, Drop, Error)]
#[error("memory ran out")]
pub struct NewStoreRefused(pub Directory);

/// The error if a store did not take a checked item, because a growth was refused or there is no room for one item more. The
/// item is given back.
#[derive(Debug, Drop, Error)]
#[error("memory ran out, or the store has no room for one more item")]
pub struct TakeRefused<P>(pub Checked<P>);

/// 44: the node is not listed in the store's directory.
#[derive(Clone, Copy, Debug, PartialEq, Eq, Error)]
#[error("the node is not listed in the directory")]
pub struct UnknownNode;

impl UnknownNode {
    /// Returns the number of the refusal, which is that of [`AskFault::UnknownNode`].
    pub fn number(&self) -> u8
        ensures { result ≡ unknown_number }
    {
        44
    }

    /// Returns the name of the refusal.
    pub fn name(&self) -> &'static str
        ensures { result.now ≡ unknown_name }
    {
        "UnknownNode"
    }
}

/// Why a question about a node is refused.
#[derive(Clone, Copy, Debug, PartialEq, Eq, Error)]
pub enum AskFault {
    /// 44: the node is not listed in the store's directory.
    #[error("the node is not listed in the directory")]
    UnknownNode,
    /// 99: a growth of memory was refused.
    #[error("memory ran out")]
    Memory,
}

impl AskFault {
    /// Returns the number of the refusal.
    pub fn number(&self) -> u8
        ensures { result ≡ number_of self.now }
    {
        match self {
            AskFault::UnknownNode => 44,
            AskFault::Memory => 99,
        }
    }

    /// Returns the name of the refusal, which is that of its variant.
    pub fn name(&self) -> &'static str
        ensures { result.now ≡ name_of self.now }
    {
        match self {
            AskFault::UnknownNode => "UnknownNode",
            AskFault::Memory => "Memory",
        }
    }
}

impl From<AllocError> for AskFault {
    ghost from_gives = { λ _ e. e ≡ Memory };

    fn from(_: AllocError) -> AskFault {
        AskFault::Memory
    }
}

impl<T: Drop> From<AllocFailed<T>> for AskFault {
    ghost from_gives = { λ _ e. e ≡ Memory };

    fn from(_: AllocFailed<T>) -> AskFault {
        AskFault::Memory
    }
}

impl From<UnknownNode> for AskFault {
    ghost use Rattle.evidence.specs.declared.fault.AskFault.TheVariants.{UnknownNode};

    ghost from_gives = { λ _ e. e ≡ UnknownNode };

    fn from(_: UnknownNode) -> AskFault {
        AskFault::UnknownNode
    }
}

/// Why a text was not written whole.
#[derive(Clone, Copy, Debug, PartialEq, Eq, Error)]
pub enum WriteFault {
    /// A growth of memory was refused.
    #[error("memory ran out")]
    Memory,
    /// The writer did not take all of the bytes. How many it took is not known.
    #[error("a write failed")]
    WriteFailed,
}

impl From<AllocError> for WriteFault {
    ghost use Rattle.evidence.specs.declared.fault.WriteFault.TheVariants.{Memory};

    ghost from_gives = { λ _ e. e ≡ Memory };

    fn from(_: AllocError) -> WriteFault {
        WriteFault::Memory
    }
}

impl From<io::Error> for WriteFault {
    ghost use Rattle.evidence.specs.declared.fault.WriteFault.TheVariants.{WriteFailed};

    ghost from_gives = { λ _ e. e ≡ WriteFailed };

    fn from(_: io::Error) -> WriteFault {
        WriteFault::WriteFailed
    }
}
