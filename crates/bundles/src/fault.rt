//! The reasons why a text is no bundle, and why a bundle is not written. Each refusal has a number and a name.

ghost use Rattle.std.specs.Prelude.{◌≡◌};
ghost use Rattle.bundles.specs.declared.fault.BundleFault.TheVariants.{Memory};
ghost use Rattle.bundles.specs.declared.fault.WriteFault.TheVariants as writing;
ghost use Rattle.bundles.specs.Refusals.{line_of, name_of, number_of, write_name, write_number};

use std::alloc::{AllocError, AllocFailed};
use thiserror::Error;

/// The reason why a text is refused.
#[derive(Clone, Copy, Debug, PartialEq, Eq, Error)]
pub enum BundleFault {
    /// 106: the line of this number, counted from 1, is the first that is not written as a bundle's, is missing, or stands behind the last.
    #[error("this line is not as bundles have it, is missing, or stands behind the last")]
    BadBundle(usize),
    /// 131: the first line is that of format 1, which is no longer read.
    #[error("a bundle of format 1, which is no longer read: ask for one of format 2, or for the directory and the proof")]
    OlderBundle,
    /// 99: a growth of memory was refused.
    #[error("memory ran out")]
    Memory,
}

impl BundleFault {
    /// Returns the number of the refusal.
    pub fn number(&self) -> u8
        ensures { result ≡ number_of self.now }
    {
        match self {
            BundleFault::BadBundle(_) => 106,
            BundleFault::OlderBundle => 131,
            BundleFault::Memory => 99,
        }
    }

    /// Returns the name of the refusal, which is that of its variant.
    pub fn name(&self) -> &'static str
        ensures { result.now ≡ name_of self.now }
    {
        match self {
            BundleFault::BadBundle(_) => "BadBundle",
            BundleFault::OlderBundle => "OlderBundle",
            BundleFault::Memory => "Memory",
        }
    }

    /// Returns the number of the line that is at fault, counted from 1. Returns `None` if no single line is.
    pub fn line(&self) -> Option<usize>
        ensures { result ≡ line_of self.now }
    {
        match self {
            BundleFault::BadBundle(line) => Some(*line),
            BundleFault::OlderBundle | BundleFault::Memory => None,
        }
    }
}

impl From<AllocError> for BundleFault {
    ghost from_gives = { λ _ fault. fault ≡ Memory };

    fn from(_: AllocError) -> BundleFault {
        BundleFault::Memory
    }
}

/// The reason why a bundle is not written.
#[derive(Clone, Copy, Debug, PartialEq, Eq, Error)]
pub enum WriteFault {
    /// 106: a part of the bundle is not as [`Bundle`](crate::Bundle) says.
    #[error("a part of the bundle is not as bundles have it")]
    BadBundle,
    /// 99: a growth of memory was refused.
    #[error("memory ran out")]
    Memory,
}

impl WriteFault {
    /// Returns the number of the refusal.
    pub fn number(&self) -> u8
        ensures { result ≡ write_number self.now }
    {
        match self {
            WriteFault::BadBundle => 106,
            WriteFault::Memory => 99,
        }
    }

    /// Returns the name of the refusal, which is that of its variant.
    pub fn name(&self) -> &'static str
        ensures { result.now ≡ write_name self.now }
    {
        match self {
            WriteFault::BadBundle => "BadBundle",
            WriteFault::Memory => "Memory",
        }
    }
}

impl From<AllocError> for WriteFault {
    ghost from_gives = { λ _ fault. fault ≡ writing.Memory };

    fn from(_: AllocError) -> WriteFault {
        WriteFault::Memory
    }
}

impl<T: Drop> From<AllocFailed<T>> for WriteFault {
    ghost from_gives = { λ _ fault. fault ≡ writing.Memory };

    fn from(_: AllocFailed<T>) -> WriteFault {
        WriteFault::Memory
    }
}
