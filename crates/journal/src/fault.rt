//! Why a call was not done, on a device and on a journal.

ghost use Rattle.std.specs.Prelude.{◌≡◌};
ghost use Rattle.journal.specs.declared.fault.DeviceFault.TheVariants.{Memory};
ghost use Rattle.journal.specs.Faults.{appending, opening};

use std::alloc::{AllocError, AllocFailed};
use thiserror::Error;

/// Why a device didn't do a call.
#[derive(Clone, Copy, Debug, PartialEq, Eq, Error)]
pub enum DeviceFault {
    /// A growth of memory was refused.
    #[error("memory ran out")]
    Memory,
    /// The file or its disk failed, for example since the disk is full.
    #[error("the file failed")]
    Failed,
}

/// Why a file is not opened as a journal.
#[derive(Clone, Copy, Debug, PartialEq, Eq, Error)]
pub enum OpenFault {
    /// A growth of memory was refused.
    #[error("memory ran out")]
    Memory,
    /// The file or its disk failed.
    #[error("the file failed")]
    Failed,
    /// No crash leaves such a file, so something else changed bytes of it. Nothing was cut or written.
    #[error("the file is damaged in a way that no crash causes")]
    Damaged,
}

/// Why a group of texts is not acknowledged.
#[derive(Clone, Copy, Debug, PartialEq, Eq, Error)]
pub enum AppendFault {
    /// A growth of memory was refused. No text of the group is there.
    #[error("memory ran out")]
    Memory,
    /// The file or its disk failed. No text of the group is there, or comes to be there after a crash.
    #[error("the file failed")]
    Failed,
    /// The blocks of the group take more than [`MOST_GROUP`](crate::MOST_GROUP) bytes. Nothing was written.
    #[error("the group is too long")]
    TooLong,
    /// The blocks of the journal take 2^60 bytes or more. Nothing was written.
    #[error("the journal is full")]
    Full,
    /// The device reported this fault as the group's gate was opened. The group is there whole or not at all. Which of the two holds is
    /// known once the file is opened again.
    #[error("whether the group is there is not known: {0}")]
    InDoubt(DeviceFault),
}

impl From<AllocError> for DeviceFault {
    ghost from_gives = { λ _ e. e ≡ Memory };

    fn from(_: AllocError) -> Self {
        DeviceFault::Memory
    }
}

impl<T: Drop> From<AllocFailed<T>> for DeviceFault {
    ghost from_gives = { λ _ e. e ≡ Memory };

    fn from(_: AllocFailed<T>) -> Self {
        DeviceFault::Memory
    }
}

impl From<AllocError> for AppendFault {
    ghost from_gives = { λ _ e. e ≡ appending Memory };

    fn from(_: AllocError) -> Self {
        AppendFault::Memory
    }
}

impl From<DeviceFault> for AppendFault {
    ghost from_gives = { λ f e. e ≡ appending f };

    fn from(fault: DeviceFault) -> Self {
        match fault {
            DeviceFault::Memory => AppendFault::Memory,
            DeviceFault::Failed => AppendFault::Failed,
        }
    }
}

impl From<DeviceFault> for OpenFault {
    ghost from_gives = { λ f e. e ≡ opening f };

    fn from(fault: DeviceFault) -> Self {
        match fault {
            DeviceFault::Memory => OpenFault::Memory,
            DeviceFault::Failed => OpenFault::Failed,
        }
    }
}
