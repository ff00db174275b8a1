//! The reasons why a group is not taken, and why a journal is not opened. Each refusal has a number and a name.

ghost use Rattle.std.specs.Prelude.{◌≡◌};
ghost use Rattle.durable_store.specs.Calls.{closed_by};
ghost use Rattle.durable_store.specs.Refusals.{open_name, open_number, take_name, take_number};
ghost use Rattle.durable_store.specs.declared.fault.TakeFault.TheVariants as taking;
ghost use Rattle.durable_store.specs.declared.fault.OpenFault.TheVariants as opening;

use journal::DeviceFault;
use std::alloc::{AllocError, AllocFailed};
use thiserror::Error;

/// The reason why a group of items was not taken. After all but `Lost` no item of it was taken, and the store can be asked again.
#[derive(Clone, Copy, Debug, PartialEq, Eq, Error)]
pub enum TakeFault {
    /// 118: the texts that must be written take more bytes than a group may: those of the new items, and the basis if the journal is not
    /// begun. Nothing was written.
    #[error("the group is longer than a journal takes at once")]
    GroupTooLong,
    /// 119: the journal takes 2^60 bytes or more. Nothing was written.
    #[error("the journal is full")]
    JournalFull,
    /// 120: the file or its disk failed, for example because the disk is full. The journal was repaired.
    #[error("the journal's file failed")]
    DiskFailed,
    /// 121: the store is closed for good, and the value says what stopped it. There are three causes: it is not known whether the group is
    /// in the journal, or the journal could not be repaired, or the store could not take what is in the journal. The process has to end.
    /// After a restart the store has what is in the journal.
    #[error("the store is closed until its journal is opened again")]
    Lost(DeviceFault),
    /// 99: a growth of memory was refused.
    #[error("memory ran out")]
    Memory,
}

impl TakeFault {
    /// Returns the number of the refusal.
    pub fn number(&self) -> u8
        ensures { result ≡ take_number self.now }
    {
        match self {
            TakeFault::GroupTooLong => 118,
            TakeFault::JournalFull => 119,
            TakeFault::DiskFailed => 120,
            TakeFault::Lost(_) => 121,
            TakeFault::Memory => 99,
        }
    }

    /// Returns the name of the refusal, which is that of its variant.
    pub fn name(&self) -> &'static str
        ensures { result.now ≡ take_name self.now }
    {
        match self {
            TakeFault::GroupTooLong => "GroupTooLong",
            TakeFault::JournalFull => "JournalFull",
            TakeFault::DiskFailed => "DiskFailed",
            TakeFault::Lost(_) => "Lost",
            TakeFault::Memory => "Memory",
        }
    }

    /// Returns why the store is closed for good by this refusal. Returns `None` if it stays open.
    pub fn closed_by(&self) -> Option<DeviceFault>
        ensures { result ≡ closed_by self.now }
    {
        match self {
            TakeFault::Lost(why) => Some(*why),
            TakeFault::GroupTooLong
            | TakeFault::JournalFull
            | TakeFault::DiskFailed
            | TakeFault::Memory => None,
        }
    }
}

impl From<AllocError> for TakeFault {
    ghost from_gives = { λ _ e. e ≡ taking.Memory };

    fn from(_: AllocError) -> TakeFault {
        TakeFault::Memory
    }
}

impl<T: Drop> From<AllocFailed<T>> for TakeFault {
    ghost from_gives = { λ _ e. e ≡ taking.Memory };

    fn from(_: AllocFailed<T>) -> TakeFault {
        TakeFault::Memory
    }
}

/// The reason why a journal is not opened. Nothing of its file was cut or written.
#[derive(Clone, Copy, Debug, PartialEq, Eq, Error)]
pub enum OpenFault {
    /// 90: there is no worker, or there are more than [`MOST_WORKERS`](parallel_checking::MOST_WORKERS).
    #[error("the number of workers is not allowed")]
    BadWorkers,
    /// 120: the file or its disk failed.
    #[error("the journal's file failed")]
    DiskFailed,
    /// 122: no crash leaves such a file. Something else changed its bytes.
    #[error("the journal is damaged in a way that no crash causes")]
    Damaged,
    /// 123: the file's first text is not that of a journal of items for this program.
    #[error("the journal is of another program, or it is no journal of items")]
    OtherProgram,
    /// 124: the file's second text is not that of this directory.
    #[error("the journal is of another directory")]
    OtherDirectory,
    /// 125: the text at this place is not that of an item that is valid under the directory. Places are counted from 0, and the basis has
    /// the first two.
    #[error("a text of the journal is not that of a valid item")]
    BadItem(u64),
    /// 99: a growth of memory was refused.
    #[error("memory ran out")]
    Memory,
}

impl OpenFault {
    /// Returns the number of the refusal.
    pub fn number(&self) -> u8
        ensures { result ≡ open_number self.now }
    {
        match self {
            OpenFault::BadWorkers => 90,
            OpenFault::DiskFailed => 120,
            OpenFault::Damaged => 122,
            OpenFault::OtherProgram => 123,
            OpenFault::OtherDirectory => 124,
            OpenFault::BadItem(_) => 125,
            OpenFault::Memory => 99,
        }
    }

    /// Returns the name of the refusal, which is that of its variant.
    pub fn name(&self) -> &'static str
        ensures { result.now ≡ open_name self.now }
    {
        match self {
            OpenFault::BadWorkers => "BadWorkers",
            OpenFault::DiskFailed => "DiskFailed",
            OpenFault::Damaged => "Damaged",
            OpenFault::OtherProgram => "OtherProgram",
            OpenFault::OtherDirectory => "OtherDirectory",
            OpenFault::BadItem(_) => "BadItem",
            OpenFault::Memory => "Memory",
        }
    }
}

impl From<AllocError> for OpenFault {
    ghost from_gives = { λ _ e. e ≡ opening.Memory };

    fn from(_: AllocError) -> OpenFault {
        OpenFault::Memory
    }
}

impl<T: Drop> From<AllocFailed<T>> for OpenFault {
    ghost from_gives = { λ _ e. e ≡ opening.Memory };

    fn from(_: AllocFailed<T>) -> OpenFault {
        OpenFault::Memory
    }
}
