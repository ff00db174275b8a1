//! The reasons why a call is refused. Each refusal has a number and a name.

ghost use Rattle.std.specs.Prelude.{◌≡◌};
ghost use Rattle.shared_stores.specs.Refusals.{ask_name, ask_number, call_name, call_number, close_name, close_number};

use std::alloc::AllocError;
use thiserror::Error;

/// The reason why a call at a shared store is refused.
#[derive(Clone, Copy, Debug, PartialEq, Eq, Error)]
pub enum CallFault {
    /// 96: the directory under the lock is not the one beside it. No call changes it. It is compared since a lock keeps only what the type
    /// of its content says.
    #[error("the directory under the lock is another one")]
    DirectoryChanged,
    /// 99: a growth of memory was refused.
    #[error("memory ran out")]
    Memory,
}

/// The reason why a question at a shared store is refused.
#[derive(Clone, Copy, Debug, PartialEq, Eq, Error)]
pub enum QuestionFault {
    /// 44: the node is not listed in the store's directory.
    #[error("the node is not listed in the directory")]
    UnknownNode,
    /// 96: the directory under the lock is not the one beside it. No call changes it. It is compared since a lock keeps only what the type
    /// of its content says.
    #[error("the directory under the lock is another one")]
    DirectoryChanged,
    /// 99: a growth of memory was refused.
    #[error("memory ran out")]
    Memory,
}

/// The reason why a shared store is not closed.
#[derive(Clone, Copy, Debug, PartialEq, Eq, Error)]
pub enum CloseFault {
    /// 91: the passes are not those numbered from 0 on, each once.
    #[error("a pass is missing, or it is given twice")]
    PassMissing,
    /// 92: the calls of a pass are not those of its number in the history, or the history has a call of another number. Or the directory or
    /// the opening set under the lock is not the one beside it.
    #[error("the passes, the directory or the opening set do not agree with the history")]
    HistoryMismatch,
}

impl CallFault {
    /// Returns the number of the refusal.
    pub fn number(&self) -> u8
        ensures { result ≡ call_number self.now }
    {
        match self {
            CallFault::DirectoryChanged => 96,
            CallFault::Memory => 99,
        }
    }

    /// Returns the name of the refusal, which is that of its variant.
    pub fn name(&self) -> &'static str
        ensures { result.now ≡ call_name self.now }
    {
        match self {
            CallFault::DirectoryChanged => "DirectoryChanged",
            CallFault::Memory => "Memory",
        }
    }
}

impl QuestionFault {
    /// Returns the number of the refusal.
    pub fn number(&self) -> u8
        ensures { result ≡ ask_number self.now }
    {
        match self {
            QuestionFault::UnknownNode => 44,
            QuestionFault::DirectoryChanged => 96,
            QuestionFault::Memory => 99,
        }
    }

    /// Returns the name of the refusal, which is that of its variant.
    pub fn name(&self) -> &'static str
        ensures { result.now ≡ ask_name self.now }
    {
        match self {
            QuestionFault::UnknownNode => "UnknownNode",
            QuestionFault::DirectoryChanged => "DirectoryChanged",
            QuestionFault::Memory => "Memory",
        }
    }
}

impl CloseFault {
    /// Returns the number of the refusal.
    pub fn number(&self) -> u8
        ensures { result ≡ close_number self.now }
    {
        match self {
            CloseFault::PassMissing => 91,
            CloseFault::HistoryMismatch => 92,
        }
    }

    /// Returns the name of the refusal, which is that of its variant.
    pub fn name(&self) -> &'static str
        ensures { result.now ≡ close_name self.now }
    {
        match self {
            CloseFault::PassMissing => "PassMissing",
            CloseFault::HistoryMismatch => "HistoryMismatch",
        }
    }
}

impl From<AllocError> for CallFault {
    ghost use Rattle.shared_stores.specs.declared.fault.CallFault.TheVariants.{Memory};

    ghost from_gives = { λ _ e. e ≡ Memory };

    fn from(_: AllocError) -> CallFault {
        CallFault::Memory
    }
}

impl From<AllocError> for QuestionFault {
    ghost use Rattle.shared_stores.specs.declared.fault.QuestionFault.TheVariants.{Memory};

    ghost from_gives = { λ _ e. e ≡ Memory };

    fn from(_: AllocError) -> QuestionFault {
        QuestionFault::Memory
    }
}
