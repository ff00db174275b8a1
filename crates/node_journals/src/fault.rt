//! The errors of this crate: why bytes are no record, why nothing is drafted, why a node ended, and why no node is rebuilt.

ghost use Rattle.std.specs.Prelude.{◌≡◌};
ghost use Rattle.node_journals.specs.Refusals.{draft_name, draft_number, give_name, give_number, of_field, of_item, of_key, rebuild_name, rebuild_number, record_name, record_number};

use item_forms::DecodeFault;
use lms_sign::KeyFault;
use log_chain::FieldFault;
use std::alloc::AllocError;
use thiserror::Error;

/// Why bytes are no record, or no beginning. Reading reports the leftmost fault.
#[derive(Clone, Copy, Debug, PartialEq, Eq, Error)]
pub enum RecordFault {
    /// 2: the type of a key's tree is unknown.
    #[error("the type of the tree is unknown")]
    UnknownLmsType,
    /// 3: the type of a key's one-time signatures is unknown.
    #[error("the type of the one-time signatures is unknown")]
    UnknownOtsType,
    /// 40: the bytes end within a field.
    #[error("the bytes end within a field")]
    Truncated,
    /// 41: the kind is not 1 to 5, or the item is no send challenge.
    #[error("the kind of the record is unknown, or its item is no send challenge")]
    BadTag,
    /// 42: a length is above its limit. It is reported before `Truncated` of the bytes that it counts.
    #[error("a length is above its limit")]
    TooLong,
    /// 43: bytes are left over.
    #[error("bytes are left over after the record")]
    Trailing,
    /// 60: the first eight bytes are not those with which a node's journal begins.
    #[error("the first bytes are not those of a node's journal")]
    BadMagic,
    /// 99: a growth of memory was refused.
    #[error("memory ran out")]
    Memory,
}

/// Why nothing is drafted. Nothing has happened.
#[derive(Clone, Copy, Debug, PartialEq, Eq, Error)]
pub enum DraftFault {
    /// 42: a signature, a payload or a name is above its limit.
    #[error("a part of the record is above its limit")]
    TooLong,
    /// 128: none of the secrets makes the key.
    #[error("none of the seeds makes the key")]
    OtherKey,
    /// 99: a growth of memory was refused.
    #[error("memory ran out")]
    Memory,
}

/// Why there is no node any more.
#[derive(Clone, Copy, Debug, PartialEq, Eq, Error)]
pub enum GiveFault {
    /// 130: memory ran out after a record was written. The node must be rebuilt from its journal.
    #[error("memory ran out after the record was written: rebuild the node from its journal")]
    Ended,
}

/// Why no node is rebuilt.
#[derive(Clone, Copy, Debug, PartialEq, Eq, Error)]
pub enum RebuildFault {
    /// 30: the directory does not list the node.
    #[error("the node is not listed in the directory")]
    UnknownNode,
    /// 31: the key with which the node began is none of those that the directory lists for it.
    #[error("the key is none of the node's keys")]
    WrongKey,
    /// 99: a growth of memory was refused.
    #[error("memory ran out")]
    Memory,
    /// 126: the journal has no text, so no node began with it.
    #[error("the journal is empty")]
    EmptyJournal,
    /// 127: the first text is no beginning.
    #[error("the first text of the journal is not that of a node's journal")]
    NoBeginning,
    /// 123: the journal names another program.
    #[error("the journal is of another program")]
    OtherProgram,
    /// 124: the journal is of another directory.
    #[error("the journal is of another directory")]
    OtherDirectory,
    /// 128: none of the secrets makes a key that the journal names.
    #[error("none of the seeds makes a key that the journal names")]
    OtherKey,
    /// 129: a text after the first is no record.
    #[error("a text of the journal is no record")]
    BadRecord,
}

impl RecordFault {
    /// Returns the number of the refusal.
    pub fn number(&self) -> u8
        ensures { result ≡ record_number self.now }
    {
        match self {
            RecordFault::UnknownLmsType => 2,
            RecordFault::UnknownOtsType => 3,
            RecordFault::Truncated => 40,
            RecordFault::BadTag => 41,
            RecordFault::TooLong => 42,
            RecordFault::Trailing => 43,
            RecordFault::BadMagic => 60,
            RecordFault::Memory => 99,
        }
    }

    /// Returns the name of the refusal, which is that of its variant.
    pub fn name(&self) -> &'static str
        ensures { result.now ≡ record_name self.now }
    {
        match self {
            RecordFault::UnknownLmsType => "UnknownLmsType",
            RecordFault::UnknownOtsType => "UnknownOtsType",
            RecordFault::Truncated => "Truncated",
            RecordFault::BadTag => "BadTag",
            RecordFault::TooLong => "TooLong",
            RecordFault::Trailing => "Trailing",
            RecordFault::BadMagic => "BadMagic",
            RecordFault::Memory => "Memory",
        }
    }
}

impl DraftFault {
    /// Returns the number of the refusal.
    pub fn number(&self) -> u8
        ensures { result ≡ draft_number self.now }
    {
        match self {
            DraftFault::TooLong => 42,
            DraftFault::OtherKey => 128,
            DraftFault::Memory => 99,
        }
    }

    /// Returns the name of the refusal, which is that of its variant.
    pub fn name(&self) -> &'static str
        ensures { result.now ≡ draft_name self.now }
    {
        match self {
            DraftFault::TooLong => "TooLong",
            DraftFault::OtherKey => "OtherKey",
            DraftFault::Memory => "Memory",
        }
    }
}

impl GiveFault {
    /// Returns the number of the refusal.
    pub fn number(&self) -> u8
        ensures { result ≡ give_number self.now }
    {
        match self {
            GiveFault::Ended => 130,
        }
    }

    /// Returns the name of the refusal, which is that of its variant.
    pub fn name(&self) -> &'static str
        ensures { result.now ≡ give_name self.now }
    {
        match self {
            GiveFault::Ended => "Ended",
        }
    }
}

impl RebuildFault {
    /// Returns the number of the refusal.
    pub fn number(&self) -> u8
        ensures { result ≡ rebuild_number self.now }
    {
        match self {
            RebuildFault::UnknownNode => 30,
            RebuildFault::WrongKey => 31,
            RebuildFault::Memory => 99,
            RebuildFault::EmptyJournal => 126,
            RebuildFault::NoBeginning => 127,
            RebuildFault::OtherProgram => 123,
            RebuildFault::OtherDirectory => 124,
            RebuildFault::OtherKey => 128,
            RebuildFault::BadRecord => 129,
        }
    }

    /// Returns the name of the refusal, which is that of its variant.
    pub fn name(&self) -> &'static str
        ensures { result.now ≡ rebuild_name self.now }
    {
        match self {
            RebuildFault::UnknownNode => "UnknownNode",
            RebuildFault::WrongKey => "WrongKey",
            RebuildFault::Memory => "Memory",
            RebuildFault::EmptyJournal => "EmptyJournal",
            RebuildFault::NoBeginning => "NoBeginning",
            RebuildFault::OtherProgram => "OtherProgram",
            RebuildFault::OtherDirectory => "OtherDirectory",
            RebuildFault::OtherKey => "OtherKey",
            RebuildFault::BadRecord => "BadRecord",
        }
    }
}

impl From<FieldFault> for RecordFault {
    ghost from_gives = { λ fault told. told ≡ of_field fault };

    fn from(fault: FieldFault) -> RecordFault {
        match fault {
            FieldFault::Truncated => RecordFault::Truncated,
            FieldFault::TooLong => RecordFault::TooLong,
        }
    }
}

impl From<KeyFault> for RecordFault {
    ghost from_gives = { λ fault told. told ≡ of_key fault };

    fn from(fault: KeyFault) -> RecordFault {
        match fault {
            KeyFault::KeyLength => RecordFault::Truncated,
            KeyFault::UnknownLmsType => RecordFault::UnknownLmsType,
            KeyFault::UnknownOtsType => RecordFault::UnknownOtsType,
        }
    }
}

impl From<DecodeFault> for RecordFault {
    ghost from_gives = { λ fault told. told ≡ of_item fault };

    fn from(fault: DecodeFault) -> RecordFault {
        match fault {
            DecodeFault::Truncated => RecordFault::Truncated,
            DecodeFault::BadTag => RecordFault::BadTag,
            DecodeFault::TooLong => RecordFault::TooLong,
            DecodeFault::Trailing => RecordFault::Trailing,
            DecodeFault::Memory => RecordFault::Memory,
        }
    }
}

impl From<AllocError> for RecordFault {
    ghost use Rattle.node_journals.specs.declared.fault.RecordFault.TheVariants.{Memory};

    ghost from_gives = { λ _ fault. fault ≡ Memory };

    fn from(_: AllocError) -> RecordFault {
        RecordFault::Memory
    }
}

impl From<AllocError> for DraftFault {
    ghost use Rattle.node_journals.specs.declared.fault.DraftFault.TheVariants.{Memory};

    ghost from_gives = { λ _ fault. fault ≡ Memory };

    fn from(_: AllocError) -> DraftFault {
        DraftFault::Memory
    }
}

impl From<AllocError> for RebuildFault {
    ghost use Rattle.node_journals.specs.declared.fault.RebuildFault.TheVariants.{Memory};

    ghost from_gives = { λ _ fault. fault ≡ Memory };

    fn from(_: AllocError) -> RebuildFault {
        RebuildFault::Memory
    }
}
