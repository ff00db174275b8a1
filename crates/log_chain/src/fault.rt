//! Why a call of this crate is refused. Each refusal has a number and a name.

ghost use Rattle.std.specs.Prelude.{◌≡◌};
ghost use Rattle.log_chain.specs.declared.fault.SegmentFault.TheVariants.{Memory};
ghost use Rattle.log_chain.specs.Refusals.{append_name, append_number, field_name, field_number, segment_name, segment_number};

use std::alloc::AllocError;
use thiserror::Error;

/// Why a field is refused.
#[derive(Clone, Copy, Debug, PartialEq, Eq, Error)]
pub enum FieldFault {
    /// 40: the bytes end within the field.
    #[error("the bytes end within a field")]
    Truncated,
    /// 42: a length is above its limit. It is reported before `Truncated` of the bytes that the length counts.
    #[error("a length is above its limit")]
    TooLong,
}

impl FieldFault {
    /// Returns the number of the refusal.
    pub fn number(&self) -> u8
        ensures { result ≡ field_number self.now }
    {
        match self {
            FieldFault::Truncated => 40,
            FieldFault::TooLong => 42,
        }
    }

    /// Returns the name of the refusal, which is that of its variant.
    pub fn name(&self) -> &'static str
        ensures { result.now ≡ field_name self.now }
    {
        match self {
            FieldFault::Truncated => "Truncated",
            FieldFault::TooLong => "TooLong",
        }
    }
}

/// Why an entry is not appended.
#[derive(Clone, Copy, Debug, PartialEq, Eq, Error)]
pub enum AppendFault {
    /// 10: the number is not above the last entry's.
    #[error("the entry's number is not above the last one's")]
    SeqNotRising,
    /// 11: the content has more than [`crate::LONGEST_CONTENT`] bytes.
    #[error("the entry's content is too long")]
    ContentTooLong,
    /// 99: a growth of memory was refused.
    #[error("memory ran out")]
    Memory,
}

impl AppendFault {
    /// Returns the number of the refusal.
    pub fn number(&self) -> u8
        ensures { result ≡ append_number self.now }
    {
        match self {
            AppendFault::SeqNotRising => 10,
            AppendFault::ContentTooLong => 11,
            AppendFault::Memory => 99,
        }
    }

    /// Returns the name of the refusal, which is that of its variant.
    pub fn name(&self) -> &'static str
        ensures { result.now ≡ append_name self.now }
    {
        match self {
            AppendFault::SeqNotRising => "SeqNotRising",
            AppendFault::ContentTooLong => "ContentTooLong",
            AppendFault::Memory => "Memory",
        }
    }
}

/// Why there is no segment.
#[derive(Clone, Copy, Debug, PartialEq, Eq, Error)]
pub enum SegmentFault {
    /// 12: one of the two numbers is no entry's, or the first is above the second.
    #[error("the log has no entry with one of the two numbers, or the first number is above the second")]
    NoEntry,
    /// 13: there are more than [`crate::MOST_ENTRIES`] entries.
    #[error("the segment has too many entries")]
    SegmentTooLong,
    /// 99: a growth of memory was refused.
    #[error("memory ran out")]
    Memory,
}

impl SegmentFault {
    /// Returns the number of the refusal.
    pub fn number(&self) -> u8
        ensures { result ≡ segment_number self.now }
    {
        match self {
            SegmentFault::NoEntry => 12,
            SegmentFault::SegmentTooLong => 13,
            SegmentFault::Memory => 99,
        }
    }

    /// Returns the name of the refusal, which is that of its variant.
    pub fn name(&self) -> &'static str
        ensures { result.now ≡ segment_name self.now }
    {
        match self {
            SegmentFault::NoEntry => "NoEntry",
            SegmentFault::SegmentTooLong => "SegmentTooLong",
            SegmentFault::Memory => "Memory",
        }
    }
}

impl From<AllocError> for SegmentFault {
    ghost from_gives = { λ _ e. e ≡ Memory };

    fn from(_e: AllocError) -> SegmentFault {
        SegmentFault::Memory
    }
}
