//! Refusals. Each has a number and a name.

ghost use Rattle.std.specs.Prelude.{◌≡◌};
ghost use Rattle.byte_calls.specs.Refusals.{name_of, number_of};

/// Why a call is refused. The numbers and the names are those of the crate that refuses. Refusals from 110 on concern handles, and what is
/// asked of them.
#[derive(Clone, Copy, Debug, PartialEq, Eq)]
pub enum Refusal {
    /// The LMS typecode of a key is not known.
    UnknownLmsType,
    /// The LM-OTS typecode of a key is not known.
    UnknownOtsType,
    /// The tree of a key is too high for the key to be made.
    HeightTooLarge,
    /// The directory lists a node twice.
    DuplicateNode,
    /// The directory lists a key twice.
    DuplicateKey,
    /// The directory lists more nodes than it may.
    TooManyNodes,
    /// The first bytes are not those of a directory.
    DirectoryMagic,
    /// The directory is cut off.
    DirectoryTruncated,
    /// Bytes are left over after the directory.
    DirectoryTrailing,
    /// The directory lists a node with no key, or with more than it may have.
    KeyCount,
    /// A key is of a node that is not listed.
    UnlistedNode,
    /// The node that is to begin is not listed in the directory.
    NodeNotListed,
    /// The key is none of the node's keys, is or was in use, or has signed already.
    WrongKey,
    /// The message is for another node.
    NotMine,
    /// The sender is not listed in the directory, or is this node.
    UnknownSender,
    /// No key of the sender verifies the message's signature.
    MessageSignature,
    /// The payload of a message is too long.
    PayloadTooLong,
    /// The key in use has too few leaves left.
    KeySpent,
    /// The log is full.
    LogFull,
    /// The acknowledgement is for no message that the node sent, or it is not valid.
    BadAck,
    /// Another message of this sender with this number was received.
    NumberTaken,
    /// A text is cut off.
    Truncated,
    /// A tag, a flag or a form is unknown, or is not the one that is asked for.
    BadTag,
    /// A length or a count is above its limit.
    TooLong,
    /// Bytes are left over.
    Trailing,
    /// A node is not listed.
    UnknownNode,
    /// A message is from a node to itself.
    SelfMessage,
    /// A segment has no entry.
    EmptySegment,
    /// A segment begins neither with a log's first entry nor with a CHECKPOINT.
    BadStart,
    /// The range of an audit challenge is empty.
    BadRange,
    /// A signature of an item is not valid.
    BadSignature,
    /// The parts of a proof do not contradict each other, or are of two nodes.
    NoContradiction,
    /// The segment that a proof presents conforms.
    Conforms,
    /// The first bytes of a text are not those of what it is read as.
    BadMagic,
    /// The items of a store, or the digests of a summary, do not ascend.
    NotAscending,
    /// No bucket of a short summary is kept.
    NothingKept,
    /// The challenge is against another node.
    NotForMe,
    /// The challenge names an entry that is not in the log.
    NotInLog,
    /// The item is no challenge.
    NoAnswerNeeded,
    /// A growth of memory was refused.
    Memory,
    /// The handle is closed.
    Closed,
    /// The handle is open for something else, or for another program.
    OtherKind,
    /// The two stores are under two directories.
    OtherDirectory,
    /// The program is unknown.
    BadProgram,
    /// The handle is open.
    StillOpen,
    /// The items do not expose the node.
    NotExposed,
    /// There is nothing at this place or with this number.
    OutOfRange,
    /// The bytes, or the room for them, have another length than they must have.
    WrongLength,
    /// The journal is damaged in a way that no crash causes.
    Damaged,
    /// The journal is of another program.
    OtherProgram,
    /// The journal is of another directory.
    JournalDirectory,
    /// The journal has no text.
    EmptyJournal,
    /// The first text of the journal does not say how a node began.
    NoBeginning,
    /// None of the seeds makes a key that the journal names.
    OtherKey,
    /// A text of the journal is no record.
    BadRecord,
}

impl Refusal {
    /// Returns the number of the refusal. No two refusals have the same number.
    pub fn number(&self) -> u8
        ensures { result ≡ number_of self.now }
    {
        match self {
            Refusal::UnknownLmsType => 2,
            Refusal::UnknownOtsType => 3,
            Refusal::HeightTooLarge => 4,
            Refusal::DuplicateNode => 20,
            Refusal::DuplicateKey => 21,
            Refusal::TooManyNodes => 22,
            Refusal::DirectoryMagic => 23,
            Refusal::DirectoryTruncated => 24,
            Refusal::DirectoryTrailing => 25,
            Refusal::KeyCount => 26,
            Refusal::UnlistedNode => 27,
            Refusal::NodeNotListed => 30,
            Refusal::WrongKey => 31,
            Refusal::NotMine => 32,
            Refusal::UnknownSender => 33,
            Refusal::MessageSignature => 34,
            Refusal::PayloadTooLong => 35,
            Refusal::KeySpent => 36,
            Refusal::LogFull => 37,
            Refusal::BadAck => 38,
            Refusal::NumberTaken => 39,
            Refusal::Truncated => 40,
            Refusal::BadTag => 41,
            Refusal::TooLong => 42,
            Refusal::Trailing => 43,
            Refusal::UnknownNode => 44,
            Refusal::SelfMessage => 45,
            Refusal::EmptySegment => 46,
            Refusal::BadStart => 47,
            Refusal::BadRange => 48,
            Refusal::BadSignature => 49,
            Refusal::NoContradiction => 50,
            Refusal::Conforms => 51,
            Refusal::BadMagic => 60,
            Refusal::NotAscending => 61,
            Refusal::NothingKept => 62,
            Refusal::NotForMe => 70,
            Refusal::NotInLog => 71,
            Refusal::NoAnswerNeeded => 72,
            Refusal::Memory => 99,
            Refusal::Closed => 110,
            Refusal::OtherKind => 111,
            Refusal::OtherDirectory => 112,
            Refusal::BadProgram => 113,
            Refusal::StillOpen => 114,
            Refusal::NotExposed => 115,
            Refusal::OutOfRange => 116,
            Refusal::WrongLength => 117,
            Refusal::Damaged => 122,
            Refusal::OtherProgram => 123,
            Refusal::JournalDirectory => 124,
            Refusal::EmptyJournal => 126,
            Refusal::NoBeginning => 127,
            Refusal::OtherKey => 128,
            Refusal::BadRecord => 129,
        }
    }

    /// Returns the name of the refusal. Two refusals may have the same name: 24 and 40 are both `Truncated`.
    pub fn name(&self) -> &'static str
        ensures { result.now ≡ name_of self.now }
    {
        match self {
            Refusal::UnknownLmsType => "UnknownLmsType",
            Refusal::UnknownOtsType => "UnknownOtsType",
            Refusal::HeightTooLarge => "HeightTooLarge",
            Refusal::DuplicateNode => "DuplicateNode",
            Refusal::DuplicateKey => "DuplicateKey",
            Refusal::TooManyNodes => "TooManyNodes",
            Refusal::DirectoryMagic => "BadMagic",
            Refusal::DirectoryTruncated => "Truncated",
            Refusal::DirectoryTrailing => "Trailing",
            Refusal::KeyCount => "KeyCount",
            Refusal::UnlistedNode => "UnlistedNode",
            Refusal::NodeNotListed => "UnknownNode",
            Refusal::WrongKey => "WrongKey",
            Refusal::NotMine => "NotMine",
            Refusal::UnknownSender => "UnknownSender",
            Refusal::MessageSignature => "BadSignature",
            Refusal::PayloadTooLong => "PayloadTooLong",
            Refusal::KeySpent => "KeySpent",
            Refusal::LogFull => "LogFull",
            Refusal::BadAck => "BadAck",
            Refusal::NumberTaken => "NumberTaken",
            Refusal::Truncated => "Truncated",
            Refusal::BadTag => "BadTag",
            Refusal::TooLong => "TooLong",
            Refusal::Trailing => "Trailing",
            Refusal::UnknownNode => "UnknownNode",
            Refusal::SelfMessage => "SelfMessage",
            Refusal::EmptySegment => "EmptySegment",
            Refusal::BadStart => "BadStart",
            Refusal::BadRange => "BadRange",
            Refusal::BadSignature => "BadSignature",
            Refusal::NoContradiction => "NoContradiction",
            Refusal::Conforms => "Conforms",
            Refusal::BadMagic => "BadMagic",
            Refusal::NotAscending => "NotAscending",
            Refusal::NothingKept => "NothingKept",
            Refusal::NotForMe => "NotForMe",
            Refusal::NotInLog => "NotInLog",
            Refusal::NoAnswerNeeded => "NoAnswerNeeded",
            Refusal::Memory => "Memory",
            Refusal::Closed => "Closed",
            Refusal::OtherKind => "OtherKind",
            Refusal::OtherDirectory => "OtherDirectory",
            Refusal::BadProgram => "BadProgram",
            Refusal::StillOpen => "StillOpen",
            Refusal::NotExposed => "NotExposed",
            Refusal::OutOfRange => "OutOfRange",
            Refusal::WrongLength => "WrongLength",
            Refusal::Damaged => "Damaged",
            Refusal::OtherProgram => "OtherProgram",
            Refusal::JournalDirectory => "OtherDirectory",
            Refusal::EmptyJournal => "EmptyJournal",
            Refusal::NoBeginning => "NoBeginning",
            Refusal::OtherKey => "OtherKey",
            Refusal::BadRecord => "BadRecord",
        }
    }
}
