//! The refusals of lower crates, as refusals of this one.

ghost use Rattle.std.specs.Prelude.{◌≡◌};
ghost use Rattle.byte_calls.specs.declared.refusal.Refusal.TheVariants.{Memory};
ghost use Rattle.byte_calls.specs.Refusals.{of_answering, of_asking, of_beginning, of_directory, of_import, of_item, of_making, of_node, of_proof, of_reading, of_rebuilding, of_summary};

use crate::refusal::Refusal;
use authenticators::DirectoryFault;
use challenges::AnswerFault;
use commitment::{NewFault, NewRefused, NextKeyRefused, NodeFault};
use containers::{Cause, ImportFault};
use evidence::{AskFault, NewStoreRefused, TakeRefused, UnknownNode};
use evidence_item::ItemFault;
use item_forms::{DecodeFault, TooLong};
use lms_sign::MakeFault;
use node_journals::RebuildFault;
use proofs::ProofFault;
use replay_verifier::Program;
use std::alloc::AllocError;
use transfer::SummaryFault;

impl From<DirectoryFault> for Refusal {
    ghost from_gives = { λ f e. e ≡ of_directory f };

    fn from(f: DirectoryFault) -> Refusal {
        match f {
            DirectoryFault::BadMagic => Refusal::DirectoryMagic,
            DirectoryFault::Truncated => Refusal::DirectoryTruncated,
            DirectoryFault::Trailing => Refusal::DirectoryTrailing,
            DirectoryFault::UnknownLmsType => Refusal::UnknownLmsType,
            DirectoryFault::UnknownOtsType => Refusal::UnknownOtsType,
            DirectoryFault::DuplicateNode => Refusal::DuplicateNode,
            DirectoryFault::DuplicateKey => Refusal::DuplicateKey,
            DirectoryFault::TooManyNodes => Refusal::TooManyNodes,
            DirectoryFault::KeyCount => Refusal::KeyCount,
            DirectoryFault::UnlistedNode => Refusal::UnlistedNode,
            DirectoryFault::Memory => Refusal::Memory,
        }
    }
}

impl From<DecodeFault> for Refusal {
    ghost from_gives = { λ f e. e ≡ of_reading f };

    fn from(f: DecodeFault) -> Refusal {
        match f {
            DecodeFault::Truncated => Refusal::Truncated,
            DecodeFault::BadTag => Refusal::BadTag,
            DecodeFault::TooLong => Refusal::TooLong,
            DecodeFault::Trailing => Refusal::Trailing,
            DecodeFault::Memory => Refusal::Memory,
        }
    }
}

impl From<ItemFault> for Refusal {
    ghost from_gives = { λ f e. e ≡ of_item f };

    fn from(f: ItemFault) -> Refusal {
        match f {
            ItemFault::UnknownNode => Refusal::UnknownNode,
            ItemFault::SelfMessage => Refusal::SelfMessage,
            ItemFault::EmptySegment => Refusal::EmptySegment,
            ItemFault::BadStart => Refusal::BadStart,
            ItemFault::BadRange => Refusal::BadRange,
            ItemFault::BadSignature => Refusal::BadSignature,
            ItemFault::Memory => Refusal::Memory,
        }
    }
}

impl From<ProofFault> for Refusal {
    ghost from_gives = { λ f e. e ≡ of_proof f };

    fn from(f: ProofFault) -> Refusal {
        match f {
            ProofFault::UnknownNode => Refusal::UnknownNode,
            ProofFault::SelfMessage => Refusal::SelfMessage,
            ProofFault::EmptySegment => Refusal::EmptySegment,
            ProofFault::BadStart => Refusal::BadStart,
            ProofFault::BadRange => Refusal::BadRange,
            ProofFault::BadSignature => Refusal::BadSignature,
            ProofFault::NoContradiction => Refusal::NoContradiction,
            ProofFault::Conforms => Refusal::Conforms,
            ProofFault::Memory => Refusal::Memory,
        }
    }
}

impl From<ImportFault> for Refusal {
    ghost from_gives = { λ f e. e ≡ of_import f };

    fn from(f: ImportFault) -> Refusal {
        match f.cause {
            Cause::Truncated => Refusal::Truncated,
            Cause::BadTag => Refusal::BadTag,
            Cause::TooLong => Refusal::TooLong,
            Cause::Trailing => Refusal::Trailing,
            Cause::UnknownNode => Refusal::UnknownNode,
            Cause::SelfMessage => Refusal::SelfMessage,
            Cause::EmptySegment => Refusal::EmptySegment,
            Cause::BadStart => Refusal::BadStart,
            Cause::BadRange => Refusal::BadRange,
            Cause::BadSignature => Refusal::BadSignature,
            Cause::BadMagic => Refusal::BadMagic,
            Cause::NotAscending => Refusal::NotAscending,
            Cause::Memory => Refusal::Memory,
        }
    }
}

impl From<AskFault> for Refusal {
    ghost from_gives = { λ f e. e ≡ of_asking f };

    fn from(f: AskFault) -> Refusal {
        match f {
            AskFault::UnknownNode => Refusal::UnknownNode,
            AskFault::Memory => Refusal::Memory,
        }
    }
}

impl From<SummaryFault> for Refusal {
    ghost from_gives = { λ f e. e ≡ of_summary f };

    fn from(f: SummaryFault) -> Refusal {
        match f {
            SummaryFault::Truncated => Refusal::Truncated,
            SummaryFault::BadTag => Refusal::BadTag,
            SummaryFault::Trailing => Refusal::Trailing,
            SummaryFault::BadMagic => Refusal::BadMagic,
            SummaryFault::NotAscending => Refusal::NotAscending,
            SummaryFault::NothingKept => Refusal::NothingKept,
            SummaryFault::Memory => Refusal::Memory,
        }
    }
}

impl From<MakeFault> for Refusal {
    ghost from_gives = { λ f e. e ≡ of_making f };

    fn from(f: MakeFault) -> Refusal {
        match f {
            MakeFault::HeightTooLarge => Refusal::HeightTooLarge,
            MakeFault::Memory => Refusal::Memory,
        }
    }
}

impl From<NewFault> for Refusal {
    ghost from_gives = { λ f e. e ≡ of_beginning f };

    fn from(f: NewFault) -> Refusal {
        match f {
            NewFault::UnknownNode => Refusal::NodeNotListed,
            NewFault::WrongKey => Refusal::WrongKey,
            NewFault::Memory => Refusal::Memory,
        }
    }
}

impl From<NodeFault> for Refusal {
    ghost from_gives = { λ f e. e ≡ of_node f };

    fn from(f: NodeFault) -> Refusal {
        match f {
            NodeFault::BadSignature => Refusal::MessageSignature,
            NodeFault::NotMine => Refusal::NotMine,
            NodeFault::UnknownSender => Refusal::UnknownSender,
            NodeFault::PayloadTooLong => Refusal::PayloadTooLong,
            NodeFault::KeySpent => Refusal::KeySpent,
            NodeFault::LogFull => Refusal::LogFull,
            NodeFault::BadAck => Refusal::BadAck,
            NodeFault::NumberTaken => Refusal::NumberTaken,
            NodeFault::Memory => Refusal::Memory,
        }
    }
}

impl From<AnswerFault> for Refusal {
    ghost from_gives = { λ f e. e ≡ of_answering f };

    fn from(f: AnswerFault) -> Refusal {
        match f {
            AnswerFault::NoAnswerNeeded => Refusal::NoAnswerNeeded,
            AnswerFault::NotForMe => Refusal::NotForMe,
            AnswerFault::NotInLog => Refusal::NotInLog,
            AnswerFault::KeySpent => Refusal::KeySpent,
            AnswerFault::LogFull => Refusal::LogFull,
            AnswerFault::Memory => Refusal::Memory,
        }
    }
}

impl From<RebuildFault> for Refusal {
    ghost from_gives = { λ f e. e ≡ of_rebuilding f };

    fn from(f: RebuildFault) -> Refusal {
        match f {
            RebuildFault::UnknownNode => Refusal::NodeNotListed,
            RebuildFault::WrongKey => Refusal::WrongKey,
            RebuildFault::Memory => Refusal::Memory,
            RebuildFault::EmptyJournal => Refusal::EmptyJournal,
            RebuildFault::NoBeginning => Refusal::NoBeginning,
            RebuildFault::OtherProgram => Refusal::OtherProgram,
            RebuildFault::OtherDirectory => Refusal::JournalDirectory,
            RebuildFault::OtherKey => Refusal::OtherKey,
            RebuildFault::BadRecord => Refusal::BadRecord,
        }
    }
}

impl From<AllocError> for Refusal {
    ghost from_gives = { λ _ e. e ≡ Memory };

    fn from(_e: AllocError) -> Refusal {
        Refusal::Memory
    }
}

impl From<NewStoreRefused> for Refusal {
    ghost from_gives = { λ _ e. e ≡ Memory };

    fn from(_e: NewStoreRefused) -> Refusal {
        Refusal::Memory
    }
}

impl<P: Program> From<TakeRefused<P>> for Refusal {
    ghost from_gives = { λ _ e. e ≡ Memory };

    fn from(_e: TakeRefused<P>) -> Refusal {
        Refusal::Memory
    }
}

impl From<UnknownNode> for Refusal {
    ghost use Rattle.byte_calls.specs.declared.refusal.Refusal.TheVariants.{UnknownNode};

    ghost from_gives = { λ _ e. e ≡ UnknownNode };

    fn from(_e: UnknownNode) -> Refusal {
        Refusal::UnknownNode
    }
}

impl From<TooLong> for Refusal {
    ghost use Rattle.byte_calls.specs.declared.refusal.Refusal.TheVariants.{TooLong};

    ghost from_gives = { λ _ e. e ≡ TooLong };

    fn from(_e: TooLong) -> Refusal {
        Refusal::TooLong
    }
}
