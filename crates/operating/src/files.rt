//! Files, which are read one after the other, and how much is read of them.

ghost use Rattle.std.specs.Prelude.{◌≡◌, ◌+◌, ◌<◌, ◌≤◌, ◌^◌, ℕ, List, Option, IfOk, OnErr, OnOk};
ghost use Rattle.operating.specs.FileTexts.{IsFailed, Opened};

use commands::device::Source;

/// The error of a file that could not be opened.
#[derive(Clone, Copy, Debug, PartialEq, Eq)]
pub struct OpenFailed;

/// Files by their numbers. It counts the files that failed: those that could not be opened or read, and those that did not end within
/// [`MOST_READS`] reads.
pub trait Opener {
    /// The reader of an open file.
    type Reader: Source + Drop;

    /// The bytes of each file, if they are known, and how many files failed.
    ghost seen: { Self → Opened };

    /// Opens the file with this number, from its first byte on. The count of failures must have room for one more.
    fn open(&mut self, file: usize) -> Result<Self::Reader, OpenFailed>
        requires room { (seen self.old).failures < 2 ^ 63 }
        ensures files { (seen self.new).files ≡ (seen self.old).files }
        ensures whole { IfOk result (λ r. (Self.Reader.seen r).left ≡ (seen self.old).files file) }
        ensures fresh { IfOk result (λ r. ((Self.Reader.seen r).reads ≡ 0) × ((Self.Reader.seen r).ends ≡ 0) × ((Self.Reader.seen r).failures ≡ 0)) }
        ensures quiet { OnOk result ((seen self.new).failures ≡ (seen self.old).failures) }
        ensures failed { OnErr result ((seen self.new).failures ≡ (seen self.old).failures + 1) };

    /// Closes a file that was opened. The count of failures must have room for one more.
    fn close(&mut self, reader: Self::Reader)
        requires room { (seen self.old).failures < 2 ^ 63 }
        ensures files { (seen self.new).files ≡ (seen self.old).files }
        ensures quiet { (IsFailed (Self.Reader.seen reader) → ⊥) → (seen self.new).failures ≡ (seen self.old).failures }
        ensures failed { IsFailed (Self.Reader.seen reader) → (seen self.new).failures ≡ (seen self.old).failures + 1 }
        ensures one { (seen self.new).failures ≤ (seen self.old).failures + 1 };
}

/// How much is read, and how many workers check it.
#[derive(Clone, Copy, Debug)]
pub struct Limits {
    /// The greatest number of bytes of a file.
    pub most_bytes: usize,
    /// How many workers check a store's items: 1 to 8.
    pub workers: usize,
}

/// The greatest number of reads of a file.
pub const MOST_READS: u32 = u32::MAX;
