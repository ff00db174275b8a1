//! The values that a bundle has.

use std::marker::Model;

/// A bundle that is to be written. All of its parts are borrowed.
#[derive(Debug, Drop)]
pub struct Bundle<'a> {
    /// The sentences as they stand in the text. Each is a line of `#` and characters from a blank to `~`, with its line feed.
    pub sentences: &'a [u8],
    /// The name of the program that the nodes were to follow: 1 to 32 characters of `a` to `z`, `0` to `9` and `_`.
    pub program: &'a [u8],
    /// The bytes of a directory.
    pub directory: &'a [u8],
    /// The bytes of a proof.
    pub proof: &'a [u8],
}

impl<'a> Model for Bundle<'a> {
    ghost use Rattle.bundles.specs.Spelling.{Contents};

    ghost Value = { Contents };

    ghost view = { λ b. record { sentences = b.sentences.now; program = b.program.now; directory = b.directory.now; proof = b.proof.now } };
}

/// A bundle that was read. Its sentences and its program's name are borrowed from its text.
#[derive(Debug, Drop)]
pub struct OpenBundle<'a> {
    /// The sentences as they stand in the text, as in [`Bundle::sentences`].
    pub sentences: &'a [u8],
    /// The name of the program, which a reader may not know.
    pub program: &'a [u8],
    /// The bytes of the directory.
    pub directory: Vec<u8>,
    /// The bytes of the proof.
    pub proof: Vec<u8>,
}

impl<'a> Model for OpenBundle<'a> {
    ghost use Rattle.bundles.specs.Spelling.{Contents};

    ghost Value = { Contents };

    ghost view = { λ b. record { sentences = b.sentences.now; program = b.program.now; directory = b.directory.items; proof = b.proof.items } };
}
