//! Byte strings of a bounded length.

ghost use Rattle.std.specs.Prelude.{◌≡◌, ◌≤◌, IfOk, length};
ghost use Rattle.std.proofs.Common.{rules};
ghost use Rattle.log_chain.specs.Fields.{IsBytesUpTo};
ghost use Rattle.state_codec.specs.Codings.{text_coding};
ghost use Rattle.state_codec.specs.CodingLaws.{text_lawful};

use crate::coded::Coded;
use crate::fault::CodeFault;
use log_chain::{ByteString, FieldReader, FieldWriter};
use outcome::Memory;
use std::alloc::Global;
use std::marker::Model;

/// A byte string of at most `MOST` bytes. Its text is its length in four bytes, and its bytes. A contract sees the list of its bytes.
#[derive(Debug, Drop)]
pub struct Text<const MOST: u32> {
    bytes: ByteString,
}

impl<const MOST: u32> Model for Text<MOST> {
    ghost use Rattle.std.specs.Prelude.{◌≤◌, ℕ, List, length};

    ghost Value = { List ℕ };

    ghost view = { λ t. t.bytes };

    ghost invariant = { λ t. length t.bytes ≤ MOST };
}

impl<const MOST: u32> Text<MOST> {
    /// Copies the bytes into a byte string. Returns `Memory` if memory runs out.
    pub fn from_slice(alloc: Global, bytes: &[u8]) -> Result<Text<MOST>, Memory>
        requires { length bytes.now ≤ MOST }
        ensures { IfOk result (λ t. t ≡ bytes.now) }
    {
        Ok(Text {
            bytes: ByteString::from_slice(alloc, bytes)?,
        })
    }

    /// Returns the bytes.
    pub fn as_slice(&self) -> &[u8]
        ensures { result.now ≡ self.now }
    {
        self.bytes.as_slice()
    }
}

impl<const MOST: u32> Coded for Text<MOST> {
    ghost coding = { text_coding MOST };

    ghost fits = { IsBytesUpTo MOST };

    #[tactic(auto, unfolding(crate::specs::Codings::string_text))]
    fn write(&self, writer: &mut FieldWriter) -> Result<(), Memory> {
        writer.bytes(self.bytes.as_slice())?;
        Ok(())
    }

    fn try_clone(&self, alloc: Global) -> Result<Text<MOST>, Memory> {
        Ok(Text {
            bytes: self.bytes.try_clone(alloc)?,
        })
    }

    fn read(alloc: Global, reader: &mut FieldReader) -> Result<Text<MOST>, CodeFault> {
        let bytes = reader.bytes(MOST as usize)?;
        let text = Text::from_slice(alloc, bytes)?;
        Ok(text)
    }

    ghost lawful = { text_lawful MOST (Prim.search rules) };
}
