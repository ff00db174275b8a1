//! Types whose values have an encoding.

ghost use Rattle.std.specs.Prelude.{◌≡◌, IfOk};
ghost use Rattle.outcome.specs.Outcome.{Took};
ghost use Rattle.state_codec.specs.declared.fault.CodeFault.TheVariants.{Memory};
ghost use Rattle.state_codec.specs.Codings.{Coding, IsCoding, Wrote};

use crate::fault::CodeFault;
use log_chain::{FieldReader, FieldWriter};
use outcome::Memory;
use std::alloc::Global;

/// A type whose values have an encoding as bytes, which is also called their text.
///
/// # What an implementation owes
///
/// - `coding`: the text of a value, the value at the front of bytes, and a length that no text exceeds. For a struct it is
///   `struct_coding` over the codings of its parts.
/// - `fits`: which values are within the range of their type, as for a program's `is_state`.
/// - `lawful`: a proof of three laws. What is read from bytes fits and has them as its text. The text of what fits is read. No text of
///   what fits is longer than `coding` says. It is made of the parts' laws as `coding` is made of their codings.
pub trait Coded: Drop {
    // How a value is encoded.
    ghost coding: { Coding Self };

    // The values within the range of their type.
    ghost fits: { Self → Type 0 };

    /// Writes the value's text after what is written. Returns `Memory` if memory runs out. A part of the text may then have been written.
    fn write(&self, writer: &mut FieldWriter) -> Result<(), Memory>
        ensures { Wrote result writer.old writer.new (coding.text self.now) };

    /// Copies the value. Returns `Memory` if memory runs out.
    fn try_clone(&self, alloc: Global) -> Result<Self, Memory>
        ensures { IfOk result (λ x. x ≡ self.now) };

    /// Reads a value from the front of what is left. If there is none, it returns the fault that the coding gives. It returns `Memory` if
    /// memory runs out.
    fn read(alloc: Global, reader: &mut FieldReader) -> Result<Self, CodeFault>
        ensures { Took CodeFault.Memory (λ x. x) result reader.new (coding.at reader.old) };

    // The law of the coding, which the implementation proves.
    ghost lawful: { IsCoding coding fits };
}
