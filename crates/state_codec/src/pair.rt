//! A pair is encoded as its parts, one after the other.

ghost use Rattle.state_codec.specs.Codings.{IsPair, pair_coding};
ghost use Rattle.state_codec.specs.CodingLaws.{pair_lawful};

use crate::coded::Coded;
use crate::fault::CodeFault;
use log_chain::{FieldReader, FieldWriter};
use outcome::Memory;
use std::alloc::Global;

impl<A: Coded, B: Coded> Coded for (A, B) {
    ghost coding = { pair_coding A.coding B.coding };

    ghost fits = { IsPair A.fits B.fits };

    fn write(&self, writer: &mut FieldWriter) -> Result<(), Memory> {
        self.0.write(writer)?;
        self.1.write(writer)?;
        Ok(())
    }

    fn try_clone(&self, alloc: Global) -> Result<(A, B), Memory> {
        let first = self.0.try_clone(alloc)?;
        let second = self.1.try_clone(alloc)?;
        Ok((first, second))
    }

    fn read(alloc: Global, reader: &mut FieldReader) -> Result<(A, B), CodeFault> {
        let first = A::read(alloc, reader)?;
        let second = B::read(alloc, reader)?;
        Ok((first, second))
    }

    ghost lawful = { pair_lawful A.lawful B.lawful };
}
