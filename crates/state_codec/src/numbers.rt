//! Numbers are encoded in their one, four or eight bytes, the highest first.

ghost use Rattle.state_codec.specs.Codings.{IsU8, IsU32, IsU64, u8_coding, u32_coding, u64_coding};
ghost use Rattle.state_codec.specs.CodingLaws.{u8_lawful, u32_lawful, u64_lawful};

use crate::coded::Coded;
use crate::fault::CodeFault;
use authenticators::NodeId;
use log_chain::{FieldReader, FieldWriter};
use outcome::Memory;
use std::alloc::Global;

impl Coded for u8 {
    ghost coding = { u8_coding };

    ghost fits = { IsU8 };

    #[tactic(auto, unfolding(crate::specs::Codings::u8_text))]
    fn write(&self, writer: &mut FieldWriter) -> Result<(), Memory> {
        writer.u8(*self)?;
        Ok(())
    }

    fn try_clone(&self, _alloc: Global) -> Result<u8, Memory> {
        Ok(*self)
    }

    fn read(_alloc: Global, reader: &mut FieldReader) -> Result<u8, CodeFault> {
        let number = reader.u8()?;
        Ok(number)
    }

    ghost lawful = { u8_lawful };
}

impl Coded for u32 {
    ghost coding = { u32_coding };

    ghost fits = { IsU32 };

    #[tactic(auto, unfolding(crate::specs::Codings::u32_text))]
    fn write(&self, writer: &mut FieldWriter) -> Result<(), Memory> {
        writer.u32(*self)?;
        Ok(())
    }

    fn try_clone(&self, _alloc: Global) -> Result<u32, Memory> {
        Ok(*self)
    }

    fn read(_alloc: Global, reader: &mut FieldReader) -> Result<u32, CodeFault> {
        let number = reader.u32()?;
        Ok(number)
    }

    ghost lawful = { u32_lawful };
}

impl Coded for u64 {
    ghost coding = { u64_coding };

    ghost fits = { IsU64 };

    #[tactic(auto, unfolding(crate::specs::Codings::u64_text))]
    fn write(&self, writer: &mut FieldWriter) -> Result<(), Memory> {
        writer.u64(*self)?;
        Ok(())
    }

    fn try_clone(&self, _alloc: Global) -> Result<u64, Memory> {
        Ok(*self)
    }

    fn read(_alloc: Global, reader: &mut FieldReader) -> Result<u64, CodeFault> {
        let number = reader.u64()?;
        Ok(number)
    }

    ghost lawful = { u64_lawful };
}

impl Coded for NodeId {
    ghost coding = { u32_coding };

    ghost fits = { IsU32 };

    #[tactic(auto, unfolding(crate::specs::Codings::u32_text))]
    fn write(&self, writer: &mut FieldWriter) -> Result<(), Memory> {
        writer.u32(self.0)?;
        Ok(())
    }

    fn try_clone(&self, _alloc: Global) -> Result<NodeId, Memory> {
        Ok(*self)
    }

    fn read(_alloc: Global, reader: &mut FieldReader) -> Result<NodeId, CodeFault> {
        let number = reader.u32()?;
        Ok(NodeId(number))
    }

    ghost lawful = { u32_lawful };
}
