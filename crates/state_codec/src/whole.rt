//! Whole texts: a program's `encode` and `decode`.

ghost use Rattle.std.specs.Prelude.{◌≡◌, IfOk};
ghost use Rattle.state_codec.specs.Codings.{whole_of};

use crate::coded::Coded;
use crate::fault::CodeFault;
use log_chain::{FieldReader, FieldWriter};
use outcome::Memory;
use std::alloc::Global;

/// Encodes the value, as a program's `encode` does. Returns `Memory` if memory runs out.
pub fn encoded<S: Coded>(alloc: Global, state: &S) -> Result<Vec<u8>, Memory>
    ensures { IfOk result (λ v. v.items ≡ S.coding.text state.now) }
{
    let mut writer = FieldWriter::new(alloc);
    state.write(&mut writer)?;
    Ok(writer.finish())
}

/// Returns the value whose text is all of these bytes, as a program's `decode` does. Returns `None` if there is no such value. Returns
/// `Memory` if memory runs out.
pub fn decoded<S: Coded>(alloc: Global, bytes: &[u8]) -> Result<Option<S>, Memory>
    ensures { IfOk result (λ s. s ≡ whole_of S.coding bytes.now) }
{
    let mut reader = FieldReader::new(bytes);
    match S::read(alloc, &mut reader) {
        Ok(state) => Ok(if reader.left() == 0 {
            Some(state)
        } else {
            None
        }),
        Err(CodeFault::Memory) => Err(Memory),
        Err(_) => Ok(None),
    }
}
