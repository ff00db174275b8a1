//! How a node began: the first text of its journal.

ghost use Rattle.std.specs.Prelude.{◌≡◌, ◌↔◌, ◌≤◌, ◌<◌, IfErr, IfOk, Err, length};
ghost use Rattle.sha2.specs.Sha256.{sha256};
ghost use Rattle.authenticators.specs.DirectoryText.{directory_text};
ghost use Rattle.node_journals.specs.Beginnings.{FitsBeginning, beginning_text};

use crate::fault::DraftFault;
use authenticators::{Directory, NodeId};
use lms_sign::PublicKey;
use log_chain::laws::bytes_fit;
use log_chain::{ByteString, FieldWriter, Hash};
use outcome::Memory;
use sha2::{Digest, Sha256};
use std::alloc::Global;

/// The greatest number of bytes of a program's name.
pub const LONGEST_NAME: usize = 255;

/// The eight bytes with which a node's journal begins.
pub(crate) const MAGIC: [u8; 8] = *b"PRNODEJ1";

/// How a node began. It has no seed.
#[derive(Debug, Drop)]
pub struct Beginning {
    /// The node.
    pub me: NodeId,
    /// The number of its first entry.
    pub first_seq: u64,
    /// The SHA-256 value of the directory's encoding.
    pub directory: Hash,
    /// The key with which it begins to sign.
    pub key: PublicKey,
    /// The name of its program, at most 255 bytes. Programs that do not do the same must have different names. So the name has
    /// a version, or a digest.
    pub program: ByteString,
}

/// Returns the SHA-256 value of the directory's encoding.
pub(crate) fn digest_of(directory: &Directory) -> Result<Hash, Memory>
    ensures { IfOk result (λ digest. digest ≡ sha256 (directory_text directory.now)) }
{
    let text = directory.to_bytes()?;
    Ok(Hash(Sha256::digest(text.as_slice())))
}

impl Beginning {
    /// Makes the beginning of a node under this directory.
    ///
    /// It reports `TooLong` (42) if the program's name has more than 255 bytes, even if memory runs out. It reports `Memory`
    /// (99) if a growth is refused.
    pub fn new(
        alloc: Global,
        program: &[u8],
        directory: &Directory,
        me: NodeId,
        key: PublicKey,
        first_seq: u64,
    ) -> Result<Beginning, DraftFault>
        ensures made { IfOk result (λ b. b ≡ record { me = me; first_seq = first_seq; directory = sha256 (directory_text directory.now); key = key; program = program.now }) }
        ensures fits { IfOk result (λ b. FitsBeginning b) }
        ensures too_long { (result ≡ Err DraftFault.TooLong) ↔ (LONGEST_NAME < length program.now) }
        ensures refused { IfErr result (λ e. (e ≡ DraftFault.OtherKey) → ⊥) }
    {
        bytes_fit(program);
        if program.len() > LONGEST_NAME {
            return Err(DraftFault::TooLong);
        }
        let directory = digest_of(directory)?;
        let program = ByteString::from_slice(alloc, program)?;
        Ok(Beginning {
            me,
            first_seq,
            directory,
            key,
            program,
        })
    }

    /// Writes the encoding, which is the first text of a journal. The error means that memory ran out.
    pub fn to_bytes(&self, alloc: Global) -> Result<Vec<u8>, Memory>
        requires { length self.now.program ≤ LONGEST_NAME }
        ensures { IfOk result (λ text. text.items ≡ beginning_text self.now) }
    {
        let mut writer = FieldWriter::new(alloc);
        writer.rest(&MAGIC)?;
        writer.u32(self.me.0)?;
        writer.u64(self.first_seq)?;
        writer.hash(self.directory)?;
        writer.rest(&self.key.to_bytes())?;
        writer.bytes(self.program.as_slice())?;
        Ok(writer.finish())
    }
}
