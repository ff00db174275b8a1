//! Outlines.

ghost use Rattle.std.specs.Prelude.{◌≡◌, ℕ, List, Err, IfOk, Ok};
ghost use Rattle.outcome.specs.Outcome.{Gives};
ghost use Rattle.transfer.specs.declared.fault.SummaryFault.{SummaryFault as TheFault};
ghost use Rattle.transfer.specs.declared.fault.SummaryFault.TheVariants as fault;
ghost use Rattle.transfer.specs.SummaryTexts.{outline_header, outline_of_text, outline_text};
ghost use Rattle.transfer.specs.Digests.{IsOutline};

use crate::fault::SummaryFault;
use crate::reading::outline_digests;
use crate::writing::write_digests;
use log_chain::laws::bytes_fit;
use log_chain::{FieldWriter, Hash};
use outcome::Memory;
use std::alloc::Global;
use std::marker::Model;

/// The eight bytes by which an outline is known.
const MAGIC: [u8; 8] = *b"PROUTL01";

/// The digest of each of the 256 buckets of a store, in the order of the buckets. A contract sees the list of them.
#[derive(Debug, Drop)]
pub struct Outline {
    digests: Vec<Hash>,
}

impl Model for Outline {
    ghost use Rattle.std.specs.Prelude.{ℕ, List};
    ghost use Rattle.transfer.specs.Digests.{IsOutline};

    ghost Value = { List (List ℕ) };

    ghost view = { λ o. o.digests.items };

    ghost invariant = { λ o. IsOutline o.digests.items };
}

impl Outline {
    /// Returns an outline of so many digests. It takes no memory.
    pub(crate) fn from_vec(digests: Vec<Hash>) -> Outline
        requires { IsOutline digests.items }
        ensures { result ≡ digests.items }
    {
        Outline { digests }
    }

    /// Returns the digests of the buckets, in their order. It takes no memory.
    pub(crate) fn digests(&self) -> &[Hash]
        ensures digests { result.now ≡ self.now }
        ensures outline { IsOutline self.now }
    {
        self.digests.as_slice()
    }

    /// Returns its encoding, 8,200 bytes: `PROUTL01`, and each digest in 32 bytes. It asks for memory once.
    pub fn to_bytes(&self, alloc: Global) -> Result<Vec<u8>, Memory>
        ensures { IfOk result (λ text. text.items ≡ outline_text self.now) }
    {
        let mut writer = FieldWriter::with_capacity(alloc, 8200)?;
        writer.rest(&MAGIC)?;
        write_digests(&mut writer, &self.digests)?;
        Ok(writer.finish())
    }

    /// Reads the encoding of an outline.
    ///
    /// It reports the first of these faults: `Truncated` (40) of the first eight bytes, `BadMagic` (60), `Truncated` of a digest,
    /// `Trailing` (43). `Memory` may come in place of the faults behind the first eight bytes, or of the outline.
    pub fn from_bytes(alloc: Global, bytes: &[u8]) -> Result<Outline, SummaryFault>
        // The bytes are the encoding of the outline that is read.
        ensures found { IfOk result (λ o. IsOutline o × (bytes.now ≡ outline_text o)) }
        // The encoding of an outline is read, unless memory runs out.
        ensures only { (digests : List (List ℕ)) → IsOutline digests → bytes.now ≡ outline_text digests → Gives fault.Memory (λ o. o) result (Ok digests) }
        ensures exact { Gives fault.Memory (λ o. o) result (outline_of_text bytes.now) }
        // A fault of the header is reported, whether there is memory or not.
        ensures forbidden { (e : TheFault) → outline_header bytes.now ≡ Err e → result ≡ Err e }
    {
        bytes_fit(bytes);
        let digests = outline_digests(alloc, &MAGIC, bytes)?;
        Ok(Outline { digests })
    }
}
