//! How a bundle is made.

ghost use Rattle.std.specs.Prelude.{MatchResult};
ghost use Rattle.bundling.specs.Handing.{IsMade, RefusesMaking};

use crate::convicting::convicted;
use crate::fault::{MakeFault, TextFault};
use crate::sentences::sentences;
use bundles::{Bundle, WriteFault, write};
use replay_verifier::Program;
use std::alloc::Global;

/// Returns the text of the bundle of a directory and a proof, for nodes that were to follow the program of this name. Its sentences say who
/// is exposed, why, under which directory, and how that is checked. The caller's sentences stand behind them.
///
/// The call is refused if the texts convict nobody. The directory's fault comes before the proof's. Then comes `BadBundle` (106), if the
/// name or the caller's sentences are not as a bundle allows. Memory may run out in place of any of these.
pub fn make<P: Program>(
    alloc: Global,
    program: &P,
    name: &[u8],
    directory: &[u8],
    proof: &[u8],
    more: &[u8],
) -> Result<Vec<u8>, MakeFault>
    ensures { MatchResult result (λ text. IsMade P.means name.now directory.now proof.now more.now text.items) (λ f. RefusesMaking P.means name.now directory.now proof.now more.now f) }
{
    let found = convicted(alloc, program, directory, proof)?;
    let sentences = sentences(
        alloc,
        found.node,
        name,
        directory,
        found.proof.parts(),
        more,
    )?;
    let bundle = Bundle {
        sentences: &sentences,
        program: name,
        directory,
        proof,
    };
    match write(alloc, &bundle) {
        Ok(text) => Ok(text),
        Err(WriteFault::BadBundle) => Err(MakeFault::BadBundle),
        Err(WriteFault::Memory) => Err(MakeFault::Text(TextFault::Memory)),
    }
}
