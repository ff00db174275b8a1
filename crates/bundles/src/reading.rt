//! How a bundle is read.

ghost use Rattle.std.specs.Prelude.{◌≡◌, Err};
ghost use Rattle.outcome.specs.Outcome.{Gives};
ghost use Rattle.bundles.specs.Grammar.{bundle_of};
ghost use Rattle.bundles.specs.declared.fault.BundleFault.{BundleFault};
ghost use Rattle.bundles.specs.declared.fault.BundleFault.TheVariants.{Memory};

use crate::bundle::OpenBundle;
use crate::fault::BundleFault;
use crate::fields::is_older;
use crate::form::form_of;
use std::alloc::Global;

/// Reads the bundle of a text, in one pass over its lines and one over its digits. It does not look at what a sentence says.
///
/// The call reports the first of these that applies:
///
/// - `OlderBundle` (131), if the first line is that of format 1;
/// - `BadBundle` (106), at the first line that is not written as a bundle's, is missing, or stands behind the last.
///
/// It reports `Memory` (99) only if the text is that of a bundle.
#[tactic(auto, unfolding(crate::specs::Grammar::bundle_of))]
pub fn read(alloc: Global, text: &[u8]) -> Result<OpenBundle<'_>, BundleFault>
    ensures bundle { Gives Memory (λ b. b) result (bundle_of text.now) }
    ensures lines_first { (f : BundleFault) → bundle_of text.now ≡ Err f → result ≡ Err f }
{
    if is_older(text) {
        return Err(BundleFault::OlderBundle);
    }
    let form = form_of(text)?;
    let directory = form.directory(alloc)?;
    let proof = form.proof(alloc)?;
    Ok(OpenBundle {
        sentences: form.sentences,
        program: form.program,
        directory,
        proof,
    })
}
