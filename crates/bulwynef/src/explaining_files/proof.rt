//! The explanation of a proof: whom it convicts.

ghost use Rattle.std.specs.Prelude.{◌≡◌, ◌+◌, ◌<◌, ◌^◌, ℕ, IfErr, IfOk, MatchResult, Ok, OnOk};
ghost use Rattle.proofs.specs.declared.proof.Parts.{Parts};
ghost use Rattle.proofs.specs.Convicting.{Convicts};
ghost use Rattle.proofs.specs.ProofTexts.{proof_of};
ghost use Rattle.sentences.specs.declared.basis.Basis.{Basis};
ghost use Rattle.sentences.specs.declared.site.Input.TheVariants as kind;
ghost use Rattle.commands.specs.within.OwnFaults.{IsOwn};
ghost use Rattle.explaining.specs.Explained.{ExplainsProof, IsBasis};
ghost use Rattle.operating.specs.ConvictingFiles.{RefusesConviction, RefusesProofText};
ghost use Rattle.operating.specs.FileTexts.{IsOfReading};
ghost use Rattle.operating.specs.Operating.{HasRoom, Ran};
ghost use Rattle.bulwynef.specs.Explained.{AreConvictingTexts, ConvictingTexts, ExplainProof};

use crate::explaining_files::stores::Explaining;
use commands::device::Sink;
use commands::fault::Fault;
use explaining::{ReadProof, Voice, proof_text};
use operating::asking::{Ending, write};
use operating::files::{Limits, Opener};
use operating::reading::{ReadDirectory, read_directory_file, read_said};
use operating::refusal::Refusal;
use proofs::Proof;
use replay_verifier::Program;
use sentences::{Basis, Input};
use std::alloc::Global;

/// Returns the text or the page about the proof with this encoding.
fn text_of_proof<P: Program, V: Voice>(
    alloc: Global,
    explaining: &Explaining<'_, P, V>,
    read: &ReadDirectory,
    text: &[u8],
) -> Result<Vec<u8>, Fault>
    ensures told { MatchResult result (λ told. (node : ℕ) × (x : Parts) × (b : Basis) × (proof_of text.now ≡ Ok x) × Convicts read.now.directory P.means node x × IsBasis explaining.now.followed.name.now read.now.text.items kind.Proof text.now b × ExplainsProof explaining.now.is_page node x b told.items) (λ f. RefusesProofText P.means read.now.directory text.now f) }
    ensures own { IfErr result IsOwn }
{
    let proof = Proof::decode(alloc, text)?;
    let name = explaining.followed.name;
    let basis = Basis::of(alloc, name, &read.text, Input::Proof, text)?;
    let presented = ReadProof {
        basis: &basis,
        directory: &read.directory,
        directory_text: &read.text,
        proof: &proof,
        proof_text: text,
    };
    let told = proof_text(alloc, &explaining.followed, explaining.is_page, &presented)?;
    Ok(told)
}

/// Returns the text or the page about the proof that file 1 says.
fn text_of_files<P: Program, V: Voice, O: Opener>(
    alloc: Global,
    explaining: &Explaining<'_, P, V>,
    opener: &mut O,
    limits: Limits,
) -> Result<Vec<u8>, Refusal>
    requires room { (O.seen opener.old).failures + 1 < 2 ^ 63 }
    ensures told { IfOk result (λ told. (x : ConvictingTexts) × AreConvictingTexts P.means limits.most_bytes (O.seen opener.old).files x × (b : Basis) × IsBasis explaining.now.followed.name.now x.directory kind.Proof x.proof b × ExplainsProof explaining.now.is_page x.node x.parts b told.items) }
    ensures refused { IfErr result (λ r. RefusesConviction P.means limits.most_bytes (O.seen opener.old).files r) }
    ensures blamed { IfErr result (λ r. IsOfReading (O.seen opener.old) (O.seen opener.new) r.fault) }
    ensures quiet { OnOk result ((O.seen opener.new).failures ≡ (O.seen opener.old).failures) }
{
    let read = read_directory_file(alloc, opener, limits)?;
    let text = read_said(alloc, opener, 1, None, limits)?;
    match text_of_proof(alloc, explaining, &read, &text) {
        Ok(told) => Ok(told),
        Err(fault) => Err(Refusal::of_text(1, &text, fault)),
    }
}

/// Reads a directory, which is file 0, and a proof, which is file 1. It writes whom the proof convicts, and why. It writes nothing else, and it
/// writes once, after everything has been decided. A page has the encodings of both.
pub fn run<P: Program, V: Voice, O: Opener, W: Sink>(
    alloc: Global,
    explaining: &Explaining<'_, P, V>,
    opener: &mut O,
    limits: Limits,
    writer: &mut W,
) -> Result<Ending, Refusal>
    requires room { HasRoom 1 (O.seen opener.old) (W.seen writer.old) }
    ensures { Ran (AreConvictingTexts P.means limits.most_bytes (O.seen opener.old).files) (RefusesConviction P.means limits.most_bytes (O.seen opener.old).files) (ExplainProof explaining.now.followed.name.now explaining.now.is_page) result (O.seen opener.old) (O.seen opener.new) W.seen writer.old writer.new }
{
    let text = text_of_files(alloc, explaining, opener, limits)?;
    write(writer, &text)?;
    Ok(Ending::Exposed)
}
