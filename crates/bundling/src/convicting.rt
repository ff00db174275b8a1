//! Whom the texts of a directory and of a proof convict.

ghost use Rattle.std.specs.Prelude.{MatchResult};
ghost use Rattle.bundling.specs.Convicting.{RefusesTexts, TextsConvict};

use crate::fault::TextFault;
use authenticators::{Directory, NodeId};
use proofs::{Proof, check_proof};
use replay_verifier::Program;
use std::alloc::Global;

/// A proof, and the node that it convicts.
#[derive(Drop)]
pub(crate) struct Conviction {
    pub(crate) node: NodeId,
    pub(crate) proof: Proof,
}

/// Returns whom the proof in the second text convicts under the directory in the first text.
pub(crate) fn convicted<P: Program>(
    alloc: Global,
    program: &P,
    directory: &[u8],
    proof: &[u8],
) -> Result<Conviction, TextFault>
    ensures { MatchResult result (λ found. TextsConvict P.means directory.now proof.now found.node found.proof.parts) (λ f. RefusesTexts P.means directory.now proof.now f) }
{
    let directory = Directory::from_bytes(alloc, directory)?;
    let proof = Proof::decode(alloc, proof)?;
    let node = check_proof(alloc, program, &directory, &proof)?;
    Ok(Conviction { node, proof })
}
