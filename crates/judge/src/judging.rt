//! Whom the bytes of a proof convict.

ghost use Rattle.std.specs.Prelude.{◌≡◌, MatchResult};
ghost use Rattle.judge.specs.Judging.{Exposes, Refuses};

use crate::refusal::Refusal;
use authenticators::{Directory, NodeId};
use proofs::{Proof, check_proof};
use replay_verifier::Program;
use std::alloc::Global;

/// Returns the node that the proof convicts under the directory and the program, or why the bytes convict none. The directory's faults come
/// first, then those of the proof's bytes, then those of what the proof says. `Memory` may come in place of the node and of any fault.
pub fn judge<P: Program>(
    alloc: Global,
    program: &P,
    directory: &[u8],
    proof: &[u8],
) -> Result<NodeId, Refusal>
    ensures { MatchResult result (Exposes P.means directory.now proof.now) (Refuses P.means directory.now proof.now) }
{
    let directory = match Directory::from_bytes(alloc, directory) {
        Ok(directory) => directory,
        Err(fault) => return Err(Refusal::Directory(fault)),
    };
    let proof = match Proof::decode(alloc, proof) {
        Ok(proof) => proof,
        Err(fault) => return Err(Refusal::Reading(fault)),
    };
    match check_proof(alloc, program, &directory, &proof) {
        Ok(node) => Ok(node),
        Err(fault) => Err(Refusal::Proof(fault)),
    }
}
