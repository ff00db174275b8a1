//! Proofs against a node, made from what is kept.

ghost use Rattle.std.specs.Prelude.{◌↔◌, IfOk, IfSome, IsSome};
ghost use Rattle.proofs.specs.Convicting.{Convicts};
ghost use Rattle.evidence_set.specs.Indications.{IsExposed};
ghost use Rattle.evidence_set.specs.ItemSets.{set_of};
ghost use Rattle.kept_evidence.specs.Kept.{IsStore};

use crate::exposure::exposure_of;
use authenticators::{AuthenticatorStore, Directory, NodeId};
use evidence_item::Checked;
use evidence_item::laws::valid_items_are_signed;
use kept_evidence::{Exposure, proof_of_denial, proof_of_segment, proof_of_two};
use outcome::Memory;
use proofs::Proof;
use replay_verifier::Program;
use replay_verifier::laws::deviating_lists_do_not_conform;
use std::alloc::Global;

/// Returns a proof that convicts the node, or `None` if the items do not expose it.
pub(crate) fn proof<P: Program>(
    alloc: Global,
    directory: &Directory,
    kept: &[Checked<P>],
    held: &AuthenticatorStore,
    node: NodeId,
) -> Result<Option<Proof>, Memory>
    requires { IsStore directory.now P.means kept.now held.now }
    ensures some { IfOk result (λ p. IsSome p ↔ IsExposed directory.now P.means (set_of kept.now) node) }
    ensures convicts { IfOk result (λ p. IfSome p (λ q. Convicts directory.now P.means node q.parts)) }
{
    deviating_lists_do_not_conform::<P::State>();
    valid_items_are_signed();
    match exposure_of(held, kept, node) {
        None => Ok(None),
        Some(Exposure::TwoHashes(one, other)) => {
            let proof = proof_of_two(alloc, directory, one, other)?;
            Ok(Some(proof))
        }
        Some(Exposure::Denied(denial)) => {
            let proof = proof_of_denial(alloc, directory, denial.statement, denial.segment.item())?;
            Ok(Some(proof))
        }
        Some(Exposure::Deviates(segment)) => {
            let proof = proof_of_segment(alloc, segment.item())?;
            Ok(Some(proof))
        }
    }
}
