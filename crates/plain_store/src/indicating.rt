//! What the items that are kept say of a node.

ghost use Rattle.std.specs.Prelude.{◌↔◌, IsTrue};
ghost use Rattle.evidence_set.specs.Indications.{IsExposed, IsIndication, IsUnanswered};
ghost use Rattle.evidence_set.specs.ItemSets.{SomeItem, set_of};
ghost use Rattle.kept_evidence.specs.Kept.{AreKept, IsStore};

use crate::exposure::exposure_of;
use crate::suspicion;
use authenticators::{AuthenticatorStore, Directory, NodeId};
use evidence_item::Checked;
use evidence_set::Indication;
use replay_verifier::Program;
use replay_verifier::laws::deviating_lists_do_not_conform;

/// Returns whether the items expose the node.
fn is_exposed<P: Program>(
    directory: &Directory,
    kept: &[Checked<P>],
    held: &AuthenticatorStore,
    node: NodeId,
) -> bool
    requires { IsStore directory.now P.means kept.now held.now }
    ensures { IsTrue result ↔ IsExposed directory.now P.means (set_of kept.now) node }
{
    deviating_lists_do_not_conform::<P::State>();
    exposure_of(held, kept, node).is_some()
}

/// Returns whether a challenge against the node is open.
pub(crate) fn is_suspected<P: Program>(
    directory: &Directory,
    kept: &[Checked<P>],
    node: NodeId,
) -> bool
    requires { AreKept directory.now P.means kept.now }
    ensures { IsTrue result ↔ SomeItem (set_of kept.now) (IsUnanswered directory.now (set_of kept.now) node) }
{
    suspicion::is_suspected(kept, node)
}

/// Returns what the items say of the node. It verifies no signature, hashes no content, and takes no memory.
pub(crate) fn indication<P: Program>(
    directory: &Directory,
    kept: &[Checked<P>],
    held: &AuthenticatorStore,
    node: NodeId,
) -> Indication
    requires { IsStore directory.now P.means kept.now held.now }
    ensures { IsIndication directory.now P.means (set_of kept.now) node result }
{
    if is_exposed(directory, kept, held, node) {
        return Indication::Exposed;
    }
    if is_suspected(directory, kept, node) {
        return Indication::Suspected;
    }
    Indication::Trusted
}
