//! Whether the items that are kept say anything of a node.

ghost use Rattle.std.specs.Prelude.{◌≡◌, ◌↔◌, IsTrue};
ghost use Rattle.std.specs.List.{Contains};
ghost use Rattle.authenticators.specs.declared.authenticator.Authenticator.{Authenticator};
ghost use Rattle.evidence_set.specs.ItemSets.{set_of};
ghost use Rattle.kept_evidence.specs.Kept.{IsStore};
ghost use Rattle.localities.specs.Known.{IsKnown};

use crate::indicating::is_suspected;
use authenticators::{AuthenticatorStore, Directory, NodeId};
use evidence_item::Checked;
use localities::laws::known_as_expected;
use replay_verifier::Program;

/// Returns whether a statement of the node is held.
fn has_statement(held: &AuthenticatorStore, node: NodeId) -> bool
    ensures { IsTrue result ↔ ((a : Authenticator) × Contains held.now a × (a.node ≡ node)) }
{
    match held.of_node(node) {
        [] => false,
        [_, ..] => true,
    }
}

/// Returns whether anything is known of the node. It need not look for a challenge that is answered, since what answers it holds a statement
/// of the node.
pub(crate) fn knows<P: Program>(
    directory: &Directory,
    kept: &[Checked<P>],
    held: &AuthenticatorStore,
    node: NodeId,
) -> bool
    requires { IsStore directory.now P.means kept.now held.now }
    ensures { IsTrue result ↔ IsKnown directory.now (set_of kept.now) node }
{
    known_as_expected();
    has_statement(held, node) || is_suspected(directory, kept, node)
}
