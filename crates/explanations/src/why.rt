//! The reason why a node is what it is.

ghost use Rattle.std.specs.Prelude.{◌≡◌, ◌↔◌, IfOk, Err, false};
ghost use Rattle.authenticators.specs.Directory.{is_listed};
ghost use Rattle.evidence.specs.declared.fault.AskFault.TheVariants as ask;
ghost use Rattle.explanations.specs.Whys.{AreWhys, IsWhy, indication_of, is_unknown};

use crate::nodes::ascending_nodes;
use authenticators::NodeId;
use evidence::{AskFault, Evidence};
use evidence_set::Indication;
use item_forms::Item;
use outcome::Memory;
use proofs::Proof;
use replay_verifier::Program;
use std::alloc::Global;

/// Why a node is what it is.
#[derive(Debug, Drop)]
pub enum Why<'a> {
    /// The node is exposed. This proof convicts it, and these challenges against it are not answered. The challenges are as those of a
    /// suspected node.
    Exposed(Proof, Vec<&'a Item>),
    /// The node is suspected. These challenges against it are not answered. They are lent from the store, and ascend by their encodings.
    Suspected(Vec<&'a Item>),
    /// The node is trusted. The items say something of it, and nothing speaks against it.
    Trusted,
    /// The node is trusted, since the items say nothing of it.
    Unknown,
}

/// A node, and why it is what it is.
#[derive(Debug, Drop)]
pub struct NodeWhy<'a> {
    /// The node.
    pub node: NodeId,
    /// Why it is what it is.
    pub why: Why<'a>,
}

impl<'a> Why<'a> {
    /// Returns what the node is for this reason.
    pub fn indication(&self) -> Indication
        ensures { result ≡ indication_of self.now }
    {
        match self {
            Why::Exposed(..) => Indication::Exposed,
            Why::Suspected(_) => Indication::Suspected,
            Why::Trusted | Why::Unknown => Indication::Trusted,
        }
    }

    /// Returns whether the items say nothing of the node.
    pub(crate) fn is_unknown(&self) -> bool
        ensures { result ≡ is_unknown self.now }
    {
        matches!(self, Why::Unknown)
    }
}

/// Returns why the store says of the node what it says.
///
/// - `UnknownNode` (44) if the directory does not list the node.
/// - `Memory` (99) if a growth is refused.
pub fn why_of<'a, P: Program, S: Evidence<P>>(
    store: &'a S,
    node: NodeId,
) -> Result<Why<'a>, AskFault>
    ensures told { IfOk result (λ w. IsWhy (S.contents store.now).directory P.means (S.contents store.now).items node w) }
    ensures unknown { (result ≡ Err ask.UnknownNode) ↔ (is_listed (S.contents store.now).directory node ≡ false) }
{
    let Ok(indication) = store.indication(node) else {
        return Err(AskFault::UnknownNode);
    };
    match indication {
        Indication::Exposed => {
            let Some(proof) = store.proof(node)? else {
                unreachable!()
            };
            let open = store.open_challenges(node)?;
            Ok(Why::Exposed(proof, open))
        }
        Indication::Suspected => {
            let open = store.open_challenges(node)?;
            Ok(Why::Suspected(open))
        }
        Indication::Trusted if store.knows(node) => Ok(Why::Trusted),
        Indication::Trusted => Ok(Why::Unknown),
    }
}

/// Returns why the store says of each node of its directory what it says, in ascending order of the nodes' numbers.
pub fn whys_of<'a, P: Program, S: Evidence<P>>(
    alloc: Global,
    store: &'a S,
) -> Result<Vec<NodeWhy<'a>>, Memory>
    ensures { IfOk result (λ rows. AreWhys P.means (S.contents store.now) rows.items) }
{
    let nodes = ascending_nodes(alloc, store.directory())?;
    let mut rows = Vec::with_capacity(alloc, nodes.len())?;
    for node in nodes.as_slice() {
        let why = match why_of::<P, S>(store, *node) {
            Ok(why) => why,
            Err(_) => return Err(Memory),
        };
        rows.push(NodeWhy { node: *node, why })?;
    }
    Ok(rows)
}
