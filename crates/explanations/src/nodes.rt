//! The nodes of a directory in order.

ghost use Rattle.std.specs.Prelude.{◌↔◌, IfOk, IsTrue, ℕ};
ghost use Rattle.std.specs.List.{Contains};
ghost use Rattle.std.specs.List.Sorted.{IsStrictlyIncreasing};
ghost use Rattle.authenticators.specs.Directory.{is_listed};

use authenticators::{Directory, NodeId};
use outcome::Memory;
use std::alloc::Global;

/// Returns the directory's nodes, ascending by their numbers.
pub(crate) fn ascending_nodes(alloc: Global, directory: &Directory) -> Result<Vec<NodeId>, Memory>
    ensures ascending { IfOk result (λ nodes. IsStrictlyIncreasing nodes.items) }
    ensures complete { IfOk result (λ nodes. (node : ℕ) → Contains nodes.items node ↔ IsTrue (is_listed directory.now node)) }
{
    let mut nodes = Vec::from_slice(alloc, directory.nodes())?;
    nodes.sort()?;
    Ok(nodes)
}
