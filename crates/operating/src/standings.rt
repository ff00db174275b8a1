//! What evidence says of each node.

ghost use Rattle.std.specs.Prelude.{◌≡◌, ℕ, IfOk, IsSome, Some, is_some};
ghost use Rattle.std.specs.BTreeMap.{IsOrdered, get};
ghost use Rattle.std.specs.Ordering.{nat_cmp};
ghost use Rattle.answers.specs.declared.standings.Standing.{Standing as TheStanding};
ghost use Rattle.authenticators.specs.Directory.{is_listed, keys_at};
ghost use Rattle.operating.specs.Questions.{AreStandings, IsStanding};

use answers::Standing;
use authenticators::NodeId;
use commands::Store;
use evidence::Evidence;
use replay_verifier::Program;
use std::alloc::{AllocError, Global};
use std::collections::BTreeMap;

/// Shows that a map is in ascending order.
fn is_ordered(standings: &BTreeMap<u32, Standing>)
    ensures { IsOrdered nat_cmp standings.now }
{
    let _ = standings.len();
}

/// Returns what the evidence says of a listed node.
fn standing_of<P: Program>(store: &Store<P>, node: NodeId) -> Standing
    requires { IsSome (keys_at store.now.directory node) }
    ensures { IsStanding P.means store.now node result }
{
    let Ok(indication) = store.indication(node) else {
        unreachable!()
    };
    Standing {
        indication,
        known: store.knows(node),
    }
}

/// Returns the same for each node of its directory, by the node's number.
fn each_standing<P: Program>(
    alloc: Global,
    store: &Store<P>,
) -> Result<BTreeMap<u32, Standing>, AllocError>
    ensures listed { IfOk result (λ m. (node : ℕ) → is_some (get nat_cmp m node) ≡ is_listed store.now.directory node) }
    ensures right { IfOk result (λ m. (node : ℕ) (x : TheStanding) → get nat_cmp m node ≡ Some x → IsStanding P.means store.now node x) }
{
    let mut standings = BTreeMap::new(alloc);
    for node in store.directory().nodes() {
        let standing = standing_of(store, *node);
        standings.insert(node.0, standing)?;
    }
    Ok(standings)
}

/// Returns what the evidence says of each node of its directory, ascending. It fails only if a growth is refused.
pub(crate) fn standings_of<P: Program>(
    alloc: Global,
    store: &Store<P>,
) -> Result<BTreeMap<u32, Standing>, AllocError>
    ensures { IfOk result (λ m. AreStandings P.means store.now m.entries) }
{
    let standings = each_standing(alloc, store)?;
    is_ordered(&standings);
    Ok(standings)
}
