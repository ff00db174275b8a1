//! What exposes a node.

ghost use Rattle.std.specs.Prelude.{IfNone, IfSome};
ghost use Rattle.std.specs.List.{Contains};
ghost use Rattle.evidence_item.specs.Checking.{Checked as TheChecked};
ghost use Rattle.kept_evidence.specs.Kept.{HasHashes, IsAscending};
ghost use Rattle.kept_evidence.specs.Telling.{DeviatesNowhere, IsDenial, IsDeviation, IsUndenied, IsUnexposed, Shows};

use crate::grouping::group_of;
use authenticators::{AuthenticatorStore, NodeId};
use evidence_item::Checked;
use item_forms::Group;
use kept_evidence::{Denial, Exposure, deviating, first_denial};

/// Returns a statement of the node and a segment of it that are not of one log, if there are such.
fn denial_of<'a, P>(
    held: &'a AuthenticatorStore,
    kept: &'a [Checked<P>],
    node: NodeId,
) -> Option<Denial<'a, P>>
    requires ascending { IsAscending kept.now }
    requires hashes { (c : TheChecked) → Contains kept.now c → HasHashes c }
    ensures none { IfNone result (IsUndenied node held.now kept.now) }
    ensures some { IfSome result (λ d. IsDenial node held.now kept.now d.statement.now d.segment.now) }
{
    first_denial(held.of_node(node), group_of(kept, &Group::Segments(node)))
}

/// Returns a segment of the node that deviates, if there is one.
fn deviation_of<P>(kept: &[Checked<P>], node: NodeId) -> Option<&Checked<P>>
    requires { IsAscending kept.now }
    ensures none { IfNone result (DeviatesNowhere node kept.now) }
    ensures some { IfSome result (λ c. IsDeviation node kept.now c.now) }
{
    deviating(group_of(kept, &Group::Segments(node)))
}

/// Returns what exposes the node, or `None` if nothing does. It takes no memory.
pub(crate) fn exposure_of<'a, P>(
    held: &'a AuthenticatorStore,
    kept: &'a [Checked<P>],
    node: NodeId,
) -> Option<Exposure<'a, P>>
    requires ascending { IsAscending kept.now }
    requires hashes { (c : TheChecked) → Contains kept.now c → HasHashes c }
    ensures none { IfNone result (IsUnexposed node held.now kept.now) }
    ensures some { IfSome result (λ e. Shows node held.now kept.now e) }
{
    if let Some((one, other)) = held.conflict(node) {
        return Some(Exposure::TwoHashes(one, other));
    }
    if let Some(denial) = denial_of(held, kept, node) {
        return Some(Exposure::Denied(denial));
    }
    let segment = deviation_of(kept, node)?;
    Some(Exposure::Deviates(segment))
}
