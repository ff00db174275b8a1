//! The challenges against a node that are open.

ghost use Rattle.std.specs.Prelude.{◌≡◌, ◌↔◌, IfOk, map};
ghost use Rattle.std.specs.List.{Contains, filter};
ghost use Rattle.std.specs.List.Sorted.{IsStrictlySortedBy};
ghost use Rattle.item_forms.specs.Pieces.{Piece, by_bytes};
ghost use Rattle.evidence_item.specs.Checking.{Checked as TheChecked};
ghost use Rattle.evidence_set.specs.Indications.{IsUnanswered};
ghost use Rattle.evidence_set.specs.ItemSets.{Has, pieces, set_of};
ghost use Rattle.kept_evidence.specs.Kept.{AreKept, HasHashes, IsAscending};
ghost use Rattle.kept_evidence.specs.Telling.{is_unanswered};

use crate::grouping::group_of;
use crate::suspicion::is_unanswered;
use authenticators::{Directory, NodeId};
use evidence_item::{Checked, Item};
use item_forms::Group;
use outcome::Memory;
use replay_verifier::Program;
use std::alloc::Global;

/// Returns those of the items that are challenges against the node and that no kept item answers, in their order.
fn unanswered_of<'a, P>(
    alloc: Global,
    kept: &[Checked<P>],
    node: NodeId,
    items: &'a [Checked<P>],
) -> Result<Vec<&'a Item>, Memory>
    requires ascending { IsAscending kept.now }
    requires hashes { (c : TheChecked) → Contains kept.now c → HasHashes c }
    ensures { IfOk result (λ found. map (λ i. i.now) found.items ≡ filter (λ (x : Piece). is_unanswered kept.now node x.fields) (pieces items.now)) }
{
    let mut found = Vec::new(alloc);
    for checked in items {
        let item = checked.item();
        if is_unanswered(kept, node, item) {
            found.push(item)?;
        }
    }
    Ok(found)
}

/// Returns the challenges against the node that no item answers, in the order of their encodings: audit challenges come before
/// send challenges.
pub(crate) fn open_challenges<'a, P: Program>(
    alloc: Global,
    directory: &Directory,
    kept: &'a [Checked<P>],
    node: NodeId,
) -> Result<Vec<&'a Item>, Memory>
    requires { AreKept directory.now P.means kept.now }
    ensures members { IfOk result (λ found. (x : Piece) → Contains (map (λ i. i.now) found.items) x ↔ (Has (set_of kept.now) x × IsUnanswered directory.now (set_of kept.now) node x.fields)) }
    ensures ascending { IfOk result (λ found. IsStrictlySortedBy by_bytes (map (λ i. i.now) found.items)) }
{
    let audits = group_of(kept, &Group::AuditChallenges(node));
    let sends = group_of(kept, &Group::SendChallenges);
    let mut found = unanswered_of(alloc, kept, node, audits)?;
    let mut more = unanswered_of(alloc, kept, node, sends)?;
    found.append(&mut more)?;
    Ok(found)
}
