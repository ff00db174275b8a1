//! Proofs of a fault, made of what exposes a node.

ghost use Rattle.std.specs.Prelude.{◌≡◌, ◌↔◌, IfNone, IfOk, IfSome, IsSome, IsTrue, Some, slice_get, true};
ghost use Rattle.authenticators.specs.Directory.{is_listed};
ghost use Rattle.proofs.specs.Convicting.{Convicts};
ghost use Rattle.evidence_item.specs.Checking.{Checked as TheChecked, is_segment};
ghost use Rattle.evidence_set.specs.Indications.{IsExposed};
ghost use Rattle.evidence_set.specs.ItemSets.{set_of};
ghost use Rattle.kept_items.specs.Positions.{shown};
ghost use Rattle.node_tables.specs.Proving.{AreSigned, IsDenialMade, IsMade, IsSegmentMade, IsTwoMade};
ghost use Rattle.indexed_store.specs.within.Resting.{IsIndex};

use crate::index::{Index, table_of};
use authenticators::{Authenticator, Directory, NodeId};
use evidence_item::laws::valid_items_are_signed;
use evidence_item::{ByteString, Item};
use kept_evidence::{proof_of_denial, proof_of_segment, proof_of_two};
use kept_items::{KeptItem, Said};
use node_tables::{ExposingPlaces, Row, said_at};
use outcome::Memory;
use proofs::Proof;
use replay_verifier::Program;
use replay_verifier::laws::deviating_lists_do_not_conform;
use std::alloc::Global;

/// A copy of the statement.
fn copy_of(alloc: Global, said: &Said<'_>) -> Result<Authenticator, Memory>
    ensures { IfOk result (λ a. a ≡ shown said.now) }
{
    let sig = ByteString::from_slice(alloc, said.sig)?;
    Ok(Authenticator {
        node: said.node,
        seq: said.seq,
        hash: said.hash,
        sig,
    })
}

/// A copy of the item.
fn item_of<P>(alloc: Global, kept: &KeptItem<P>) -> Result<Item, Memory>
    ensures { IfOk result (λ x. x ≡ kept.now.item) }
{
    let checked = kept.to_checked(alloc)?;
    Ok(checked.into_item())
}

/// A copy of the segment at a place.
fn segment_at<P>(alloc: Global, items: &[KeptItem<P>], place: u32) -> Result<Option<Item>, Memory>
    ensures none { IfOk result (λ found. IfNone found ((c : TheChecked) → slice_get items.now place ≡ Some c → IsTrue (is_segment c.item.fields) → ⊥)) }
    ensures some { IfOk result (λ found. IfSome found (λ x. IsTrue (is_segment x.fields) × ((c : TheChecked) → slice_get items.now place ≡ Some c → c.item.fields ≡ x.fields))) }
{
    let Some(kept) = items.get(place as usize) else {
        return Ok(None);
    };
    if kept.form().is_some() {
        return Ok(None);
    }
    let copy = item_of(alloc, kept)?;
    Ok(Some(copy))
}

/// Returns a proof of the statements of two rows, which are signed.
fn of_two<P>(
    alloc: Global,
    directory: &Directory,
    items: &[KeptItem<P>],
    one: Row,
    other: Row,
) -> Result<Option<Proof>, Memory>
    requires { AreSigned directory.now items.now }
    ensures { IfOk result (IsTwoMade items.now one other) }
{
    let Some(first) = said_at(items, one) else {
        return Ok(None);
    };
    let Some(second) = said_at(items, other) else {
        return Ok(None);
    };
    let earlier = copy_of(alloc, &first)?;
    let later = copy_of(alloc, &second)?;
    let proof = proof_of_two(alloc, directory, &earlier, &later)?;
    Ok(Some(proof))
}

/// Returns a proof of the segment at a place.
fn of_segment<P>(alloc: Global, items: &[KeptItem<P>], place: u32) -> Result<Option<Proof>, Memory>
    ensures { IfOk result (IsSegmentMade items.now place) }
{
    let found = segment_at(alloc, items, place)?;
    let Some(segment) = found else {
        return Ok(None);
    };
    let proof = proof_of_segment(alloc, &segment)?;
    Ok(Some(proof))
}

/// Returns a proof of the statement of a row, which is signed, and of the segment at a place.
fn of_denial<P>(
    alloc: Global,
    directory: &Directory,
    items: &[KeptItem<P>],
    row: Row,
    place: u32,
) -> Result<Option<Proof>, Memory>
    requires { AreSigned directory.now items.now }
    ensures { IfOk result (IsDenialMade items.now row place) }
{
    let Some(said) = said_at(items, row) else {
        return Ok(None);
    };
    let found = segment_at(alloc, items, place)?;
    let Some(segment) = found else {
        return Ok(None);
    };
    let statement = copy_of(alloc, &said)?;
    let proof = proof_of_denial(alloc, directory, &statement, &segment)?;
    Ok(Some(proof))
}

/// Returns a proof of what exposes a node.
fn proof_by<P>(
    alloc: Global,
    directory: &Directory,
    items: &[KeptItem<P>],
    exposure: ExposingPlaces,
) -> Result<Option<Proof>, Memory>
    requires { AreSigned directory.now items.now }
    ensures { IfOk result (IsMade items.now exposure) }
{
    match exposure {
        ExposingPlaces::TwoHashes(one, other) => of_two(alloc, directory, items, one, other),
        ExposingPlaces::Denied(row, place) => of_denial(alloc, directory, items, row, place),
        ExposingPlaces::Deviates(place) => of_segment(alloc, items, place),
    }
}

/// Returns a proof that convicts the listed node, if the items expose it. The node's table has what exposes it, so nothing is searched.
pub(crate) fn proof<P: Program>(
    alloc: Global,
    directory: &Directory,
    index: &Index<P>,
    node: NodeId,
) -> Result<Option<Proof>, Memory>
    requires store { IsIndex directory.now P.means index.now }
    requires listed { is_listed directory.now node ≡ true }
    ensures some { IfOk result (λ p. IsSome p ↔ IsExposed directory.now P.means (set_of index.now.items.items) node) }
    ensures convicts { IfOk result (λ p. IfSome p (λ q. Convicts directory.now P.means node q.parts)) }
{
    deviating_lists_do_not_conform::<P::State>();
    valid_items_are_signed();
    let Some(table) = table_of(index, node) else {
        return Ok(None);
    };
    let Some(exposure) = table.exposure else {
        return Ok(None);
    };
    let found = proof_by(alloc, directory, &index.items, exposure)?;
    Ok(found)
}
