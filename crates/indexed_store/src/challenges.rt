//! The challenges against a node that are open.

ghost use Rattle.std.specs.Prelude.{◌≡◌, ◌↔◌, ◌++◌, ◌<◌, ℕ, IfOk, OnOk, length, map, slice_get, slice_index_or, true};
ghost use Rattle.std.specs.List.{Contains, flat_map};
ghost use Rattle.std.specs.List.Sorted.{IsStrictlySortedBy};
ghost use Rattle.authenticators.specs.Directory.{is_listed};
ghost use Rattle.item_forms.specs.Pieces.{Piece, by_bytes};
ghost use Rattle.evidence_set.specs.Indications.{IsUnanswered};
ghost use Rattle.evidence_set.specs.ItemSets.{Has, set_of};
ghost use Rattle.node_tables.specs.Places.{IsAgainstAt, named_item};
ghost use Rattle.indexed_store.specs.within.Resting.{IsIndex};

use crate::index::{Index, table_of};
use authenticators::{Directory, NodeId};
use evidence_item::Item;
use kept_items::KeptItem;
use outcome::Memory;
use replay_verifier::Program;
use replay_verifier::laws::deviating_lists_do_not_conform;
use std::alloc::Global;
use tiered_vec::TieredVec;

/// Puts the challenge at a place behind those that were found.
fn lend<'a, P>(
    found: &mut Vec<&'a Item>,
    items: &'a [KeptItem<P>],
    node: NodeId,
    place: u32,
) -> Result<(), Memory>
    requires { IsAgainstAt items.now node place }
    ensures { OnOk result (map (λ i. i.now) found.new.items ≡ map (λ i. i.now) found.old.items ++ named_item (slice_get items.now place)) }
{
    let Some(kept) = items.get(place as usize) else {
        return Ok(());
    };
    if let Some(item) = kept.as_challenge() {
        found.push(item)?;
    }
    Ok(())
}

/// Does the same for the challenge whose place stands somewhere among others.
fn lend_at<'a, P>(
    found: &mut Vec<&'a Item>,
    items: &'a [KeptItem<P>],
    node: NodeId,
    places: &TieredVec<u32>,
    at: usize,
) -> Result<(), Memory>
    requires against { (i : ℕ) → Contains places.now.items i → IsAgainstAt items.now node i }
    requires inside { at < length places.now.items }
    ensures { OnOk result ((d : ℕ) → map (λ i. i.now) found.new.items ≡ map (λ i. i.now) found.old.items ++ named_item (slice_get items.now (slice_index_or places.now.items at d))) }
{
    match places.get(at) {
        None => Ok(()),
        Some(place) => lend(found, items, node, *place),
    }
}

/// Returns the challenges against the node at these places, in their order.
fn challenges_at<'a, P>(
    alloc: Global,
    items: &'a [KeptItem<P>],
    node: NodeId,
    places: &TieredVec<u32>,
) -> Result<Vec<&'a Item>, Memory>
    requires { (i : ℕ) → Contains places.now.items i → IsAgainstAt items.now node i }
    ensures { IfOk result (λ found. map (λ i. i.now) found.items ≡ flat_map (λ i. named_item (slice_get items.now i)) places.now.items) }
{
    let mut found = Vec::with_capacity(alloc, places.len())?;
    for at in 0..places.len() {
        lend_at(&mut found, items, node, places, at)?;
    }
    Ok(found)
}

/// Returns the challenges against a listed node that no item answers, in the order of their encodings. They stand so in its table.
pub(crate) fn open_challenges<'a, P: Program>(
    alloc: Global,
    directory: &Directory,
    index: &'a Index<P>,
    node: NodeId,
) -> Result<Vec<&'a Item>, Memory>
    requires store { IsIndex directory.now P.means index.now }
    requires listed { is_listed directory.now node ≡ true }
    ensures members { IfOk result (λ found. (x : Piece) → Contains (map (λ i. i.now) found.items) x ↔ (Has (set_of index.now.items.items) x × IsUnanswered directory.now (set_of index.now.items.items) node x.fields)) }
    ensures ascending { IfOk result (λ found. IsStrictlySortedBy by_bytes (map (λ i. i.now) found.items)) }
{
    deviating_lists_do_not_conform::<P::State>();
    let Some(table) = table_of(index, node) else {
        return Ok(Vec::new(alloc));
    };
    let found = challenges_at(alloc, &index.items, node, &table.unanswered)?;
    Ok(found)
}
