//! Taking one checked item.

ghost use Rattle.std.specs.Prelude.{◌≡◌, ◌+◌, ◌++◌, ◌∷◌, [], IfErr, IfOk, OnErr, OnOk, Ok, false, length, not};
ghost use Rattle.evidence_item.specs.Checking.{IsChecked};
ghost use Rattle.evidence_set.specs.ItemSets.{Has, contains, insert, set_of};
ghost use Rattle.kept_evidence.specs.Kept.{IsWhole};
ghost use Rattle.node_tables.specs.Places.{IsGapAt};
ghost use Rattle.node_tables.specs.Rooms.{KeepsPromises};
ghost use Rattle.node_tables.specs.Steps.{AscendByNode, EachBecomes};
ghost use Rattle.indexed_store.specs.within.Digested.{RestsBehind};
ghost use Rattle.indexed_store.specs.within.Resting.{HasRoomOf, IsAtRest, IsIndex, IsMadeReady, IsReadier, JoinsAtMost};

use crate::index::Index;
use authenticators::Directory;
use evidence::TakeRefused;
use evidence_item::Checked;
use kept_entries::EntryPool;
use kept_items::laws::found_items_can_be_kept;
use kept_items::{KeepRefused, Keeping, KeptItem};
use node_tables::{gap_of, promise_item};
use outcome::Memory;
use replay_verifier::Program;
use std::alloc::Global;

/// How many items there can be at most, since a place is a number of 32 bits.
pub(crate) const MOST_ITEMS: usize = 4_294_967_296;

/// Finds what was not found yet of the item, and keeps it. Its entries are shared.
pub(crate) fn keep<P: Program>(
    alloc: Global,
    directory: &Directory,
    pool: &mut EntryPool,
    mut checked: Checked<P>,
) -> Result<Keeping<P>, TakeRefused<P>>
    requires { IsChecked directory.now P.means checked }
    ensures whole { IfOk result (λ k. IsWhole directory.now P.means k) }
    ensures kept { IfOk result (λ k. (k.item ≡ checked.item) × (k.verdict ≡ checked.verdict)) }
    ensures given_back { IfErr result (λ refused. (refused.0.item ≡ checked.item) × (refused.0.verdict ≡ checked.verdict) × IsChecked directory.now P.means refused.0) }
{
    if checked.find(alloc, directory).is_err() {
        return Err(TakeRefused(checked));
    }
    found_items_can_be_kept();
    match KeptItem::keep(alloc, pool, checked) {
        Ok(keeping) => Ok(keeping),
        Err(KeepRefused(checked)) => Err(TakeRefused(checked)),
    }
}

/// Makes all room that one item more needs. If it returns `Memory`, the items, their order and what the tables have are as they were.
fn prepare<P>(index: &mut Index<P>, item: &KeptItem<P>) -> Result<(), Memory>
    requires { AscendByNode index.old.tables.items }
    ensures same { IsReadier index.old index.new }
    ensures ready { OnOk result (IsMadeReady (item.now ∷ []) index.old index.new) }
    ensures refused { OnErr result (EachBecomes KeepsPromises index.old.tables.items index.new.tables.items) }
{
    if index.items.len() >= MOST_ITEMS {
        return Err(Memory);
    }
    index.items.reserve(1)?;
    index.order.reserve(1)?;
    promise_item(&mut index.tables, item)
}

/// Puts an item that is not there yet in its place. There is room for it.
pub(crate) fn add<P: Program>(
    directory: &Directory,
    index: &mut Index<P>,
    gap: usize,
    item: KeptItem<P>,
)
    requires store { IsIndex directory.now P.means index.old }
    requires whole { IsWhole directory.now P.means item }
    requires gap { IsGapAt index.old.items.items index.old.order.items item.item gap }
    requires room { HasRoomOf item index.old }
    ensures store { IsIndex directory.now P.means index.new }
    ensures items { index.new.items.items ≡ index.old.items.items ++ item ∷ [] }
    ensures order { length index.new.order.items ≡ length index.old.order.items + 1 }
    ensures joins { JoinsAtMost item index.old index.new }
{
    let place = index.items.len() as u32;
    index.items.push_reserved(item);
    index.order.insert(gap, place);
    node_tables::index(&index.items, &index.order, &mut index.tables);
}

/// Takes the item, if it is not kept yet, and returns whether it is new.
pub(crate) fn take<P: Program>(
    alloc: Global,
    directory: &Directory,
    pool: &mut EntryPool,
    index: &mut Index<P>,
    checked: Checked<P>,
) -> Result<bool, TakeRefused<P>>
    requires store { IsAtRest directory.now P.means index.old }
    requires checked { IsChecked directory.now P.means checked }
    ensures store { RestsBehind directory.now P.means index.old index.new }
    ensures told { IfOk result (λ new. new ≡ not (contains (set_of index.old.items.items) checked.item)) }
    ensures taken { OnOk result (set_of index.new.items.items ≡ insert (set_of index.old.items.items) checked.item) }
    ensures held { Has (set_of index.old.items.items) checked.item → result ≡ Ok false }
    ensures given_back { IfErr result (λ refused. (refused.0.item ≡ checked.item) × (refused.0.verdict ≡ checked.verdict) × IsChecked directory.now P.means refused.0) }
    ensures refused { OnErr result (index.new.items.items ≡ index.old.items.items) }
{
    let Err(gap) = gap_of(&index.items, &index.order, checked.item()) else {
        return Ok(false);
    };
    let keeping = keep(alloc, directory, pool, checked)?;
    let Ok(()) = prepare(index, keeping.item()) else {
        return Err(TakeRefused(keeping.give_back()));
    };
    add(directory, index, gap, keeping.commit());
    Ok(true)
}
