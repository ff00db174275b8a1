//! Adding many items at once.

ghost use Rattle.std.specs.Prelude.{◌≡◌, ◌+◌, ◌≤◌, IfOk, OnErr, OnOk, length, not};
ghost use Rattle.std.specs.List.{All, Contains, filter};
ghost use Rattle.evidence_item.specs.Checking.{Checked as TheChecked, IsChecked};
ghost use Rattle.evidence_set.specs.ItemSets.{Join, count, insert, pieces, set_of};
ghost use Rattle.kept_evidence.specs.Kept.{IsWhole, is_kept};
ghost use Rattle.node_tables.specs.Rooms.{AreReady, AreAllReleased, IsRoomier, KeepsPromises};
ghost use Rattle.node_tables.specs.Steps.{AscendByNode, EachBecomes};
ghost use Rattle.indexed_store.specs.within.Digested.{StandStill};
ghost use Rattle.indexed_store.specs.within.Resting.{HasRoomOf, IsAtRest, IsAwaiting, IsIndex, IsMadeReady, IsOrdered, IsReadier, JoinsAtMost};

use crate::including::{has, keeps};
use crate::index::Index;
use crate::taking::{MOST_ITEMS, add, keep};
use authenticators::Directory;
use evidence_item::Checked;
use kept_entries::EntryPool;
use kept_items::KeptItem;
use node_tables::{Table, gap_of_kept, promise_item, release_item};
use outcome::Memory;
use replay_verifier::Program;
use std::alloc::Global;

/// Returns copies of the items that are not kept. Their entries are shared with those that are.
fn copies_of_missing<P>(
    alloc: Global,
    pool: &mut EntryPool,
    index: &Index<P>,
    others: &[KeptItem<P>],
) -> Result<Vec<KeptItem<P>>, Memory>
    requires { IsOrdered index.now }
    ensures { IfOk result (λ copies. copies.items ≡ filter (λ (c : TheChecked). not (is_kept index.now.items.items c.item)) others.now) }
{
    let mut copies = Vec::new(alloc);
    for other in others {
        if !keeps(index, other) {
            copies.push(other.share(alloc, pool)?)?;
        }
    }
    Ok(copies)
}

/// Finds what was not found yet of the item, and keeps it. Its entries are shared.
fn kept_of<P: Program>(
    alloc: Global,
    directory: &Directory,
    pool: &mut EntryPool,
    checked: Checked<P>,
) -> Result<KeptItem<P>, Memory>
    requires { IsChecked directory.now P.means checked }
    ensures whole { IfOk result (λ k. IsWhole directory.now P.means k) }
    ensures item { IfOk result (λ k. k.item ≡ checked.item) }
{
    match keep(alloc, directory, pool, checked) {
        Ok(keeping) => Ok(keeping.commit()),
        Err(_) => Err(Memory),
    }
}

/// Keeps each of the items that the store does not have, with its entries shared. The other items are dropped, and take no memory.
fn keep_missing<P: Program>(
    alloc: Global,
    directory: &Directory,
    pool: &mut EntryPool,
    index: &Index<P>,
    checked: Vec<Checked<P>>,
) -> Result<Vec<KeptItem<P>>, Memory>
    requires order { IsOrdered index.now }
    requires checked { All (IsChecked directory.now P.means) checked.items }
    ensures pieces { IfOk result (λ kept. pieces kept.items ≡ pieces (filter (λ (c : TheChecked). not (is_kept index.now.items.items c.item)) checked.items)) }
    ensures whole { IfOk result (λ kept. (c : TheChecked) → Contains kept.items c → IsWhole directory.now P.means c) }
{
    let mut kept = Vec::new(alloc);
    for item in checked {
        if has(index, item.item()) {
            continue;
        }
        kept.push(kept_of(alloc, directory, pool, item)?)?;
    }
    Ok(kept)
}

/// Takes back what was promised of each of the items.
fn release_each<P>(tables: &mut [Table], items: &[KeptItem<P>])
    requires { AscendByNode tables.old }
    ensures { EachBecomes (AreAllReleased items.now) tables.old tables.new }
{
    for item in items {
        release_item(tables, item);
    }
}

/// Promises the tables all of the items. If it returns `Memory`, what was promised of some of them is taken back.
fn promise_all<P>(tables: &mut [Table], more: &[KeptItem<P>]) -> Result<(), Memory>
    requires { AscendByNode tables.old }
    ensures same { EachBecomes IsRoomier tables.old tables.new }
    ensures ok { OnOk result (EachBecomes (AreReady more.now) tables.old tables.new) }
    ensures refused { OnErr result (EachBecomes KeepsPromises tables.old tables.new) }
{
    for n in 0..more.len() {
        let Ok(()) = promise_item(tables, &more[n]) else {
            release_each(tables, &more[..n]);
            return Err(Memory);
        };
    }
    Ok(())
}

/// Makes all room that the items need. If it returns `Memory`, the items, their order and what the tables have are as they were.
fn prepare_all<P>(index: &mut Index<P>, more: &[KeptItem<P>]) -> Result<(), Memory>
    requires { AscendByNode index.old.tables.items }
    ensures same { IsReadier index.old index.new }
    ensures ready { OnOk result (IsMadeReady more.now index.old index.new) }
    ensures refused { OnErr result (EachBecomes KeepsPromises index.old.tables.items index.new.tables.items) }
{
    let Some(count) = index.items.len().checked_add(more.len()) else {
        return Err(Memory);
    };
    if count > MOST_ITEMS {
        return Err(Memory);
    }
    index.items.reserve(more.len())?;
    index.order.reserve(more.len())?;
    promise_all(&mut index.tables, more)
}

/// Puts an item in its place, if it is not there yet. There is room for it.
fn add_new<P: Program>(directory: &Directory, index: &mut Index<P>, item: KeptItem<P>)
    requires store { IsIndex directory.now P.means index.old }
    requires whole { IsWhole directory.now P.means item }
    requires room { HasRoomOf item index.old }
    ensures store { IsIndex directory.now P.means index.new }
    ensures grown { set_of index.new.items.items ≡ insert (set_of index.old.items.items) item.item }
    ensures joins { JoinsAtMost item index.old index.new }
    ensures still { StandStill index.old.items.items index.new.items.items }
{
    let Err(gap) = gap_of_kept(&index.items, &index.order, &item) else {
        release_item(&mut index.tables, &item);
        return;
    };
    add(directory, index, gap, item);
}

/// Puts each of the items in its place, if it is not there yet, beginning with the first. There is room for all of them.
fn add_each<P: Program>(directory: &Directory, index: &mut Index<P>, more: Vec<KeptItem<P>>)
    requires store { IsIndex directory.now P.means index.old }
    requires whole { (c : TheChecked) → Contains more.items c → IsWhole directory.now P.means c }
    requires awaiting { IsAwaiting more.items index.old }
    ensures store { IsAtRest directory.now P.means index.new }
    ensures joined { set_of index.new.items.items ≡ Join (set_of index.old.items.items) (set_of more.items) }
    ensures grows { length index.old.order.items ≤ length index.new.order.items }
    ensures still { StandStill index.old.items.items index.new.items.items }
{
    for item in more {
        add_new(directory, index, item);
    }
}

/// Adds the items that are not kept yet, and returns how many. It adds all of them, or, with `Memory`, none.
fn add_all<P: Program>(
    directory: &Directory,
    index: &mut Index<P>,
    more: Vec<KeptItem<P>>,
) -> Result<u64, Memory>
    requires store { IsAtRest directory.now P.means index.old }
    requires whole { (c : TheChecked) → Contains more.items c → IsWhole directory.now P.means c }
    ensures store { IsAtRest directory.now P.means index.new }
    ensures told { IfOk result (λ new. count (set_of index.old.items.items) + new ≡ count (set_of index.new.items.items)) }
    ensures joined { OnOk result (set_of index.new.items.items ≡ Join (set_of index.old.items.items) (set_of more.items)) }
    ensures refused { OnErr result (index.new.items.items ≡ index.old.items.items) }
    ensures still { StandStill index.old.items.items index.new.items.items }
{
    let before = index.order.len();
    prepare_all(index, &more)?;
    add_each(directory, index, more);
    Ok((index.order.len() - before) as u64)
}

/// Adds copies of the items of another store that are not kept yet, and returns how many. It adds all of them, or, with `Memory`, none.
pub(crate) fn merge<P: Program>(
    alloc: Global,
    directory: &Directory,
    pool: &mut EntryPool,
    index: &mut Index<P>,
    others: &[KeptItem<P>],
) -> Result<u64, Memory>
    requires store { IsAtRest directory.now P.means index.old }
    requires others { (c : TheChecked) → Contains others.now c → IsWhole directory.now P.means c }
    ensures store { IsAtRest directory.now P.means index.new }
    ensures told { IfOk result (λ new. count (set_of index.old.items.items) + new ≡ count (set_of index.new.items.items)) }
    ensures joined { OnOk result (set_of index.new.items.items ≡ Join (set_of index.old.items.items) (set_of others.now)) }
    ensures refused { OnErr result (index.new.items.items ≡ index.old.items.items) }
    ensures still { StandStill index.old.items.items index.new.items.items }
{
    let copies = copies_of_missing(alloc, pool, index, others)?;
    let new = add_all(directory, index, copies)?;
    Ok(new)
}

/// Adds checked items, and returns how many are new. It adds all of them, or, with `Memory`, none.
pub(crate) fn take_all<P: Program>(
    alloc: Global,
    directory: &Directory,
    pool: &mut EntryPool,
    index: &mut Index<P>,
    checked: Vec<Checked<P>>,
) -> Result<u64, Memory>
    requires store { IsAtRest directory.now P.means index.old }
    requires checked { All (IsChecked directory.now P.means) checked.items }
    ensures store { IsAtRest directory.now P.means index.new }
    ensures told { IfOk result (λ new. count (set_of index.old.items.items) + new ≡ count (set_of index.new.items.items)) }
    ensures joined { OnOk result (set_of index.new.items.items ≡ Join (set_of index.old.items.items) (set_of checked.items)) }
    ensures refused { OnErr result (index.new.items.items ≡ index.old.items.items) }
    ensures still { StandStill index.old.items.items index.new.items.items }
{
    let more = keep_missing(alloc, directory, pool, index, checked)?;
    let new = add_all(directory, index, more)?;
    Ok(new)
}
