//! How an item comes into the tables.

ghost use Rattle.std.specs.Prelude.{◌≡◌, ◌<◌, ◌≤◌, ◌^◌, ◌++◌, ◌∷◌, [], List, length};
ghost use Rattle.evidence_item.specs.Checking.{Checked as TheChecked};
ghost use Rattle.node_tables.specs.Indexed.{AreOfOthers, IsTable};
ghost use Rattle.node_tables.specs.Places.{IsOrder};
ghost use Rattle.node_tables.specs.Rooms.{ItemRooms};
ghost use Rattle.node_tables.specs.Steps.{AllTables, AscendByNode, EachBecomes};
ghost use Rattle.node_tables.specs.within.Coming.{IsDue, ItemCame};

use crate::bodies::put_body;
use crate::table::Table;
use crate::tables::put_statements;
use kept_items::KeptItem;
use tiered_vec::TieredVec;

/// Puts the item at a place into the tables of its nodes. There is room for it.
fn put_item<P>(items: &[KeptItem<P>], order: &TieredVec<u32>, tables: &mut [Table], place: u32)
    requires order { IsOrder items.now order.now.items }
    requires ascending { AscendByNode tables.old }
    requires there { place < length items.now }
    requires due { AllTables (IsDue items.now place) tables.old }
    ensures { EachBecomes (ItemCame items.now place) tables.old tables.new }
{
    let count = items[place as usize].positions();
    put_statements(items, tables, place, count);
    put_body(items, order, tables, place);
}

/// Puts the last of the items into the tables of its nodes, and takes back what was promised of it. The item's place is in the order
/// already, and the tables have room for the item.
///
/// It does not fail. If memory that was promised is refused, a table keeps no receipts, or nothing by hashes, from then on.
pub fn index<P>(items: &[KeptItem<P>], order: &TieredVec<u32>, tables: &mut [Table])
    requires order { IsOrder items.now order.now.items }
    requires places { length items.now ≤ 2 ^ 32 }
    requires ascending { AscendByNode tables.old }
    requires others { AreOfOthers items.now tables.old }
    ensures ascending { AscendByNode tables.new }
    ensures each { AllTables (IsTable items.now) tables.new }
    ensures rooms { (others : List TheChecked) (x : TheChecked) → items.now ≡ others ++ x ∷ [] → EachBecomes (ItemRooms x) tables.old tables.new }
{
    let place = (items.len() - 1) as u32;
    put_item(items, order, tables, place);
}
