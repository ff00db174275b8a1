//! Which open challenges a segment closes.

ghost use Rattle.std.specs.Prelude.{◌≡◌, ◌≤◌, ◌-◌, length, not, slice_get, true};
ghost use Rattle.std.specs.List.{filter};
ghost use Rattle.kept_items.specs.Positions.{positions, stated};
ghost use Rattle.node_tables.specs.Hashed.{AreHashed};
ghost use Rattle.node_tables.specs.Places.{AscendBySpelling};
ghost use Rattle.node_tables.specs.Receipts.{received};
ghost use Rattle.node_tables.specs.Tables.{IsSegmentAt};
ghost use Rattle.node_tables.specs.within.Placing.{answers_at};
ghost use Rattle.node_tables.specs.within.Sendings.{is_among, is_received};

use crate::auditing::close_audits;
use crate::hashes::Hashes;
use crate::sending::{Sending, take_sending};
use authenticators::NodeId;
use kept_items::KeptItem;
use tiered_vec::TieredVec;

/// The message that an entry of a segment of the node quotes: by its sender, its receiver and its number.
pub(crate) fn received<P>(kept: &KeptItem<P>, node: NodeId, position: u32) -> Option<Sending>
    ensures { result ≡ received node (stated kept.now position) }
{
    match kept.statement(position) {
        None => None,
        Some(said) => Some(Sending {
            from: said.node,
            to: node,
            seq: said.seq,
        }),
    }
}

/// Takes away the challenges to acknowledge that message.
fn take_received<P>(
    items: &[KeptItem<P>],
    places: &mut TieredVec<u32>,
    kept: &KeptItem<P>,
    node: NodeId,
    position: u32,
)
    requires { AscendBySpelling items.now places.old.items }
    ensures items { places.new.items ≡ filter (λ i. not (is_among (received node (stated kept.now position)) (slice_get items.now i))) places.old.items }
    ensures asked { AscendBySpelling items.now places.new.items }
    ensures room { places.old.room ≤ places.new.room }
{
    if let Some(sending) = received(kept, node, position) {
        take_sending(items, places, &sending);
    }
}

/// How many positions are behind the first.
fn count_behind<P>(kept: &KeptItem<P>) -> u32
    ensures { result ≡ positions kept.now.item.fields - 1 }
{
    kept.positions().saturating_sub(1)
}

/// Takes away the challenges to acknowledge what the entries of a segment of the node quote.
fn take_each_received<P>(
    items: &[KeptItem<P>],
    places: &mut TieredVec<u32>,
    kept: &KeptItem<P>,
    node: NodeId,
)
    requires { AscendBySpelling items.now places.old.items }
    ensures items { places.new.items ≡ filter (λ i. not (is_received node kept.now.item.fields kept.now.findings (positions kept.now.item.fields - 1) (slice_get items.now i))) places.old.items }
    ensures asked { AscendBySpelling items.now places.new.items }
    ensures room { places.old.room ≤ places.new.room }
{
    let count = count_behind(kept);
    for place in 0..count {
        take_received(items, places, kept, node, place + 1);
    }
}

/// Takes away the challenges that the segment of the node at a place answers. They are looked up: send challenges for each message that
/// it quotes, and audit challenges for each of its entries.
pub(crate) fn close_by_segment<P>(
    items: &[KeptItem<P>],
    node: NodeId,
    places: &mut TieredVec<u32>,
    hashes: &mut Hashes,
    answer: u32,
)
    requires segment { IsSegmentAt items.now node answer }
    requires spelled { AscendBySpelling items.now places.old.items }
    requires hashed { hashes.old.whole ≡ true → AreHashed items.now node answer 0 places.old.items hashes.old }
    ensures items { places.new.items ≡ filter (λ i. not (answers_at items.now i answer)) places.old.items }
    ensures spelled { AscendBySpelling items.now places.new.items }
    ensures room { places.old.room ≤ places.new.room }
    ensures hashed { hashes.new.whole ≡ true → AreHashed items.now node (length items.now) 0 places.new.items hashes.new }
{
    let Some(kept) = items.get(answer as usize) else {
        return;
    };
    take_each_received(items, places, kept, node);
    close_audits(items, node, places, hashes, answer);
}
