//! Which open audit challenges a segment closes.
//!
//! It costs a search among the holders for each of the segment's entries. Suppose that no segment held an entry behind as many others. Then
//! open challenges that name it are looked at: all of them, or, if that is less, for each new entry before it those that name both, by a
//! search. An entry before it is new if no segment had it before this entry yet. A challenge that names this entry beside another one was
//! answered by a segment that had both.

ghost use Rattle.std.specs.Prelude.{◌≡◌, ◌<◌, ◌≤◌, ◌+◌, ℕ, Some, length, not, slice_get, slice_index_or, true};
ghost use Rattle.std.specs.List.{filter};
ghost use Rattle.kept_items.specs.declared.link.Link.{Link as TheLink};
ghost use Rattle.node_tables.specs.Hashed.{AreHashed, link_at};
ghost use Rattle.node_tables.specs.Places.{AscendBySpelling};
ghost use Rattle.node_tables.specs.Tables.{IsSegmentAt};
ghost use Rattle.node_tables.specs.within.Named.{AreClosed, AreTaken};
ghost use Rattle.node_tables.specs.within.Sendings.{audited_by};

use crate::hashes::Hashes;
use crate::holding::{Held, hold, link_at};
use crate::mark::{Mark, front_of};
use crate::taking::{answers_audit_at, take_new};
use authenticators::NodeId;
use kept_items::KeptItem;
use kept_items::laws::answers_are_inherited;
use tiered_vec::TieredVec;

/// Whether the challenge that stands somewhere among others is an audit challenge, and the item at a place answers it.
fn answers_one<P>(items: &[KeptItem<P>], places: &TieredVec<u32>, at: usize, answer: u32) -> bool
    ensures { (d : ℕ) → at < length places.now.items → result ≡ audited_by (slice_get items.now (slice_index_or places.now.items at d)) (slice_get items.now answer) }
{
    match places.get(at) {
        None => false,
        Some(place) => answers_audit_at(items, *place, answer),
    }
}

/// Takes away all audit challenges that the segment at a place answers. It looks at each.
fn take_answered<P>(items: &[KeptItem<P>], places: &mut TieredVec<u32>, answer: u32)
    ensures items { places.new.items ≡ filter (λ i. not (audited_by (slice_get items.now i) (slice_get items.now answer))) places.old.items }
    ensures room { places.old.room ≤ places.new.room }
{
    let mut at = 0;
    while at < places.len() {
        if answers_one(items, places, at, answer) {
            places.remove(at);
            continue;
        }
        at += 1;
    }
}

/// Puts the entry at a position of the segment at a place among the holders. Of the challenges that name the entry, it takes away those
/// that the segment answers. It returns whether marks and namings can still be kept.
fn take_at<P>(
    items: &[KeptItem<P>],
    node: NodeId,
    places: &mut TieredVec<u32>,
    hashes: &mut Hashes,
    answer: u32,
    position: u32,
) -> bool
    requires segment { IsSegmentAt items.now node answer }
    requires spelled { AscendBySpelling items.now places.old.items }
    requires closed { AreClosed items.now node answer position places.old.items hashes.old }
    ensures places { AreTaken items.now answer places.old.items places.new.items }
    ensures room { places.old.room ≤ places.new.room }
    ensures closed { result ≡ true → AreClosed items.now node answer (position + 1) places.new.items hashes.new }
{
    let mark = Mark {
        front: 0,
        item: answer,
        position,
    };
    let Some(link) = link_at(items, mark) else {
        return false;
    };
    let front = front_of(link.hash);
    let mark = Mark {
        front,
        item: answer,
        position,
    };
    match hold(items, node, &mut hashes.holders, mark, &link) {
        Held::Lost => false,
        Held::Known => true,
        Held::Raised(entries) => {
            take_new(items, places, hashes, mark, entries);
            true
        }
    }
}

/// How many entries the segment at a place has.
fn count_entries<P>(items: &[KeptItem<P>], answer: u32) -> u32
    ensures { (k : ℕ) (x : TheLink) → link_at items.now answer k ≡ Some x → k < result }
{
    match items.get(answer as usize) {
        None => 0,
        Some(kept) => kept.positions().saturating_sub(1),
    }
}

/// Does so for all entries. It returns whether marks and namings can still be kept.
fn take_each<P>(
    items: &[KeptItem<P>],
    node: NodeId,
    places: &mut TieredVec<u32>,
    hashes: &mut Hashes,
    answer: u32,
) -> bool
    requires segment { IsSegmentAt items.now node answer }
    requires spelled { AscendBySpelling items.now places.old.items }
    requires hashed { AreHashed items.now node answer 0 places.old.items hashes.old }
    ensures places { AreTaken items.now answer places.old.items places.new.items }
    ensures room { places.old.room ≤ places.new.room }
    ensures items { result ≡ true → places.new.items ≡ filter (λ i. not (audited_by (slice_get items.now i) (slice_get items.now answer))) places.old.items }
    ensures hashed { result ≡ true → AreHashed items.now node (length items.now) 0 places.new.items hashes.new }
{
    answers_are_inherited();
    for position in 0..count_entries(items, answer) {
        if !take_at(items, node, places, hashes, answer, position) {
            return false;
        }
    }
    true
}

/// Takes away the audit challenges that the segment of the node at a place answers.
pub(crate) fn close_audits<P>(
    items: &[KeptItem<P>],
    node: NodeId,
    places: &mut TieredVec<u32>,
    hashes: &mut Hashes,
    answer: u32,
)
    requires segment { IsSegmentAt items.now node answer }
    requires spelled { AscendBySpelling items.now places.old.items }
    requires hashed { hashes.old.whole ≡ true → AreHashed items.now node answer 0 places.old.items hashes.old }
    ensures items { places.new.items ≡ filter (λ i. not (audited_by (slice_get items.now i) (slice_get items.now answer))) places.old.items }
    ensures spelled { AscendBySpelling items.now places.new.items }
    ensures room { places.old.room ≤ places.new.room }
    ensures hashed { hashes.new.whole ≡ true → AreHashed items.now node (length items.now) 0 places.new.items hashes.new }
{
    if hashes.whole && take_each(items, node, places, hashes, answer) {
        return;
    }
    hashes.whole = false;
    take_answered(items, places, answer);
}
