//! Which segment holds an entry behind most others.

ghost use Rattle.std.specs.Prelude.{◌≡◌, ◌<◌, IfNone, IfSome, Some, false, length, slice_index_or, true};
ghost use Rattle.std.specs.List.{Contains};
ghost use Rattle.node_tables.specs.declared.mark.Mark.{Mark as TheMark};
ghost use Rattle.node_tables.specs.Hashed.{AreHolders, link_at};
ghost use Rattle.node_tables.specs.within.Marking.{HasNext, IsNext, IsPut, has_hash};

use crate::mark::{Mark, front_of, near, put, put_where_room, take_away};
use authenticators::NodeId;
use kept_items::{KeptItem, Link};
use log_chain::{Hash, base_hash};
use tiered_vec::TieredVec;

/// What became of an entry that came.
#[derive(Clone, Copy, Debug, PartialEq, Eq)]
pub(crate) enum Held {
    /// Its segment holds it behind more entries than any did before. Another segment holds it behind all of these, save so many of the
    /// first.
    Raised(u32),
    /// Another segment holds it behind as many entries.
    Known,
    /// Its hash does not distinguish it, it stands twice in its segment, or memory ran out.
    Lost,
}

/// The entry at a position of the item at a place.
pub(crate) fn link_at<P>(items: &[KeptItem<P>], mark: Mark) -> Option<Link>
    ensures { result ≡ link_at items.now mark.item mark.position }
{
    match items.get(mark.item as usize) {
        None => None,
        Some(kept) => kept.link(mark.position),
    }
}

fn has_hash<P>(items: &[KeptItem<P>], mark: Mark, hash: Hash) -> bool
    ensures { result ≡ has_hash (link_at items.now mark.item mark.position) hash }
{
    match link_at(items, mark) {
        None => false,
        Some(link) => link.hash == hash,
    }
}

/// Whether the entry at the mark is this one.
fn is_at<P>(items: &[KeptItem<P>], mark: Mark, link: &Link) -> bool
    ensures { result ≡ true → link_at items.now mark.item mark.position ≡ Some link.now }
{
    match link_at(items, mark) {
        None => false,
        Some(at) => at.prev == link.prev && at.seq == link.seq && at.hash == link.hash,
    }
}

fn has_hash_at<P>(items: &[KeptItem<P>], holders: &TieredVec<Mark>, at: usize, hash: Hash) -> bool
    ensures { (d : TheMark) → at < length holders.now.items → result ≡ has_hash (link_at items.now (slice_index_or holders.now.items at d).item (slice_index_or holders.now.items at d).position) hash }
{
    match holders.get(at) {
        None => false,
        Some(mark) => has_hash(items, *mark, hash),
    }
}

/// Where a holder of the hash stands.
fn place_of<P>(
    items: &[KeptItem<P>],
    node: NodeId,
    holders: &TieredVec<Mark>,
    mark: Mark,
    hash: Hash,
) -> Option<usize>
    requires { AreHolders items.now node mark.item mark.position holders.now.items }
    ensures none { IfNone result ((m : TheMark) → Contains holders.now.items m → has_hash (link_at items.now m.item m.position) hash ≡ false) }
    ensures some { IfSome result (λ at. at < length holders.now.items) }
{
    let near = near(holders, front_of(hash));
    for at in near.start..near.end {
        if has_hash_at(items, holders, at, hash) {
            return Some(at);
        }
    }
    None
}

/// Puts the entry at a mark among the holders. None of them has its hash.
fn put_new<P>(
    items: &[KeptItem<P>],
    node: NodeId,
    holders: &mut TieredVec<Mark>,
    mark: Mark,
    link: &Link,
) -> Held
    requires held { AreHolders items.now node mark.item mark.position holders.old.items }
    requires next { IsNext items.now node mark link.now }
    requires new { (m : TheMark) → Contains holders.old.items m → has_hash (link_at items.now m.item m.position) link.now.hash ≡ false }
    ensures { IsPut items.now node mark link.now holders.new.items result }
{
    let Some(entries) = mark.position.checked_add(1) else {
        return Held::Lost;
    };
    if put_where_room(holders, mark) {
        Held::Raised(entries)
    } else {
        Held::Lost
    }
}

/// Puts the entry at a mark among the holders. The holder at a place has its hash.
fn put_over<P>(
    items: &[KeptItem<P>],
    node: NodeId,
    holders: &mut TieredVec<Mark>,
    at: usize,
    mark: Mark,
    link: &Link,
) -> Held
    requires held { AreHolders items.now node mark.item mark.position holders.old.items }
    requires next { IsNext items.now node mark link.now }
    requires inside { at < length holders.old.items }
    ensures { IsPut items.now node mark link.now holders.new.items result }
{
    let Some(held) = holders.get(at) else {
        return Held::Lost;
    };
    let old = *held;
    if !is_at(items, old, link) {
        return Held::Lost;
    }
    if old.position >= mark.position {
        return Held::Known;
    }
    if old.item == mark.item {
        return Held::Lost;
    }
    take_away(holders, at);
    put(holders, mark);
    Held::Raised(mark.position - old.position)
}

/// Puts the entry at a mark among the holders. It comes behind the other entries of its segment.
pub(crate) fn hold<P>(
    items: &[KeptItem<P>],
    node: NodeId,
    holders: &mut TieredVec<Mark>,
    mark: Mark,
    link: &Link,
) -> Held
    requires held { AreHolders items.now node mark.item mark.position holders.old.items }
    requires next { HasNext items.now node mark link.now }
    ensures { IsPut items.now node mark link.now holders.new.items result }
{
    if link.hash == base_hash() {
        return Held::Lost;
    }
    match place_of(items, node, holders, mark, link.hash) {
        None => put_new(items, node, holders, mark, link),
        Some(at) => put_over(items, node, holders, at, mark, link),
    }
}
