//! Marks: where the hash of an entry stands. They are sorted by the first eight bytes of their hashes, and a search reads nothing else.

ghost use Rattle.std.specs.Prelude.{◌≡◌, ◌↔◌, ◌⊎◌, ◌+◌, ◌<◌, ◌≤◌, ℕ, false, length, slice_index_or, true};
ghost use Rattle.std.specs.List.{Contains, remove};
ghost use Rattle.std.specs.List.Sorted.{IsPartitionPoint};
ghost use Rattle.node_tables.specs.declared.mark.Mark.{Mark as TheMark};
ghost use Rattle.node_tables.specs.Hashed.{DoNotFall, front_of};
ghost use Rattle.node_tables.specs.within.Bringing.{side};
ghost use Rattle.node_tables.specs.within.Marking.{is_under, is_within};

use crate::edge::{edge_at, side};
use log_chain::Hash;
use std::cmp::Ordering;
use std::ops::Range;
use tiered_vec::{Probe, TieredVec};

/// Where the hash of an entry stands: at a position of the item at a place.
#[derive(Clone, Copy, Debug, Drop)]
pub struct Mark {
    /// The first eight bytes of the hash.
    pub front: u64,
    /// The place of the item.
    pub item: u32,
    /// The position of the entry in the item, counted from 0.
    pub position: u32,
}

/// Returns the first eight bytes of a hash.
pub(crate) fn front_of(hash: Hash) -> u64
    ensures { result ≡ front_of hash }
{
    let h = hash.0;
    u64::from_be_bytes([h[0], h[1], h[2], h[3], h[4], h[5], h[6], h[7]])
}

fn is_under(mark: &Mark, front: u64) -> bool
    ensures { result ≡ is_under front mark.now }
{
    mark.front < front
}

fn is_within(mark: &Mark, front: u64) -> bool
    ensures { result ≡ is_within front mark.now }
{
    mark.front <= front
}

/// A search for the edge of the marks whose fronts are below this one.
#[derive(Clone, Copy)]
struct Under {
    front: u64,
}

impl Probe<Mark> for Under {
    ghost order = { λ s m. side (is_under s.front m) };

    fn compare(&self, mark: &Mark) -> Ordering {
        side(is_under(mark, self.front))
    }
}

/// A search for the edge of the marks whose fronts are at most this one.
#[derive(Clone, Copy)]
struct Within {
    front: u64,
}

impl Probe<Mark> for Within {
    ghost order = { λ s m. side (is_within s.front m) };

    fn compare(&self, mark: &Mark) -> Ordering {
        side(is_within(mark, self.front))
    }
}

/// Returns the place of the first mark whose front is not below this one.
fn first_from(marks: &TieredVec<Mark>, front: u64) -> usize
    requires { DoNotFall marks.now.items }
    ensures inside { result ≤ length marks.now.items }
    ensures edge { IsPartitionPoint (λ m. is_under front m ≡ true) (λ m. is_under front m ≡ false) marks.now.items result }
{
    edge_at(marks.search(&Under { front }))
}

/// Returns the place behind the marks whose fronts are at most this one.
fn behind(marks: &TieredVec<Mark>, front: u64) -> usize
    requires { DoNotFall marks.now.items }
    ensures inside { result ≤ length marks.now.items }
    ensures edge { IsPartitionPoint (λ m. is_within front m ≡ true) (λ m. is_within front m ≡ false) marks.now.items result }
{
    edge_at(marks.search(&Within { front }))
}

/// Returns where the marks with this front stand. They seldom have more than one hash.
pub(crate) fn near(marks: &TieredVec<Mark>, front: u64) -> Range<usize>
    requires { DoNotFall marks.now.items }
    ensures inside { result.end ≤ length marks.now.items }
    ensures around { (k : ℕ) (d : TheMark) → k < length marks.now.items → (slice_index_or marks.now.items k d).front ≡ front → (result.start ≤ k) × (k < result.end) }
{
    let start = first_from(marks, front);
    let end = behind(marks, front);
    start..end
}

/// Puts a mark behind those with its front. There is room for it.
pub(crate) fn put(marks: &mut TieredVec<Mark>, mark: Mark)
    requires order { DoNotFall marks.old.items }
    requires room { 1 ≤ marks.old.room }
    ensures order { DoNotFall marks.new.items }
    ensures members { (m : TheMark) → Contains marks.new.items m ↔ (Contains marks.old.items m ⊎ (m ≡ mark)) }
{
    let place = behind(marks, mark.front);
    marks.insert(place, mark);
}

/// Takes away the mark at a place.
pub(crate) fn take_away(marks: &mut TieredVec<Mark>, place: usize)
    requires order { DoNotFall marks.old.items }
    requires inside { place < length marks.old.items }
    ensures items { marks.new.items ≡ remove marks.old.items place }
    ensures order { DoNotFall marks.new.items }
    ensures fewer { (m : TheMark) → Contains marks.new.items m → Contains marks.old.items m }
    ensures others { (m d : TheMark) → Contains marks.old.items m → Contains marks.new.items m ⊎ (m ≡ slice_index_or marks.old.items place d) }
    ensures room { marks.new.room ≡ marks.old.room + 1 }
{
    marks.remove(place);
}

/// Puts a mark behind those with its front. It returns `false` if there is no memory for it.
pub(crate) fn put_where_room(marks: &mut TieredVec<Mark>, mark: Mark) -> bool
    requires { DoNotFall marks.old.items }
    ensures order { DoNotFall marks.new.items }
    ensures still { (m : TheMark) → Contains marks.old.items m → Contains marks.new.items m }
    ensures members { result ≡ true → (m : TheMark) → Contains marks.new.items m ↔ (Contains marks.old.items m ⊎ (m ≡ mark)) }
{
    let Ok(()) = marks.reserve(1) else {
        return false;
    };
    put(marks, mark);
    true
}
