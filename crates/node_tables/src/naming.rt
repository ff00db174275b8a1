//! Namings: which hashes open audit challenges name. They are sorted by the first eight bytes of the hash and of the other hash that the
//! challenge names. A search reads nothing else.

ghost use Rattle.std.specs.Prelude.{◌≡◌, ◌↔◌, ◌⊎◌, ◌+◌, ◌<◌, ◌≤◌, ◌≢◌, ℕ, false, length, slice_index_or, true};
ghost use Rattle.std.specs.List.{Contains, remove};
ghost use Rattle.std.specs.List.Sorted.{IsPartitionPoint};
ghost use Rattle.std.specs.Ordering.{nat_cmp, ordering_then};
ghost use Rattle.node_tables.specs.declared.naming.Naming.{Naming as TheNaming};
ghost use Rattle.node_tables.specs.Hashed.{StandByPairs};
ghost use Rattle.node_tables.specs.within.Bringing.{side};
ghost use Rattle.node_tables.specs.within.Named.{IsOf, is_less, is_most, stands_before, stands_up_to};

use crate::edge::{edge_at, side};
use std::cmp::Ordering;
use std::ops::Range;
use tiered_vec::{Probe, TieredVec};

/// A hash that an open audit challenge names, with the other hash that it names.
#[derive(Clone, Copy, Debug, Drop)]
pub struct Naming {
    /// The first eight bytes of the hash.
    pub front: u64,
    /// The first eight bytes of the other hash. If the challenge names only one, this is the hash before a log's first entry.
    pub other: u64,
    /// The place of the challenge.
    pub item: u32,
}

/// What is looked for: the namings of a hash, or only those with one other hash. Each hash is given by its first eight bytes.
#[derive(Clone, Copy, Debug)]
pub(crate) struct Fronts {
    pub(crate) front: u64,
    pub(crate) other: Option<u64>,
}

fn is_less(number: u64, other: Option<u64>) -> bool
    ensures { result ≡ is_less number other }
{
    match other {
        None => false,
        Some(other) => number < other,
    }
}

fn is_most(number: u64, other: Option<u64>) -> bool
    ensures { result ≡ is_most number other }
{
    match other {
        None => true,
        Some(other) => number <= other,
    }
}

fn stands_before(naming: &Naming, fronts: Fronts) -> bool
    ensures { result ≡ stands_before fronts naming.now }
{
    if naming.front == fronts.front {
        return is_less(naming.other, fronts.other);
    }
    naming.front < fronts.front
}

fn stands_up_to(naming: &Naming, fronts: Fronts) -> bool
    ensures { result ≡ stands_up_to fronts naming.now }
{
    if naming.front == fronts.front {
        return is_most(naming.other, fronts.other);
    }
    naming.front < fronts.front
}

/// A search for the edge of the namings before what is looked for.
#[derive(Clone, Copy)]
struct Before {
    fronts: Fronts,
}

impl Probe<Naming> for Before {
    ghost order = { λ s m. side (stands_before s.fronts m) };

    fn compare(&self, naming: &Naming) -> Ordering {
        side(stands_before(naming, self.fronts))
    }
}

/// A search for the edge of the namings that do not stand behind what is looked for.
#[derive(Clone, Copy)]
struct UpTo {
    fronts: Fronts,
}

impl Probe<Naming> for UpTo {
    ghost order = { λ s m. side (stands_up_to s.fronts m) };

    fn compare(&self, naming: &Naming) -> Ordering {
        side(stands_up_to(naming, self.fronts))
    }
}

/// Returns the place of the first naming that does not stand before what is looked for.
fn first_of(namings: &TieredVec<Naming>, fronts: Fronts) -> usize
    requires { StandByPairs namings.now.items }
    ensures inside { result ≤ length namings.now.items }
    ensures edge { IsPartitionPoint (λ m. stands_before fronts m ≡ true) (λ m. stands_before fronts m ≡ false) namings.now.items result }
{
    edge_at(namings.search(&Before { fronts }))
}

/// Returns the place of the first naming that stands behind what is looked for, or the end.
fn behind(namings: &TieredVec<Naming>, fronts: Fronts) -> usize
    requires { StandByPairs namings.now.items }
    ensures inside { result ≤ length namings.now.items }
    ensures edge { IsPartitionPoint (λ m. stands_up_to fronts m ≡ true) (λ m. stands_up_to fronts m ≡ false) namings.now.items result }
{
    edge_at(namings.search(&UpTo { fronts }))
}

/// Returns where the namings stand that are looked for.
pub(crate) fn places_of(namings: &TieredVec<Naming>, fronts: Fronts) -> Range<usize>
    requires { StandByPairs namings.now.items }
    ensures inside { result.end ≤ length namings.now.items }
    ensures around { (k : ℕ) (d : TheNaming) → k < length namings.now.items → IsOf fronts (slice_index_or namings.now.items k d) → (result.start ≤ k) × (k < result.end) }
{
    let start = first_of(namings, fronts);
    let end = behind(namings, fronts);
    start..end
}

/// Puts a naming behind those with its two hashes. There is room for it.
fn put(namings: &mut TieredVec<Naming>, naming: Naming)
    requires order { StandByPairs namings.old.items }
    requires room { 1 ≤ namings.old.room }
    ensures order { StandByPairs namings.new.items }
    ensures members { (m : TheNaming) → Contains namings.new.items m ↔ (Contains namings.old.items m ⊎ (m ≡ naming)) }
{
    let fronts = Fronts {
        front: naming.front,
        other: Some(naming.other),
    };
    let place = behind(namings, fronts);
    namings.insert(place, naming);
}

/// Puts a naming behind those with its two hashes. It returns `false` if there is no memory for it.
pub(crate) fn put_where_room(namings: &mut TieredVec<Naming>, naming: Naming) -> bool
    requires { StandByPairs namings.old.items }
    ensures order { StandByPairs namings.new.items }
    ensures still { (m : TheNaming) → Contains namings.old.items m → Contains namings.new.items m }
    ensures members { result ≡ true → (m : TheNaming) → Contains namings.new.items m ↔ (Contains namings.old.items m ⊎ (m ≡ naming)) }
{
    let Ok(()) = namings.reserve(1) else {
        return false;
    };
    put(namings, naming);
    true
}

/// Takes away the naming at a place.
pub(crate) fn take_away(namings: &mut TieredVec<Naming>, place: usize)
    requires order { StandByPairs namings.old.items }
    requires inside { place < length namings.old.items }
    ensures items { namings.new.items ≡ remove namings.old.items place }
    ensures order { StandByPairs namings.new.items }
    ensures fewer { (m : TheNaming) → Contains namings.new.items m → Contains namings.old.items m }
    ensures others { (m d : TheNaming) → Contains namings.old.items m → Contains namings.new.items m ⊎ (m ≡ slice_index_or namings.old.items place d) }
{
    namings.remove(place);
}

/// A search for a naming among those with its two hashes, which stand by their challenges.
#[derive(Clone, Copy)]
struct Itself {
    naming: Naming,
}

impl Probe<Naming> for Itself {
    ghost order = { λ s m. ordering_then (nat_cmp m.front s.naming.front) (ordering_then (nat_cmp m.other s.naming.other) (nat_cmp m.item s.naming.item)) };

    fn compare(&self, naming: &Naming) -> Ordering {
        naming
            .front
            .cmp(&self.naming.front)
            .then_with(|| naming.other.cmp(&self.naming.other))
            .then_with(|| naming.item.cmp(&self.naming.item))
    }
}

/// Takes a naming away. It looks it up by binary search.
pub(crate) fn unname(namings: &mut TieredVec<Naming>, naming: Naming)
    requires { StandByPairs namings.old.items }
    ensures order { StandByPairs namings.new.items }
    ensures fewer { (m : TheNaming) → Contains namings.new.items m → Contains namings.old.items m }
    ensures others { (m : TheNaming) → Contains namings.old.items m → m.item ≢ naming.item → Contains namings.new.items m }
{
    let Ok(place) = namings.search(&Itself { naming }) else {
        return;
    };
    take_away(namings, place);
}
