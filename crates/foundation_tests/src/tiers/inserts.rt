//! Inserts into the list, and the same into a `Vec`.

use outcome::Memory;
use std::alloc::Global;
use std::test::*;
use tiered_vec::TieredVec;

/// Puts an element in at a place, or at the end where the list is not that long.
fn put(list: &mut TieredVec<usize>, place: usize, x: usize) -> Result<(), Memory> {
    list.reserve(1)?;
    let place = place.min(list.len());
    list.insert(place, x);
    Ok(())
}

fn put_plainly(list: &mut Vec<usize>, place: usize, x: usize) -> Result<(), Memory> {
    let place = place.min(list.len());
    list.insert(place, x)?;
    Ok(())
}

fn are_equal(list: &TieredVec<usize>, plain: &Vec<usize>) -> bool {
    let same = (0..plain.len()).all(|k| list.get(k) == plain.get(k));
    same && list.len() == plain.len() && list.get(plain.len()).is_none()
}

/// Puts as many elements into an empty list as are asked for, each at the end, after it made room for all.
fn counted(alloc: Global, count: usize) -> Result<TieredVec<usize>, Memory> {
    let mut list = TieredVec::new(alloc);
    list.reserve(count)?;
    for k in 0..count {
        let end = list.len();
        list.insert(end, k);
    }
    Ok(list)
}

/// Whether a list with so many elements and a `Vec` with the same are equal after inserts at places that are so far apart.
fn stay_equal(alloc: Global, count: usize, inserts: usize, step: usize) -> Result<bool, Memory> {
    let mut list = counted(alloc, count)?;
    let mut plain = Vec::new(alloc);
    for k in 0..count {
        plain.push(k)?;
    }
    for k in 0..inserts {
        let place = k.wrapping_mul(step);
        put(&mut list, place, count)?;
        put_plainly(&mut plain, place, count)?;
    }
    Ok(are_equal(&list, &plain))
}

#[test]
fn inserts_are_those_of_a_vec(rt: HostRuntime) -> Result<(), Fail> {
    let rows = [
        (0, 5, 0),
        (0, 5, usize::MAX),
        (1, 5, 1),
        (1_023, 3, 0),
        (1_024, 2, 1_024),
        (1_024, 3, 500),
        (2_047, 3, 1_023),
        (2_048, 2, usize::MAX),
        (2_048, 9, 300),
    ];
    for (count, inserts, step) in rows {
        assert!(rt;
            stay_equal(rt.alloc(), count, inserts, step)?,
            "{count} {inserts} {step}"
        );
    }
    Ok(())
}

/// More elements than there is room for in tiers of the first size.
const WIDER: usize = 300_000;

/// Where the number of so many goes that comes next, in an order of arrival.
#[derive(Clone, Copy, Debug)]
enum Arrival {
    Ascending,
    Falling,
    /// At the front and at the end in turn.
    InTurn,
}

impl Arrival {
    fn place(self, n: usize, len: usize) -> usize {
        match self {
            Arrival::Ascending => len,
            Arrival::Falling => 0,
            Arrival::InTurn => { if n % 2 == 0 { 0 } else { len } }
        }
    }

    /// The number that stands at a place of so many.
    fn at(self, place: usize, count: usize) -> usize {
        let half = count.div_ceil(2);
        match self {
            Arrival::Ascending => place,
            Arrival::Falling => count.saturating_sub(place).saturating_sub(1),
            Arrival::InTurn => {
                if place < half {
                    half.saturating_sub(place)
                        .saturating_sub(1)
                        .saturating_mul(2)
                } else {
                    place
                        .saturating_sub(half)
                        .saturating_mul(2)
                        .saturating_add(1)
                }
            }
        }
    }
}

/// Half of the elements come before the tiers are made wider, half behind that.
fn arrived(alloc: Global, count: usize, arrival: Arrival) -> Result<TieredVec<usize>, Memory> {
    let mut list = TieredVec::new(alloc);
    for n in 0..count {
        if n == count / 2 {
            list.reserve(WIDER)?;
        }
        let place = arrival.place(n, list.len());
        put(&mut list, place, n)?;
    }
    Ok(list)
}

/// Whether each number stands where it should, once so many have come.
fn arrive_as_told(alloc: Global, count: usize, arrival: Arrival) -> Result<bool, Memory> {
    let list = arrived(alloc, count, arrival)?;
    let there = (0..count).all(|place| list.get(place) == Some(&arrival.at(place, count)));
    Ok(there && list.len() == count)
}

#[test]
fn elements_stand_where_they_were_put_in_wider_tiers_too(rt: HostRuntime) -> Result<(), Fail> {
    for arrival in [Arrival::Ascending, Arrival::Falling, Arrival::InTurn] {
        assert!(rt; arrive_as_told(rt.alloc(), 10_000, arrival)?, "{arrival:?}");
    }
    Ok(())
}
