//! Removals from the list, and the same from a `Vec`.

use outcome::Memory;
use std::alloc::Global;
use std::test::*;
use tiered_vec::TieredVec;

/// Takes out the element at a place, if one is there.
fn take(list: &mut TieredVec<usize>, place: usize) {
    if place < list.len() {
        list.remove(place);
    }
}

fn take_plainly(list: &mut Vec<usize>, place: usize) {
    if place < list.len() {
        list.remove(place);
    }
}

fn are_equal(list: &TieredVec<usize>, plain: &Vec<usize>) -> bool {
    let same = (0..plain.len()).all(|k| list.get(k) == plain.get(k));
    same && list.len() == plain.len() && list.get(plain.len()).is_none()
}

/// Puts the numbers up to a count into a list, in order, and into a `Vec`.
fn fill(list: &mut TieredVec<usize>, plain: &mut Vec<usize>, count: usize) -> Result<(), Memory> {
    for k in 0..count {
        list.reserve(1)?;
        let end = list.len();
        list.insert(end, k);
        plain.push(k)?;
    }
    Ok(())
}

/// Whether a list of so many elements and a `Vec` with the same are equal after removals at places that are so far apart.
fn stay_equal(alloc: Global, count: usize, removals: usize, step: usize) -> Result<bool, Memory> {
    let mut list = TieredVec::new(alloc);
    let mut plain = Vec::new(alloc);
    fill(&mut list, &mut plain, count)?;
    for k in 0..removals {
        let place = k.wrapping_mul(step);
        take(&mut list, place);
        take_plainly(&mut plain, place);
    }
    Ok(are_equal(&list, &plain))
}

#[test]
fn removals_are_those_of_a_vec(rt: HostRuntime) -> Result<(), Fail> {
    let rows = [
        (0, 1, 0),
        (1, 2, 0),
        (1_024, 3, 1_023),
        (1_025, 2, 0),
        (1_025, 2, 1_024),
        (2_048, 1_030, 0),
        (3_000, 9, 300),
        (3_000, 3_000, 1),
    ];
    for (count, removals, step) in rows {
        assert!(rt;
            stay_equal(rt.alloc(), count, removals, step)?,
            "{count} {removals} {step}"
        );
    }
    Ok(())
}
