//! What a search finds.

ghost use Rattle.std.specs.Ordering.{nat_cmp};

use outcome::Memory;
use std::alloc::Global;
use std::cmp::Ordering;
use std::test::*;
use tiered_vec::{Probe, TieredVec};

/// A number that is looked for among ascending ones.
#[derive(Drop)]
struct Sought(usize);

impl Probe<usize> for Sought {
    ghost order = { λ s x. nat_cmp x s.0 };

    fn compare(&self, x: &usize) -> Ordering {
        x.cmp(&self.0)
    }
}

/// The odd numbers, so many of them from 1 on.
fn odd_numbers(alloc: Global, count: usize) -> Result<TieredVec<usize>, Memory> {
    let mut list = TieredVec::new(alloc);
    for k in 0..count {
        list.reserve(1)?;
        let end = list.len();
        list.insert(end, k.wrapping_mul(2).wrapping_add(1));
    }
    Ok(list)
}

#[test]
fn a_search_finds_the_place(rt: HostRuntime) -> Result<(), Fail> {
    let none = odd_numbers(rt.alloc(), 0)?;
    assert!(rt; none.search(&Sought(1)) == Err(0));
    let list = odd_numbers(rt.alloc(), 1_500)?;
    let rows = [
        (0, Err(0)),
        (1, Ok(0)),
        (2, Err(1)),
        (3, Ok(1)),
        (2_047, Ok(1_023)),
        (2_048, Err(1_024)),
        (2_049, Ok(1_024)),
        (2_999, Ok(1_499)),
        (3_000, Err(1_500)),
    ];
    for (sought, want) in rows {
        assert!(rt; list.search(&Sought(sought)) == want, "{sought}");
    }
    Ok(())
}
