//! What is kept is given back, copied and shared as it was.

use crate::items::keeping::{Kept, keep, keep_all};
use crate::items::seven_items::{SAMPLES, Sample, World, hash_in_log, log_of, make_world};
use evidence_item::{Checked, Findings};
use kept_entries::EntryPool;
use kept_items::KeptItem;
use log_chain::entry_hash;
use ref_programs::Tally;
use std::alloc::Global;
use std::sync::Arc;
use std::test::*;

fn same_findings(a: Option<&Findings>, b: Option<&Findings>) -> bool {
    match (a, b) {
        (None, None) => true,
        (Some(Findings::Segment(a)), Some(Findings::Segment(b))) => {
            a.hashes.as_slice() == b.hashes.as_slice() && a.quotes.as_slice() == b.quotes.as_slice()
        }
        (Some(Findings::Send(a)), Some(Findings::Send(b))) => a == b,
        (
            Some(Findings::Ack { sent, received }),
            Some(
                Findings::Ack {
                    sent: other,
                    received: last,
                },
            ),
        ) => sent == other && received == last,
        _ => false,
    }
}

fn same(a: &Checked<Tally>, b: &Checked<Tally>) -> bool {
    a.item() == b.item() && a.verdict() == b.verdict() && same_findings(a.findings(), b.findings())
}

/// Whether the sample is given back as it was, and is the same as a copy of what is kept.
fn given_back(alloc: Global, world: &mut World, sample: Sample) -> Result<bool, Fail> {
    let item = world.item(alloc, sample)?;
    let before = item.try_clone(alloc)?;
    let mut pool = EntryPool::new(alloc);
    let keeping = keep(alloc, &mut pool, &world.directory, item)?;
    let copy = keeping.item().to_checked(alloc)?;
    let back = Box::into_inner(keeping).give_back();
    Ok(*back.item() == before && same(&copy, &back))
}

#[test]
fn what_is_kept_is_given_back(rt: HostRuntime) -> Result<(), Fail> {
    let mut world = make_world(rt.alloc())?;
    for sample in SAMPLES {
        assert!(rt; given_back(rt.alloc(), &mut world, sample)?);
    }
    Ok(())
}

/// Whether a copy for another pool is the same.
fn is_shared(alloc: Global, pool: &mut EntryPool, kept: &KeptItem<Tally>) -> Result<bool, Fail> {
    let copy = kept.share(alloc, pool)?;
    let one = kept.to_checked(alloc)?;
    let other = copy.to_checked(alloc)?;
    Ok(same(&one, &other))
}

/// How many samples are the same with another pool.
fn count_shared(alloc: Global) -> Result<usize, Fail> {
    let kept = keep_all(alloc)?;
    let mut pool = EntryPool::new(alloc);
    let mut count = 0usize;
    for one in &kept.kept {
        if is_shared(alloc, &mut pool, one)? {
            count = count.wrapping_add(1);
        }
    }
    Ok(count)
}

#[test]
fn what_is_kept_is_shared_with_another_pool(rt: HostRuntime) -> Result<(), Fail> {
    assert!(rt; count_shared(rt.alloc())? == 7);
    Ok(())
}

/// How many own the entry at a place of node 2's log, with the pool and the one that asks.
fn owners(alloc: Global, kept: &mut Kept, place: usize) -> Result<usize, Fail> {
    let entries = log_of(alloc, &kept.world.message, 3)?;
    let Some(entry) = entries.get(place) else {
        return Ok(0);
    };
    let prev = hash_in_log(alloc, &kept.world.message, place)?;
    let hash = entry_hash(prev, entry);
    let quoted = if place == 1 {
        Some(kept.world.message.signed_hash())
    } else {
        None
    };
    let handle = kept.pool.share(alloc, prev, entry, hash, quoted)?;
    Ok(Arc::strong_count(&handle))
}

/// The same of each entry of it.
fn all_owners(alloc: Global) -> Result<[usize; 3], Fail> {
    let mut kept = keep_all(alloc)?;
    Ok([
        owners(alloc, &mut kept, 0)?,
        owners(alloc, &mut kept, 1)?,
        owners(alloc, &mut kept, 2)?,
    ])
}

#[test]
fn segments_that_overlap_share_their_entries(rt: HostRuntime) -> Result<(), Fail> {
    assert!(rt; all_owners(rt.alloc())? == [5, 4, 3]);
    Ok(())
}
