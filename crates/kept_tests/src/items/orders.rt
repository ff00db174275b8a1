//! The order of kept items, their digests and their container, beside those of the items.

use crate::items::keeping::{Kept, keep_all};
use authenticators::NodeId;
use containers::write_all;
use evidence_item::Item;
use item_digests::digest_of;
use item_forms::Group;
use kept_items::KeptItem;
use messages::Message;
use ref_programs::Tally;
use std::alloc::Global;
use std::test::*;

/// How many of the items the item stands beside as its kept form does, beside those and their kept forms.
fn agreeing(kept: &Kept, one: &KeptItem<Tally>, first: &Item) -> usize {
    let mut count = 0usize;
    for (other, second) in kept.kept.iter().zip(&kept.items) {
        let order = first.cmp(second);
        if one.compare(second) == order && one.compare_kept(other) == order {
            count = count.wrapping_add(1);
        }
    }
    count
}

/// The same of all items.
fn all_agreeing(kept: &Kept) -> usize {
    let mut count = 0usize;
    for (one, first) in kept.kept.iter().zip(&kept.items) {
        count = count.wrapping_add(agreeing(kept, one, first));
    }
    count
}

fn count_agreeing(alloc: Global) -> Result<usize, Fail> {
    let kept = keep_all(alloc)?;
    Ok(all_agreeing(&kept))
}

#[test]
fn kept_items_stand_as_items_do(rt: HostRuntime) -> Result<(), Fail> {
    assert!(rt; count_agreeing(rt.alloc())? == 49);
    Ok(())
}

fn agrees(one: &KeptItem<Tally>, item: &Item, group: &Group<'_>) -> bool {
    one.compare_group(group) == item.cmp_group(group)
}

/// In how many of five groups the item stands as its kept form does.
fn agreeing_groups(message: &Message, one: &KeptItem<Tally>, item: &Item) -> usize {
    let agreeing = [
        agrees(one, item, &Group::Segments(NodeId(2))),
        agrees(one, item, &Group::Segments(NodeId(3))),
        agrees(one, item, &Group::AuditChallenges(NodeId(2))),
        agrees(one, item, &Group::SendChallenges),
        agrees(one, item, &Group::Acknowledgements(message)),
    ];
    agreeing.iter().filter(|agrees| **agrees).count()
}

/// The same of all items; and how many have the same digest.
fn tell(kept: &Kept) -> (usize, usize) {
    let mut groups = 0usize;
    let mut digests = 0usize;
    for (one, item) in kept.kept.iter().zip(&kept.items) {
        groups = groups.wrapping_add(agreeing_groups(&kept.world.message, one, item));
        if one.digest() == digest_of(item) {
            digests = digests.wrapping_add(1);
        }
    }
    (groups, digests)
}

fn groups_and_digests(alloc: Global) -> Result<(usize, usize), Fail> {
    let kept = keep_all(alloc)?;
    Ok(tell(&kept))
}

#[test]
fn kept_items_have_the_groups_and_digests_of_items(rt: HostRuntime) -> Result<(), Fail> {
    assert!(rt; groups_and_digests(rt.alloc())? == (35, 7));
    Ok(())
}

/// Whether the container of the kept items is that of the items; how many bytes it has.
fn container(alloc: Global) -> Result<(bool, usize), Fail> {
    let kept = keep_all(alloc)?;
    let one = write_all(alloc, *b"SAMPLES1", &kept.kept)?;
    let other = write_all(alloc, *b"SAMPLES1", &kept.items)?;
    Ok((one == other, one.len() / 1_000))
}

#[test]
fn kept_items_are_written_as_items_are(rt: HostRuntime) -> Result<(), Fail> {
    assert!(rt; container(rt.alloc())?.0);
    Ok(())
}
