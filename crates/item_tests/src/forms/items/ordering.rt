//! The order of items: that of their texts, and their places beside a group.

use super::{item, message};
use item_forms::{ByteString, Group, Hash, Item, NodeId};
use std::alloc::Global;
use std::cmp::Ordering;
use std::test::Fail;

fn text(alloc: Global, form: u8, seq: u32) -> Result<Vec<u8>, Fail> {
    Ok(item(alloc, form, seq)?.encode(alloc)?)
}

/// How two texts are ordered, and whether they are equal.
fn order_of_texts(
    alloc: Global,
    one: (u8, u32),
    other: (u8, u32),
) -> Result<(Ordering, bool), Fail> {
    let a = text(alloc, one.0, one.1)?;
    let b = text(alloc, other.0, other.1)?;
    Ok((a.as_slice().cmp(b.as_slice()), a.as_slice() == b.as_slice()))
}

/// How the item stands to the other, and whether they are equal.
fn order_to(alloc: Global, one: &Item, other: (u8, u32)) -> Result<(Ordering, bool), Fail> {
    let other = item(alloc, other.0, other.1)?;
    Ok((one.cmp(&*other), *one == *other))
}

fn order_of_items(
    alloc: Global,
    one: (u8, u32),
    other: (u8, u32),
) -> Result<(Ordering, bool), Fail> {
    let one = item(alloc, one.0, one.1)?;
    order_to(alloc, &one, other)
}

/// Whether two items are ordered as their texts are, and equal as they are.
fn is_ordered(alloc: Global, one: (u8, u32), other: (u8, u32)) -> Result<bool, Fail> {
    Ok(order_of_items(alloc, one, other)? == order_of_texts(alloc, one, other)?)
}

#[test]
fn items_are_ordered_as_their_texts(rt: HostRuntime) -> Result<(), Fail> {
    for one in 1..7 {
        for other in 1..7 {
            assert!(rt;
                is_ordered(rt.alloc(), (one, 5), (other, 5))?,
                "{one} and {other}"
            );
            assert!(rt;
                is_ordered(rt.alloc(), (one, 5), (other, 300))?,
                "{one} and {other}"
            );
        }
    }
    Ok(())
}

/// Where the item of the form stands beside the group.
fn place(alloc: Global, form: u8, group: &Group) -> Result<Ordering, Fail> {
    let item = item(alloc, form, 5)?;
    Ok(item.cmp_group(group))
}

/// The same of each of the six.
fn places_beside(alloc: Global, group: &Group) -> Result<[Ordering; 6], Fail> {
    Ok([
        place(alloc, 1, group)?,
        place(alloc, 2, group)?,
        place(alloc, 3, group)?,
        place(alloc, 4, group)?,
        place(alloc, 5, group)?,
        place(alloc, 6, group)?,
    ])
}

/// The same beside a group, which its tag tells and a node or a message of this number.
fn places(alloc: Global, tag: u8, number: u32) -> Result<[Ordering; 6], Fail> {
    let message = message(alloc, number as u64)?;
    let group = match tag {
        2 => Group::Segments(NodeId(number)),
        3 => Group::AuditChallenges(NodeId(number)),
        4 => Group::SendChallenges,
        _ => Group::Acknowledgements(&message),
    };
    places_beside(alloc, &group)
}

#[test]
fn items_stand_before_in_or_behind_a_group(rt: HostRuntime) -> Result<(), Fail> {
    let (less, equal, greater) = (Ordering::Less, Ordering::Equal, Ordering::Greater);
    for (tag, number, expected) in [
        (2, 1, [less, equal, greater, greater, greater, greater]),
        (3, 1, [less, less, equal, greater, greater, equal]),
        (4, 1, [less, less, less, equal, greater, less]),
        (5, 6, [less, less, less, less, equal, less]),
    ] {
        assert!(rt; places(rt.alloc(), tag, number)? == expected);
    }
    Ok(())
}

#[test]
fn items_stand_before_or_behind_groups_of_other_numbers(rt: HostRuntime) -> Result<(), Fail> {
    let (less, greater) = (Ordering::Less, Ordering::Greater);
    for (tag, number, expected) in [
        (2, 0, [less, greater, greater, greater, greater, greater]),
        (2, 2, [less, less, greater, greater, greater, greater]),
        (5, 5, [less, less, less, less, greater, less]),
        (5, 7, [less; 6]),
    ] {
        assert!(rt; places(rt.alloc(), tag, number)? == expected);
    }
    Ok(())
}

/// Where an acknowledgement of the message of number 6 from node 1 to node 2 stands beside those of a message from, to and with this
/// number whose other fields are others.
fn place_beside(alloc: Global, from: u32, to: u32, seq: u64) -> Result<Ordering, Fail> {
    let mut message = message(alloc, seq)?;
    message.from = NodeId(from);
    message.to = NodeId(to);
    message.prev = Hash([7; 32]);
    message.payload = ByteString::from_slice(alloc, b"other")?;
    place(alloc, 5, &Group::Acknowledgements(&message))
}

#[test]
fn acknowledgements_are_of_a_sender_a_receiver_and_a_number(rt: HostRuntime) -> Result<(), Fail> {
    let (less, equal, greater) = (Ordering::Less, Ordering::Equal, Ordering::Greater);
    for (from, to, seq, expected) in [
        (1, 2, 6, equal),
        (2, 1, 5, less),
        (0, 3, 7, greater),
        (1, 3, 5, less),
        (1, 1, 7, greater),
        (1, 2, 7, less),
        (1, 2, 5, greater),
    ] {
        assert!(rt; place_beside(rt.alloc(), from, to, seq)? == expected);
    }
    Ok(())
}
