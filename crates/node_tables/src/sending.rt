//! Send challenges with one sender, receiver and number. They stand together among challenges, and are answered together.

ghost use Rattle.std.specs.Prelude.{◌≡◌, ◌≤◌, length, not, slice_get, true, false};
ghost use Rattle.std.specs.List.{filter, remove_range};
ghost use Rattle.std.specs.List.Sorted.{IsPartitionPoint};
ghost use Rattle.node_tables.specs.Places.{AscendBySpelling};
ghost use Rattle.node_tables.specs.within.Bringing.{side};
ghost use Rattle.node_tables.specs.within.Sendings.{is_at, is_before, is_up_to, message_cmp, sending_cmp, sending_order_by};

use crate::edge::{edge_at, side};
use authenticators::NodeId;
use evidence_item::{Form, Message};
use kept_items::KeptItem;
use std::cmp::Ordering;
use std::ops::Range;
use tiered_vec::{Probe, TieredVec};

/// What tells one message from another.
#[derive(Clone, Copy, Debug, Drop)]
pub struct Sending {
    /// The sender.
    pub from: NodeId,
    /// The receiver.
    pub to: NodeId,
    /// The number in the sender's log.
    pub seq: u64,
}

fn compare_message(message: &Message, sending: &Sending) -> Ordering
    ensures { result ≡ message_cmp sending.now message.now }
{
    message
        .from
        .0
        .cmp(&sending.from.0)
        .then_with(|| message.to.0.cmp(&sending.to.0))
        .then_with(|| message.seq.cmp(&sending.seq))
}

/// Returns whether an item stands before the send challenges of the sending, among them, or behind them.
fn compare_sending<P>(kept: &KeptItem<P>, sending: &Sending) -> Ordering
    ensures { result ≡ sending_cmp sending.now kept.now.item.fields }
{
    let Some(form) = kept.form() else {
        return Ordering::Less;
    };
    match form {
        Form::Auth(_) | Form::Segment(_) | Form::Audit(_) => Ordering::Less,
        Form::Send(message) => compare_message(message, sending),
        Form::Ack(_) => Ordering::Greater,
    }
}

/// Returns the same for the item at a place.
fn compare_at<P>(items: &[KeptItem<P>], place: u32, sending: &Sending) -> Ordering
    ensures { result ≡ sending_order_by sending.now (slice_get items.now place) }
{
    match items.get(place as usize) {
        None => Ordering::Greater,
        Some(kept) => compare_sending(kept, sending),
    }
}

fn is_before<P>(items: &[KeptItem<P>], place: u32, sending: &Sending) -> bool
    ensures { result ≡ is_before sending.now (slice_get items.now place) }
{
    compare_at(items, place, sending).is_lt()
}

fn is_up_to<P>(items: &[KeptItem<P>], place: u32, sending: &Sending) -> bool
    ensures { result ≡ is_up_to sending.now (slice_get items.now place) }
{
    compare_at(items, place, sending).is_le()
}

/// A search for the edge of the places whose items stand before the send challenges of the sending.
#[derive_where(Clone, Copy)]
struct Before<'a, P> {
    items: &'a [KeptItem<P>],
    sending: &'a Sending,
}

impl<'a, P> Probe<u32> for Before<'a, P> {
    ghost order = { λ s i. side (is_before s.sending.now (slice_get s.items.now i)) };

    fn compare(&self, place: &u32) -> Ordering {
        side(is_before(self.items, *place, self.sending))
    }
}

/// A search for the edge of the places whose items do not stand behind them.
#[derive_where(Clone, Copy)]
struct UpTo<'a, P> {
    items: &'a [KeptItem<P>],
    sending: &'a Sending,
}

impl<'a, P> Probe<u32> for UpTo<'a, P> {
    ghost order = { λ s i. side (is_up_to s.sending.now (slice_get s.items.now i)) };

    fn compare(&self, place: &u32) -> Ordering {
        side(is_up_to(self.items, *place, self.sending))
    }
}

/// Returns the edge of the places whose items stand before the send challenges of the sending.
fn edge_before<P>(items: &[KeptItem<P>], places: &TieredVec<u32>, sending: &Sending) -> usize
    requires { AscendBySpelling items.now places.now.items }
    ensures inside { result ≤ length places.now.items }
    ensures edge { IsPartitionPoint (λ i. is_before sending.now (slice_get items.now i) ≡ true) (λ i. is_before sending.now (slice_get items.now i) ≡ false) places.now.items result }
{
    edge_at(places.search(&Before { items, sending }))
}

/// Returns the edge of the places whose items do not stand behind them.
fn edge_up_to<P>(items: &[KeptItem<P>], places: &TieredVec<u32>, sending: &Sending) -> usize
    requires { AscendBySpelling items.now places.now.items }
    ensures inside { result ≤ length places.now.items }
    ensures edge { IsPartitionPoint (λ i. is_up_to sending.now (slice_get items.now i) ≡ true) (λ i. is_up_to sending.now (slice_get items.now i) ≡ false) places.now.items result }
{
    edge_at(places.search(&UpTo { items, sending }))
}

/// Returns where the send challenges of the sending stand among places that ascend by encoding. It takes binary searches.
fn places_of<P>(items: &[KeptItem<P>], places: &TieredVec<u32>, sending: &Sending) -> Range<usize>
    requires { AscendBySpelling items.now places.now.items }
    ensures order { result.start ≤ result.end }
    ensures inside { result.end ≤ length places.now.items }
    ensures others { remove_range places.now.items result.start result.end ≡ filter (λ i. not (is_at sending.now (slice_get items.now i))) places.now.items }
{
    let start = edge_before(items, places, sending);
    let end = edge_up_to(items, places, sending);
    start..end
}

/// Takes away what stands there, one by one.
pub(crate) fn take_away(places: &mut TieredVec<u32>, near: Range<usize>)
    requires order { near.start ≤ near.end }
    requires inside { near.end ≤ length places.old.items }
    ensures items { places.new.items ≡ remove_range places.old.items near.start near.end }
    ensures room { places.old.room ≤ places.new.room }
{
    let count = near.end - near.start;
    for gone in 0..count {
        places.remove(near.start);
    }
}

/// Takes away the send challenges of the sending.
pub(crate) fn take_sending<P>(items: &[KeptItem<P>], places: &mut TieredVec<u32>, sending: &Sending)
    requires { AscendBySpelling items.now places.old.items }
    ensures items { places.new.items ≡ filter (λ i. not (is_at sending.now (slice_get items.now i))) places.old.items }
    ensures room { places.old.room ≤ places.new.room }
{
    let near = places_of(items, places, sending);
    take_away(places, near);
}
