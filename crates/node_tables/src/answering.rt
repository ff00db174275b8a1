//! Which challenges are answered.

ghost use Rattle.std.specs.Prelude.{◌≡◌, ◌↔◌, ◌<◌, ◌≤◌, IsTrue, Some, false, length, not, slice_get, true};
ghost use Rattle.std.specs.List.{filter, list_any};
ghost use Rattle.evidence_set.specs.Challenges.{is_against};
ghost use Rattle.kept_evidence.specs.Telling.{is_answered};
ghost use Rattle.node_tables.specs.declared.span.Span.{Span as TheSpan};
ghost use Rattle.node_tables.specs.declared.table.Table.{Table as TheTable};
ghost use Rattle.node_tables.specs.Hashed.{AreAsked};
ghost use Rattle.node_tables.specs.Places.{AscendBySpelling, IsAcknowledged, IsOrder};
ghost use Rattle.node_tables.specs.Steps.{AllTables};
ghost use Rattle.node_tables.specs.within.Placing.{AreOthers, AreStanding, HasAcknowledgement, IsAckAt, answers_at};
ghost use Rattle.node_tables.specs.within.Sendings.{acknowledged, acknowledged_by};

use crate::asking::one_segment_answers;
use crate::order::GroupProbe;
use crate::quoting::is_received;
use crate::sending::{Sending, take_sending};
use crate::span::Span;
use crate::table::Table;
use evidence_item::{Form, Message};
use item_forms::Group;
use kept_items::KeptItem;
use tiered_vec::TieredVec;

/// Whether the item at the one place answers that at the other.
pub(crate) fn answers_at<P>(items: &[KeptItem<P>], challenge: u32, answer: u32) -> bool
    ensures { result ≡ answers_at items.now challenge answer }
{
    let Some(challenge) = items.get(challenge as usize) else {
        return false;
    };
    match items.get(answer as usize) {
        None => false,
        Some(answer) => answer.answers(challenge),
    }
}

/// Returns the sender, the receiver and the number of the message that the item acknowledges, if it acknowledges one.
fn acknowledged<P>(kept: &KeptItem<P>) -> Option<Sending>
    ensures { result ≡ acknowledged kept.now.item.fields }
{
    let Some(form) = kept.form() else {
        return None;
    };
    match form {
        Form::Auth(_) | Form::Segment(_) | Form::Audit(_) | Form::Send(_) => None,
        Form::Ack(ack) => Some(Sending {
            from: ack.message.from,
            to: ack.message.to,
            seq: ack.message.seq,
        }),
    }
}

/// The same of the item at a place.
fn acknowledged_at<P>(items: &[KeptItem<P>], place: u32) -> Option<Sending>
    ensures { result ≡ acknowledged_by (slice_get items.now place) }
{
    match items.get(place as usize) {
        None => None,
        Some(kept) => acknowledged(kept),
    }
}

/// Takes away the challenges that the acknowledgement at a place answers. They are looked up.
pub(crate) fn close_acknowledged<P>(
    items: &[KeptItem<P>],
    unanswered: &mut TieredVec<u32>,
    answer: u32,
)
    requires here { IsAckAt items.now answer }
    requires asked { AscendBySpelling items.now unanswered.old.items }
    ensures items { unanswered.new.items ≡ filter (λ i. not (answers_at items.now i answer)) unanswered.old.items }
    ensures room { unanswered.old.room ≤ unanswered.new.room }
{
    if let Some(sending) = acknowledged_at(items, answer) {
        take_sending(items, unanswered, &sending);
    }
}

/// Whether one of the segments answers the challenge at a place. It looks at all of them.
pub(crate) fn one_answers<P>(items: &[KeptItem<P>], spans: &[Span], challenge: u32) -> bool
    ensures { result ≡ list_any (λ (p : TheSpan). answers_at items.now challenge p.item) spans.now }
{
    for span in spans {
        if answers_at(items, challenge, span.item) {
            return true;
        }
    }
    false
}

/// Whether an item acknowledges a message of this one's sender, receiver and number. It is looked up by binary search.
fn is_acknowledged<P>(items: &[KeptItem<P>], order: &TieredVec<u32>, message: &Message) -> bool
    requires { IsOrder items.now order.now.items }
    ensures { IsTrue result ↔ IsAcknowledged items.now message.now }
{
    let group = Group::Acknowledgements(message);
    let probe = GroupProbe {
        items,
        group: &group,
    };
    order.search(&probe).is_ok()
}

/// Whether the item is a send challenge of which a message is acknowledged.
fn has_acknowledgement<P>(
    items: &[KeptItem<P>],
    order: &TieredVec<u32>,
    challenge: &KeptItem<P>,
) -> bool
    requires { IsOrder items.now order.now.items }
    ensures { IsTrue result ↔ HasAcknowledgement items.now challenge.now.item.fields }
{
    let Some(form) = challenge.form() else {
        return false;
    };
    match form {
        Form::Send(message) => is_acknowledged(items, order, message),
        Form::Auth(_) | Form::Segment(_) | Form::Audit(_) | Form::Ack(_) => false,
    }
}

/// Returns whether some item answers the challenge at a place against the table's node. For a send challenge it looks up an
/// acknowledgement, and then a receipt, which is enough if the sender has a table. For an audit challenge it looks up a segment.
fn is_answered<P>(
    items: &[KeptItem<P>],
    order: &TieredVec<u32>,
    tables: &[Table],
    table: &Table,
    challenge: &KeptItem<P>,
    place: u32,
) -> bool
    requires standing { AreStanding items.now order.now.items tables.now }
    requires asked { AreAsked items.now place table.now }
    requires here { slice_get items.now place ≡ Some challenge.now }
    requires against { is_against table.now.node challenge.now.item.fields ≡ true }
    requires others { AreOthers items.now table.now.node place table.now.spans.items }
    ensures { result ≡ is_answered items.now challenge.now.item.fields }
{
    if has_acknowledgement(items, order, challenge) {
        return true;
    }
    match is_received(items, tables, challenge) {
        Some(received) => received,
        None => one_segment_answers(items, table, challenge, place),
    }
}

/// The same of an item that may be no challenge against the node.
fn is_answered_in<P>(
    items: &[KeptItem<P>],
    order: &TieredVec<u32>,
    tables: &[Table],
    table: &Table,
    kept: &KeptItem<P>,
    place: u32,
) -> bool
    requires standing { AreStanding items.now order.now.items tables.now }
    requires asked { AreAsked items.now place table.now }
    requires here { slice_get items.now place ≡ Some kept.now }
    requires others { AreOthers items.now table.now.node place table.now.spans.items }
    ensures { is_against table.now.node kept.now.item.fields ≡ true → result ≡ is_answered items.now kept.now.item.fields }
{
    if !kept.is_against(table.node) {
        return false;
    }
    is_answered(items, order, tables, table, kept, place)
}

/// The same by the place of the node's table.
pub(crate) fn is_answered_at<P>(
    items: &[KeptItem<P>],
    order: &TieredVec<u32>,
    tables: &[Table],
    i: usize,
    kept: &KeptItem<P>,
    place: u32,
) -> bool
    requires standing { AreStanding items.now order.now.items tables.now }
    requires here { slice_get items.now place ≡ Some kept.now }
    requires asked { AllTables (AreAsked items.now place) tables.now }
    requires others { AllTables (λ t. AreOthers items.now t.node place t.spans.items) tables.now }
    requires inside { i < length tables.now }
    ensures { (t : TheTable) → slice_get tables.now i ≡ Some t → is_against t.node kept.now.item.fields ≡ true → result ≡ is_answered items.now kept.now.item.fields }
{
    is_answered_in(items, order, tables, &tables[i], kept, place)
}
