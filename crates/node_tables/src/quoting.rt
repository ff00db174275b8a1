//! Receipts: of which messages of a node segments have any.

ghost use Rattle.std.specs.Prelude.{◌≡◌, ◌↔◌, IfSome, IsTrue, Some, length};
ghost use Rattle.std.specs.List.{Contains};
ghost use Rattle.std.specs.List.Sorted.{IsBinarySearchResult, IsSearchInRange};
ghost use Rattle.authenticators.specs.declared.authenticator.Authenticator.{Authenticator as Statement};
ghost use Rattle.node_tables.specs.Indexed.{AreReceipts};
ghost use Rattle.node_tables.specs.Receipts.{AscendBySending, by_sending, receipt_at, receipt_in};
ghost use Rattle.node_tables.specs.Rooms.{KeepsPromises};
ghost use Rattle.node_tables.specs.Rows.{stated_at};
ghost use Rattle.node_tables.specs.Steps.{AllTables, AscendByNode};
ghost use Rattle.node_tables.specs.Tables.{IsTold};
ghost use Rattle.node_tables.specs.within.Bringing.{HaveCome, ReceiptStep};
ghost use Rattle.node_tables.specs.within.Placing.{IsReceiptTold, sent};

use crate::closing::received;
use crate::receipt_list::ReceiptList;
use crate::row::Row;
use crate::sending::Sending;
use crate::table::Table;
use crate::tables::place_of;
use evidence_item::Form;
use kept_items::KeptItem;
use std::cmp::Ordering;
use tiered_vec::{Probe, TieredVec};

/// Compares two messages by their senders, their receivers and their numbers.
fn compare(one: &Sending, other: &Sending) -> Ordering
    ensures { result ≡ by_sending one.now other.now }
{
    one.from
        .0
        .cmp(&other.from.0)
        .then_with(|| one.to.0.cmp(&other.to.0))
        .then_with(|| one.seq.cmp(&other.seq))
}

/// A message that is looked for among receipts.
#[derive(Clone, Copy)]
struct Sought<'a> {
    sending: &'a Sending,
}

impl<'a> Probe<Sending> for Sought<'a> {
    ghost order = { λ s x. by_sending x s.sending.now };

    fn compare(&self, other: &Sending) -> Ordering {
        compare(other, self.sending)
    }
}

/// Returns where the message stands among receipts, or would stand.
fn gap_among(receipts: &TieredVec<Sending>, sending: &Sending) -> Result<usize, usize>
    ensures bound { IsSearchInRange result (length receipts.now.items) }
    ensures position { IsBinarySearchResult (λ x. by_sending x sending.now) receipts.now.items result }
{
    receipts.search(&Sought { sending })
}

/// Returns whether the message is among receipts. It takes a binary search.
fn is_among(receipts: &TieredVec<Sending>, sending: &Sending) -> bool
    requires { AscendBySending receipts.now.items }
    ensures { IsTrue result ↔ Contains receipts.now.items sending.now }
{
    gap_among(receipts, sending).is_ok()
}

/// Puts a message among receipts, if it is not there yet, and takes back what was promised of it. If there is no memory for it, receipts
/// are no longer kept.
fn put(receipts: &mut ReceiptList, sending: Sending)
    requires { AscendBySending receipts.old.sendings.items }
    ensures ascending { AscendBySending receipts.new.sendings.items }
    ensures come { HaveCome receipts.old receipts.new (λ s. s ≡ sending) }
{
    receipts.release(1);
    let Err(place) = gap_among(&receipts.sendings, &sending) else {
        return;
    };
    let Ok(()) = receipts.sendings.reserve(1) else {
        receipts.whole = false;
        return;
    };
    receipts.sendings.insert(place, sending);
}

/// Returns the message of which the entry at a position of a segment is the receipt.
fn receipt<P>(kept: &KeptItem<P>, position: u32) -> Option<Sending>
    ensures { result ≡ receipt_in kept.now.item.fields kept.now.findings position }
{
    if position == 0 || kept.form().is_some() {
        return None;
    }
    match kept.subject() {
        None => None,
        Some(node) => received(kept, node, position),
    }
}

/// Returns how many receipts the statement at a position of an item is: 1 if an entry of a segment quotes it, and else 0.
pub(crate) fn receipts_of<P>(kept: &KeptItem<P>, position: u32) -> usize {
    match receipt(kept, position) {
        None => 0,
        Some(_) => 1,
    }
}

/// Returns the message of which the statement that a row names is the receipt.
fn receipt_at<P>(items: &[KeptItem<P>], row: Row) -> Option<Sending>
    ensures { result ≡ receipt_at items.now row }
{
    match items.get(row.item as usize) {
        None => None,
        Some(kept) => receipt(kept, row.position),
    }
}

/// If the row's statement is a receipt, puts its message into the table of its node, and takes back what was promised of it.
pub(crate) fn put_receipt<P>(items: &[KeptItem<P>], table: &mut Table, row: Row)
    requires told { IsTold items.now table.old }
    requires own { (a : Statement) → stated_at items.now row ≡ Some a → a.node ≡ table.old.node }
    ensures told { IsTold items.now table.new }
    ensures step { ReceiptStep items.now row table.old table.new }
    ensures counts { KeepsPromises table.old table.new }
{
    if let Some(sending) = receipt_at(items, row) {
        put(&mut table.receipts, sending);
    }
}

/// Returns what tells the message of a send challenge from others.
fn sent<P>(challenge: &KeptItem<P>) -> Option<Sending>
    ensures { result ≡ sent challenge.now.item.fields }
{
    let Some(form) = challenge.form() else {
        return None;
    };
    match form {
        Form::Auth(_) | Form::Segment(_) | Form::Audit(_) | Form::Ack(_) => None,
        Form::Send(message) => Some(Sending {
            from: message.from,
            to: message.to,
            seq: message.seq,
        }),
    }
}

/// Returns whether segments have a receipt of the message of a send challenge, by the table of its sender. Returns `None` if the sender has
/// no table, if that table keeps no receipts, or if the item is no send challenge.
pub(crate) fn is_received<P>(
    items: &[KeptItem<P>],
    tables: &[Table],
    challenge: &KeptItem<P>,
) -> Option<bool>
    requires ascending { AscendByNode tables.now }
    requires told { AllTables (IsTold items.now) tables.now }
    requires receipts { AllTables (λ t. AreReceipts items.now t) tables.now }
    ensures { IfSome result (λ b. IsReceiptTold items.now challenge.now.item.fields b) }
{
    let Some(sending) = sent(challenge) else {
        return None;
    };
    let Some(i) = place_of(tables, sending.from) else {
        return None;
    };
    let receipts = &tables[i].receipts;
    if !receipts.whole {
        return None;
    }
    Some(is_among(&receipts.sendings, &sending))
}
