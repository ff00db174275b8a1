//! The shards of the nodes that items name.

ghost use Rattle.std.specs.Prelude.{◌≡◌, ◌++◌, ◌∷◌, [], IfOk, OnOk, map};
ghost use Rattle.std.specs.List.{filter_map};
ghost use Rattle.evidence_item.specs.Validity.{nodes_of};
ghost use Rattle.localities.specs.Concerning.{named_in, sender_in};
ghost use Rattle.localities.specs.Shards.{in_turn};

use crate::dealing::Shards;
use item_forms::{Form, Item};
use log_chain::Entry;
use log_chain::kind::RECV;
use outcome::Memory;
use replay_verifier::Receipt;
use std::alloc::Global;

/// Adds the shard of the sender that the entry names, if it is a RECV that names one.
fn add_sender(shards: Shards, numbers: &mut Vec<u32>, entry: &Entry) -> Result<(), Memory>
    ensures { OnOk result (numbers.new.items ≡ numbers.old.items ++ map (in_turn shards) (filter_map sender_in (entry.now ∷ []))) }
{
    if entry.kind != RECV {
        return Ok(());
    }
    let Some(receipt) = Receipt::read(entry.content.as_slice()) else {
        return Ok(());
    };
    numbers.push(shards.of(receipt.from))?;
    Ok(())
}

/// Adds the shards of the senders that all of the entries name.
fn add_senders(shards: Shards, numbers: &mut Vec<u32>, entries: &[Entry]) -> Result<(), Memory>
    ensures { OnOk result (numbers.new.items ≡ numbers.old.items ++ map (in_turn shards) (filter_map sender_in entries.now)) }
{
    for entry in entries {
        add_sender(shards, numbers, entry)?;
    }
    Ok(())
}

/// Adds the shards of the nodes that the item's fields name.
fn add_fields(shards: Shards, numbers: &mut Vec<u32>, item: &Item) -> Result<(), Memory>
    ensures { OnOk result (numbers.new.items ≡ numbers.old.items ++ map (in_turn shards) (nodes_of item.now.fields)) }
{
    match item.form() {
        Form::Auth(a) => numbers.push(shards.of(a.node))?,
        Form::Segment(s) => numbers.push(shards.of(s.node))?,
        Form::Audit(c) => numbers.push(shards.of(c.node))?,
        Form::Send(m) => {
            numbers.push(shards.of(m.from))?;
            numbers.push(shards.of(m.to))?;
        }
        Form::Ack(a) => {
            numbers.push(shards.of(a.message.from))?;
            numbers.push(shards.of(a.message.to))?;
        }
    }
    Ok(())
}

/// Returns the shards of the nodes that the item names: in its fields, or as the sender in a RECV entry, whoever signed it. A shard stands
/// there once for each time that one of its nodes is named.
pub(crate) fn shards_of(alloc: Global, shards: Shards, item: &Item) -> Result<Vec<u32>, Memory>
    ensures { IfOk result (λ numbers. numbers.items ≡ map (in_turn shards) (named_in item.now.fields)) }
{
    let mut numbers = Vec::new(alloc);
    add_fields(shards, &mut numbers, item)?;
    if let Form::Segment(s) = item.form() {
        add_senders(shards, &mut numbers, s.entries.as_slice())?;
    }
    Ok(numbers)
}

/// Returns the shards of the nodes that the item's fields name.
pub(crate) fn own_shards_of(alloc: Global, shards: Shards, item: &Item) -> Result<Vec<u32>, Memory>
    ensures { IfOk result (λ numbers. numbers.items ≡ map (in_turn shards) (nodes_of item.now.fields)) }
{
    let mut numbers = Vec::new(alloc);
    add_fields(shards, &mut numbers, item)?;
    Ok(numbers)
}
