//! Challenges that nobody answered, in sentences.

use item_forms::{AuditChallenge, Form, Item, Message, Statement};
use outcome::Memory;
use sentences::{Lines, Payload, Shown, Voice};

/// Says what an audit challenge asks for, and what would answer it.
fn say_audit(lines: &mut Lines, place: u64, challenge: &AuditChallenge) -> Result<(), Memory> {
    match &challenge.first {
        Some(first) => say_range(lines, place, challenge, first),
        None => say_front(lines, place, challenge),
    }
}

/// Says the same, if the challenge asks for the log from another entry on.
fn say_range(
    lines: &mut Lines,
    place: u64,
    challenge: &AuditChallenge,
    first: &Statement,
) -> Result<(), Memory> {
    let alloc = lines.alloc();
    let node = challenge.node;
    let from = first.seq;
    let to = challenge.last.seq;
    let asked = format!(in alloc;
        "Item {place}, an audit challenge, asks node {node} for its log from entry {from} to entry {to}."
    )?;
    lines.say(asked)?;
    let before = first.hash;
    let hash = challenge.last.hash;
    let answer = format!(in alloc;
        "A segment of node {node} that has entry {from} with the hash {before} and entry {to} with the hash {hash} would answer it."
    )?;
    lines.say(answer)
}

/// Says the same, if the challenge asks for the log from its beginning on.
fn say_front(lines: &mut Lines, place: u64, challenge: &AuditChallenge) -> Result<(), Memory> {
    let alloc = lines.alloc();
    let node = challenge.node;
    let to = challenge.last.seq;
    let asked = format!(in alloc;
        "Item {place}, an audit challenge, asks node {node} for its log from the beginning to entry {to}."
    )?;
    lines.say(asked)?;
    let hash = challenge.last.hash;
    let answer = format!(in alloc;
        "A segment of node {node} from the beginning that has entry {to} with the hash {hash} would answer it."
    )?;
    lines.say(answer)
}

/// Says what a send challenge asks for, and what would answer it.
fn say_send<V: Voice>(
    lines: &mut Lines,
    voice: &V,
    place: u64,
    message: &Message,
) -> Result<(), Memory> {
    let alloc = lines.alloc();
    let from = message.from;
    let to = message.to;
    let seq = message.seq;
    let payload = Payload {
        voice,
        shown: Shown::of(message.payload.as_slice()),
    };
    let asked = format!(in alloc;
        "Item {place}, a send challenge of node {from}, asks node {to} to acknowledge entry {seq} of node {from}: {payload}."
    )?;
    lines.say(asked)?;
    let answer = format!(in alloc;
        "An acknowledgement by node {to} of a message from node {from} with this number would answer it, or a segment of node {to} with a RECV of one that node {from} signed."
    )?;
    lines.say(answer)
}

/// Says what an open challenge asks for, and what would answer it.
fn say_challenge<V: Voice>(
    lines: &mut Lines,
    voice: &V,
    place: u64,
    item: &Item,
) -> Result<(), Memory> {
    match item.form() {
        Form::Audit(challenge) => say_audit(lines, place, challenge),
        Form::Send(message) => say_send(lines, voice, place, message),
        _ => Ok(()),
    }
}

/// Says of each open challenge what it asks for, and what would answer it. `places` has the places of their items, in the same order.
pub(crate) fn say_challenges<V: Voice>(
    lines: &mut Lines,
    voice: &V,
    open: &[&Item],
    places: &[u64],
) -> Result<(), Memory> {
    for (item, place) in open.iter().zip(places) {
        say_challenge(lines, voice, *place, item)?;
    }
    Ok(())
}
