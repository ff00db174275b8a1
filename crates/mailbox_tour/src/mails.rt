//! The mails of which the logs tell that a witness has.

use crate::scenes::Witness;
use anyhow::Result;
use authenticators::NodeId;
use evidence_store::Evidence;
use item_forms::{Form, Segment};
use log_chain::Entry;
use log_chain::kind::{RECV, SEND};
use mailbox::letters::{DELIVER, MAIL};
use replay_verifier::Receipt;

/// Writes `NODE left TEXT for NODE` where the entry sends such a request.
fn write_left(rt: &HostRuntime, node: NodeId, content: &[u8]) -> Result<()> {
    if let [_, _, _, _, DELIVER, a, b, c, d, text @ ..] = content
        && let Ok(text) = str::from_utf8(text)
    {
        let to = NodeId(u32::from_be_bytes([*a, *b, *c, *d]));
        println!(rt; "{node} left {text} for {to}")?;
    }
    Ok(())
}

/// Writes `NODE received TEXT from NODE` where the entry receives such a mail.
fn write_received(rt: &HostRuntime, node: NodeId, content: &[u8]) -> Result<()> {
    if let Some(receipt) = Receipt::read(content)
        && let [MAIL, a, b, c, d, text @ ..] = receipt.payload
        && let Ok(text) = str::from_utf8(text)
    {
        let from = NodeId(u32::from_be_bytes([*a, *b, *c, *d]));
        println!(rt; "{node} received {text} from {from}")?;
    }
    Ok(())
}

/// Writes the mail of which the entry tells, if it tells of one.
fn write_mail(rt: &HostRuntime, node: NodeId, entry: &Entry) -> Result<()> {
    match entry.kind {
        SEND => write_left(rt, node, entry.content.as_slice()),
        RECV => write_received(rt, node, entry.content.as_slice()),
        _ => Ok(()),
    }
}

/// Writes the mails of which the log tells.
fn write_log(rt: &HostRuntime, segment: &Segment) -> Result<()> {
    for entry in segment.entries.as_slice() {
        write_mail(rt, segment.node, entry)?;
    }
    Ok(())
}

/// Writes the mails of which the logs tell that the witness has, node by node.
pub fn write_mails(rt: &HostRuntime, witness: &Witness) -> Result<()> {
    let store = witness.store();
    for number in 0..store.count() {
        if let Some(checked) = store.item_at(number)?
            && let Form::Segment(segment) = checked.item().form()
        {
            write_log(rt, segment)?;
        }
    }
    Ok(())
}
