//! Challenges and their answers.

ghost use Rattle.std.specs.Prelude.{◌≡◌, false};
ghost use Rattle.log_chain.specs.Chain.{hashes as hashes_of};
ghost use Rattle.evidence_set.specs.Challenges.{answers_audit, covers, is_against, is_same_sending};
ghost use Rattle.kept_evidence.specs.Kept.{HasHashes};
ghost use Rattle.kept_evidence.specs.Telling.{is_told_receipt, told_receipt, told_send};

use crate::findings::{found_hashes, found_quotes};
use authenticators::NodeId;
use evidence_item::{AuditChallenge, Checked, Entry, Form, Hash, Item, Message, Segment};
use log_chain::{base_hash, kind};
use proofs::RangedSegment;
use replay_verifier::Receipt;

/// Returns whether the item is a challenge against the node.
pub fn is_against(node: NodeId, item: &Item) -> bool
    ensures { result ≡ is_against node item.now.fields }
{
    match item.form() {
        Form::Audit(challenge) => challenge.node == node,
        Form::Send(message) => message.to == node,
        Form::Auth(_) | Form::Segment(_) | Form::Ack(_) => false,
    }
}

/// Returns whether the segment has the entries that the challenge names. `hashes` are the hashes of its entries. If the numbers
/// rise, it takes one pass over them.
fn covers(challenge: &AuditChallenge, segment: &Segment, hashes: &[Hash]) -> bool
    requires { hashes.now ≡ hashes_of segment.now.prev segment.now.entries }
    ensures { result ≡ covers challenge.now.first challenge.now.last segment.now }
{
    let last = &challenge.last;
    let ranged = RangedSegment::new(segment, hashes);
    match &challenge.first {
        None => segment.prev == base_hash() && ranged.has_pair(last.seq, last.hash),
        Some(first) => {
            ranged.has_pair(first.seq, first.hash) && ranged.has_pair(last.seq, last.hash)
        }
    }
}

/// Returns whether the item answers the audit challenge.
pub fn answers_audit<P>(challenge: &AuditChallenge, checked: &Checked<P>) -> bool
    requires { HasHashes checked.now }
    ensures { result ≡ answers_audit challenge.now checked.now.item.fields }
{
    let Form::Segment(segment) = checked.item().form() else {
        return false;
    };
    let Some(hashes) = found_hashes(checked) else {
        return false;
    };
    segment.node == challenge.node && covers(challenge, segment, hashes)
}

/// Returns whether the entry is a receipt of a message with the sender and the number of this one. `hash` is the hash that was
/// found of the entry's quote, if it is genuine.
fn is_receipt_of(message: &Message, entry: &Entry, hash: Option<Hash>) -> bool
    ensures { result ≡ is_told_receipt message.now entry.now hash }
{
    if hash.is_none() {
        return false;
    }
    let Some(receipt) = Receipt::read(entry.content.as_slice()) else {
        return false;
    };
    receipt.from == message.from && receipt.seq == message.seq
}

/// Returns whether one of the entries is such a receipt. `hashes` are those that were found of the entries' quotes.
fn have_receipt_of(message: &Message, entries: &[Entry], hashes: &[Option<Hash>]) -> bool
    ensures { result ≡ told_receipt message.now entries.now hashes.now }
{
    let mut rest = hashes;
    for entry in entries {
        let [hash, others @ ..] = rest else {
            return false;
        };
        if is_receipt_of(message, entry, *hash) {
            return true;
        }
        rest = others;
    }
    false
}

/// Returns whether the message has the sender, the receiver and the number of the other.
fn is_same_sending(message: &Message, other: &Message) -> bool
    ensures { result ≡ is_same_sending message.now other.now }
{
    message.from == other.from && message.to == other.to && message.seq == other.seq
}

/// Returns whether the item answers the send challenge of the message.
pub fn answers_send<P>(message: &Message, checked: &Checked<P>) -> bool
    ensures { result ≡ told_send message.now checked.now.item.fields checked.now.findings }
{
    match checked.item().form() {
        Form::Segment(segment) => {
            segment.node == message.to
                && have_receipt_of(message, segment.entries.as_slice(), found_quotes(checked))
        }
        Form::Ack(ack) => is_same_sending(&ack.message, message),
        Form::Auth(_) | Form::Audit(_) | Form::Send(_) => false,
    }
}
