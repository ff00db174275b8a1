//! What a checked item that is no segment has, lent from where it lies.

ghost use Rattle.std.specs.Prelude.{◌≡◌, IfNone, IfSome, Some, false, true};
ghost use Rattle.std.specs.Option.{option_map};
ghost use Rattle.evidence_item.specs.Checking.{is_segment};
ghost use Rattle.evidence_item.specs.Statements.{named, says};
ghost use Rattle.kept_items.specs.Keeping.{is_challenge, subject};
ghost use Rattle.kept_items.specs.Positions.{either_at, positions, shown, stated};

use crate::said::Said;
use authenticators::NodeId;
use evidence_item::{
    AckItem, AuditChallenge, Checked, Findings, Form, Hash, Item, Message, Statement,
};

fn named<'a>(node: NodeId, statement: &'a Statement) -> Said<'a>
    ensures { shown result ≡ named node statement.now }
{
    Said {
        node,
        seq: statement.seq,
        hash: statement.hash,
        sig: statement.sig.as_slice(),
    }
}

/// Returns the statement that stands first in an audit challenge, if one does.
fn first_named(challenge: &AuditChallenge) -> Option<Said<'_>>
    ensures { option_map shown result ≡ option_map (named challenge.now.node) challenge.now.first }
{
    match &challenge.first {
        None => None,
        Some(first) => Some(named(challenge.node, first)),
    }
}

fn in_audit(challenge: &AuditChallenge, position: u32) -> Option<Said<'_>>
    ensures { option_map shown result ≡ either_at (Some (named challenge.now.node challenge.now.last)) (option_map (named challenge.now.node) challenge.now.first) position }
{
    match position {
        0 => Some(named(challenge.node, &challenge.last)),
        1 => first_named(challenge),
        _ => None,
    }
}

fn sent(message: &Message, hash: Hash) -> Said<'_>
    ensures { shown result ≡ says message.now.from message.now.seq hash message.now.sig }
{
    Said {
        node: message.from,
        seq: message.seq,
        hash,
        sig: message.sig.as_slice(),
    }
}

fn in_ack(ack: &AckItem, sent_hash: Hash, received: Hash, position: u32) -> Option<Said<'_>>
    ensures { option_map shown result ≡ either_at (Some (says ack.now.message.from ack.now.message.seq sent_hash ack.now.message.sig)) (Some (says ack.now.message.to ack.now.seq received ack.now.sig)) position }
{
    match position {
        0 => Some(sent(&ack.message, sent_hash)),
        1 => Some(Said {
            node: ack.message.to,
            seq: ack.seq,
            hash: received,
            sig: ack.sig.as_slice(),
        }),
        _ => None,
    }
}

/// Returns the statement at a position of an item that is no segment.
pub(crate) fn statement_of<P>(checked: &Checked<P>, position: u32) -> Option<Said<'_>>
    requires { is_segment checked.now.item.fields ≡ false }
    ensures { option_map shown result ≡ stated checked.now position }
{
    match (checked.item().form(), checked.findings()) {
        (Form::Auth(a), _) => {
            if position != 0 {
                return None;
            }
            Some(Said {
                node: a.node,
                seq: a.seq,
                hash: a.hash,
                sig: a.sig.as_slice(),
            })
        }
        (Form::Audit(challenge), _) => in_audit(challenge, position),
        (Form::Send(message), Some(Findings::Send(hash))) => {
            if position != 0 {
                return None;
            }
            Some(sent(message, *hash))
        }
        (Form::Ack(ack), Some(Findings::Ack { sent, received })) => {
            in_ack(ack, *sent, *received, position)
        }
        _ => None,
    }
}

/// Returns the item if it is a challenge, and `None` if it is not.
pub(crate) fn challenge_of(item: &Item) -> Option<&Item>
    ensures none { IfNone result (is_challenge item.now.fields ≡ false) }
    ensures some { IfSome result (λ i. (i.now ≡ item.now) × (is_challenge item.now.fields ≡ true)) }
{
    match item.form() {
        Form::Auth(_) | Form::Segment(_) | Form::Ack(_) => None,
        Form::Audit(_) | Form::Send(_) => Some(item),
    }
}

/// Returns how many positions an item has that is no segment.
pub(crate) fn positions_of(item: &Item) -> u32
    requires { is_segment item.now.fields ≡ false }
    ensures { result ≡ positions item.now.fields }
{
    match item.form() {
        Form::Auth(_) | Form::Send(_) | Form::Segment(_) => 1,
        Form::Audit(_) | Form::Ack(_) => 2,
    }
}

/// Returns the node that a challenge is against, or that sent an acknowledgement.
pub(crate) fn subject_of(item: &Item) -> Option<NodeId>
    requires { is_segment item.now.fields ≡ false }
    ensures { result ≡ subject item.now.fields }
{
    match item.form() {
        Form::Auth(_) | Form::Segment(_) => None,
        Form::Audit(challenge) => Some(challenge.node),
        Form::Send(message) => Some(message.to),
        Form::Ack(ack) => Some(ack.message.to),
    }
}
