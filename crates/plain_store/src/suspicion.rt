//! Challenges that no item answers.

ghost use Rattle.std.specs.Prelude.{◌≡◌, true, false};
ghost use Rattle.std.specs.List.{Contains, list_any};
ghost use Rattle.evidence_item.specs.Checking.{Checked as TheChecked};
ghost use Rattle.evidence_set.specs.Challenges.{answers_audit};
ghost use Rattle.kept_evidence.specs.Kept.{HasHashes, IsAscending};
ghost use Rattle.kept_evidence.specs.Telling.{is_answered, is_unanswered, told_send};

use crate::grouping::group_of;
use authenticators::NodeId;
use evidence_item::{AuditChallenge, Checked, Form, Item, Message};
use item_forms::Group;
use kept_evidence::{answers_audit, answers_send, is_against};

/// Returns whether one of the items answers the audit challenge.
fn one_answers_audit<P>(items: &[Checked<P>], challenge: &AuditChallenge) -> bool
    requires { (c : TheChecked) → Contains items.now c → HasHashes c }
    ensures { result ≡ list_any (λ (c : TheChecked). answers_audit challenge.now c.item.fields) items.now }
{
    for item in items {
        if answers_audit(challenge, item) {
            return true;
        }
    }
    false
}

/// Returns whether a kept item answers the audit challenge. It looks at the segments of the challenged node.
fn audit_is_answered<P>(kept: &[Checked<P>], challenge: &AuditChallenge) -> bool
    requires ascending { IsAscending kept.now }
    requires hashes { (c : TheChecked) → Contains kept.now c → HasHashes c }
    ensures { result ≡ list_any (λ (c : TheChecked). answers_audit challenge.now c.item.fields) kept.now }
{
    one_answers_audit(group_of(kept, &Group::Segments(challenge.node)), challenge)
}

/// Returns whether one of the items answers the send challenge of the message.
fn one_answers_send<P>(items: &[Checked<P>], message: &Message) -> bool
    ensures { result ≡ list_any (λ (c : TheChecked). told_send message.now c.item.fields c.findings) items.now }
{
    for item in items {
        if answers_send(message, item) {
            return true;
        }
    }
    false
}

/// Returns whether a kept item answers the send challenge of the message. It looks for acknowledgements with the message's
/// sender, receiver and number. If there is none, it looks at the segments of the message's receiver.
fn send_is_answered<P>(kept: &[Checked<P>], message: &Message) -> bool
    requires ascending { IsAscending kept.now }
    ensures { result ≡ list_any (λ (c : TheChecked). told_send message.now c.item.fields c.findings) kept.now }
{
    if !group_of(kept, &Group::Acknowledgements(message)).is_empty() {
        return true;
    }
    one_answers_send(group_of(kept, &Group::Segments(message.to)), message)
}

/// Returns whether a kept item answers the challenge.
fn is_answered<P>(kept: &[Checked<P>], item: &Item) -> bool
    requires ascending { IsAscending kept.now }
    requires hashes { (c : TheChecked) → Contains kept.now c → HasHashes c }
    ensures { result ≡ is_answered kept.now item.now.fields }
{
    match item.form() {
        Form::Audit(challenge) => audit_is_answered(kept, challenge),
        Form::Send(message) => send_is_answered(kept, message),
        Form::Auth(_) | Form::Segment(_) | Form::Ack(_) => false,
    }
}

/// Returns whether the item is a challenge against the node that no kept item answers. It takes no memory.
pub(crate) fn is_unanswered<P>(kept: &[Checked<P>], node: NodeId, item: &Item) -> bool
    requires ascending { IsAscending kept.now }
    requires hashes { (c : TheChecked) → Contains kept.now c → HasHashes c }
    ensures { result ≡ is_unanswered kept.now node item.now.fields }
{
    is_against(node, item) && !is_answered(kept, item)
}

/// Returns whether one of the items is a challenge against the node that no kept item answers.
fn one_is_unanswered<P>(kept: &[Checked<P>], node: NodeId, items: &[Checked<P>]) -> bool
    requires ascending { IsAscending kept.now }
    requires hashes { (c : TheChecked) → Contains kept.now c → HasHashes c }
    ensures { result ≡ list_any (λ (c : TheChecked). is_unanswered kept.now node c.item.fields) items.now }
{
    for item in items {
        if is_unanswered(kept, node, item.item()) {
            return true;
        }
    }
    false
}

/// Returns whether a challenge against the node is kept that no kept item answers. It takes no memory.
pub(crate) fn is_suspected<P>(kept: &[Checked<P>], node: NodeId) -> bool
    requires ascending { IsAscending kept.now }
    requires hashes { (c : TheChecked) → Contains kept.now c → HasHashes c }
    ensures { result ≡ list_any (λ (c : TheChecked). is_unanswered kept.now node c.item.fields) kept.now }
{
    if one_is_unanswered(kept, node, group_of(kept, &Group::AuditChallenges(node))) {
        return true;
    }
    one_is_unanswered(kept, node, group_of(kept, &Group::SendChallenges))
}
