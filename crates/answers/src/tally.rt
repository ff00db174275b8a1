//! How many items there are, of each form and of each node.

ghost use Rattle.std.specs.Prelude.{◌≡◌, ℕ, IfOk, count_by, length};
ghost use Rattle.std.specs.BTreeMap.{IsOrdered, get};
ghost use Rattle.std.specs.Ordering.{nat_cmp};
ghost use Rattle.item_forms.specs.declared.forms.Fields.TheVariants as form;
ghost use Rattle.answers.specs.Showing.{IsTally, count_in, is_kind, is_of, seen_of, told};

use authenticators::NodeId;
use item_forms::{Authenticator, Form, Item, Segment};
use std::alloc::{AllocError, Global};
use std::collections::BTreeMap;

/// The five forms of items.
#[derive(Clone, Copy, Debug, PartialEq, Eq)]
pub enum Kind {
    /// A signed statement.
    Statement,
    /// A segment of a log.
    Segment,
    /// A challenge to show a log.
    AuditChallenge,
    /// A challenge to acknowledge a message.
    SendChallenge,
    /// An acknowledgement of a message.
    Acknowledgement,
}

/// An item's form and its node. It is the node that signed a statement, a segment or an acknowledgement, or that is challenged.
#[derive(Clone, Copy, Debug)]
pub struct Seen {
    /// The item's form.
    pub kind: Kind,
    /// The node.
    pub node: NodeId,
}

/// How many items there are of each form, and of each node.
#[derive(Debug, Drop)]
pub struct Tally {
    /// How many items there are of all forms.
    pub items: usize,
    /// How many signed statements there are.
    pub statements: usize,
    /// How many segments there are.
    pub segments: usize,
    /// How many audit challenges there are.
    pub audit_challenges: usize,
    /// How many send challenges there are.
    pub send_challenges: usize,
    /// How many acknowledgements there are.
    pub acknowledgements: usize,
    /// How many items there are of each node that has one, by the node's number.
    pub nodes: BTreeMap<u32, usize>,
}

/// Returns what a statement is seen as.
pub(crate) fn statement_seen(auth: &Authenticator) -> Seen
    ensures { result ≡ seen_of (form.Auth auth.now) }
{
    Seen {
        kind: Kind::Statement,
        node: auth.node,
    }
}

/// Returns what a segment is seen as.
pub(crate) fn segment_seen(segment: &Segment) -> Seen
    ensures { result ≡ seen_of (form.Segment segment.now) }
{
    Seen {
        kind: Kind::Segment,
        node: segment.node,
    }
}

/// Returns what an item is seen as.
pub(crate) fn seen_of(item: &Item) -> Seen
    ensures { result ≡ seen_of item.now.fields }
{
    match item.form() {
        Form::Auth(auth) => statement_seen(auth),
        Form::Segment(segment) => segment_seen(segment),
        Form::Audit(challenge) => Seen {
            kind: Kind::AuditChallenge,
            node: challenge.node,
        },
        Form::Send(message) => Seen {
            kind: Kind::SendChallenge,
            node: message.to,
        },
        Form::Ack(ack) => Seen {
            kind: Kind::Acknowledgement,
            node: ack.message.to,
        },
    }
}

/// Returns whether an item has this form.
fn is_kind(kind: Kind, one: &Seen) -> bool
    ensures { result ≡ is_kind kind one.now }
{
    match (kind, one.kind) {
        (Kind::Statement, Kind::Statement) => true,
        (Kind::Segment, Kind::Segment) => true,
        (Kind::AuditChallenge, Kind::AuditChallenge) => true,
        (Kind::SendChallenge, Kind::SendChallenge) => true,
        (Kind::Acknowledgement, Kind::Acknowledgement) => true,
        _ => false,
    }
}

/// Returns how many items have this form.
fn count_of(seen: &[Seen], kind: Kind) -> usize
    ensures { result ≡ count_by (is_kind kind) seen.now }
{
    seen.iter().filter(|one| is_kind(kind, one)).count()
}

/// Returns how many items of a node were counted.
fn count_in(nodes: &BTreeMap<u32, usize>, node: u32) -> usize
    ensures { result ≡ count_in (get nat_cmp nodes.now node) }
{
    match nodes.get(&node) {
        Some(count) => *count,
        None => 0,
    }
}

/// Returns how many items there are of each node.
fn nodes_of(alloc: Global, seen: &[Seen]) -> Result<BTreeMap<u32, usize>, AllocError>
    ensures { IfOk result (λ m. (node : ℕ) → get nat_cmp m node ≡ told (count_by (is_of node) seen.now)) }
{
    let mut nodes = BTreeMap::new(alloc);
    for one in seen {
        let node = one.node.0;
        let before = count_in(&nodes, node);
        nodes.insert(node, before + 1)?;
    }
    Ok(nodes)
}

/// Does nothing. Its contract says that a map is in ascending order.
fn is_ordered(nodes: &BTreeMap<u32, usize>)
    ensures { IsOrdered nat_cmp nodes.now }
{
    let _ = nodes.len();
}

/// Counts the items of each form and of each node.
pub(crate) fn tally_of(alloc: Global, seen: &[Seen]) -> Result<Tally, AllocError>
    ensures { IfOk result (IsTally seen.now) }
{
    let nodes = nodes_of(alloc, seen)?;
    is_ordered(&nodes);
    Ok(Tally {
        items: seen.len(),
        statements: count_of(seen, Kind::Statement),
        segments: count_of(seen, Kind::Segment),
        audit_challenges: count_of(seen, Kind::AuditChallenge),
        send_challenges: count_of(seen, Kind::SendChallenge),
        acknowledgements: count_of(seen, Kind::Acknowledgement),
        nodes,
    })
}
