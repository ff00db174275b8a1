//! What is stated by items that are no segments, before any signature is verified.

ghost use Rattle.std.specs.Prelude.{◌≡◌, MatchResult, Option, Some, false, map};
ghost use Rattle.evidence_item.specs.Checking.{is_segment};
ghost use Rattle.evidence_item.specs.Statements.{acknowledged, first_named, named, sent};
ghost use Rattle.evidence_item.specs.Validity.{comes_late, early_fault};
ghost use Rattle.evidence_item.specs.within.Stating.{States, first_in, said};
ghost use Rattle.item_forms.specs.Forms.{shown};
ghost use Rattle.item_forms.specs.declared.forms.Fields.TheVariants as form;

use crate::fault::ItemFault;
use authenticators::{Authenticator, Claim, Directory, NodeId};
use item_forms::{AckItem, AuditChallenge, Form, Message, Statement};

/// The statements of an item whose signatures are to be verified, by the item's form.
#[derive(Clone, Copy)]
pub(crate) enum Stated<'a> {
    /// The statement itself.
    Auth(Claim<'a>),
    /// The first statement, if there is one, and the last one.
    Audit(Option<Claim<'a>>, Claim<'a>),
    /// The sender's statement.
    Send(Claim<'a>),
    /// The sender's and the receiver's statement.
    Ack(Claim<'a>, Claim<'a>),
}

/// Claims that the node signed the statement.
fn claim_of(node: NodeId, statement: &Statement) -> Claim<'_>
    ensures { said result ≡ named node statement.now }
{
    Claim::new(
        node,
        statement.seq,
        statement.hash,
        statement.sig.as_slice(),
    )
}

/// Does the same for the first statement of an audit challenge, if there is one.
fn first_claim(node: NodeId, first: &Option<Statement>) -> Option<Claim<'_>>
    ensures { map said (first_in result) ≡ first_named node first.now }
{
    match first {
        None => None,
        Some(first) => Some(claim_of(node, first)),
    }
}

/// Claims the sender's statement of the SEND entry of a message. It computes its hash once.
fn sent_claim(message: &Message) -> Claim<'_>
    ensures { said result ≡ sent message.now }
{
    Claim::new(
        message.from,
        message.seq,
        message.signed_hash(),
        message.sig.as_slice(),
    )
}

/// Claims the receiver's statement of the RECV entry of an acknowledged message. It computes its hash once.
fn acknowledged_claim(ack: &AckItem) -> Claim<'_>
    ensures { said result ≡ acknowledged ack.now }
{
    Claim::new(
        ack.message.to,
        ack.seq,
        ack.message.received_hash(ack.seq, ack.prev),
        ack.sig.as_slice(),
    )
}

/// Returns what a statement states, or why it is refused whatever its signature is.
fn state_auth<'a>(
    directory: &Directory,
    authenticator: &'a Authenticator,
) -> Result<Stated<'a>, ItemFault>
    ensures { MatchResult result (States directory.now (form.Auth authenticator.now)) (λ e. early_fault directory.now (form.Auth authenticator.now) ≡ Some e) }
{
    if !directory.contains(authenticator.node) {
        return Err(ItemFault::UnknownNode);
    }
    Ok(Stated::Auth(Claim::new(
        authenticator.node,
        authenticator.seq,
        authenticator.hash,
        authenticator.sig.as_slice(),
    )))
}

/// Returns whether the first entry that is named does not come before the last one.
fn comes_late(first: &Option<Statement>, last: &Statement) -> bool
    ensures { result ≡ comes_late first.now last.now }
{
    match first {
        None => false,
        Some(first) => first.seq >= last.seq,
    }
}

/// Returns what an audit challenge states, or why it is refused whatever its signatures are.
fn state_audit<'a>(
    directory: &Directory,
    challenge: &'a AuditChallenge,
) -> Result<Stated<'a>, ItemFault>
    ensures { MatchResult result (States directory.now (form.Audit challenge.now)) (λ e. early_fault directory.now (form.Audit challenge.now) ≡ Some e) }
{
    if !directory.contains(challenge.node) {
        return Err(ItemFault::UnknownNode);
    }
    if comes_late(&challenge.first, &challenge.last) {
        return Err(ItemFault::BadRange);
    }
    let first = first_claim(challenge.node, &challenge.first);
    Ok(Stated::Audit(first, claim_of(challenge.node, &challenge.last)))
}

/// Returns why a message is refused whatever its signature is, if it is refused.
fn parties_fault(directory: &Directory, message: &Message) -> Option<ItemFault>
    ensures { result ≡ early_fault directory.now (form.Send message.now) }
{
    if !directory.contains(message.from) || !directory.contains(message.to) {
        Some(ItemFault::UnknownNode)
    } else if message.from == message.to {
        Some(ItemFault::SelfMessage)
    } else {
        None
    }
}

/// Returns what a message states, or why it is refused whatever its signature is.
fn state_send<'a>(directory: &Directory, message: &'a Message) -> Result<Stated<'a>, ItemFault>
    ensures { MatchResult result (States directory.now (form.Send message.now)) (λ e. early_fault directory.now (form.Send message.now) ≡ Some e) }
{
    match parties_fault(directory, message) {
        Some(fault) => Err(fault),
        None => Ok(Stated::Send(sent_claim(message))),
    }
}

/// Returns what an acknowledged message states, or why it is refused whatever its signatures are.
fn state_ack<'a>(directory: &Directory, ack: &'a AckItem) -> Result<Stated<'a>, ItemFault>
    ensures { MatchResult result (States directory.now (form.Ack ack.now)) (λ e. early_fault directory.now (form.Ack ack.now) ≡ Some e) }
{
    match parties_fault(directory, &ack.message) {
        Some(fault) => Err(fault),
        None => Ok(Stated::Ack(sent_claim(&ack.message), acknowledged_claim(ack))),
    }
}

/// Returns what an item that is no segment states, or why it is refused whatever its signatures are.
pub(crate) fn state<'a>(directory: &Directory, form: Form<'a>) -> Result<Stated<'a>, ItemFault>
    requires { is_segment (shown form) ≡ false }
    ensures { MatchResult result (States directory.now (shown form.entry)) (λ e. early_fault directory.now (shown form.entry) ≡ Some e) }
{
    match form {
        Form::Segment(_) => unreachable!(),
        Form::Auth(authenticator) => state_auth(directory, authenticator),
        Form::Audit(challenge) => state_audit(directory, challenge),
        Form::Send(message) => state_send(directory, message),
        Form::Ack(ack) => state_ack(directory, ack),
    }
}
