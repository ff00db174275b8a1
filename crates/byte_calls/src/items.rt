//! Items of evidence, by their encodings: the statements that they hold, and the challenges that are made of them. Nothing is verified here.
//! A store verifies what it takes.

ghost use Rattle.std.specs.Prelude.{◌≡◌, ◌≤◌, ◌∷◌, [], IfOk, IfSome, Ok, length};
ghost use Rattle.outcome.specs.Outcome.{Gives};
ghost use Rattle.authenticators.specs.declared.signature.TheConstants.{LONGEST_SIGNATURE_TEXT};
ghost use Rattle.evidence_item.specs.Statements.{acknowledged, end_of, named, says, sent, statements_of};
ghost use Rattle.item_forms.specs.declared.forms.Fields.TheVariants as form;
ghost use Rattle.item_forms.specs.Spelling.{FitsAudit, FitsAuth, FitsMessage};
ghost use Rattle.byte_calls.specs.declared.refusal.Refusal.TheVariants.{Memory};
ghost use Rattle.byte_calls.specs.ItemTexts.{auth_of, demand_text, earlier_of, message_in, ranged, said_at, sending_text, statement_text};

use crate::refusal::Refusal;
use authenticators::laws::node_fits;
use authenticators::{Authenticator, NodeId};
use challenges::{ChallengeFault, audit_challenge as demand_log, send_challenge as demand_ack};
use item_forms::{AckItem, AuditChallenge, Fields, Form, Item, Segment, Statement};
use log_chain::laws::{bytes_fit, hash_fits};
use log_chain::{ByteString, Hash, chain_end};
use messages::Message;
use std::alloc::Global;

// ---- statements

/// A statement of a node. Its signature is lent.
#[derive(Clone, Copy)]
struct Said<'a> {
    node: NodeId,
    seq: u64,
    hash: Hash,
    sig: &'a ByteString,
}

/// Returns the statement of these parts, as an item.
fn auth_of_parts(node: NodeId, seq: u64, hash: Hash, sig: ByteString) -> Item
    requires { length sig ≤ LONGEST_SIGNATURE_TEXT }
    ensures { result.fields ≡ form.Auth (says node seq hash sig) }
{
    node_fits(node);
    hash_fits(hash);
    bytes_fit(sig.as_slice());
    let Ok(item) = Item::auth(Authenticator {
        node,
        seq,
        hash,
        sig,
    }) else {
        unreachable!()
    };
    item
}

/// Returns the statement, as an item.
fn auth_item(alloc: Global, said: &Said<'_>) -> Result<Item, Refusal>
    requires { length said.now.sig.now ≤ LONGEST_SIGNATURE_TEXT }
    ensures { Gives Memory (λ item. item.fields) result (Ok (form.Auth (says said.now.node said.now.seq said.now.hash said.now.sig.now))) }
{
    let sig = said.sig.try_clone(alloc)?;
    Ok(auth_of_parts(said.node, said.seq, said.hash, sig))
}

/// Returns the statement at the place, of one.
fn of_one(alloc: Global, place: usize, only: &Said<'_>) -> Result<Item, Refusal>
    requires { length only.now.sig.now ≤ LONGEST_SIGNATURE_TEXT }
    ensures { Gives Memory (λ item. item.fields) result (said_at (says only.now.node only.now.seq only.now.hash only.now.sig.now ∷ []) place) }
{
    match place {
        0 => auth_item(alloc, only),
        _ => Err(Refusal::OutOfRange),
    }
}

/// Returns the statement at the place, of two.
fn of_two(alloc: Global, place: usize, first: &Said<'_>, second: &Said<'_>) -> Result<Item, Refusal>
    requires first { length first.now.sig.now ≤ LONGEST_SIGNATURE_TEXT }
    requires second { length second.now.sig.now ≤ LONGEST_SIGNATURE_TEXT }
    ensures { Gives Memory (λ item. item.fields) result (said_at (says first.now.node first.now.seq first.now.hash first.now.sig.now ∷ says second.now.node second.now.seq second.now.hash second.now.sig.now ∷ []) place) }
{
    match place {
        0 => auth_item(alloc, first),
        1 => auth_item(alloc, second),
        _ => Err(Refusal::OutOfRange),
    }
}

/// Returns the statement of a segment's last entry.
fn end_said(segment: &Segment) -> Said<'_>
    ensures { (says result.node result.seq result.hash result.sig.now ≡ end_of segment.now) × (result.sig.now ≡ segment.now.sig) }
{
    Said {
        node: segment.node,
        seq: segment.last_seq().unwrap_or(0),
        hash: chain_end(segment.prev, segment.entries.as_slice()),
        sig: &segment.sig,
    }
}

/// Returns a statement that stands alone.
fn auth_said(a: &Authenticator) -> Said<'_>
    ensures { (says result.node result.seq result.hash result.sig.now ≡ a.now) × (result.sig.now ≡ a.now.sig) }
{
    Said {
        node: a.node,
        seq: a.seq,
        hash: a.hash,
        sig: &a.sig,
    }
}

/// Returns a statement that an audit challenge of the node names.
fn named_said(node: NodeId, statement: &Statement) -> Said<'_>
    ensures { (says result.node result.seq result.hash result.sig.now ≡ named node statement.now) × (result.sig.now ≡ statement.now.sig) }
{
    Said {
        node,
        seq: statement.seq,
        hash: statement.hash,
        sig: &statement.sig,
    }
}

/// Returns the sender's statement of a message.
fn sent_said(message: &Message) -> Said<'_>
    ensures { (says result.node result.seq result.hash result.sig.now ≡ sent message.now) × (result.sig.now ≡ message.now.sig) }
{
    Said {
        node: message.from,
        seq: message.seq,
        hash: message.signed_hash(),
        sig: &message.sig,
    }
}

/// Returns the receiver's statement of an acknowledged message.
fn received_said(ack: &AckItem) -> Said<'_>
    ensures { (says result.node result.seq result.hash result.sig.now ≡ acknowledged ack.now) × (result.sig.now ≡ ack.now.sig) }
{
    Said {
        node: ack.message.to,
        seq: ack.seq,
        hash: ack.message.received_hash(ack.seq, ack.prev),
        sig: &ack.sig,
    }
}

/// Returns the statement at the place, of those that an audit challenge names.
fn of_audit(alloc: Global, place: usize, challenge: &AuditChallenge) -> Result<Item, Refusal>
    requires { FitsAudit challenge.now }
    ensures { Gives Memory (λ item. item.fields) result (said_at (statements_of (form.Audit challenge.now)) place) }
{
    let last = named_said(challenge.node, &challenge.last);
    match &challenge.first {
        None => of_one(alloc, place, &last),
        Some(first) => of_two(alloc, place, &named_said(challenge.node, first), &last),
    }
}

/// Returns the statement at the place, of those whose signatures an item holds.
fn of_item(alloc: Global, place: usize, item: &Item) -> Result<Item, Refusal>
    ensures { Gives Memory (λ item. item.fields) result (said_at (statements_of item.now.fields) place) }
{
    match item.form() {
        Form::Auth(a) => of_one(alloc, place, &auth_said(a)),
        Form::Segment(segment) => of_one(alloc, place, &end_said(segment)),
        Form::Audit(challenge) => of_audit(alloc, place, challenge),
        Form::Send(message) => of_one(alloc, place, &sent_said(message)),
        Form::Ack(ack) => of_two(alloc, place, &sent_said(&ack.message), &received_said(ack)),
    }
}

/// Returns the encoding of the statement at the place, from 0, among those whose signatures the item holds:
///
/// - A statement holds itself.
/// - A segment holds that of its last entry.
/// - An audit challenge holds those that it names, the earlier one first.
/// - A send challenge holds that of the message's sender.
/// - An acknowledgement holds that of the message's sender, and then that of its receiver.
///
/// It refuses as the item's encoding is refused (40 to 43), and then with `OutOfRange` (116) if there are fewer.
#[tactic(auto, unfolding(crate::specs::ItemTexts::statement_text))]
pub fn statement_of(alloc: Global, item: &[u8], place: usize) -> Result<Vec<u8>, Refusal>
    ensures { Gives Memory (λ text. text.items) result (statement_text item.now place) }
{
    let item = Item::decode(alloc, item)?;
    let said = of_item(alloc, place, &item)?;
    let text = said.encode(alloc)?;
    Ok(text)
}

// ---- challenges

/// Reads the encoding of a statement. It refuses with `BadTag` if it is another item.
#[tactic(auto, unfolding(crate::specs::ItemTexts::auth_of))]
pub(crate) fn read_auth(alloc: Global, text: &[u8]) -> Result<Authenticator, Refusal>
    ensures exact { Gives Memory (λ a. a) result (auth_of text.now) }
    ensures fits { IfOk result (λ a. FitsAuth a) }
{
    let item = Item::decode(alloc, text)?;
    let Fields::Auth(statement) = item.into_fields() else {
        return Err(Refusal::BadTag);
    };
    Ok(statement)
}

/// Reads the same, or returns `None` if there are no bytes.
#[tactic(auto, unfolding(crate::specs::ItemTexts::earlier_of))]
fn read_earlier(alloc: Global, text: &[u8]) -> Result<Option<Authenticator>, Refusal>
    ensures exact { Gives Memory (λ a. a) result (earlier_of text.now) }
    ensures fits { IfOk result (λ a. IfSome a FitsAuth) }
{
    if text.is_empty() {
        return Ok(None);
    }
    let statement = read_auth(alloc, text)?;
    Ok(Some(statement))
}

/// Returns the audit challenge from the first statement, if there is one, to the last.
fn demanded(first: Option<Authenticator>, last: Authenticator) -> Result<Item, Refusal>
    requires first { IfSome first FitsAuth }
    requires last { FitsAuth last }
    ensures { Gives Memory (λ item. item.fields) result (ranged first last) }
{
    match demand_log(first, last) {
        Ok(item) => Ok(item),
        Err(ChallengeFault::BadRange) => Err(Refusal::BadRange),
        Err(ChallengeFault::TooLong) => unreachable!(),
    }
}

/// Returns the encoding of an audit challenge. It asks a node for its log up to the entry of its statement `last`: from the entry of its
/// statement `first` on, or from the beginning if `first` is empty. Both are encodings of items.
///
/// It reports the first of these, or `Memory` (99) if memory runs out:
///
/// - The refusal of the encoding `first` (40 to 43), or `BadTag` (41) if it is that of another item.
/// - The same of `last`.
/// - `BadRange` (48), if the two are of two nodes, or if the number of `first` is not the smaller one.
#[tactic(auto, unfolding(crate::specs::ItemTexts::demand_text))]
pub fn audit_challenge(alloc: Global, first: &[u8], last: &[u8]) -> Result<Vec<u8>, Refusal>
    ensures { Gives Memory (λ text. text.items) result (demand_text first.now last.now) }
{
    let first = read_earlier(alloc, first)?;
    let last = read_auth(alloc, last)?;
    let item = demanded(first, last)?;
    let text = item.encode(alloc)?;
    Ok(text)
}

/// Returns the message of a send challenge or of an acknowledgement, else `BadTag`.
fn message_of(item: Item) -> Result<Message, Refusal>
    ensures exact { Gives Memory (λ m. m) result (message_in item.fields) }
    ensures fits { IfOk result (λ m. FitsMessage m) }
{
    match item.into_fields() {
        Fields::Send(message) => Ok(message),
        Fields::Ack(ack) => Ok(ack.message),
        Fields::Auth(_) | Fields::Segment(_) | Fields::Audit(_) => Err(Refusal::BadTag),
    }
}

/// Returns the send challenge of a message.
fn sending(message: Message) -> Item
    requires { FitsMessage message }
    ensures { result.fields ≡ form.Send message }
{
    match demand_ack(message) {
        Ok(item) => item,
        Err(_) => unreachable!(),
    }
}

/// Returns the encoding of a send challenge, which asks for the acknowledgement of a message. `message` is the encoding of an item that has
/// the message: a send challenge or an acknowledgement. It refuses as this encoding is refused (40 to 43), and then with `BadTag` (41) if it is
/// that of another item.
#[tactic(auto, unfolding(crate::specs::ItemTexts::sending_text))]
pub fn send_challenge(alloc: Global, message: &[u8]) -> Result<Vec<u8>, Refusal>
    ensures { Gives Memory (λ text. text.items) result (sending_text message.now) }
{
    let item = Item::decode(alloc, message)?;
    let message = message_of(item)?;
    let text = sending(message).encode(alloc)?;
    Ok(text)
}
