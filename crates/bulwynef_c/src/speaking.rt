//! Nodes behind handles: what they say to one another and to witnesses, and what they have logged.

ghost use Rattle.std.specs.Prelude.{◌≡◌, ◌⊎◌, IfErr, IfOk, Ok, OnErr, OnOk, false, is_some, true};
ghost use Rattle.outcome.specs.Outcome.{Fails};
ghost use Rattle.item_forms.specs.Spelling.{spelling};
ghost use Rattle.byte_calls.specs.declared.refusal.Refusal.TheVariants.{Memory};
ghost use Rattle.byte_calls.specs.Nodes.{RefusesLog, RefusesReply, Replies, accepted, log_text};
ghost use Rattle.bulwynef_c.specs.Calls.{Accepts, HasReplied, RepliesBy, ReplyFails, Sends, SendFails, Waits, WaitFails};
ghost use Rattle.bulwynef_c.specs.Handles.{Both, Is, IsNode, IsText, NodeBecomes, NodeRefuses, Says};

use crate::handle::Handle;
use crate::object::Object;
use crate::taking::{put, put_answer, refusal_number, taken};
use byte_calls::{Refusal, nodes};
use item_forms::Item;
use mailbox::Mailbox;
use ref_programs::{Relay, Tally};
use std::alloc::Global;

fn waiting(object: &Object, place: usize) -> Result<u64, Refusal>
    ensures told { IfOk result (λ seq. IsNode (λ S p n. Waits place seq n) object.now) }
    ensures refused { IfErr result (λ f. NodeRefuses (λ S p n e. WaitFails place n e) object.now f) }
{
    match object {
        Object::TallyNode(node) => nodes::waiting(node, place),
        Object::RelayNode(node) => nodes::waiting(node, place),
        Object::MailboxNode(node) => nodes::waiting(node, place),
        _ => Err(Refusal::OtherKind),
    }
}

/// `uint8_t bulwynef_node_waiting(struct bulwynef_handle *node, size_t place, uint64_t *seq)`: writes the number of the message at the
/// place, from 0, among those that wait for their acknowledgements. It refuses with 116 if fewer wait.
#[unsafe(no_mangle)]
pub extern "C" fn bulwynef_node_waiting(
    alloc: Global,
    node: &mut Handle,
    place: usize,
    seq: &mut u64,
) -> u8
    ensures told { result ≡ 0 → Is (IsNode (λ S p n. Waits place seq.new n)) node.old.value }
    ensures number { (result ≡ 0 → ⊥) → Says (NodeRefuses (λ S p n e. WaitFails place n e)) node.old.value result }
    ensures unwritten { (result ≡ 0 → ⊥) → seq.new ≡ seq.old }
    ensures unchanged { node.new.value ≡ node.old.value }
{
    let Some(object) = taken(alloc, node) else {
        return refusal_number(Refusal::Closed);
    };
    let answer = waiting(&object, place);
    *node = Handle::of(object);
    match answer {
        Ok(found) => {
            *seq = found;
            0
        }
        Err(refusal) => refusal_number(refusal),
    }
}

fn message_text(alloc: Global, object: &Object, seq: u64) -> Result<Vec<u8>, Refusal>
    ensures text { IfOk result (λ text. IsNode (λ S p n. Sends seq text.items n) object.now) }
    ensures refused { IfErr result (λ f. NodeRefuses (λ S p n e. SendFails seq n e) object.now f) }
{
    match object {
        Object::TallyNode(node) => nodes::message(alloc, node, seq),
        Object::RelayNode(node) => nodes::message(alloc, node, seq),
        Object::MailboxNode(node) => nodes::message(alloc, node, seq),
        _ => Err(Refusal::OtherKind),
    }
}

/// `uint8_t bulwynef_node_message(struct bulwynef_handle *node, uint64_t seq, struct bulwynef_handle *text)`: gives a message that the node
/// sent, as a send challenge, an item of tag 4. It refuses with 116 if the node sent no message with this number, and with 42 if the message
/// is above the limits of an item.
#[unsafe(no_mangle)]
pub extern "C" fn bulwynef_node_message(
    alloc: Global,
    node: &mut Handle,
    seq: u64,
    text: &mut Handle,
) -> u8
    ensures text { result ≡ 0 → Is (λ x. Is (IsText (λ t. IsNode (λ S p n. Sends seq t n) x)) text.new.value) node.old.value }
    ensures still_open { is_some text.old.value ≡ true → result ≡ 114 }
    ensures number { is_some text.old.value ≡ false → (result ≡ 0 → ⊥) → (result ≡ 99) ⊎ Says (NodeRefuses (λ S p n e. SendFails seq n e)) node.old.value result }
    ensures refused { (result ≡ 0 → ⊥) → text.new.value ≡ text.old.value }
    ensures node { node.new.value ≡ node.old.value }
{
    put_answer!(alloc, node, text, object => message_text(alloc, &object, seq))
}

fn log_of(alloc: Global, object: &Object) -> Result<Vec<u8>, Refusal>
    ensures text { IfOk result (λ text. IsNode (λ S p n. text.items ≡ log_text n) object.now) }
    ensures refused { IfErr result (λ f. NodeRefuses (λ S p n e. RefusesLog n e) object.now f) }
{
    match object {
        Object::TallyNode(node) => nodes::history(alloc, node),
        Object::RelayNode(node) => nodes::history(alloc, node),
        Object::MailboxNode(node) => nodes::history(alloc, node),
        _ => Err(Refusal::OtherKind),
    }
}

/// `uint8_t bulwynef_node_history(struct bulwynef_handle *node, struct bulwynef_handle *text)`: gives the entries of the node's log, in
/// their order, each as a segment has it. It refuses with 42 if an entry is too long for a segment.
#[unsafe(no_mangle)]
pub extern "C" fn bulwynef_node_history(alloc: Global, node: &mut Handle, text: &mut Handle) -> u8
    ensures text { result ≡ 0 → Is (λ x. Is (IsText (λ t. IsNode (λ S p n. t ≡ log_text n) x)) text.new.value) node.old.value }
    ensures still_open { is_some text.old.value ≡ true → result ≡ 114 }
    ensures number { is_some text.old.value ≡ false → (result ≡ 0 → ⊥) → (result ≡ 99) ⊎ Says (NodeRefuses (λ S p n e. RefusesLog n e)) node.old.value result }
    ensures refused { (result ≡ 0 → ⊥) → text.new.value ≡ text.old.value }
    ensures node { node.new.value ≡ node.old.value }
{
    put_answer!(alloc, node, text, object => log_of(alloc, &object))
}

fn reply(
    alloc: Global,
    object: &mut Object,
    challenge: &[u8],
    entropy: &[u8],
) -> Result<Item, Refusal>
    ensures answered { IfOk result (λ item. NodeBecomes (λ S p n m. Replies p challenge.now entropy.now item.fields n m) object.old object.new) }
    ensures refused { IfErr result (λ f. NodeRefuses (λ S p n e. ReplyFails challenge.now entropy.now p n e) object.old f) }
    ensures unchanged { OnErr result (object.new ≡ object.old) }
{
    match object {
        Object::TallyNode(node) => nodes::answer(alloc, node, &Tally, challenge, entropy),
        Object::RelayNode(node) => nodes::answer(alloc, node, &Relay, challenge, entropy),
        Object::MailboxNode(node) => nodes::answer(alloc, node, &Mailbox, challenge, entropy),
        _ => Err(Refusal::OtherKind),
    }
}

/// `uint8_t bulwynef_node_answer(struct bulwynef_handle *node, const uint8_t *challenge, size_t challenge_len, const uint8_t *entropy,
/// size_t entropy_len, struct bulwynef_handle *text)`: answers a challenge. The answer to a send challenge is an acknowledgement, an item of
/// tag 5. The answer to an audit challenge is a segment, an item of tag 2. It refuses as `byte_calls::nodes::answer` does. If it returns 99,
/// the node is as it was, or it has answered and memory ran out for the text alone. Then the same call again gives the same answer.
#[unsafe(no_mangle)]
pub extern "C" fn bulwynef_node_answer(
    alloc: Global,
    node: &mut Handle,
    challenge: &[u8],
    entropy: &[u8],
    text: &mut Handle,
) -> u8
    ensures answered { result ≡ 0 → Is (IsText (λ t. Both (NodeBecomes (λ S p n m. RepliesBy challenge.now entropy.now t p n m)) node.old.value node.new.value)) text.new.value }
    ensures still_open { is_some text.old.value ≡ true → result ≡ 114 }
    ensures number { is_some text.old.value ≡ false → (result ≡ 0 → ⊥) → (result ≡ 99) ⊎ Says (NodeRefuses (λ S p n e. ReplyFails challenge.now entropy.now p n e)) node.old.value result }
    ensures kept { (result ≡ 0 → ⊥) → (result ≡ 99 → ⊥) → node.new.value ≡ node.old.value }
    // If memory runs out, the node is as it was, or it has answered and the answer is lost.
    ensures spent { result ≡ 99 → (node.new.value ≡ node.old.value) ⊎ Both (NodeBecomes (λ S p n m. HasReplied challenge.now entropy.now p n m)) node.old.value node.new.value }
    ensures refused { (result ≡ 0 → ⊥) → text.new.value ≡ text.old.value }
{
    if text.is_open() {
        return refusal_number(Refusal::StillOpen);
    }
    let Some(mut object) = taken(alloc, node) else {
        return refusal_number(Refusal::Closed);
    };
    let answer = reply(alloc, &mut object, challenge, entropy);
    *node = Handle::of(object);
    match answer {
        Ok(item) => match item.encode(alloc) {
            Ok(bytes) => put(alloc, text, Object::Text(bytes)),
            Err(_) => 99,
        },
        Err(refusal) => refusal_number(refusal),
    }
}

fn accept(alloc: Global, object: &mut Object, ack: &[u8]) -> Result<(), Refusal>
    ensures done { OnOk result (NodeBecomes (λ S p n m. Accepts ack.now n m) object.old object.new) }
    ensures refused { IfErr result (λ f. NodeRefuses (λ S p n e. Fails Memory e (accepted n ack.now)) object.old f) }
    ensures unchanged { OnErr result (object.new ≡ object.old) }
{
    match object {
        Object::TallyNode(node) => nodes::accept(alloc, node, &Tally, ack),
        Object::RelayNode(node) => nodes::accept(alloc, node, &Relay, ack),
        Object::MailboxNode(node) => nodes::accept(alloc, node, &Mailbox, ack),
        _ => Err(Refusal::OtherKind),
    }
}

/// `uint8_t bulwynef_node_accept_ack(struct bulwynef_handle *node, const uint8_t *ack, size_t ack_len)`: accepts an acknowledgement, an item
/// of tag 5: its message waits no longer. A store takes the acknowledgement, and its message is, byte by byte, one that the node sent. It
/// refuses as `byte_calls::nodes::accept` does (40 to 43, 38).
#[unsafe(no_mangle)]
pub extern "C" fn bulwynef_node_accept_ack(alloc: Global, node: &mut Handle, ack: &[u8]) -> u8
    ensures done { result ≡ 0 → Both (NodeBecomes (λ S p n m. Accepts ack.now n m)) node.old.value node.new.value }
    ensures number { (result ≡ 0 → ⊥) → Says (NodeRefuses (λ S p n e. Fails Memory e (accepted n ack.now))) node.old.value result }
    ensures refused { (result ≡ 0 → ⊥) → node.new.value ≡ node.old.value }
{
    let Some(mut object) = taken(alloc, node) else {
        return refusal_number(Refusal::Closed);
    };
    let answer = accept(alloc, &mut object, ack);
    *node = Handle::of(object);
    match answer {
        Ok(()) => 0,
        Err(refusal) => refusal_number(refusal),
    }
}
