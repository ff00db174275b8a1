//! Nodes: what they are given, and what they answer, as encodings and numbers.

ghost use Rattle.std.specs.Prelude.{◌≡◌, ◌⊎◌, ◌++◌, IfErr, IfOk, List, None, OnErr, OnOk, Some, nat_eq, slice_get};
ghost use Rattle.std.specs.List.{All, flat_map};
ghost use Rattle.std.specs.Map.{lookup};
ghost use Rattle.outcome.specs.Outcome.{Fails, Gives, Leaves, told_as};
ghost use Rattle.evidence_item.specs.Checking.{IsChecked};
ghost use Rattle.evidence_item.specs.Validity.{IsValid};
ghost use Rattle.evidence_set.specs.Challenges.{Answers};
ghost use Rattle.challenges.specs.Answers.{IsAnswered, IsRefused, answer_fault};
ghost use Rattle.challenges.specs.declared.fault.AnswerFault.{AnswerFault as TheAnswerFault};
ghost use Rattle.item_forms.specs.declared.forms.Fields.TheVariants as form;
ghost use Rattle.item_forms.specs.Spelling.{Fits, FitsEntry, entry_spelling, spelling};
ghost use Rattle.messages.specs.declared.message.Message.{Message as TheMessage};
ghost use Rattle.messages.specs.Messages.{is_same_message};
ghost use Rattle.commitment.specs.Nodes.{checkpointed, rekeyed};
ghost use Rattle.byte_calls.specs.declared.refusal.Refusal.TheVariants.{Memory, OutOfRange, TooLong, WrongKey};
ghost use Rattle.byte_calls.specs.Nodes.{AcknowledgesSent, Replies, RefusesLog, RefusesReply, accepted, ack_in, begun, evident_ack, evident_in, is_sent, key_of, key_text_of, known, log_text, of_length, ticked_by};
ghost use Rattle.byte_calls.specs.Refusals.{of_answering, of_node};

use crate::refusal::Refusal;
use crate::stores::read_item;
use authenticators::laws::the_test_is_signed;
use authenticators::{Directory, NodeId};
use challenges::answer as answer_challenge;
use commitment::{Ack, Message, Node};
use evidence_item::{Checked, check_item};
use item_forms::{AckItem, Fields, Form, Item, write_entry};
use lms_sign::{LmsType, OtsType, SecretKey};
use log_chain::laws::bytes_fit;
use log_chain::{Entry, FieldWriter, LONGEST_CONTENT};
use replay_verifier::Program;
use std::alloc::Global;

/// Returns the bytes, or `WrongLength` if there are not 32.
pub(crate) fn seed_of(bytes: &[u8]) -> Result<[u8; 32], Refusal>
    ensures { Gives Memory (λ seed. seed) result (of_length 32 bytes.now) }
{
    match <[u8; 32]>::try_from(bytes) {
        Ok(seed) => Ok(seed),
        Err(_) => Err(Refusal::WrongLength),
    }
}

/// Returns the bytes, or `WrongLength` if there are not 16.
fn key_id_of(bytes: &[u8]) -> Result<[u8; 16], Refusal>
    ensures { Gives Memory (λ id. id) result (of_length 16 bytes.now) }
{
    match <[u8; 16]>::try_from(bytes) {
        Ok(id) => Ok(id),
        Err(_) => Err(Refusal::WrongLength),
    }
}

/// Makes the key of two typecodes (RFC 8554, sections 4.1 and 5.1), an identifier of 16 bytes and a seed of 32. No leaf of it has signed.
///
/// It reports the first of these:
///
/// - `UnknownLmsType` (2) or `UnknownOtsType` (3), if a typecode is unknown.
/// - `WrongLength` (117), if the identifier or the seed has another length.
/// - `HeightTooLarge` (4), if the tree is higher than 10.
///
/// `Memory` (99) may come in place of the key.
#[tactic(auto, unfolding(crate::specs::Nodes::key_of))]
pub fn secret_key(
    alloc: Global,
    lms_type: u32,
    ots_type: u32,
    id: &[u8],
    seed: &[u8],
) -> Result<SecretKey, Refusal>
    ensures { Gives Memory (λ key. key) result (key_of lms_type ots_type id.now seed.now) }
{
    let Some(lms_type) = LmsType::from_typecode(lms_type) else {
        return Err(Refusal::UnknownLmsType);
    };
    let Some(ots_type) = OtsType::from_typecode(ots_type) else {
        return Err(Refusal::UnknownOtsType);
    };
    let id = key_id_of(id)?;
    let seed = seed_of(seed)?;
    if lms_type.height() > 10 {
        return Err(Refusal::HeightTooLarge);
    }
    match SecretKey::make(alloc, lms_type, ots_type, id, seed) {
        Ok(key) => Ok(key),
        Err(_) => Err(Refusal::Memory),
    }
}

/// Returns the 56 bytes of the public key of such a key (RFC 8554, section 5.3). It refuses as [`secret_key`] does.
#[tactic(auto, unfolding(crate::specs::Nodes::key_text_of))]
pub fn public_key(
    alloc: Global,
    lms_type: u32,
    ots_type: u32,
    id: &[u8],
    seed: &[u8],
) -> Result<[u8; 56], Refusal>
    ensures { Gives Memory (λ key. key) result (key_text_of lms_type ots_type id.now seed.now) }
{
    let key = secret_key(alloc, lms_type, ots_type, id, seed)?;
    Ok(key.public_key().to_bytes())
}

/// Begins node `id` of the directory with this encoding. Its log has INIT with the number `first_seq`.
///
/// It reports the first of these, or `Memory` (99) if memory runs out:
///
/// - The refusal of the directory's encoding (2, 3, 20 to 26).
/// - `NodeNotListed` (30), if the directory does not list the node.
/// - `WrongKey` (31), if the directory does not list the key for the node, or the key has signed already.
#[tactic(auto, unfolding(crate::specs::Nodes::begun))]
pub fn begin<P: Program + Drop>(
    alloc: Global,
    program: P,
    directory: &[u8],
    id: u32,
    first_seq: u64,
    key: SecretKey,
) -> Result<Node<P>, Refusal>
    ensures { Gives Memory (λ node. node) result (begun P.means directory.now id first_seq key) }
{
    let directory = Directory::from_bytes(alloc, directory)?;
    match Node::new(alloc, program, directory, NodeId(id), key, first_seq) {
        Ok(node) => Ok(node),
        Err(refused) => Err(Refusal::from(refused.fault)),
    }
}

/// Ticks the node's timer. The messages that the node sends wait in it ([`waiting`], [`message`]). `entropy` is 32 random bytes, fresh for
/// each call.
///
/// It reports the first of these, and a refused call changes nothing:
///
/// - `WrongLength` (117), if `entropy` has another length.
/// - `KeySpent` (36), if the key has fewer leaves than there are messages.
/// - `LogFull` (37), if the log has no room for the entries.
///
/// `Memory` (99) may come in place of the result, or of the last two.
#[tactic(auto, unfolding(crate::specs::Nodes::ticked_by))]
pub fn tick<P: Program + Drop>(
    node: &mut Node<P>,
    moment: u64,
    entropy: &[u8],
) -> Result<(), Refusal>
    ensures { Leaves Memory result node.old node.new (ticked_by P.means node.old moment entropy.now) }
{
    let entropy = seed_of(entropy)?;
    let _messages = node.timer(moment, entropy)?;
    Ok(())
}

/// Logs a checkpoint, and returns its number. It refuses with `LogFull` (37) if the log is full. A refused call changes nothing.
pub fn checkpoint<P: Program + Drop>(node: &mut Node<P>) -> Result<u64, Refusal>
    ensures done { IfOk result (λ seq. checkpointed P.means node.old ≡ Ok (node.new, seq)) }
    ensures refused { IfErr result (λ f. Fails Memory f (told_as of_node (checkpointed P.means node.old))) }
    ensures unchanged { OnErr result (node.new ≡ node.old) }
{
    let seq = node.checkpoint()?;
    Ok(seq)
}

/// Makes the node sign by this key from now on. It refuses with `WrongKey` (31) if the directory does not list the key for the node, if the
/// key is or was in use, or if it has signed already. A refused call changes nothing.
pub fn next_key<P: Program + Drop>(node: &mut Node<P>, key: SecretKey) -> Result<(), Refusal>
    ensures { Leaves Memory result node.old node.new (known WrongKey (rekeyed node.old key)) }
{
    match node.next_key(key) {
        Ok(()) => Ok(()),
        Err(_) => Err(Refusal::WrongKey),
    }
}

/// Returns the number of the message at the place, from 0, among those that wait for their acknowledgements. It refuses with `OutOfRange`
/// (116) if fewer wait.
pub fn waiting<P: Program + Drop>(node: &Node<P>, place: usize) -> Result<u64, Refusal>
    ensures told { IfOk result (λ seq. slice_get node.now.account.unacknowledged place ≡ Some seq) }
    ensures refused { IfErr result (λ f. (f ≡ OutOfRange) × (slice_get node.now.account.unacknowledged place ≡ None)) }
{
    match node.unacknowledged().get(place) {
        Some(seq) => Ok(*seq),
        None => Err(Refusal::OutOfRange),
    }
}

/// Returns the encoding of a message that the node sent, as a send challenge. It refuses with `OutOfRange` (116) if the node sent no message
/// with this number, and with `TooLong` (42) if the message is above the limits of an item.
pub fn message<P: Program + Drop>(
    alloc: Global,
    node: &Node<P>,
    seq: u64,
) -> Result<Vec<u8>, Refusal>
    ensures text { IfOk result (λ text. (m : TheMessage) × (lookup (nat_eq seq) node.now.account.sent ≡ Some m) × Fits (form.Send m) × (text.items ≡ spelling (form.Send m))) }
    ensures refused { IfErr result (λ f. (f ≡ Memory) ⊎ ((f ≡ OutOfRange) × (lookup (nat_eq seq) node.now.account.sent ≡ None)) ⊎ ((f ≡ TooLong) × ((m : TheMessage) × (lookup (nat_eq seq) node.now.account.sent ≡ Some m) × ¬ (Fits (form.Send m))))) }
{
    let Some(message) = node.message(seq) else {
        return Err(Refusal::OutOfRange);
    };
    let copy = message.try_clone(alloc)?;
    let Ok(item) = Item::send(copy) else {
        return Err(Refusal::TooLong);
    };
    let text = item.encode(alloc)?;
    Ok(text)
}

/// Writes an entry as a segment has it.
fn put_entry(writer: &mut FieldWriter, entry: &Entry) -> Result<(), Refusal>
    ensures written { OnOk result (writer.new ≡ writer.old ++ entry_spelling entry.now) }
    ensures refused { IfErr result (λ f. (f ≡ Memory) ⊎ ((f ≡ TooLong) × ¬ (FitsEntry entry.now))) }
{
    let _seq = entry.seq;
    let _kind = entry.kind;
    let content = entry.content.as_slice();
    bytes_fit(content);
    if content.len() > LONGEST_CONTENT {
        return Err(Refusal::TooLong);
    }
    write_entry(writer, entry)?;
    Ok(())
}

fn put_entries(writer: &mut FieldWriter, entries: &[Entry]) -> Result<(), Refusal>
    ensures written { OnOk result (writer.new ≡ writer.old ++ flat_map entry_spelling entries.now) }
    ensures refused { IfErr result (λ f. (f ≡ Memory) ⊎ ((f ≡ TooLong) × ¬ (All FitsEntry entries.now))) }
{
    for entry in entries {
        put_entry(writer, entry)?;
    }
    Ok(())
}

/// Returns the entries of the node's log, in their order, each as a segment has it. The node signs nothing for that. It answers an audit
/// challenge by a signed segment ([`answer`]). The call refuses with `TooLong` (42) if an entry is too long for a segment.
pub fn history<P: Program + Drop>(alloc: Global, node: &Node<P>) -> Result<Vec<u8>, Refusal>
    ensures text { IfOk result (λ text. text.items ≡ log_text node.now) }
    ensures refused { IfErr result (λ f. RefusesLog node.now f) }
{
    let mut writer = FieldWriter::new(alloc);
    put_entries(&mut writer, node.history().entries())?;
    Ok(writer.finish())
}

/// Returns what the node answers to a checked challenge.
fn reply<P: Program + Drop>(
    alloc: Global,
    node: &mut Node<P>,
    challenge: &Checked<P>,
    entropy: [u8; 32],
) -> Result<Item, Refusal>
    requires { IsChecked node.old.directory P.means challenge.now }
    ensures done { IfOk result (λ item. (sent : List TheMessage) × IsAnswered P.means node.old challenge.now.item.fields entropy node.new item.fields sent) }
    ensures valid { IfOk result (λ item. IsValid node.old.directory item.fields) }
    ensures answers { IfOk result (λ item. Answers node.old.directory challenge.now.item.fields item.fields) }
    ensures allowed { OnOk result (answer_fault node.old.account.me node.old.account.entries challenge.now.item.fields ≡ None) }
    ensures refused { IfErr result (λ f. (e : TheAnswerFault) × IsRefused P.means node.old challenge.now.item.fields entropy e × (f ≡ of_answering e)) }
    ensures unchanged { OnErr result (node.new ≡ node.old) }
{
    match answer_challenge(alloc, node, challenge, entropy) {
        Ok(answer) => Ok(answer.item),
        Err(fault) => Err(Refusal::from(fault)),
    }
}

/// Answers the challenge with this encoding, by an item that closes it. The answer to a send challenge is the acknowledgement of its message.
/// The answer to an audit challenge is a segment of the log. The same message again gets the same acknowledgement. `entropy` is 32 random
/// bytes, fresh for each call.
///
/// It reports the first of these, or `Memory` (99) if memory runs out. A refused call changes nothing:
///
/// - `WrongLength` (117), if `entropy` has another length.
/// - The refusal of the encoding (40 to 43), or of its item (44 to 49).
/// - `NoAnswerNeeded` (72), `NotForMe` (70), `NotInLog` (71), `KeySpent` (36) or `LogFull` (37), as `challenges::answer` refuses.
pub fn answer<P: Program + Drop>(
    alloc: Global,
    node: &mut Node<P>,
    program: &P,
    challenge: &[u8],
    entropy: &[u8],
) -> Result<Item, Refusal>
    ensures answered { IfOk result (λ item. Replies P.means challenge.now entropy.now item.fields node.old node.new) }
    ensures refused { IfErr result (λ f. (f ≡ Memory) ⊎ RefusesReply P.means challenge.now entropy.now node.old f) }
    ensures unchanged { OnErr result (node.new ≡ node.old) }
{
    let entropy = seed_of(entropy)?;
    let checked = read_item(alloc, program, node.directory(), challenge)?;
    reply(alloc, node, &checked, entropy)
}

// ---- acknowledgements

/// Returns the acknowledgement that the item is, or `BadTag` if it is another item.
fn ack_of(item: Item) -> Result<AckItem, Refusal>
    ensures { Gives Memory (λ ack. ack) result (ack_in item.fields) }
{
    let Fields::Ack(ack) = item.into_fields() else {
        return Err(Refusal::BadTag);
    };
    Ok(ack)
}

/// Returns the same if the item is evidence under the directory, else `BadAck`.
#[tactic(auto, unfolding(crate::specs::Nodes::evident_in))]
fn evident<P: Program>(
    alloc: Global,
    program: &P,
    directory: &Directory,
    item: Item,
) -> Result<AckItem, Refusal>
    ensures exact { Gives Memory (λ ack. ack) result (evident_in directory.now item.fields) }
    ensures valid { IfOk result (λ ack. IsValid directory.now (form.Ack ack)) }
{
    let Form::Ack(_) = item.form() else {
        return Err(Refusal::BadTag);
    };
    let Ok(checked) = check_item(alloc, program, directory, item) else {
        return Err(Refusal::BadAck);
    };
    ack_of(checked.into_item())
}

/// Reads the encoding of an acknowledgement, if it is evidence under the directory.
#[tactic(auto, unfolding(crate::specs::Nodes::evident_ack))]
fn read_ack<P: Program>(
    alloc: Global,
    program: &P,
    directory: &Directory,
    text: &[u8],
) -> Result<AckItem, Refusal>
    ensures exact { Gives Memory (λ ack. ack) result (evident_ack directory.now text.now) }
    ensures valid { IfOk result (λ ack. IsValid directory.now (form.Ack ack)) }
    ensures spelled { IfOk result (λ ack. text.now ≡ spelling (form.Ack ack)) }
{
    let item = Item::decode(alloc, text)?;
    evident(alloc, program, directory, item)
}

/// Returns whether the two messages are the same in all six fields.
fn is_same(one: &Message, other: &Message) -> bool
    ensures { result ≡ is_same_message one.now other.now }
{
    one.from == other.from
        && one.to == other.to
        && one.seq == other.seq
        && one.prev == other.prev
        && one.sig == other.sig
        && one.payload == other.payload
}

/// Returns whether the node sent this very message.
fn is_sent<P: Program + Drop>(node: &Node<P>, message: &Message) -> bool
    ensures { result ≡ is_sent node.now message.now }
{
    match node.message(message.seq) {
        None => false,
        Some(sent) => is_same(sent, message),
    }
}

/// Accepts the acknowledgement with this encoding: its message waits no longer.
///
/// It reports the first of these, or `Memory` (99) if memory runs out. A refused call changes nothing:
///
/// - The refusal of the encoding (40 to 43).
/// - `BadTag` (41), if it is another item.
/// - `BadAck` (38), if it is no evidence under the node's directory, or if its message is not, byte by byte, one that the node sent.
#[tactic(auto, unfolding(crate::specs::Nodes::accepted))]
pub fn accept<P: Program + Drop>(
    alloc: Global,
    node: &mut Node<P>,
    program: &P,
    ack: &[u8],
) -> Result<(), Refusal>
    ensures exact { Leaves Memory result node.old node.new (accepted node.old ack.now) }
    // A store under the same directory takes what is accepted.
    ensures evidence { OnOk result (AcknowledgesSent node.old ack.now) }
{
    the_test_is_signed();
    let item = read_ack(alloc, program, node.directory(), ack)?;
    if !is_sent(node, &item.message) {
        return Err(Refusal::BadAck);
    }
    let AckItem {
        message,
        seq,
        prev,
        sig,
    } = item;
    let ack = Ack {
        from: message.to,
        send_seq: message.seq,
        seq,
        prev,
        sig,
    };
    match node.accept_ack(&ack) {
        Ok(()) => Ok(()),
        Err(fault) => Err(Refusal::from(fault)),
    }
}
