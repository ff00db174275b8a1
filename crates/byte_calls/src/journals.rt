//! Journals of nodes: the bytes that a host writes before it calls a node, and the node of a journal's bytes.
//!
//! The host owns the file, and does all writing and syncing. `docs/FORMATS.md` has the file and its texts. The host takes these steps for each
//! call of a node that signs or logs:
//!
//! 1. It makes the text of the record ([`record_timer`], [`record_answer`], [`record_checkpoint`], [`record_next_key`]).
//! 2. It writes the text's [`block`] behind the closed gate with a closed gate in the place of the block's own, and a closed gate behind it,
//!    and syncs. It opens the gate, and syncs.
//! 3. It makes the call of [`nodes`](crate::nodes), with the same input and the same entropy.
//! 4. It sends what the node answers.
//!
//! An acknowledgement is accepted first ([`accept`](crate::nodes::accept)), and only then recorded ([`record_ack`]), before any further call.
//! Nothing is signed of it, and its record lacks the message that the node compares.
//!
//! If the call runs out of memory, the record is written and the call is not done. A node that went on would sign other texts than the
//! rebuilt one, so the host rebuilds the node of the journal ([`rebuild`]).

ghost use Rattle.std.specs.Prelude.{◌≡◌, ◌<◌, ◌^◌, ◌/◌, IfOk, Ok, length};
ghost use Rattle.outcome.specs.Outcome.{Gives};
ghost use Rattle.lms_sign.specs.Signing.{public_key};
ghost use Rattle.journal.specs.Journal.{block_of, ends_closed, recovered, texts_of};
ghost use Rattle.item_forms.specs.Spelling.{FitsMessage};
ghost use Rattle.node_journals.specs.Records.{FitsRecordedAck};
ghost use Rattle.byte_calls.specs.declared.refusal.Refusal.TheVariants.{Memory};
ghost use Rattle.byte_calls.specs.Journals.{acceptance_text, acked_in, block_text, challenged_in, checkpoint_text, end_of, first_text, knows, receipt_text, rekeying_text, restored, secret_in, secrets_in, secrets_of, texts_in, tick_text};
ghost use Rattle.byte_calls.specs.within.Blocks.{first_len};

use crate::items::read_auth;
use crate::nodes::{secret_key, seed_of};
use crate::refusal::Refusal;
use authenticators::{Directory, NodeId};
use commitment::{Ack, Message, Node};
use item_forms::{AckItem, Fields, Item};
use journal::MOST_GROUP;
use lms_sign::SecretKey;
use log_chain::laws::bytes_fit;
use node_journals::{Beginning, DraftFault, Recorded, Secret, is_safe_to_resume};
use replay_verifier::Program;
use std::alloc::{AllocError, Global};

/// How many bytes a block takes beside its text.
const HEAD: usize = 9;

/// An open gate.
const OPEN: u8 = 255;

/// How many bytes the identifier of a key and its seed take.
const SECRET_LEN: usize = 48;

// ---- the bytes of a journal

/// Returns the open block of a text.
fn open_block(alloc: Global, text: &[u8]) -> Result<Vec<u8>, AllocError>
    requires { length text.now < 2 ^ 32 }
    ensures { IfOk result (λ block. block.items ≡ block_of text.now) }
{
    let size = text.len() as u32;
    let mut block = Vec::new(alloc);
    block.push(OPEN)?;
    block.extend_from_slice(&size.to_be_bytes())?;
    block.extend_from_slice(&(u32::MAX - size).to_be_bytes())?;
    block.extend_from_slice(text)?;
    Ok(block)
}

/// Returns the open block of a text: the bytes that stand for the text in a journal.
///
/// It reports `TooLong` (42) if the block is longer than 8,388,608 bytes. No crash leaves so many bytes behind a closed gate.
pub fn block(alloc: Global, text: &[u8]) -> Result<Vec<u8>, Refusal>
    ensures { Gives Memory (λ block. block.items) result (block_text text.now) }
{
    if text.len() > MOST_GROUP - HEAD {
        return Err(Refusal::TooLong);
    }
    let block = open_block(alloc, text)?;
    Ok(block)
}

/// Returns how many bytes the text of the first block has, or `None` if no block counts there.
fn first_len(bytes: &[u8]) -> Option<usize>
    ensures { result ≡ first_len bytes.now }
{
    let [gate, a, b, c, d, e, f, g, h, rest @ ..] = bytes else {
        return None;
    };
    let size = u32::from_be_bytes([*a, *b, *c, *d]) as usize;
    let lack = u32::from_be_bytes([*e, *f, *g, *h]) as usize;
    if *gate == 0 || size + lack != u32::MAX as usize || rest.len() < size {
        return None;
    }
    Some(size)
}

/// Returns whether the bytes are a closed gate and at most a group behind it.
fn is_closed_end(bytes: &[u8]) -> bool
    ensures { result ≡ ends_closed bytes.now }
{
    match bytes {
        [gate, behind @ ..] => *gate == 0 && behind.len() <= MOST_GROUP,
        [] => false,
    }
}

/// Returns the place of the closed gate in the bytes of a journal: how many bytes the blocks take. It is 0 for a new file. What stands
/// behind the gate counts for nothing, and the host cuts it off.
///
/// It reports `Damaged` (122) exactly if no crash leaves such a file. It takes no memory.
pub fn end(journal: &[u8]) -> Result<usize, Refusal>
    ensures { result ≡ end_of journal.now }
{
    let mut end = 0;
    while let Some(len) = first_len(&journal[end..]) {
        end = end + HEAD + len;
    }
    if journal.len() > 1 && !is_closed_end(&journal[end..]) {
        return Err(Refusal::Damaged);
    }
    Ok(end)
}

/// Returns the texts of the blocks that count.
fn recovered(alloc: Global, journal: &[u8]) -> Result<Vec<Vec<u8>>, AllocError>
    ensures { IfOk result (λ texts. texts_of texts.items ≡ recovered journal.now) }
{
    let mut texts = Vec::new(alloc);
    let mut at = 0;
    while let Some(len) = first_len(&journal[at..]) {
        let text = &journal[at + HEAD..at + HEAD + len];
        texts.push(text.to_vec(alloc)?)?;
        at = at + HEAD + len;
    }
    Ok(texts)
}

/// Returns the texts of a journal. Refused as [`end`].
fn texts(alloc: Global, journal: &[u8]) -> Result<Vec<Vec<u8>>, Refusal>
    ensures { Gives Memory (λ texts. texts_of texts.items) result (texts_in journal.now) }
{
    let _end = end(journal)?;
    let texts = recovered(alloc, journal)?;
    Ok(texts)
}

// ---- the first text

/// Returns the first text of the journal of a node: the node's number in the directory of a text, the number of its first entry, and the
/// key with which it begins to sign. The text has no seed.
///
/// It reports the refusal of the directory's text (2, 3, 20 to 26), or `TooLong` (42) if the program's name has more than 255 bytes. It
/// does not test that the directory lists the node with this key: [`rebuild`] does.
#[tactic(auto, unfolding(crate::specs::Journals::first_text))]
pub fn beginning(
    alloc: Global,
    name: &str,
    directory: &[u8],
    id: u32,
    first_seq: u64,
    key: &SecretKey,
) -> Result<Vec<u8>, Refusal>
    ensures { Gives Memory (λ text. text.items) result (first_text name.now directory.now id first_seq (public_key key.now)) }
{
    let directory = Directory::from_bytes(alloc, directory)?;
    let key = key.public_key();
    match Beginning::new(
        alloc,
        name.as_bytes(),
        &directory,
        NodeId(id),
        key,
        first_seq,
    ) {
        Ok(beginning) => {
            let text = beginning.to_bytes(alloc)?;
            Ok(text)
        }
        Err(DraftFault::TooLong) => Err(Refusal::TooLong),
        Err(_) => Err(Refusal::Memory),
    }
}

// ---- the texts of records

/// Returns the text of the record of a tick, which [`tick`](crate::nodes::tick) then does with the same moment and entropy.
///
/// It reports `WrongLength` (117) if the entropy is not 32 bytes.
#[tactic(auto, unfolding(crate::specs::Journals::tick_text))]
pub fn record_timer(alloc: Global, moment: u64, entropy: &[u8]) -> Result<Vec<u8>, Refusal>
    ensures { Gives Memory (λ text. text.items) result (tick_text moment entropy.now) }
{
    let entropy = seed_of(entropy)?;
    bytes_fit(&entropy);
    let record = Recorded::Ticked(moment, entropy);
    let text = record.to_bytes(alloc)?;
    Ok(text)
}

/// Returns the message of a send challenge.
fn challenged_in(item: Item) -> Result<Message, Refusal>
    ensures exact { Gives Memory (λ m. m) result (challenged_in item.fields) }
    ensures fits { IfOk result (λ m. FitsMessage m) }
{
    let Fields::Send(message) = item.into_fields() else {
        return Err(Refusal::BadTag);
    };
    Ok(message)
}

/// Returns the text of the record of a message, which [`answer`](crate::nodes::answer) then answers with the same entropy. The message is
/// given as the text of an item of tag 4. The answer to an audit challenge changes nothing of a node, and has no record.
///
/// It reports the first of these refusals: `WrongLength` (117) if the entropy is not 32 bytes; that of the item's text (40 to 43);
/// `BadTag` (41) if it is another item.
#[tactic(auto, unfolding(crate::specs::Journals::receipt_text))]
pub fn record_answer(alloc: Global, challenge: &[u8], entropy: &[u8]) -> Result<Vec<u8>, Refusal>
    ensures { Gives Memory (λ text. text.items) result (receipt_text challenge.now entropy.now) }
{
    let entropy = seed_of(entropy)?;
    bytes_fit(&entropy);
    let item = Item::decode(alloc, challenge)?;
    let message = challenged_in(item)?;
    let record = Recorded::Received(message, entropy);
    let text = record.to_bytes(alloc)?;
    Ok(text)
}

/// Returns what the acknowledgement of an item says without its message.
fn acked_in(item: Item) -> Result<Ack, Refusal>
    ensures exact { Gives Memory (λ ack. ack) result (acked_in item.fields) }
    ensures fits { IfOk result (λ ack. FitsRecordedAck ack) }
{
    let Fields::Ack(
        AckItem {
            message,
            seq,
            prev,
            sig,
        },
    ) = item.into_fields()
    else {
        return Err(Refusal::BadTag);
    };
    Ok(Ack {
        from: message.to,
        send_seq: message.seq,
        seq,
        prev,
        sig,
    })
}

/// Returns the text of the record of an acknowledgement, which [`accept`](crate::nodes::accept) accepted. It is given as the text of an item
/// of tag 5. The record lacks the item's message, so a rebuilt node accepts also an item that the node refused for its message.
///
/// It reports the refusal of the item's text (40 to 43), and `BadTag` (41) if it is another item.
#[tactic(auto, unfolding(crate::specs::Journals::acceptance_text))]
pub fn record_ack(alloc: Global, ack: &[u8]) -> Result<Vec<u8>, Refusal>
    ensures { Gives Memory (λ text. text.items) result (acceptance_text ack.now) }
{
    let item = Item::decode(alloc, ack)?;
    let ack = acked_in(item)?;
    let record = Recorded::Acknowledged(ack);
    let text = record.to_bytes(alloc)?;
    Ok(text)
}

/// Returns the text of the record of a checkpoint, which [`checkpoint`](crate::nodes::checkpoint) then makes.
pub fn record_checkpoint(alloc: Global) -> Result<Vec<u8>, Refusal>
    ensures { Gives Memory (λ text. text.items) result (Ok checkpoint_text) }
{
    let record = Recorded::Checkpointed;
    let text = record.to_bytes(alloc)?;
    Ok(text)
}

/// Returns the text of the record of a further key, by which [`next_key`](crate::nodes::next_key) then has the node sign. The text has
/// the public key, and no seed. Refused as [`secret_key`].
#[tactic(auto, unfolding(crate::specs::Journals::rekeying_text))]
pub fn record_next_key(
    alloc: Global,
    lms_type: u32,
    ots_type: u32,
    id: &[u8],
    seed: &[u8],
) -> Result<Vec<u8>, Refusal>
    ensures { Gives Memory (λ text. text.items) result (rekeying_text lms_type ots_type id.now seed.now) }
{
    let key = secret_key(alloc, lms_type, ots_type, id, seed)?;
    let record = Recorded::Rekeyed(key.public_key());
    let text = record.to_bytes(alloc)?;
    Ok(text)
}

// ---- the node of a journal

/// Returns the identifier and the seed that 48 bytes have.
fn secret_in(bytes: &[u8]) -> Secret
    requires { length bytes.now ≡ 48 }
    ensures { result ≡ secret_in bytes.now }
{
    let mut id = [0u8; 16];
    let mut seed = [0u8; 32];
    id.copy_from_slice(&bytes[..16]);
    seed.copy_from_slice(&bytes[16..]);
    Secret { id, seed }
}

/// Returns the identifiers and the seeds that bytes have, one behind the other.
fn secrets_in(alloc: Global, bytes: &[u8]) -> Result<Vec<Secret>, AllocError>
    ensures { IfOk result (λ secrets. secrets.items ≡ secrets_in (length bytes.now / 48) bytes.now) }
{
    let mut secrets = Vec::new(alloc);
    for k in 0..bytes.len() / SECRET_LEN {
        let at = k * SECRET_LEN;
        secrets.push(secret_in(&bytes[at..at + SECRET_LEN]))?;
    }
    Ok(secrets)
}

/// Returns the same, if nothing is left over.
fn secrets_of(alloc: Global, bytes: &[u8]) -> Result<Vec<Secret>, Refusal>
    ensures { Gives Memory (λ secrets. secrets.items) result (secrets_of bytes.now) }
{
    if bytes.len() % SECRET_LEN != 0 {
        return Err(Refusal::WrongLength);
    }
    let secrets = secrets_in(alloc, bytes)?;
    Ok(secrets)
}

/// Returns the node of a journal's bytes: the one that its first text began, after it was given what the further texts record. `name` is
/// the program's name, as [`beginning`] was given it. `secrets` has 48 bytes for each key of the node: the identifier in 16, the seed in
/// 32. Of keys with one identifier only the first is used.
///
/// It reports the first of these refusals:
///
/// - `WrongLength` (117), if the secrets are no multiple of 48 bytes;
/// - that of the directory's text (2, 3, 20 to 26);
/// - `Damaged` (122), if no crash leaves such a file;
/// - `EmptyJournal` (126), if it has no text, or `NoBeginning` (127), if the first text is no beginning;
/// - `OtherProgram` (123), `JournalDirectory` (124) or `OtherKey` (128), if the node began for a program of another name, under another
///   directory, or with a key that none of the secrets makes;
/// - `NodeNotListed` (30) or `WrongKey` (31), as of [`begin`](crate::nodes::begin);
/// - for each further text, in order, `BadRecord` (129) if it is no record, `OtherKey` if it names a key that none of the secrets makes.
///
/// A call that the node refused before a crash is refused again. That is no refusal here.
///
/// **An old copy of a journal is a danger.** It lacks what the node did after its end. The node would sign other texts with leaves that
/// have signed, and then anybody could forge its signatures. Whoever restores a copy asks all witnesses first ([`knows`]).
#[tactic(auto, unfolding(crate::specs::Journals::restored))]
pub fn rebuild<P: Program + Drop>(
    alloc: Global,
    program: P,
    name: &str,
    directory: &[u8],
    secrets: &[u8],
    journal: &[u8],
) -> Result<Node<P>, Refusal>
    ensures { Gives Memory (λ node. node) result (restored P.means name.now directory.now secrets.now journal.now) }
{
    let secrets = secrets_of(alloc, secrets)?;
    let directory = Directory::from_bytes(alloc, directory)?;
    let texts = texts(alloc, journal)?;
    match node_journals::rebuild(alloc, program, name.as_bytes(), directory, &secrets, &texts) {
        Ok(node) => Ok(node.into_node()),
        Err(fault) => Err(Refusal::from(fault)),
    }
}

/// Returns whether a node knows the statement of a text, an item of tag 1: it is another node's, or this node signed its number and its hash.
///
/// If the node does not know a valid statement, its journal is not whole. Then no key of it may ever sign again. It reports the refusal of
/// the text (40 to 43), and `BadTag` (41) if it is another item.
#[tactic(auto, unfolding(crate::specs::Journals::knows))]
pub fn knows<P: Program + Drop>(
    alloc: Global,
    node: &Node<P>,
    statement: &[u8],
) -> Result<bool, Refusal>
    ensures { Gives Memory (λ known. known) result (knows node.now statement.now) }
{
    let statement = read_auth(alloc, statement)?;
    let held = [statement];
    Ok(is_safe_to_resume(node, &held))
}
