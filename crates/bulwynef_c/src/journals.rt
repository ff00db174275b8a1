//! Journals of nodes: the texts that a host writes before it calls a node, and the node of a journal's bytes.

ghost use Rattle.std.specs.Prelude.{◌≡◌, ◌⊎◌, IfErr, IfOk, Ok, Err, false, is_some, true};
ghost use Rattle.outcome.specs.Outcome.{Fails};
ghost use Rattle.lms_sign.specs.Signing.{PrivateKey};
ghost use Rattle.byte_calls.specs.declared.refusal.Refusal.{Refusal as TheRefusal};
ghost use Rattle.byte_calls.specs.declared.refusal.Refusal.TheVariants.{Memory};
ghost use Rattle.byte_calls.specs.Journals.{acceptance_text, block_text, checkpoint_text, end_of, knows, receipt_text, rekeying_text, tick_text};
ghost use Rattle.byte_calls.specs.Nodes.{key_of};
ghost use Rattle.byte_calls.specs.Refusals.{number_of as refusal_number};
ghost use Rattle.bulwynef_c.specs.Handles.{Is, IsNode, IsText, NodeRefuses, Says};
ghost use Rattle.bulwynef_c.specs.Journals.{FirstTextFails, IsFirstText, IsRestored, KnowFails, Knows, RestoreFails};

use crate::handle::Handle;
use crate::object::Object;
use crate::programs::{Followed, name_of, program_of};
use crate::taking::{put, refusal_number, taken};
use byte_calls::{Refusal, journals, nodes};
use lms_sign::SecretKey;
use mailbox::Mailbox;
use ref_programs::{Relay, Tally};
use std::alloc::Global;

/// Puts a text behind a handle. The handle is tested before the text is made.
macro_rules! put_text {
    ($alloc:expr, $text:expr, $made:expr) => {{
        if $text.is_open() {
            return refusal_number(Refusal::StillOpen);
        }
        match $made {
            Ok(bytes) => put($alloc, $text, Object::Text(bytes)),
            Err(refusal) => refusal_number(refusal),
        }
    }};
}

// ---- the bytes of a journal

/// `uint8_t bulwynef_journal_block(const uint8_t *text, size_t text_len, struct bulwynef_handle *block)`: the open block of a text, which
/// stands for it in a journal.
#[unsafe(no_mangle)]
pub extern "C" fn bulwynef_journal_block(alloc: Global, text: &[u8], block: &mut Handle) -> u8
    ensures block { result ≡ 0 → Is (IsText (λ t. block_text text.now ≡ Ok t)) block.new.value }
    ensures still_open { is_some block.old.value ≡ true → result ≡ 114 }
    ensures number { is_some block.old.value ≡ false → (result ≡ 0 → ⊥) → (f : TheRefusal) × (result ≡ refusal_number f) × Fails Memory f (block_text text.now) }
    ensures refused { (result ≡ 0 → ⊥) → block.new.value ≡ block.old.value }
{
    put_text!(alloc, block, journals::block(alloc, text))
}

/// `uint8_t bulwynef_journal_end(const uint8_t *journal, size_t journal_len, size_t *end)`: the place of the closed gate in a journal's
/// bytes. It takes no memory.
#[unsafe(no_mangle)]
pub extern "C" fn bulwynef_journal_end(journal: &[u8], end: &mut usize) -> u8
    ensures end { result ≡ 0 → end_of journal.now ≡ Ok end.new }
    ensures number { (result ≡ 0 → ⊥) → (f : TheRefusal) × (result ≡ refusal_number f) × (end_of journal.now ≡ Err f) }
    ensures unwritten { (result ≡ 0 → ⊥) → end.new ≡ end.old }
{
    match journals::end(journal) {
        Ok(found) => {
            *end = found;
            0
        }
        Err(refusal) => refusal_number(refusal),
    }
}

/// The first text of the journal of a node of the program with this number.
fn first_text(
    alloc: Global,
    program: u8,
    directory: &[u8],
    id: u32,
    first_seq: u64,
    key: &SecretKey,
) -> Result<Vec<u8>, Refusal>
    ensures text { IfOk result (λ text. IsFirstText program directory.now id first_seq key.now text.items) }
    ensures refused { IfErr result (λ f. FirstTextFails program directory.now id first_seq key.now f) }
{
    let followed = program_of(program)?;
    journals::beginning(alloc, name_of(followed), directory, id, first_seq, key)
}

/// `uint8_t bulwynef_node_beginning(uint8_t program, const uint8_t *directory, size_t directory_len, uint32_t id, uint64_t first_seq,
/// uint32_t lms_type, uint32_t ots_type, const uint8_t *key_id, size_t key_id_len, const uint8_t *seed, size_t seed_len, struct
/// bulwynef_handle *text)`: the first text of the journal of such a node, without the seed.
#[unsafe(no_mangle)]
pub extern "C" fn bulwynef_node_beginning(
    alloc: Global,
    program: u8,
    directory: &[u8],
    id: u32,
    first_seq: u64,
    lms_type: u32,
    ots_type: u32,
    key_id: &[u8],
    seed: &[u8],
    text: &mut Handle,
) -> u8
    ensures text { result ≡ 0 → (key : PrivateKey) × (key_of lms_type ots_type key_id.now seed.now ≡ Ok key) × Is (IsText (IsFirstText program directory.now id first_seq key)) text.new.value }
    ensures still_open { is_some text.old.value ≡ true → result ≡ 114 }
    ensures number { is_some text.old.value ≡ false → (result ≡ 0 → ⊥) → (result ≡ 99) ⊎ ((f : TheRefusal) × (result ≡ refusal_number f) × (Fails Memory f (key_of lms_type ots_type key_id.now seed.now) ⊎ ((key : PrivateKey) × (key_of lms_type ots_type key_id.now seed.now ≡ Ok key) × FirstTextFails program directory.now id first_seq key f))) }
    ensures refused { (result ≡ 0 → ⊥) → text.new.value ≡ text.old.value }
{
    if text.is_open() {
        return refusal_number(Refusal::StillOpen);
    }
    let key = match nodes::secret_key(alloc, lms_type, ots_type, key_id, seed) {
        Ok(key) => key,
        Err(refusal) => return refusal_number(refusal),
    };
    match first_text(alloc, program, directory, id, first_seq, &key) {
        Ok(bytes) => put(alloc, text, Object::Text(bytes)),
        Err(refusal) => refusal_number(refusal),
    }
}

// ---- the texts of records

/// `uint8_t bulwynef_record_timer(uint64_t moment, const uint8_t *entropy, size_t entropy_len, struct bulwynef_handle *text)`: the text of
/// the record of a tick.
#[unsafe(no_mangle)]
pub extern "C" fn bulwynef_record_timer(
    alloc: Global,
    moment: u64,
    entropy: &[u8],
    text: &mut Handle,
) -> u8
    ensures text { result ≡ 0 → Is (IsText (λ t. tick_text moment entropy.now ≡ Ok t)) text.new.value }
    ensures still_open { is_some text.old.value ≡ true → result ≡ 114 }
    ensures number { is_some text.old.value ≡ false → (result ≡ 0 → ⊥) → (f : TheRefusal) × (result ≡ refusal_number f) × Fails Memory f (tick_text moment entropy.now) }
    ensures refused { (result ≡ 0 → ⊥) → text.new.value ≡ text.old.value }
{
    put_text!(alloc, text, journals::record_timer(alloc, moment, entropy))
}

/// `uint8_t bulwynef_record_answer(const uint8_t *challenge, size_t challenge_len, const uint8_t *entropy, size_t entropy_len, struct
/// bulwynef_handle *text)`: the text of the record of a message, an item of tag 4.
#[unsafe(no_mangle)]
pub extern "C" fn bulwynef_record_answer(
    alloc: Global,
    challenge: &[u8],
    entropy: &[u8],
    text: &mut Handle,
) -> u8
    ensures text { result ≡ 0 → Is (IsText (λ t. receipt_text challenge.now entropy.now ≡ Ok t)) text.new.value }
    ensures still_open { is_some text.old.value ≡ true → result ≡ 114 }
    ensures number { is_some text.old.value ≡ false → (result ≡ 0 → ⊥) → (f : TheRefusal) × (result ≡ refusal_number f) × Fails Memory f (receipt_text challenge.now entropy.now) }
    ensures refused { (result ≡ 0 → ⊥) → text.new.value ≡ text.old.value }
{
    put_text!(
        alloc,
        text,
        journals::record_answer(alloc, challenge, entropy)
    )
}

/// `uint8_t bulwynef_record_ack(const uint8_t *ack, size_t ack_len, struct bulwynef_handle *text)`: the text of the record of an
/// acknowledgement, an item of tag 5.
#[unsafe(no_mangle)]
pub extern "C" fn bulwynef_record_ack(alloc: Global, ack: &[u8], text: &mut Handle) -> u8
    ensures text { result ≡ 0 → Is (IsText (λ t. acceptance_text ack.now ≡ Ok t)) text.new.value }
    ensures still_open { is_some text.old.value ≡ true → result ≡ 114 }
    ensures number { is_some text.old.value ≡ false → (result ≡ 0 → ⊥) → (f : TheRefusal) × (result ≡ refusal_number f) × Fails Memory f (acceptance_text ack.now) }
    ensures refused { (result ≡ 0 → ⊥) → text.new.value ≡ text.old.value }
{
    put_text!(alloc, text, journals::record_ack(alloc, ack))
}

/// `uint8_t bulwynef_record_checkpoint(struct bulwynef_handle *text)`: the text of the record of a checkpoint.
#[unsafe(no_mangle)]
pub extern "C" fn bulwynef_record_checkpoint(alloc: Global, text: &mut Handle) -> u8
    ensures text { result ≡ 0 → Is (IsText (λ t. t ≡ checkpoint_text)) text.new.value }
    ensures still_open { is_some text.old.value ≡ true → result ≡ 114 }
    ensures number { is_some text.old.value ≡ false → (result ≡ 0 → ⊥) → result ≡ 99 }
    ensures refused { (result ≡ 0 → ⊥) → text.new.value ≡ text.old.value }
{
    put_text!(alloc, text, journals::record_checkpoint(alloc))
}

/// `uint8_t bulwynef_record_next_key(uint32_t lms_type, uint32_t ots_type, const uint8_t *key_id, size_t key_id_len, const uint8_t *seed,
/// size_t seed_len, struct bulwynef_handle *text)`: the text of the record of a further key, without the seed.
#[unsafe(no_mangle)]
pub extern "C" fn bulwynef_record_next_key(
    alloc: Global,
    lms_type: u32,
    ots_type: u32,
    key_id: &[u8],
    seed: &[u8],
    text: &mut Handle,
) -> u8
    ensures text { result ≡ 0 → Is (IsText (λ t. rekeying_text lms_type ots_type key_id.now seed.now ≡ Ok t)) text.new.value }
    ensures still_open { is_some text.old.value ≡ true → result ≡ 114 }
    ensures number { is_some text.old.value ≡ false → (result ≡ 0 → ⊥) → (f : TheRefusal) × (result ≡ refusal_number f) × Fails Memory f (rekeying_text lms_type ots_type key_id.now seed.now) }
    ensures refused { (result ≡ 0 → ⊥) → text.new.value ≡ text.old.value }
{
    put_text!(
        alloc,
        text,
        journals::record_next_key(alloc, lms_type, ots_type, key_id, seed)
    )
}

// ---- the node of a journal

/// The node of a journal's bytes, under the program with this number.
fn node_of(
    alloc: Global,
    program: u8,
    directory: &[u8],
    secrets: &[u8],
    journal: &[u8],
) -> Result<Object, Refusal>
    ensures rebuilt { IfOk result (λ x. IsRestored program directory.now secrets.now journal.now x) }
    ensures refused { IfErr result (λ f. RestoreFails program directory.now secrets.now journal.now f) }
{
    let followed = program_of(program)?;
    let name = name_of(followed);
    match followed {
        Followed::Tally => {
            let node = journals::rebuild(alloc, Tally, name, directory, secrets, journal)?;
            Ok(Object::TallyNode(node))
        }
        Followed::Relay => {
            let node = journals::rebuild(alloc, Relay, name, directory, secrets, journal)?;
            Ok(Object::RelayNode(node))
        }
        Followed::Mailbox => {
            let node = journals::rebuild(alloc, Mailbox, name, directory, secrets, journal)?;
            Ok(Object::MailboxNode(node))
        }
    }
}

/// `uint8_t bulwynef_node_rebuild(uint8_t program, const uint8_t *directory, size_t directory_len, const uint8_t *secrets, size_t
/// secrets_len, const uint8_t *journal, size_t journal_len, struct bulwynef_handle *node)`: the node of a journal's bytes. The secrets
/// are 48 bytes for each key, its identifier in 16 and its seed in 32.
#[unsafe(no_mangle)]
pub extern "C" fn bulwynef_node_rebuild(
    alloc: Global,
    program: u8,
    directory: &[u8],
    secrets: &[u8],
    journal: &[u8],
    node: &mut Handle,
) -> u8
    ensures rebuilt { result ≡ 0 → Is (IsRestored program directory.now secrets.now journal.now) node.new.value }
    ensures still_open { is_some node.old.value ≡ true → result ≡ 114 }
    ensures number { is_some node.old.value ≡ false → (result ≡ 0 → ⊥) → (result ≡ 99) ⊎ ((f : TheRefusal) × (result ≡ refusal_number f) × RestoreFails program directory.now secrets.now journal.now f) }
    ensures refused { (result ≡ 0 → ⊥) → node.new.value ≡ node.old.value }
{
    if node.is_open() {
        return refusal_number(Refusal::StillOpen);
    }
    match node_of(alloc, program, directory, secrets, journal) {
        Ok(object) => put(alloc, node, object),
        Err(refusal) => refusal_number(refusal),
    }
}

/// Whether a node knows the statement of a text.
fn known(alloc: Global, object: &Object, statement: &[u8]) -> Result<bool, Refusal>
    ensures told { IfOk result (λ b. IsNode (λ S p n. knows n statement.now ≡ Ok b) object.now) }
    ensures refused { IfErr result (λ f. NodeRefuses (λ S p n e. KnowFails statement.now n e) object.now f) }
{
    match object {
        Object::TallyNode(node) => journals::knows(alloc, node, statement),
        Object::RelayNode(node) => journals::knows(alloc, node, statement),
        Object::MailboxNode(node) => journals::knows(alloc, node, statement),
        _ => Err(Refusal::OtherKind),
    }
}

/// `uint8_t bulwynef_node_knows(struct bulwynef_handle *node, const uint8_t *statement, size_t statement_len, uint8_t *knows)`: 1 if the
/// statement, an item of tag 1, is another node's or has a number and a hash that the node signed, else 0.
#[unsafe(no_mangle)]
pub extern "C" fn bulwynef_node_knows(
    alloc: Global,
    node: &mut Handle,
    statement: &[u8],
    knows: &mut u8,
) -> u8
    ensures told { result ≡ 0 → Is (IsNode (λ S p n. Knows statement.now knows.new n)) node.old.value }
    ensures number { (result ≡ 0 → ⊥) → Says (NodeRefuses (λ S p n e. KnowFails statement.now n e)) node.old.value result }
    ensures unwritten { (result ≡ 0 → ⊥) → knows.new ≡ knows.old }
    ensures unchanged { node.new.value ≡ node.old.value }
{
    let Some(object) = taken(alloc, node) else {
        return refusal_number(Refusal::Closed);
    };
    let answer = known(alloc, &object, statement);
    *node = Handle::of(object);
    match answer {
        Ok(is_known) => {
            *knows = if is_known { 1 } else { 0 };
            0
        }
        Err(refusal) => refusal_number(refusal),
    }
}
