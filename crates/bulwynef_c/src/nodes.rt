//! Nodes behind handles: how they begin, and what they do by themselves.

ghost use Rattle.std.specs.Prelude.{◌≡◌, ◌⊎◌, IfErr, IfOk, Ok, OnErr, OnOk, false, is_some, true};
ghost use Rattle.outcome.specs.Outcome.{Fails};
ghost use Rattle.commitment.specs.Nodes.{checkpointed};
ghost use Rattle.commitment.specs.Keyrings.{leaves_left};
ghost use Rattle.lms_sign.specs.Signing.{PrivateKey};
ghost use Rattle.byte_calls.specs.declared.refusal.Refusal.{Refusal as TheRefusal};
ghost use Rattle.byte_calls.specs.declared.refusal.Refusal.TheVariants.{Memory};
ghost use Rattle.byte_calls.specs.Nodes.{key_of, ticked_by};
ghost use Rattle.byte_calls.specs.Refusals.{number_of as refusal_number};
ghost use Rattle.bulwynef_c.specs.Calls.{CheckpointFails, IsNodeOf, NodeFails, Rekeys, RekeyFails};
ghost use Rattle.bulwynef_c.specs.Handles.{Both, Is, IsNode, NodeBecomes, NodeRefuses, Says};

use crate::handle::Handle;
use crate::object::Object;
use crate::programs::{Followed, program_of};
use crate::taking::{put, refusal_number, taken};
use byte_calls::{Refusal, nodes};
use lms_sign::SecretKey;
use mailbox::Mailbox;
use ref_programs::{Relay, Tally};
use std::alloc::Global;

/// Begins a node that follows the program with this number, and signs by the key.
fn node_by(
    alloc: Global,
    program: u8,
    directory: &[u8],
    id: u32,
    first_seq: u64,
    key: SecretKey,
) -> Result<Object, Refusal>
    ensures begun { IfOk result (λ x. IsNodeOf program directory.now id first_seq key x) }
    ensures refused { IfErr result (λ f. NodeFails program directory.now id first_seq key f) }
{
    match program_of(program)? {
        Followed::Tally => {
            let node = nodes::begin(alloc, Tally, directory, id, first_seq, key)?;
            Ok(Object::TallyNode(node))
        }
        Followed::Relay => {
            let node = nodes::begin(alloc, Relay, directory, id, first_seq, key)?;
            Ok(Object::RelayNode(node))
        }
        Followed::Mailbox => {
            let node = nodes::begin(alloc, Mailbox, directory, id, first_seq, key)?;
            Ok(Object::MailboxNode(node))
        }
    }
}

/// `uint8_t bulwynef_node_new(uint8_t program, const uint8_t *directory, size_t directory_len, uint32_t id, uint64_t first_seq, uint32_t
/// lms_type, uint32_t ots_type, const uint8_t *key_id, size_t key_id_len, const uint8_t *seed, size_t seed_len, struct bulwynef_handle
/// *node)`: begins node `id` of the directory, which follows the program and signs by the key of the seed. Its log begins with the number
/// `first_seq`.
///
/// It reports the first of these:
///
/// - 114, if the handle is open.
/// - The refusal of the key (2, 3, 117, 4).
/// - 113, if there is no such program.
/// - The refusal of the directory's encoding (2, 3, 20 to 26).
/// - 30, if the directory does not list the node, and 31, if it does not list the key for the node.
#[unsafe(no_mangle)]
pub extern "C" fn bulwynef_node_new(
    alloc: Global,
    program: u8,
    directory: &[u8],
    id: u32,
    first_seq: u64,
    lms_type: u32,
    ots_type: u32,
    key_id: &[u8],
    seed: &[u8],
    node: &mut Handle,
) -> u8
    ensures begun { result ≡ 0 → (key : PrivateKey) × (key_of lms_type ots_type key_id.now seed.now ≡ Ok key) × Is (IsNodeOf program directory.now id first_seq key) node.new.value }
    ensures still_open { is_some node.old.value ≡ true → result ≡ 114 }
    ensures number { is_some node.old.value ≡ false → (result ≡ 0 → ⊥) → (result ≡ 99) ⊎ ((f : TheRefusal) × (result ≡ refusal_number f) × (Fails Memory f (key_of lms_type ots_type key_id.now seed.now) ⊎ ((key : PrivateKey) × (key_of lms_type ots_type key_id.now seed.now ≡ Ok key) × NodeFails program directory.now id first_seq key f))) }
    ensures refused { (result ≡ 0 → ⊥) → node.new.value ≡ node.old.value }
{
    if node.is_open() {
        return refusal_number(Refusal::StillOpen);
    }
    let key = match nodes::secret_key(alloc, lms_type, ots_type, key_id, seed) {
        Ok(key) => key,
        Err(refusal) => return refusal_number(refusal),
    };
    match node_by(alloc, program, directory, id, first_seq, key) {
        Ok(object) => put(alloc, node, object),
        Err(refusal) => refusal_number(refusal),
    }
}

fn tick(object: &mut Object, moment: u64, entropy: &[u8]) -> Result<(), Refusal>
    ensures done { OnOk result (NodeBecomes (λ S p n m. ticked_by p n moment entropy.now ≡ Ok m) object.old object.new) }
    ensures refused { IfErr result (λ f. NodeRefuses (λ S p n e. Fails Memory e (ticked_by p n moment entropy.now)) object.old f) }
    ensures unchanged { OnErr result (object.new ≡ object.old) }
{
    match object {
        Object::TallyNode(node) => nodes::tick(node, moment, entropy),
        Object::RelayNode(node) => nodes::tick(node, moment, entropy),
        Object::MailboxNode(node) => nodes::tick(node, moment, entropy),
        _ => Err(Refusal::OtherKind),
    }
}

/// `uint8_t bulwynef_node_timer(struct bulwynef_handle *node, uint64_t moment, const uint8_t *entropy, size_t entropy_len)`: ticks the
/// node's timer. The messages that the node sends wait ([`bulwynef_node_waiting`](crate::speaking::bulwynef_node_waiting)). It refuses as
/// `byte_calls::nodes::tick` does (117, 36, 37).
#[unsafe(no_mangle)]
pub extern "C" fn bulwynef_node_timer(
    alloc: Global,
    node: &mut Handle,
    moment: u64,
    entropy: &[u8],
) -> u8
    ensures done { result ≡ 0 → Both (NodeBecomes (λ S p n m. ticked_by p n moment entropy.now ≡ Ok m)) node.old.value node.new.value }
    ensures number { (result ≡ 0 → ⊥) → Says (NodeRefuses (λ S p n e. Fails Memory e (ticked_by p n moment entropy.now))) node.old.value result }
    ensures refused { (result ≡ 0 → ⊥) → node.new.value ≡ node.old.value }
{
    let Some(mut object) = taken(alloc, node) else {
        return refusal_number(Refusal::Closed);
    };
    let answer = tick(&mut object, moment, entropy);
    *node = Handle::of(object);
    match answer {
        Ok(()) => 0,
        Err(refusal) => refusal_number(refusal),
    }
}

fn checkpoint_of(object: &mut Object) -> Result<u64, Refusal>
    ensures done { IfOk result (λ seq. NodeBecomes (λ S p n m. checkpointed p n ≡ Ok (m, seq)) object.old object.new) }
    ensures refused { IfErr result (λ f. NodeRefuses (λ S p n e. CheckpointFails p n e) object.old f) }
    ensures unchanged { OnErr result (object.new ≡ object.old) }
{
    match object {
        Object::TallyNode(node) => nodes::checkpoint(node),
        Object::RelayNode(node) => nodes::checkpoint(node),
        Object::MailboxNode(node) => nodes::checkpoint(node),
        _ => Err(Refusal::OtherKind),
    }
}

/// `uint8_t bulwynef_node_checkpoint(struct bulwynef_handle *node, uint64_t *seq)`: logs a checkpoint, and writes its number. It refuses
/// with 37 if the log is full.
#[unsafe(no_mangle)]
pub extern "C" fn bulwynef_node_checkpoint(alloc: Global, node: &mut Handle, seq: &mut u64) -> u8
    ensures done { result ≡ 0 → Both (NodeBecomes (λ S p n m. checkpointed p n ≡ Ok (m, seq.new))) node.old.value node.new.value }
    ensures number { (result ≡ 0 → ⊥) → Says (NodeRefuses (λ S p n e. CheckpointFails p n e)) node.old.value result }
    ensures unwritten { (result ≡ 0 → ⊥) → seq.new ≡ seq.old }
    ensures refused { (result ≡ 0 → ⊥) → node.new.value ≡ node.old.value }
{
    let Some(mut object) = taken(alloc, node) else {
        return refusal_number(Refusal::Closed);
    };
    let answer = checkpoint_of(&mut object);
    *node = Handle::of(object);
    match answer {
        Ok(found) => {
            *seq = found;
            0
        }
        Err(refusal) => refusal_number(refusal),
    }
}

fn rekey(object: &mut Object, key: SecretKey) -> Result<(), Refusal>
    ensures done { OnOk result (NodeBecomes (λ S p n m. Rekeys key n m) object.old object.new) }
    ensures refused { IfErr result (λ f. NodeRefuses (λ S p n e. RekeyFails key n e) object.old f) }
    ensures unchanged { OnErr result (object.new ≡ object.old) }
{
    match object {
        Object::TallyNode(node) => nodes::next_key(node, key),
        Object::RelayNode(node) => nodes::next_key(node, key),
        Object::MailboxNode(node) => nodes::next_key(node, key),
        _ => Err(Refusal::OtherKind),
    }
}

/// `uint8_t bulwynef_node_next_key(struct bulwynef_handle *node, uint32_t lms_type, uint32_t ots_type, const uint8_t *key_id, size_t
/// key_id_len, const uint8_t *seed, size_t seed_len)`: makes the node sign by the key of the seed from now on. It refuses first by the key
/// (2, 3, 117, 4), then with 110 or 111 by the handle, and then with 31 if the key is none of the node's, or is or was in use.
#[unsafe(no_mangle)]
pub extern "C" fn bulwynef_node_next_key(
    alloc: Global,
    node: &mut Handle,
    lms_type: u32,
    ots_type: u32,
    key_id: &[u8],
    seed: &[u8],
) -> u8
    ensures done { result ≡ 0 → (key : PrivateKey) × (key_of lms_type ots_type key_id.now seed.now ≡ Ok key) × Both (NodeBecomes (λ S p n m. Rekeys key n m)) node.old.value node.new.value }
    ensures number { (result ≡ 0 → ⊥) → ((f : TheRefusal) × (result ≡ refusal_number f) × Fails Memory f (key_of lms_type ots_type key_id.now seed.now)) ⊎ ((key : PrivateKey) × (key_of lms_type ots_type key_id.now seed.now ≡ Ok key) × Says (NodeRefuses (λ S p n e. RekeyFails key n e)) node.old.value result) }
    ensures refused { (result ≡ 0 → ⊥) → node.new.value ≡ node.old.value }
{
    let key = match nodes::secret_key(alloc, lms_type, ots_type, key_id, seed) {
        Ok(key) => key,
        Err(refusal) => return refusal_number(refusal),
    };
    let Some(mut object) = taken(alloc, node) else {
        return refusal_number(Refusal::Closed);
    };
    let answer = rekey(&mut object, key);
    *node = Handle::of(object);
    match answer {
        Ok(()) => 0,
        Err(refusal) => refusal_number(refusal),
    }
}

fn remaining_of(object: &Object) -> Result<u32, Refusal>
    ensures told { IfOk result (λ k. IsNode (λ S p n. k ≡ leaves_left n.account.ring) object.now) }
    ensures refused { IfErr result (λ f. NodeRefuses (λ S p n e. ⊥) object.now f) }
{
    match object {
        Object::TallyNode(node) => Ok(node.remaining()),
        Object::RelayNode(node) => Ok(node.remaining()),
        Object::MailboxNode(node) => Ok(node.remaining()),
        _ => Err(Refusal::OtherKind),
    }
}

/// `uint8_t bulwynef_node_remaining(struct bulwynef_handle *node, uint32_t *leaves)`: writes how many statements the key in use can still
/// sign.
#[unsafe(no_mangle)]
pub extern "C" fn bulwynef_node_remaining(alloc: Global, node: &mut Handle, leaves: &mut u32) -> u8
    ensures told { result ≡ 0 → Is (IsNode (λ S p n. leaves.new ≡ leaves_left n.account.ring)) node.old.value }
    ensures number { (result ≡ 0 → ⊥) → Says (NodeRefuses (λ S p n e. ⊥)) node.old.value result }
    ensures unwritten { (result ≡ 0 → ⊥) → leaves.new ≡ leaves.old }
    ensures unchanged { node.new.value ≡ node.old.value }
{
    let Some(object) = taken(alloc, node) else {
        return refusal_number(Refusal::Closed);
    };
    let answer = remaining_of(&object);
    *node = Handle::of(object);
    match answer {
        Ok(left) => {
            *leaves = left;
            0
        }
        Err(refusal) => refusal_number(refusal),
    }
}
