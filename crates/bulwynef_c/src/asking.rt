//! Stores of evidence behind handles: what they are asked.

ghost use Rattle.std.specs.Prelude.{◌≡◌, ◌⊎◌, ⊤, IfErr, IfOk, None, Some, false, is_some, true};
ghost use Rattle.evidence.specs.Exports.{export_of};
ghost use Rattle.byte_calls.specs.declared.refusal.Refusal.TheVariants.{Memory, NotExposed, OtherKind};
ghost use Rattle.byte_calls.specs.Stores.{IsUnansweredAt};
ghost use Rattle.bulwynef_c.specs.Calls.{ChallengeFails, ConvictsBy, Includes, Indicates, IndicationFails, ProofFails, flag, number_of};
ghost use Rattle.bulwynef_c.specs.Handles.{Is, IsStore, IsText, PairRefuses, Says, SaysOfTwo, StoreRefuses, StoresStand};

use crate::handle::Handle;
use crate::object::Object;
use crate::of_program::{mailbox_store, of_store, relay_store, tally_store};
use crate::taking::{put, put_answer, refusal_number, taken};
use byte_calls::{Refusal, stores};
use evidence::Evidence;
use evidence_set::Indication;
use replay_verifier::Program;
use std::alloc::Global;

/// Returns the number of an indication: 1 trusted, 2 suspected, 3 exposed. None has the number 0.
fn number(indication: Indication) -> u8
    ensures { result ≡ number_of indication }
{
    match indication {
        Indication::Trusted => 1,
        Indication::Suspected => 2,
        Indication::Exposed => 3,
    }
}

/// Returns the number of what a store of one program says of the node.
fn indicated_in<P: Program, S: Evidence<P>>(store: &S, node: u32) -> Result<u8, Refusal>
    ensures told { IfOk result (λ n. Indicates node n P.means (S.contents store.now)) }
    ensures refused { IfErr result (λ f. IndicationFails node (S.contents store.now) f) }
{
    let indication = stores::indication(store, node)?;
    Ok(number(indication))
}

/// Returns the number of what a store says of the node.
fn indicated(object: &Object, node: u32) -> Result<u8, Refusal>
    ensures told { IfOk result (λ n. IsStore (λ S p s. Indicates node n p s) object.now) }
    ensures refused { IfErr result (λ f. StoreRefuses (λ S p s e. IndicationFails node s e) object.now f) }
{
    of_store!(object, store => indicated_in(store, node))
}

/// `uint8_t bulwynef_store_indication(struct bulwynef_handle *store, uint32_t node, uint8_t *indication)`: writes what the items say of the
/// node: 1 trusted, 2 suspected, 3 exposed. It refuses with 44 if the node is not listed.
#[unsafe(no_mangle)]
pub extern "C" fn bulwynef_store_indication(
    alloc: Global,
    store: &mut Handle,
    node: u32,
    indication: &mut u8,
) -> u8
    ensures told { result ≡ 0 → Is (IsStore (λ S p s. Indicates node indication.new p s)) store.old.value }
    ensures number { (result ≡ 0 → ⊥) → Says (StoreRefuses (λ S p s e. IndicationFails node s e)) store.old.value result }
    ensures unwritten { (result ≡ 0 → ⊥) → indication.new ≡ indication.old }
    ensures unchanged { store.new.value ≡ store.old.value }
{
    let Some(object) = taken(alloc, store) else {
        return refusal_number(Refusal::Closed);
    };
    let answer = indicated(&object, node);
    *store = Handle::of(object);
    match answer {
        Ok(n) => {
            *indication = n;
            0
        }
        Err(refusal) => refusal_number(refusal),
    }
}

/// Returns whether the store has each item of the other one.
fn included(object: &Object, other: &Object) -> Result<bool, Refusal>
    ensures told { IfOk result (λ b. StoresStand (Includes (flag b)) object.now other.now) }
    ensures refused { IfErr result (λ f. PairRefuses (λ s o e. ⊥) object.now other.now f) }
{
    match object {
        Object::TallyStore(store, _) => Ok(store.includes(tally_store(other)?)),
        Object::RelayStore(store, _) => Ok(store.includes(relay_store(other)?)),
        Object::MailboxStore(store, _) => Ok(store.includes(mailbox_store(other)?)),
        _ => Err(Refusal::OtherKind),
    }
}

/// `uint8_t bulwynef_store_includes(struct bulwynef_handle *store, struct bulwynef_handle *other, uint8_t *includes)`: writes 1 if each item
/// of the other store is in the store, else 0. It refuses with 111 two stores of two programs.
#[unsafe(no_mangle)]
pub extern "C" fn bulwynef_store_includes(
    alloc: Global,
    store: &mut Handle,
    other: &mut Handle,
    includes: &mut u8,
) -> u8
    ensures told { result ≡ 0 → Is (λ o. Is (λ x. StoresStand (Includes includes.new) x o) store.old.value) other.old.value }
    ensures number { (result ≡ 0 → ⊥) → SaysOfTwo (PairRefuses (λ s o e. ⊥)) store.old.value other.old.value result }
    ensures unwritten { (result ≡ 0 → ⊥) → includes.new ≡ includes.old }
    ensures unchanged { store.new.value ≡ store.old.value }
    ensures other { other.new.value ≡ other.old.value }
{
    let Some(object) = taken(alloc, store) else {
        return refusal_number(Refusal::Closed);
    };
    let Some(lent) = taken(alloc, other) else {
        *store = Handle::of(object);
        return refusal_number(Refusal::Closed);
    };
    let answer = included(&object, &lent);
    *store = Handle::of(object);
    *other = Handle::of(lent);
    match answer {
        Ok(all) => {
            *includes = if all { 1 } else { 0 };
            0
        }
        Err(refusal) => refusal_number(refusal),
    }
}

/// Returns the store's export.
fn exported(object: &Object) -> Result<Vec<u8>, Refusal>
    ensures text { IfOk result (λ text. IsStore (λ S p s. text.items ≡ export_of s.items) object.now) }
    ensures refused { IfErr result (λ f. StoreRefuses (λ S p s e. e ≡ Memory) object.now f) }
{
    of_store!(object, store => stores::export(store))
}

/// `uint8_t bulwynef_store_export(struct bulwynef_handle *store, struct bulwynef_handle *text)`: gives the store's export: the one encoding
/// of its set of items, which begins with `PRSTORE2`.
#[unsafe(no_mangle)]
pub extern "C" fn bulwynef_store_export(alloc: Global, store: &mut Handle, text: &mut Handle) -> u8
    ensures text { result ≡ 0 → Is (λ x. Is (IsText (λ t. IsStore (λ S p s. t ≡ export_of s.items) x)) text.new.value) store.old.value }
    ensures still_open { is_some text.old.value ≡ true → result ≡ 114 }
    ensures number { is_some text.old.value ≡ false → (result ≡ 0 → ⊥) → (result ≡ 99) ⊎ Says (StoreRefuses (λ S p s e. e ≡ Memory)) store.old.value result }
    ensures refused { (result ≡ 0 → ⊥) → text.new.value ≡ text.old.value }
    ensures store { store.new.value ≡ store.old.value }
{
    put_answer!(alloc, store, text, object => exported(&object))
}

/// Returns the encoding of a proof, or `NotExposed` if there is none.
fn convicting(text: Option<Vec<u8>>) -> Result<Vec<u8>, Refusal>
    ensures some { IfOk result (λ t. text ≡ Some t) }
    ensures none { IfErr result (λ f. (f ≡ NotExposed) × (text ≡ None)) }
{
    match text {
        Some(text) => Ok(text),
        None => Err(Refusal::NotExposed),
    }
}

/// Returns the encoding of a proof against the node, of a store of one program.
fn proof_in<P: Program, S: Evidence<P>>(
    alloc: Global,
    store: &S,
    node: u32,
) -> Result<Vec<u8>, Refusal>
    ensures convicts { IfOk result (λ text. ConvictsBy node text.items P.means (S.contents store.now)) }
    ensures refused { IfErr result (λ f. ProofFails node P.means (S.contents store.now) f) }
{
    convicting(stores::proof(alloc, store, node)?)
}

/// Returns the encoding of a proof against the node.
fn proof_of(alloc: Global, object: &Object, node: u32) -> Result<Vec<u8>, Refusal>
    ensures convicts { IfOk result (λ text. IsStore (λ S p s. ConvictsBy node text.items p s) object.now) }
    ensures refused { IfErr result (λ f. StoreRefuses (λ S p s e. ProofFails node p s e) object.now f) }
{
    of_store!(object, store => proof_in(alloc, store, node))
}

/// `uint8_t bulwynef_store_proof(struct bulwynef_handle *store, uint32_t node, struct bulwynef_handle *text)`: gives a proof that convicts
/// the node if the items expose it. It refuses with 44 if the node is not listed, and with 115 if the items do not expose it.
#[unsafe(no_mangle)]
pub extern "C" fn bulwynef_store_proof(
    alloc: Global,
    store: &mut Handle,
    node: u32,
    text: &mut Handle,
) -> u8
    ensures text { result ≡ 0 → Is (λ x. Is (IsText (λ t. IsStore (λ S p s. ConvictsBy node t p s) x)) text.new.value) store.old.value }
    ensures still_open { is_some text.old.value ≡ true → result ≡ 114 }
    ensures number { is_some text.old.value ≡ false → (result ≡ 0 → ⊥) → (result ≡ 99) ⊎ Says (StoreRefuses (λ S p s e. ProofFails node p s e)) store.old.value result }
    ensures refused { (result ≡ 0 → ⊥) → text.new.value ≡ text.old.value }
    ensures store { store.new.value ≡ store.old.value }
{
    put_answer!(alloc, store, text, object => proof_of(alloc, &object, node))
}

/// Returns the encoding of the challenge at a place, among those against the node that no item answers.
fn challenge_of(alloc: Global, object: &Object, node: u32, place: usize) -> Result<Vec<u8>, Refusal>
    ensures text { IfOk result (λ text. IsStore (λ S p s. IsUnansweredAt s node place text.items) object.now) }
    ensures refused { IfErr result (λ f. StoreRefuses (λ S p s e. ChallengeFails node place s e) object.now f) }
{
    of_store!(object, store => stores::challenge(alloc, store, node, place))
}

/// `uint8_t bulwynef_store_challenge(struct bulwynef_handle *store, uint32_t node, size_t place, struct bulwynef_handle *text)`: gives the
/// challenge at the place, from 0, among those against the node that no item answers. They are in the order of their encodings. It refuses
/// with 44 if the node is not listed, and with 116 if there are fewer.
#[unsafe(no_mangle)]
pub extern "C" fn bulwynef_store_challenge(
    alloc: Global,
    store: &mut Handle,
    node: u32,
    place: usize,
    text: &mut Handle,
) -> u8
    ensures text { result ≡ 0 → Is (λ x. Is (IsText (λ t. IsStore (λ S p s. IsUnansweredAt s node place t) x)) text.new.value) store.old.value }
    ensures still_open { is_some text.old.value ≡ true → result ≡ 114 }
    ensures number { is_some text.old.value ≡ false → (result ≡ 0 → ⊥) → (result ≡ 99) ⊎ Says (StoreRefuses (λ S p s e. ChallengeFails node place s e)) store.old.value result }
    ensures refused { (result ≡ 0 → ⊥) → text.new.value ≡ text.old.value }
    ensures store { store.new.value ≡ store.old.value }
{
    put_answer!(alloc, store, text, object => challenge_of(alloc, &object, node, place))
}
