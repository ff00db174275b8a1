//! Stores of evidence behind handles: what they are given.

ghost use Rattle.std.specs.Prelude.{◌≡◌, ◌⊎◌, ⊤, IfErr, IfOk, OnErr, Ok, false, is_some, true};
ghost use Rattle.byte_calls.specs.declared.refusal.Refusal.{Refusal as TheRefusal};
ghost use Rattle.byte_calls.specs.declared.refusal.Refusal.TheVariants.{OtherKind};
ghost use Rattle.byte_calls.specs.Refusals.{number_of as refusal_number};
ghost use Rattle.bulwynef_c.specs.Calls.{ImportFails, IsStoreOf, Joins, MergeFails, Merges, OpenFails, TakeFails, TakesItem, flag};
ghost use Rattle.bulwynef_c.specs.Handles.{Both, Is, PairRefuses, Says, SaysOfTwo, StoreBecomes, StoreRefuses, StoreTakesOf};

use crate::handle::Handle;
use crate::object::Object;
use crate::of_program::{mailbox_store, relay_store, tally_store};
use crate::programs::{Followed, program_of};
use crate::taking::{put, refusal_number, taken};
use byte_calls::explaining::sum_of;
use byte_calls::{Refusal, stores};
use mailbox::Mailbox;
use ref_programs::{Relay, Tally};
use std::alloc::Global;

/// Creates a store, whose nodes follow the program with this number.
fn object_of(alloc: Global, program: u8, directory: &[u8]) -> Result<Object, Refusal>
    ensures made { IfOk result (λ x. IsStoreOf program directory.now x) }
    ensures refused { IfErr result (λ f. OpenFails program directory.now f) }
{
    let sum = sum_of(directory);
    match program_of(program)? {
        Followed::Tally => {
            let store = stores::open(alloc, directory)?;
            Ok(Object::TallyStore(store, sum))
        }
        Followed::Relay => {
            let store = stores::open(alloc, directory)?;
            Ok(Object::RelayStore(store, sum))
        }
        Followed::Mailbox => {
            let store = stores::open(alloc, directory)?;
            Ok(Object::MailboxStore(store, sum))
        }
    }
}

/// `uint8_t bulwynef_store_open(uint8_t program, const uint8_t *directory, size_t directory_len, struct bulwynef_handle *store)`: creates a
/// store without items, under the directory with this encoding. Its nodes follow the program (1 Tally, 2 Relay, 3 Mailbox). It refuses with
/// 114 if the handle is open, then with 113 if there is no such program, and then as the encoding is refused (2, 3, 20 to 26).
#[unsafe(no_mangle)]
pub extern "C" fn bulwynef_store_open(
    alloc: Global,
    program: u8,
    directory: &[u8],
    store: &mut Handle,
) -> u8
    ensures opened { result ≡ 0 → Is (IsStoreOf program directory.now) store.new.value }
    ensures still_open { is_some store.old.value ≡ true → result ≡ 114 }
    ensures number { is_some store.old.value ≡ false → (result ≡ 0 → ⊥) → (result ≡ 99) ⊎ ((f : TheRefusal) × (result ≡ refusal_number f) × OpenFails program directory.now f) }
    ensures refused { (result ≡ 0 → ⊥) → store.new.value ≡ store.old.value }
{
    if store.is_open() {
        return refusal_number(Refusal::StillOpen);
    }
    match object_of(alloc, program, directory) {
        Ok(object) => put(alloc, store, object),
        Err(refusal) => refusal_number(refusal),
    }
}

/// Adds the items of a store's export.
fn import_into(object: &mut Object, text: &[u8]) -> Result<u64, Refusal>
    ensures joined { IfOk result (λ new. StoreBecomes (Joins text.now new) object.old object.new) }
    ensures refused { IfErr result (λ f. StoreRefuses (λ S p s e. ImportFails text.now s e) object.old f) }
    ensures unchanged { OnErr result (object.new ≡ object.old) }
{
    match object {
        Object::TallyStore(store, _) => stores::import(store, &Tally, text),
        Object::RelayStore(store, _) => stores::import(store, &Relay, text),
        Object::MailboxStore(store, _) => stores::import(store, &Mailbox, text),
        _ => Err(Refusal::OtherKind),
    }
}

/// `uint8_t bulwynef_store_import(struct bulwynef_handle *store, const uint8_t *text, size_t text_len, uint64_t *added)`: adds the items of
/// a store's export, all or none, and writes how many are new. It refuses as the export is refused (40 to 49, 60, 61).
#[unsafe(no_mangle)]
pub extern "C" fn bulwynef_store_import(
    alloc: Global,
    store: &mut Handle,
    text: &[u8],
    added: &mut u64,
) -> u8
    ensures joined { result ≡ 0 → Both (StoreBecomes (Joins text.now added.new)) store.old.value store.new.value }
    ensures number { (result ≡ 0 → ⊥) → Says (StoreRefuses (λ S p s e. ImportFails text.now s e)) store.old.value result }
    ensures unwritten { (result ≡ 0 → ⊥) → added.new ≡ added.old }
    ensures refused { (result ≡ 0 → ⊥) → store.new.value ≡ store.old.value }
{
    let Some(mut object) = taken(alloc, store) else {
        return refusal_number(Refusal::Closed);
    };
    let answer = import_into(&mut object, text);
    *store = Handle::of(object);
    match answer {
        Ok(new) => {
            *added = new;
            0
        }
        Err(refusal) => refusal_number(refusal),
    }
}

/// Adds the item with this encoding.
fn take_into(alloc: Global, object: &mut Object, text: &[u8]) -> Result<bool, Refusal>
    ensures taken { IfOk result (λ new. StoreBecomes (TakesItem text.now (flag new)) object.old object.new) }
    ensures refused { IfErr result (λ f. StoreRefuses (λ S p s e. TakeFails text.now s e) object.old f) }
    ensures unchanged { OnErr result (object.new ≡ object.old) }
{
    match object {
        Object::TallyStore(store, _) => stores::take(alloc, store, &Tally, text),
        Object::RelayStore(store, _) => stores::take(alloc, store, &Relay, text),
        Object::MailboxStore(store, _) => stores::take(alloc, store, &Mailbox, text),
        _ => Err(Refusal::OtherKind),
    }
}

/// `uint8_t bulwynef_store_take(struct bulwynef_handle *store, const uint8_t *item, size_t item_len, uint8_t *is_new)`: adds an item, and
/// writes 1 if it is new, or 0 if the store has it already. It refuses as the item's encoding is refused (40 to 43), and then as the item is
/// (44 to 49).
#[unsafe(no_mangle)]
pub extern "C" fn bulwynef_store_take(
    alloc: Global,
    store: &mut Handle,
    item: &[u8],
    is_new: &mut u8,
) -> u8
    ensures taken { result ≡ 0 → Both (StoreBecomes (TakesItem item.now is_new.new)) store.old.value store.new.value }
    ensures number { (result ≡ 0 → ⊥) → Says (StoreRefuses (λ S p s e. TakeFails item.now s e)) store.old.value result }
    ensures unwritten { (result ≡ 0 → ⊥) → is_new.new ≡ is_new.old }
    ensures refused { (result ≡ 0 → ⊥) → store.new.value ≡ store.old.value }
{
    let Some(mut object) = taken(alloc, store) else {
        return refusal_number(Refusal::Closed);
    };
    let answer = take_into(alloc, &mut object, item);
    *store = Handle::of(object);
    match answer {
        Ok(new) => {
            *is_new = if new { 1 } else { 0 };
            0
        }
        Err(refusal) => refusal_number(refusal),
    }
}

/// Adds the items of another store of the same program.
fn merge_into(object: &mut Object, other: &Object) -> Result<u64, Refusal>
    ensures merged { IfOk result (λ new. StoreTakesOf (Merges new) other.now object.old object.new) }
    ensures refused { IfErr result (λ f. PairRefuses MergeFails object.old other.now f) }
    ensures unchanged { OnErr result (object.new ≡ object.old) }
{
    match object {
        Object::TallyStore(store, _) => stores::merge(store, tally_store(other)?),
        Object::RelayStore(store, _) => stores::merge(store, relay_store(other)?),
        Object::MailboxStore(store, _) => stores::merge(store, mailbox_store(other)?),
        _ => Err(Refusal::OtherKind),
    }
}

/// `uint8_t bulwynef_store_merge(struct bulwynef_handle *store, struct bulwynef_handle *other, uint64_t *added)`: adds the items of another
/// store under the same directory, all or none, and writes how many are new. It refuses with 111 two stores of two programs, and with 112
/// two stores under two directories.
#[unsafe(no_mangle)]
pub extern "C" fn bulwynef_store_merge(
    alloc: Global,
    store: &mut Handle,
    other: &mut Handle,
    added: &mut u64,
) -> u8
    ensures merged { result ≡ 0 → Is (λ o. Both (StoreTakesOf (Merges added.new) o) store.old.value store.new.value) other.old.value }
    ensures number { (result ≡ 0 → ⊥) → SaysOfTwo (PairRefuses MergeFails) store.old.value other.old.value result }
    ensures unwritten { (result ≡ 0 → ⊥) → added.new ≡ added.old }
    ensures refused { (result ≡ 0 → ⊥) → store.new.value ≡ store.old.value }
    ensures other { other.new.value ≡ other.old.value }
{
    let Some(mut object) = taken(alloc, store) else {
        return refusal_number(Refusal::Closed);
    };
    let Some(lent) = taken(alloc, other) else {
        *store = Handle::of(object);
        return refusal_number(Refusal::Closed);
    };
    let answer = merge_into(&mut object, &lent);
    *store = Handle::of(object);
    *other = Handle::of(lent);
    match answer {
        Ok(new) => {
            *added = new;
            0
        }
        Err(refusal) => refusal_number(refusal),
    }
}
