//! What stores behind handles give one another.

ghost use Rattle.std.specs.Prelude.{◌≡◌, ◌⊎◌, IfErr, IfOk, Ok, OnErr, false, is_some, true};
ghost use Rattle.outcome.specs.Outcome.{Fails};
ghost use Rattle.transfer.specs.Digests.{outline_of};
ghost use Rattle.transfer.specs.Summaries.{whole_summary};
ghost use Rattle.transfer.specs.SummaryTexts.{outline_text, summary_text};
ghost use Rattle.byte_calls.specs.declared.refusal.Refusal.TheVariants.{Memory};
ghost use Rattle.byte_calls.specs.Transfers.{packed, shortened};
ghost use Rattle.bulwynef_c.specs.Calls.{Applies, ApplyFails};
ghost use Rattle.bulwynef_c.specs.Handles.{Both, Is, IsStore, IsText, Says, StoreBecomes, StoreRefuses};

use crate::handle::Handle;
use crate::object::Object;
use crate::of_program::of_store;
use crate::taking::{put, put_answer, refusal_number, taken};
use byte_calls::{Refusal, transfers};
use mailbox::Mailbox;
use ref_programs::{Relay, Tally};
use std::alloc::Global;

fn outlined(alloc: Global, object: &Object) -> Result<Vec<u8>, Refusal>
    ensures text { IfOk result (λ text. IsStore (λ S p s. text.items ≡ outline_text (outline_of s.items)) object.now) }
    ensures refused { IfErr result (λ f. StoreRefuses (λ S p s e. e ≡ Memory) object.now f) }
{
    of_store!(object, store => transfers::outline(alloc, store))
}

/// `uint8_t bulwynef_store_outline(struct bulwynef_handle *store, struct bulwynef_handle *text)`: gives the store's outline: the digest of
/// each of its 256 buckets.
#[unsafe(no_mangle)]
pub extern "C" fn bulwynef_store_outline(alloc: Global, store: &mut Handle, text: &mut Handle) -> u8
    ensures text { result ≡ 0 → Is (λ x. Is (IsText (λ t. IsStore (λ S p s. t ≡ outline_text (outline_of s.items)) x)) text.new.value) store.old.value }
    ensures still_open { is_some text.old.value ≡ true → result ≡ 114 }
    ensures number { is_some text.old.value ≡ false → (result ≡ 0 → ⊥) → (result ≡ 99) ⊎ Says (StoreRefuses (λ S p s e. e ≡ Memory)) store.old.value result }
    ensures refused { (result ≡ 0 → ⊥) → text.new.value ≡ text.old.value }
    ensures store { store.new.value ≡ store.old.value }
{
    put_answer!(alloc, store, text, object => outlined(alloc, &object))
}

fn summed(alloc: Global, object: &Object) -> Result<Vec<u8>, Refusal>
    ensures text { IfOk result (λ text. IsStore (λ S p s. text.items ≡ summary_text (whole_summary s.items)) object.now) }
    ensures refused { IfErr result (λ f. StoreRefuses (λ S p s e. e ≡ Memory) object.now f) }
{
    of_store!(object, store => transfers::summary(alloc, store))
}

/// `uint8_t bulwynef_store_summary(struct bulwynef_handle *store, struct bulwynef_handle *text)`: gives the summary that lists all of the
/// store's items.
#[unsafe(no_mangle)]
pub extern "C" fn bulwynef_store_summary(alloc: Global, store: &mut Handle, text: &mut Handle) -> u8
    ensures text { result ≡ 0 → Is (λ x. Is (IsText (λ t. IsStore (λ S p s. t ≡ summary_text (whole_summary s.items)) x)) text.new.value) store.old.value }
    ensures still_open { is_some text.old.value ≡ true → result ≡ 114 }
    ensures number { is_some text.old.value ≡ false → (result ≡ 0 → ⊥) → (result ≡ 99) ⊎ Says (StoreRefuses (λ S p s e. e ≡ Memory)) store.old.value result }
    ensures refused { (result ≡ 0 → ⊥) → text.new.value ≡ text.old.value }
    ensures store { store.new.value ≡ store.old.value }
{
    put_answer!(alloc, store, text, object => summed(alloc, &object))
}

fn shortened_by(alloc: Global, object: &Object, outline: &[u8]) -> Result<Vec<u8>, Refusal>
    ensures text { IfOk result (λ text. IsStore (λ S p s. shortened s.items outline.now ≡ Ok text.items) object.now) }
    ensures refused { IfErr result (λ f. StoreRefuses (λ S p s e. Fails Memory e (shortened s.items outline.now)) object.now f) }
{
    of_store!(object, store => transfers::short_summary(alloc, store, outline))
}

/// `uint8_t bulwynef_store_short_summary(struct bulwynef_handle *store, const uint8_t *outline, size_t outline_len, struct bulwynef_handle
/// *text)`: gives the store's summary against the outline of another store. It refuses as the outline's encoding is refused (40, 43, 60).
#[unsafe(no_mangle)]
pub extern "C" fn bulwynef_store_short_summary(
    alloc: Global,
    store: &mut Handle,
    outline: &[u8],
    text: &mut Handle,
) -> u8
    ensures text { result ≡ 0 → Is (λ x. Is (IsText (λ t. IsStore (λ S p s. shortened s.items outline.now ≡ Ok t) x)) text.new.value) store.old.value }
    ensures still_open { is_some text.old.value ≡ true → result ≡ 114 }
    ensures number { is_some text.old.value ≡ false → (result ≡ 0 → ⊥) → (result ≡ 99) ⊎ Says (StoreRefuses (λ S p s e. Fails Memory e (shortened s.items outline.now))) store.old.value result }
    ensures refused { (result ≡ 0 → ⊥) → text.new.value ≡ text.old.value }
    ensures store { store.new.value ≡ store.old.value }
{
    put_answer!(alloc, store, text, object => shortened_by(alloc, &object, outline))
}

fn packed_by(alloc: Global, object: &Object, summary: &[u8]) -> Result<Vec<u8>, Refusal>
    ensures text { IfOk result (λ text. IsStore (λ S p s. packed s.items summary.now ≡ Ok text.items) object.now) }
    ensures refused { IfErr result (λ f. StoreRefuses (λ S p s e. Fails Memory e (packed s.items summary.now)) object.now f) }
{
    of_store!(object, store => transfers::pack(alloc, store, summary))
}

/// `uint8_t bulwynef_store_pack(struct bulwynef_handle *store, const uint8_t *summary, size_t summary_len, struct bulwynef_handle *text)`:
/// gives the pack of those items of the store that a summary does not name. It refuses as the summary's encoding is refused (40, 41, 43, 60
/// to 62).
#[unsafe(no_mangle)]
pub extern "C" fn bulwynef_store_pack(
    alloc: Global,
    store: &mut Handle,
    summary: &[u8],
    text: &mut Handle,
) -> u8
    ensures text { result ≡ 0 → Is (λ x. Is (IsText (λ t. IsStore (λ S p s. packed s.items summary.now ≡ Ok t) x)) text.new.value) store.old.value }
    ensures still_open { is_some text.old.value ≡ true → result ≡ 114 }
    ensures number { is_some text.old.value ≡ false → (result ≡ 0 → ⊥) → (result ≡ 99) ⊎ Says (StoreRefuses (λ S p s e. Fails Memory e (packed s.items summary.now))) store.old.value result }
    ensures refused { (result ≡ 0 → ⊥) → text.new.value ≡ text.old.value }
    ensures store { store.new.value ≡ store.old.value }
{
    put_answer!(alloc, store, text, object => packed_by(alloc, &object, summary))
}

fn apply_to(alloc: Global, object: &mut Object, pack: &[u8]) -> Result<u64, Refusal>
    ensures joined { IfOk result (λ new. StoreBecomes (Applies pack.now new) object.old object.new) }
    ensures refused { IfErr result (λ f. StoreRefuses (λ S p s e. ApplyFails pack.now s e) object.old f) }
    ensures unchanged { OnErr result (object.new ≡ object.old) }
{
    match object {
        Object::TallyStore(store, _) => transfers::apply(alloc, store, &Tally, pack),
        Object::RelayStore(store, _) => transfers::apply(alloc, store, &Relay, pack),
        Object::MailboxStore(store, _) => transfers::apply(alloc, store, &Mailbox, pack),
        _ => Err(Refusal::OtherKind),
    }
}

/// `uint8_t bulwynef_store_apply(struct bulwynef_handle *store, const uint8_t *pack, size_t pack_len, uint64_t *added)`: adds the items of a
/// pack, all or none, and writes how many are new. It refuses as the pack's encoding is refused (40 to 49, 60, 61).
#[unsafe(no_mangle)]
pub extern "C" fn bulwynef_store_apply(
    alloc: Global,
    store: &mut Handle,
    pack: &[u8],
    added: &mut u64,
) -> u8
    ensures joined { result ≡ 0 → Both (StoreBecomes (Applies pack.now added.new)) store.old.value store.new.value }
    ensures number { (result ≡ 0 → ⊥) → Says (StoreRefuses (λ S p s e. ApplyFails pack.now s e)) store.old.value result }
    ensures unwritten { (result ≡ 0 → ⊥) → added.new ≡ added.old }
    ensures refused { (result ≡ 0 → ⊥) → store.new.value ≡ store.old.value }
{
    let Some(mut object) = taken(alloc, store) else {
        return refusal_number(Refusal::Closed);
    };
    let answer = apply_to(alloc, &mut object, pack);
    *store = Handle::of(object);
    match answer {
        Ok(new) => {
            *added = new;
            0
        }
        Err(refusal) => refusal_number(refusal),
    }
}
