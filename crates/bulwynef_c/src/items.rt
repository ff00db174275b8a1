//! Items of evidence: the statements that they hold, and the challenges that are made of them.

ghost use Rattle.std.specs.Prelude.{◌≡◌, Ok, false, is_some, true};
ghost use Rattle.outcome.specs.Outcome.{Fails};
ghost use Rattle.byte_calls.specs.declared.refusal.Refusal.{Refusal as TheRefusal};
ghost use Rattle.byte_calls.specs.declared.refusal.Refusal.TheVariants.{Memory};
ghost use Rattle.byte_calls.specs.ItemTexts.{demand_text, sending_text, statement_text};
ghost use Rattle.byte_calls.specs.Refusals.{number_of as refusal_number};
ghost use Rattle.bulwynef_c.specs.Handles.{Is, IsText};

use crate::handle::Handle;
use crate::object::Object;
use crate::taking::{put, refusal_number};
use byte_calls::{Refusal, items};
use std::alloc::Global;

/// `uint8_t bulwynef_statement_of(const uint8_t *item, size_t item_len, size_t place, struct bulwynef_handle *text)`: gives the statement at
/// the place, from 0, among those whose signatures the item holds. The statement is an item of tag 1. It refuses as the item's encoding is
/// refused (40 to 43), and then with 116 if there are fewer.
#[unsafe(no_mangle)]
pub extern "C" fn bulwynef_statement_of(
    alloc: Global,
    item: &[u8],
    place: usize,
    text: &mut Handle,
) -> u8
    ensures text { result ≡ 0 → Is (IsText (λ t. statement_text item.now place ≡ Ok t)) text.new.value }
    ensures still_open { is_some text.old.value ≡ true → result ≡ 114 }
    ensures number { is_some text.old.value ≡ false → (result ≡ 0 → ⊥) → (f : TheRefusal) × (result ≡ refusal_number f) × Fails Memory f (statement_text item.now place) }
    ensures refused { (result ≡ 0 → ⊥) → text.new.value ≡ text.old.value }
{
    if text.is_open() {
        return refusal_number(Refusal::StillOpen);
    }
    match items::statement_of(alloc, item, place) {
        Ok(bytes) => put(alloc, text, Object::Text(bytes)),
        Err(refusal) => refusal_number(refusal),
    }
}

/// `uint8_t bulwynef_audit_challenge(const uint8_t *first, size_t first_len, const uint8_t *last, size_t last_len, struct bulwynef_handle
/// *text)`: gives an audit challenge, an item of tag 3. It asks a node for its log up to the entry of its statement `last`: from the entry
/// of its statement `first` on, or from the beginning if `first` is empty. It refuses as `byte_calls::items::audit_challenge` does (40 to
/// 43, 48).
#[unsafe(no_mangle)]
pub extern "C" fn bulwynef_audit_challenge(
    alloc: Global,
    first: &[u8],
    last: &[u8],
    text: &mut Handle,
) -> u8
    ensures text { result ≡ 0 → Is (IsText (λ t. demand_text first.now last.now ≡ Ok t)) text.new.value }
    ensures still_open { is_some text.old.value ≡ true → result ≡ 114 }
    ensures number { is_some text.old.value ≡ false → (result ≡ 0 → ⊥) → (f : TheRefusal) × (result ≡ refusal_number f) × Fails Memory f (demand_text first.now last.now) }
    ensures refused { (result ≡ 0 → ⊥) → text.new.value ≡ text.old.value }
{
    if text.is_open() {
        return refusal_number(Refusal::StillOpen);
    }
    match items::audit_challenge(alloc, first, last) {
        Ok(bytes) => put(alloc, text, Object::Text(bytes)),
        Err(refusal) => refusal_number(refusal),
    }
}

/// `uint8_t bulwynef_send_challenge(const uint8_t *message, size_t message_len, struct bulwynef_handle *text)`: gives a send challenge, an
/// item of tag 4. It asks for the acknowledgement of the message of an item: of a send challenge or an acknowledgement. It refuses as the
/// item's encoding is refused (40 to 43), and with 41 if it is that of another item.
#[unsafe(no_mangle)]
pub extern "C" fn bulwynef_send_challenge(alloc: Global, message: &[u8], text: &mut Handle) -> u8
    ensures text { result ≡ 0 → Is (IsText (λ t. sending_text message.now ≡ Ok t)) text.new.value }
    ensures still_open { is_some text.old.value ≡ true → result ≡ 114 }
    ensures number { is_some text.old.value ≡ false → (result ≡ 0 → ⊥) → (f : TheRefusal) × (result ≡ refusal_number f) × Fails Memory f (sending_text message.now) }
    ensures refused { (result ≡ 0 → ⊥) → text.new.value ≡ text.old.value }
{
    if text.is_open() {
        return refusal_number(Refusal::StillOpen);
    }
    match items::send_challenge(alloc, message) {
        Ok(bytes) => put(alloc, text, Object::Text(bytes)),
        Err(refusal) => refusal_number(refusal),
    }
}
