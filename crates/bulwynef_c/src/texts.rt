//! Texts: the bytes that calls gave.

ghost use Rattle.std.specs.Prelude.{◌≡◌, ◌⊎◌, length};
ghost use Rattle.bulwynef_c.specs.declared.object.Object.{Object as TheObject};
ghost use Rattle.bulwynef_c.specs.Handles.{CopyRefuses, Is, IsText, Lends, Says};
ghost use Rattle.byte_calls.specs.Refusals.{number_of as refusal_number};
ghost use Rattle.std.specs.Prelude.{IfErr, None, OnErr, OnOk, Some};

use crate::handle::Handle;
use crate::object::Object;
use crate::taking::{refusal_number, taken};
use byte_calls::Refusal;
use std::alloc::Global;

/// Returns how many bytes the text has, or 0 if the object is no text.
fn len_of(object: &Object) -> usize
    ensures { Lends object.now result }
{
    match object {
        Object::Text(bytes) => bytes.len(),
        _ => 0,
    }
}

/// `size_t bulwynef_text_len(struct bulwynef_handle *text)`: returns how many bytes the text has, or 0 if it is closed or no text.
#[unsafe(no_mangle)]
pub extern "C" fn bulwynef_text_len(alloc: Global, text: &mut Handle) -> usize
    ensures len { (x : TheObject) → text.old.value ≡ Some x → Lends x result }
    ensures closed { text.old.value ≡ None → result ≡ 0 }
    ensures same { text.new.value ≡ text.old.value }
{
    let Some(object) = taken(alloc, text) else {
        return 0;
    };
    let len = len_of(&object);
    *text = Handle::of(object);
    len
}

fn copy_of(object: &Object, out: &mut [u8]) -> Result<(), Refusal>
    ensures copied { OnOk result (IsText (λ t. out.new ≡ t) object.now) }
    ensures refused { IfErr result (λ f. CopyRefuses (length out.old) object.now f) }
    ensures unchanged { OnErr result (out.new ≡ out.old) }
{
    let Object::Text(bytes) = object else {
        return Err(Refusal::OtherKind);
    };
    if bytes.len() != out.len() {
        return Err(Refusal::WrongLength);
    }
    out.copy_from_slice(bytes);
    Ok(())
}

/// `uint8_t bulwynef_text_copy(struct bulwynef_handle *text, uint8_t *out, size_t out_len)`: copies the text to a room of just its length.
/// It refuses with 110 (closed), 111 (no text), and 117 if the room has another length.
#[unsafe(no_mangle)]
pub extern "C" fn bulwynef_text_copy(alloc: Global, text: &mut Handle, out: &mut [u8]) -> u8
    ensures copied { result ≡ 0 → Is (IsText (λ t. out.new ≡ t)) text.old.value }
    ensures number { (result ≡ 0 → ⊥) → Says (CopyRefuses (length out.old)) text.old.value result }
    ensures unchanged { (result ≡ 0 → ⊥) → out.new ≡ out.old }
    ensures same { text.new.value ≡ text.old.value }
{
    let Some(object) = taken(alloc, text) else {
        return refusal_number(Refusal::Closed);
    };
    let answer = copy_of(&object, out);
    *text = Handle::of(object);
    match answer {
        Ok(()) => 0,
        Err(refusal) => refusal_number(refusal),
    }
}
