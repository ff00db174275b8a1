//! How what lies behind a handle is taken out, and put there.

ghost use Rattle.std.specs.Prelude.{◌≡◌, None, Some, option_map};
ghost use Rattle.byte_calls.specs.Refusals.{number_of as refusal_number};

use crate::handle::Handle;
use crate::object::Object;
use byte_calls::Refusal;
use std::alloc::Global;
use std::mem::replace;

/// Takes out what lies behind a handle, and closes it. It returns `None` if the handle is closed.
pub(crate) fn taken(alloc: Global, handle: &mut Handle) -> Option<Box<Object, Global>>
    ensures given { option_map (λ b. b.value) result ≡ handle.old.value }
    ensures closed { handle.new.value ≡ None }
{
    if !handle.is_open() {
        return None;
    }
    let old = replace(handle, Handle::none(alloc));
    Some(old.into_box())
}

/// Returns the number of a refusal, which is not 0.
pub(crate) fn refusal_number(refusal: Refusal) -> u8
    ensures { (result ≡ refusal_number refusal) × (result ≡ 0 → ⊥) }
{
    refusal.number()
}

/// Puts an object behind a handle that is closed. It returns 0, or 99 if memory runs out.
pub(crate) fn put(alloc: Global, handle: &mut Handle, object: Object) -> u8
    requires { handle.old.value ≡ None }
    ensures put { result ≡ 0 → handle.new.value ≡ Some object }
    ensures refused { (result ≡ 0 → ⊥) → handle.new.value ≡ handle.old.value }
    ensures number { (result ≡ 0 → ⊥) → result ≡ 99 }
{
    match Box::new(alloc, object) {
        Ok(boxed) => {
            *handle = Handle::of(boxed);
            0
        }
        Err(_) => refusal_number(Refusal::Memory),
    }
}

/// Asks what lies behind a handle, and puts it back. It puts the answer, which is a text, behind another handle, which must be closed.
macro_rules! put_answer {
    ($alloc:expr, $handle:expr, $text:expr, $object:ident => $answer:expr) => {{
        if $text.is_open() {
            return refusal_number(Refusal::StillOpen);
        }
        let Some($object) = taken($alloc, $handle) else {
            return refusal_number(Refusal::Closed);
        };
        let answer = $answer;
        *$handle = Handle::of($object);
        match answer {
            Ok(bytes) => put($alloc, $text, Object::Text(bytes)),
            Err(refusal) => refusal_number(refusal),
        }
    }};
}

pub(crate) use put_answer;

/// `void bulwynef_close(struct bulwynef_handle *handle)`: closes the handle, and frees what lies behind it. A closed handle stays closed.
#[unsafe(no_mangle)]
pub extern "C" fn bulwynef_close(alloc: Global, handle: &mut Handle)
    ensures { handle.new.value ≡ None }
{
    let _ = taken(alloc, handle);
}
