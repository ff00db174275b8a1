//! Stores of one program.

ghost use Rattle.std.specs.Prelude.{◌≡◌, ⊤, IfErr, IfOk};
ghost use Rattle.byte_calls.specs.declared.refusal.Refusal.TheVariants.{OtherKind};
ghost use Rattle.bulwynef_c.specs.Handles.{IsMailboxStore, IsRelayStore, IsTallyStore};

use crate::object::Object;
use byte_calls::Refusal;
use indexed_store::IndexedStore;
use mailbox::Mailbox;
use ref_programs::{Relay, Tally};

/// Does the same with a store, whichever program its nodes follow. It refuses any other object with `OtherKind`.
macro_rules! of_store {
    ($object:expr, $store:ident => $done:expr) => {
        match $object {
            Object::TallyStore($store, _) => $done,
            Object::RelayStore($store, _) => $done,
            Object::MailboxStore($store, _) => $done,
            _ => Err(Refusal::OtherKind),
        }
    };
}

pub(crate) use of_store;

/// Returns the store if its nodes follow Tally, else `OtherKind`.
pub(crate) fn tally_store(object: &Object) -> Result<&IndexedStore<Tally>, Refusal>
    ensures store { IfOk result (λ s. IsTallyStore (λ t d. t ≡ s.now) object.now) }
    ensures other { IfErr result (λ f. (f ≡ OtherKind) × (IsTallyStore (λ s d. ⊤) object.now → ⊥)) }
{
    match object {
        Object::TallyStore(store, _) => Ok(store),
        _ => Err(Refusal::OtherKind),
    }
}

/// Returns the store if its nodes follow Relay, else `OtherKind`.
pub(crate) fn relay_store(object: &Object) -> Result<&IndexedStore<Relay>, Refusal>
    ensures store { IfOk result (λ s. IsRelayStore (λ t d. t ≡ s.now) object.now) }
    ensures other { IfErr result (λ f. (f ≡ OtherKind) × (IsRelayStore (λ s d. ⊤) object.now → ⊥)) }
{
    match object {
        Object::RelayStore(store, _) => Ok(store),
        _ => Err(Refusal::OtherKind),
    }
}

/// Returns the store if its nodes follow Mailbox, else `OtherKind`.
pub(crate) fn mailbox_store(object: &Object) -> Result<&IndexedStore<Mailbox>, Refusal>
    ensures store { IfOk result (λ s. IsMailboxStore (λ t d. t ≡ s.now) object.now) }
    ensures other { IfErr result (λ f. (f ≡ OtherKind) × (IsMailboxStore (λ s d. ⊤) object.now → ⊥)) }
{
    match object {
        Object::MailboxStore(store, _) => Ok(store),
        _ => Err(Refusal::OtherKind),
    }
}
