//! Explanations, as texts for a person to read. The program's name, and the sum of the directory's encoding, come before them.

ghost use Rattle.std.specs.Prelude.{◌≡◌, ◌⊎◌, IfErr, IfOk, false, is_some, true};
ghost use Rattle.byte_calls.specs.declared.refusal.Refusal.{Refusal as TheRefusal};
ghost use Rattle.byte_calls.specs.declared.refusal.Refusal.TheVariants.{Memory};
ghost use Rattle.byte_calls.specs.Refusals.{number_of as refusal_number};
ghost use Rattle.bulwynef_c.specs.Calls.{ExplainFails, Explains, ExplainsAll};
ghost use Rattle.bulwynef_c.specs.Handles.{Is, IsStoreUnder, IsText, Says, StoreRefuses};

use crate::handle::Handle;
use crate::object::Object;
use crate::programs::{Followed, name_of, program_of};
use crate::taking::{put, put_answer, refusal_number, taken};
use byte_calls::{Refusal, explaining};
use mailbox::Mailbox;
use ref_programs::{Relay, Tally};
use std::alloc::Global;

/// Returns the text of what a store says of each node, and why.
fn explained(alloc: Global, object: &Object) -> Result<Vec<u8>, Refusal>
    ensures told { IfOk result (λ text. IsStoreUnder (ExplainsAll text.items) object.now) }
    ensures refused { IfErr result (λ f. StoreRefuses (λ S p s e. e ≡ Memory) object.now f) }
{
    match object {
        Object::TallyStore(store, sum) => {
            explaining::store(alloc, &Tally, name_of(Followed::Tally), sum, store)
        }
        Object::RelayStore(store, sum) => {
            explaining::store(alloc, &Relay, name_of(Followed::Relay), sum, store)
        }
        Object::MailboxStore(store, sum) => {
            explaining::store(alloc, &Mailbox, name_of(Followed::Mailbox), sum, store)
        }
        _ => Err(Refusal::OtherKind),
    }
}

/// `uint8_t bulwynef_store_explain(struct bulwynef_handle *store, struct bulwynef_handle *text)`: gives the text of what the items say of
/// each listed node, and why.
#[unsafe(no_mangle)]
pub extern "C" fn bulwynef_store_explain(alloc: Global, store: &mut Handle, text: &mut Handle) -> u8
    ensures text { result ≡ 0 → Is (λ x. Is (IsText (λ t. IsStoreUnder (ExplainsAll t) x)) text.new.value) store.old.value }
    ensures still_open { is_some text.old.value ≡ true → result ≡ 114 }
    ensures number { is_some text.old.value ≡ false → (result ≡ 0 → ⊥) → (result ≡ 99) ⊎ Says (StoreRefuses (λ S p s e. e ≡ Memory)) store.old.value result }
    ensures refused { (result ≡ 0 → ⊥) → text.new.value ≡ text.old.value }
    ensures store { store.new.value ≡ store.old.value }
{
    put_answer!(alloc, store, text, object => explained(alloc, &object))
}

/// Returns the text of whom a proof convicts, and why, if nodes follow the program with this number.
fn explained_proof(
    alloc: Global,
    program: u8,
    directory: &[u8],
    proof: &[u8],
) -> Result<Vec<u8>, Refusal>
    ensures told { IfOk result (λ text. Explains program directory.now proof.now text.items) }
    ensures refused { IfErr result (λ f. ExplainFails program directory.now proof.now f) }
{
    let followed = program_of(program)?;
    let name = name_of(followed);
    match followed {
        Followed::Tally => explaining::proof(alloc, &Tally, name, directory, proof),
        Followed::Relay => explaining::proof(alloc, &Relay, name, directory, proof),
        Followed::Mailbox => explaining::proof(alloc, &Mailbox, name, directory, proof),
    }
}

/// `uint8_t bulwynef_explain_proof(uint8_t program, const uint8_t *directory, size_t directory_len, const uint8_t *proof, size_t proof_len,
/// struct bulwynef_handle *text)`: gives the text of whom a proof convicts, and why, if nodes follow the program (1 Tally, 2 Relay, 3
/// Mailbox). It refuses with 113 if there is no such program, and else as `byte_calls::check_proof` does.
#[unsafe(no_mangle)]
pub extern "C" fn bulwynef_explain_proof(
    alloc: Global,
    program: u8,
    directory: &[u8],
    proof: &[u8],
    text: &mut Handle,
) -> u8
    ensures text { result ≡ 0 → Is (IsText (λ t. Explains program directory.now proof.now t)) text.new.value }
    ensures still_open { is_some text.old.value ≡ true → result ≡ 114 }
    ensures number { is_some text.old.value ≡ false → (result ≡ 0 → ⊥) → (result ≡ 99) ⊎ ((f : TheRefusal) × (result ≡ refusal_number f) × ExplainFails program directory.now proof.now f) }
    ensures refused { (result ≡ 0 → ⊥) → text.new.value ≡ text.old.value }
{
    if text.is_open() {
        return refusal_number(Refusal::StillOpen);
    }
    match explained_proof(alloc, program, directory, proof) {
        Ok(bytes) => put(alloc, text, Object::Text(bytes)),
        Err(refusal) => refusal_number(refusal),
    }
}
