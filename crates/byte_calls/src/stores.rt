//! Stores of evidence: what they are given, and what they answer, as encodings and numbers.

ghost use Rattle.std.specs.Prelude.{◌≡◌, ◌+◌, ◌⊎◌, ◌↔◌, false, true, IfErr, IfOk, IfSome, IsSome, OnErr, OnOk, map};
ghost use Rattle.outcome.specs.Outcome.{Fails, Gives, told_as};
ghost use Rattle.authenticators.specs.Directory.{is_listed};
ghost use Rattle.proofs.specs.Cases.{Case};
ghost use Rattle.proofs.specs.Convicting.{Convicts};
ghost use Rattle.proofs.specs.ProofTexts.{proof_text};
ghost use Rattle.evidence_item.specs.Checking.{IsChecked};
ghost use Rattle.item_forms.specs.Spelling.{spelling};
ghost use Rattle.evidence.specs.Exports.{export_of, magic_of, set_text};
ghost use Rattle.evidence_set.specs.Indications.{IsExposed, IsIndication};
ghost use Rattle.evidence_set.specs.ItemSets.{Items, Join, count};
ghost use Rattle.evidence.specs.Contents.{with_items};
ghost use Rattle.evidence.specs.Importing.{import_set};
ghost use Rattle.byte_calls.specs.declared.refusal.Refusal.TheVariants.{Memory, OtherDirectory, OutOfRange, UnknownNode};
ghost use Rattle.byte_calls.specs.Refusals.{of_import};
ghost use Rattle.byte_calls.specs.Stores.{AreFewer, AreUnanswered, IsUnansweredAt, Takes, opened, valid_item_of};

use crate::refusal::Refusal;
use authenticators::{Directory, NodeId};
use evidence::{AskFault, Evidence};
use evidence_item::{Checked, Item, check_item};
use evidence_set::Indication;
use proofs::Proof;
use replay_verifier::Program;
use std::alloc::Global;

/// Creates a store without items, under the directory with this encoding. It refuses as the encoding is refused (2, 3, 20 to 26).
#[tactic(auto, unfolding(crate::specs::Stores::opened))]
pub fn open<P: Program, S: Evidence<P>>(alloc: Global, directory: &[u8]) -> Result<S, Refusal>
    ensures { Gives Memory S.contents result (opened directory.now) }
{
    let directory = Directory::from_bytes(alloc, directory)?;
    let store = S::new(alloc, directory)?;
    Ok(store)
}

/// Adds the items of the encoding of a set, all or none, and returns how many are new. It refuses as the encoding is refused (40 to 49, 60,
/// 61).
pub fn import<P: Program, S: Evidence<P>>(
    store: &mut S,
    program: &P,
    text: &[u8],
) -> Result<u64, Refusal>
    ensures told { IfOk result (λ new. count (S.contents store.old).items + new ≡ count (S.contents store.new).items) }
    ensures joined { OnOk result ((added : Items) × (text.now ≡ set_text (magic_of text.now) added) × (S.contents store.new ≡ with_items (S.contents store.old) (Join (S.contents store.old).items added))) }
    ensures refused { IfErr result (λ f. Fails Memory f (told_as of_import (import_set (S.contents store.old).directory text.now))) }
    ensures unchanged { OnErr result (S.contents store.new ≡ S.contents store.old) }
{
    let new = store.import(program, text)?;
    Ok(new)
}

/// Adds the items of another store under the same directory, all or none, and returns how many are new. It refuses with `OtherDirectory`
/// (112) if the other store is under another directory.
pub fn merge<P: Program, S: Evidence<P>>(store: &mut S, other: &S) -> Result<u64, Refusal>
    ensures told { IfOk result (λ new. count (S.contents store.old).items + new ≡ count (S.contents store.new).items) }
    ensures joined { OnOk result (S.contents store.new ≡ with_items (S.contents store.old) (Join (S.contents store.old).items (S.contents other.now).items)) }
    ensures allowed { OnOk result ((S.contents store.old).directory ≡ (S.contents other.now).directory) }
    ensures refused { IfErr result (λ f. (f ≡ Memory) ⊎ ((f ≡ OtherDirectory) × ((S.contents store.old).directory ≡ (S.contents other.now).directory → ⊥))) }
    ensures unchanged { OnErr result (S.contents store.new ≡ S.contents store.old) }
{
    if !store.shares_directory(other) {
        return Err(Refusal::OtherDirectory);
    }
    let new = store.merge(other)?;
    Ok(new)
}

/// Returns what the items say of the node. It refuses with `UnknownNode` (44) if the directory does not list the node.
pub fn indication<P: Program, S: Evidence<P>>(store: &S, node: u32) -> Result<Indication, Refusal>
    ensures told { IfOk result (λ i. IsIndication (S.contents store.now).directory P.means (S.contents store.now).items node i) }
    ensures listed { OnOk result (is_listed (S.contents store.now).directory node ≡ true) }
    ensures refused { IfErr result (λ f. (f ≡ UnknownNode) × (is_listed (S.contents store.now).directory node ≡ false)) }
{
    let indication = store.indication(NodeId(node))?;
    Ok(indication)
}

/// Returns a proof that convicts the node if the items expose it, else `None`.
fn found_proof<P: Program, S: Evidence<P>>(store: &S, node: u32) -> Result<Option<Proof>, Refusal>
    ensures some { IfOk result (λ p. IsSome p ↔ IsExposed (S.contents store.now).directory P.means (S.contents store.now).items node) }
    ensures convicts { IfOk result (λ p. IfSome p (λ q. Convicts (S.contents store.now).directory P.means node q.parts)) }
    ensures listed { OnOk result (is_listed (S.contents store.now).directory node ≡ true) }
    ensures refused { IfErr result (λ f. (f ≡ Memory) ⊎ ((f ≡ UnknownNode) × (is_listed (S.contents store.now).directory node ≡ false))) }
{
    match store.proof(NodeId(node)) {
        Ok(found) => Ok(found),
        Err(AskFault::UnknownNode) => Err(Refusal::UnknownNode),
        Err(AskFault::Memory) => Err(Refusal::Memory),
    }
}

/// Returns the encoding of a proof that convicts the node if the items expose it, else `None`. It refuses with `UnknownNode` (44) if the
/// directory does not list the node.
pub fn proof<P: Program, S: Evidence<P>>(
    alloc: Global,
    store: &S,
    node: u32,
) -> Result<Option<Vec<u8>>, Refusal>
    ensures some { IfOk result (λ found. IsSome found ↔ IsExposed (S.contents store.now).directory P.means (S.contents store.now).items node) }
    ensures listed { OnOk result (is_listed (S.contents store.now).directory node ≡ true) }
    ensures refused { IfErr result (λ f. (f ≡ Memory) ⊎ ((f ≡ UnknownNode) × (is_listed (S.contents store.now).directory node ≡ false))) }
    ensures convicts { IfOk result (λ found. IfSome found (λ text. (c : Case) × (text.items ≡ proof_text c.parts) × Convicts (S.contents store.now).directory P.means node c.parts)) }
{
    match found_proof(store, node)? {
        None => Ok(None),
        Some(proof) => {
            let text = proof.encode(alloc)?;
            Ok(Some(text))
        }
    }
}

/// Returns the challenges against the node that no item answers.
fn unanswered<P: Program, S: Evidence<P>>(store: &S, node: u32) -> Result<Vec<&Item>, Refusal>
    ensures all { IfOk result (λ found. AreUnanswered (S.contents store.now) node (map (λ i. i.now) found.items)) }
    ensures listed { OnOk result (is_listed (S.contents store.now).directory node ≡ true) }
    ensures refused { IfErr result (λ f. (f ≡ Memory) ⊎ ((f ≡ UnknownNode) × (is_listed (S.contents store.now).directory node ≡ false))) }
{
    match store.open_challenges(NodeId(node)) {
        Ok(found) => Ok(found),
        Err(AskFault::UnknownNode) => Err(Refusal::UnknownNode),
        Err(AskFault::Memory) => Err(Refusal::Memory),
    }
}

/// Returns the encoding of the challenge at the place, from 0, among those against the node that no item answers. They are in the order of
/// their encodings. It refuses with `UnknownNode` (44) if the directory does not list the node, and then with `OutOfRange` (116) if there are
/// fewer.
pub fn challenge<P: Program, S: Evidence<P>>(
    alloc: Global,
    store: &S,
    node: u32,
    place: usize,
) -> Result<Vec<u8>, Refusal>
    ensures text { IfOk result (λ text. IsUnansweredAt (S.contents store.now) node place text.items) }
    ensures listed { OnOk result (is_listed (S.contents store.now).directory node ≡ true) }
    ensures refused { IfErr result (λ f. (f ≡ Memory) ⊎ ((f ≡ UnknownNode) × (is_listed (S.contents store.now).directory node ≡ false)) ⊎ ((f ≡ OutOfRange) × (is_listed (S.contents store.now).directory node ≡ true) × AreFewer (S.contents store.now) node place)) }
{
    let found = unanswered(store, node)?;
    match found.get(place) {
        Some(item) => {
            let text = item.encode(alloc)?;
            Ok(text)
        }
        None => Err(Refusal::OutOfRange),
    }
}

/// Reads an item, checks it, and adds it. Returns whether it is new. It refuses as the encoding is refused (40 to 43), and then as the item
/// is (44 to 49).
pub fn take<P: Program, S: Evidence<P>>(
    alloc: Global,
    store: &mut S,
    program: &P,
    text: &[u8],
) -> Result<bool, Refusal>
    ensures taken { IfOk result (λ new. Takes (S.contents store.old) (S.contents store.new) text.now new) }
    ensures refused { IfErr result (λ f. Fails Memory f (valid_item_of (S.contents store.old).directory text.now)) }
    ensures unchanged { OnErr result (S.contents store.new ≡ S.contents store.old) }
{
    let checked = read_item(alloc, program, store.directory(), text)?;
    let new = store.take(checked)?;
    Ok(new)
}

/// Reads the encoding of an item, and checks the item under the directory.
#[tactic(auto, unfolding(crate::specs::Stores::valid_item_of))]
pub(crate) fn read_item<P: Program>(
    alloc: Global,
    program: &P,
    directory: &Directory,
    text: &[u8],
) -> Result<Checked<P>, Refusal>
    ensures exact { Gives Memory (λ c. c.item.fields) result (valid_item_of directory.now text.now) }
    ensures checked { IfOk result (λ c. IsChecked directory.now P.means c) }
    ensures spelled { IfOk result (λ c. text.now ≡ spelling c.item.fields) }
{
    let item = Item::decode(alloc, text)?;
    let checked = check_item(alloc, program, directory, item)?;
    Ok(checked)
}

/// Returns the store's export: the one encoding of its set of items.
pub fn export<P: Program, S: Evidence<P>>(store: &S) -> Result<Vec<u8>, Refusal>
    ensures text { IfOk result (λ text. text.items ≡ export_of (S.contents store.now).items) }
    ensures refused { IfErr result (λ f. f ≡ Memory) }
{
    let text = store.export()?;
    Ok(text)
}
