//! What a text is, and what is in it.

ghost use Rattle.std.specs.Prelude.{◌≡◌, ◌≤◌, IfOk, Ok, length, map, take};
ghost use Rattle.authenticators.specs.DirectoryText.{directory_of};
ghost use Rattle.item_forms.specs.Pieces.{Piece};
ghost use Rattle.item_forms.specs.Reading.{item_of};
ghost use Rattle.proofs.specs.ProofTexts.{items_of, proof_of};
ghost use Rattle.answers.specs.Texts.{shown_text};
ghost use Rattle.answers.specs.Showing.{AreContents, AreItems, AreKeys, IsShown, form_of, item_form, items_in, plain_form, seen_of};

use crate::form::TextForm;
use crate::keys::{KeyPrint, prints_of};
use crate::style::Style;
use crate::tally::{Seen, Tally, seen_of, segment_seen, statement_seen, tally_of};
use crate::{shown_json, shown_lines};
use authenticators::{Directory, DirectoryFault, Hash};
use containers::{Cause, ImportFault, decode_all};
use item_forms::{DecodeFault, Item};
use proofs::{Parts, Proof};
use sha2::{Digest, Sha256};
use std::alloc::{AllocError, Global};

/// What is in a text.
#[derive(Debug, Drop)]
pub enum Contents {
    /// The keys of a directory's nodes, in its order.
    Keys(Vec<KeyPrint>),
    /// Why the directory cannot be read.
    NoDirectory(DirectoryFault),
    /// How many items there are in a store, in a pack or in a proof. Of a text that is an item, it counts that one.
    Items(Tally),
    /// Why the items of a store or of a pack cannot be read, and how many items stand before the fault.
    NoItems(ImportFault),
    /// Nothing is said of what is in a text of this form.
    Untold,
}

/// What a text is, and what is in it.
#[derive(Debug, Drop)]
pub struct Shown {
    /// What the text is.
    pub form: TextForm,
    /// How many bytes it has.
    pub bytes: usize,
    /// Its SHA-256 value.
    pub sha256: Hash,
    /// What is in it.
    pub contents: Contents,
}

/// Reads the keys of the directory that a text is, or why it is none.
fn keys_in(alloc: Global, text: &[u8]) -> Result<Contents, AllocError>
    ensures { IfOk result (AreKeys (directory_of text.now)) }
{
    match Directory::from_bytes(alloc, text) {
        Ok(directory) => {
            let prints = prints_of(alloc, &directory)?;
            Ok(Contents::Keys(prints))
        }
        Err(DirectoryFault::Memory) => Err(AllocError),
        Err(fault) => Ok(Contents::NoDirectory(fault)),
    }
}

/// Returns what items are seen as.
fn all_seen(alloc: Global, items: &[Item]) -> Result<Vec<Seen>, AllocError>
    ensures { IfOk result (λ seen. seen.items ≡ map seen_of (map (λ (i : Piece). i.fields) items.now)) }
{
    let mut seen = Vec::new(alloc);
    for item in items {
        seen.push(seen_of(item))?;
    }
    Ok(seen)
}

/// Returns the first eight bytes.
fn front_of(text: &[u8]) -> [u8; 8]
    requires { 8 ≤ length text.now }
    ensures { result ≡ take 8 text.now }
{
    let mut front = [0; 8];
    front.copy_from_slice(&text[..8]);
    front
}

/// Counts the items of the store or of the pack that a text is, or returns why they cannot be read.
fn items_in(alloc: Global, text: &[u8]) -> Result<Contents, AllocError>
    requires { 8 ≤ length text.now }
    ensures { IfOk result (AreItems (items_in text.now)) }
{
    match decode_all(alloc, front_of(text), text) {
        Ok(items) => {
            let seen = all_seen(alloc, &items)?;
            let tally = tally_of(alloc, &seen)?;
            Ok(Contents::Items(tally))
        }
        Err(fault) => match fault.cause {
            Cause::Memory => Err(AllocError),
            _ => Ok(Contents::NoItems(fault)),
        },
    }
}

/// Returns what the parts of a proof are seen as.
fn parts_seen(alloc: Global, parts: &Parts) -> Result<Vec<Seen>, AllocError>
    ensures { IfOk result (λ seen. seen.items ≡ map seen_of (items_of parts.now)) }
{
    let seen = match parts {
        Parts::TwoAuths(first, second) => {
            vec![in alloc; statement_seen(first), statement_seen(second)]?
        }
        Parts::AuthSegment(first, second) => {
            vec![in alloc; statement_seen(first), segment_seen(second)]?
        }
        Parts::Nonconforming(segment) => vec![in alloc; segment_seen(segment)]?,
    };
    Ok(seen)
}

/// Counts the parts of a proof.
fn parts_in(alloc: Global, parts: &Parts) -> Result<Contents, AllocError>
    ensures { IfOk result (AreItems (Ok (items_of parts.now))) }
{
    let seen = parts_seen(alloc, parts)?;
    let tally = tally_of(alloc, &seen)?;
    Ok(Contents::Items(tally))
}

/// Reads the item that a text is, or that it is none.
fn item_in(alloc: Global, text: &[u8]) -> Result<(TextForm, Contents), AllocError>
    ensures form { IfOk result (λ x. x.0 ≡ item_form (item_of text.now)) }
    ensures contents { IfOk result (λ x. AreContents text.now x.0 x.1) }
{
    match Item::decode(alloc, text) {
        Ok(item) => {
            let seen = vec![in alloc; seen_of(&item)]?;
            let tally = tally_of(alloc, &seen)?;
            Ok((TextForm::Item, Contents::Items(tally)))
        }
        Err(DecodeFault::Memory) => Err(AllocError),
        Err(_) => Ok((TextForm::Unknown, Contents::Untold)),
    }
}

/// Reads the proof or the item that a text is, or that it is neither.
fn plain_in(alloc: Global, text: &[u8]) -> Result<(TextForm, Contents), AllocError>
    ensures form { IfOk result (λ x. x.0 ≡ plain_form (proof_of text.now) (item_of text.now)) }
    ensures contents { IfOk result (λ x. AreContents text.now x.0 x.1) }
{
    match Proof::decode(alloc, text) {
        Ok(proof) => {
            let contents = parts_in(alloc, proof.parts())?;
            Ok((TextForm::Proof, contents))
        }
        Err(DecodeFault::Memory) => Err(AllocError),
        Err(_) => {
            let (form, contents) = item_in(alloc, text)?;
            Ok((form, contents))
        }
    }
}

/// Returns what a text is, and what is in it.
fn read(alloc: Global, text: &[u8]) -> Result<(TextForm, Contents), AllocError>
    ensures form { IfOk result (λ x. x.0 ≡ form_of text.now) }
    ensures contents { IfOk result (λ x. AreContents text.now x.0 x.1) }
{
    let form = TextForm::known(text);
    let contents = match form {
        TextForm::Directory => keys_in(alloc, text)?,
        TextForm::Store | TextForm::Pack => items_in(alloc, text)?,
        TextForm::Summary | TextForm::Outline => Contents::Untold,
        TextForm::Proof | TextForm::Item | TextForm::Unknown => return plain_in(alloc, text),
    };
    Ok((form, contents))
}

/// Returns what a text is, how long it is, its SHA-256 value, and what is in it. Nothing of the text is checked: no signature, no log, and
/// no node against a directory. The call is refused only if memory is.
pub fn shown_of(alloc: Global, text: &[u8]) -> Result<Shown, AllocError>
    ensures { IfOk result (IsShown text.now) }
{
    let (form, contents) = read(alloc, text)?;
    Ok(Shown {
        form,
        bytes: text.len(),
        sha256: Hash(Sha256::digest(text)),
        contents,
    })
}

impl Shown {
    /// Writes what a text is, and what is in it. The call is refused only if memory is.
    pub fn write(&self, alloc: Global, style: Style) -> Result<Vec<u8>, AllocError>
        ensures { IfOk result (λ text. text.items ≡ shown_text style self.now) }
    {
        let mut text = Vec::new(alloc);
        match style {
            Style::Lines => shown_lines::put_shown(alloc, &mut text, self)?,
            Style::Json => shown_json::put_shown(alloc, &mut text, self)?,
        }
        Ok(text)
    }
}
