//! The form of a text.

ghost use Rattle.std.specs.Prelude.{◌≡◌, ◌≤◌, length};
ghost use Rattle.answers.specs.Showing.{form_name, form_of_front, known_form};

use std::fmt;

/// The form of a text: what the text is.
#[derive(Clone, Copy, Debug, PartialEq, Eq)]
pub enum TextForm {
    /// It begins with `PRDIREC2` or `PRDIRECT`.
    Directory,
    /// It begins with `PRSTORE2` or `PRSTORE1`.
    Store,
    /// It begins with `PRSUMM01` or `PRSUMM02`.
    Summary,
    /// It begins with `PROUTL01`.
    Outline,
    /// It begins with `PRPACK01`.
    Pack,
    /// It begins with none of the above, and is the text of a proof.
    Proof,
    /// It begins with none of the above, is no proof, and is the text of an item.
    Item,
    /// None of the above.
    Unknown,
}

/// Returns what eight bytes say that a text is.
#[tactic(auto, unfolding(crate::specs::Showing::form_of_front))]
fn form_of_front(front: &[u8]) -> TextForm
    ensures { result ≡ form_of_front front.now }
{
    if front == b"PRDIREC2".as_slice() || front == b"PRDIRECT".as_slice() {
        return TextForm::Directory;
    }
    if front == b"PRSTORE2".as_slice() || front == b"PRSTORE1".as_slice() {
        return TextForm::Store;
    }
    if front == b"PRSUMM01".as_slice() || front == b"PRSUMM02".as_slice() {
        return TextForm::Summary;
    }
    if front == b"PROUTL01".as_slice() {
        return TextForm::Outline;
    }
    if front == b"PRPACK01".as_slice() {
        return TextForm::Pack;
    }
    TextForm::Unknown
}

impl TextForm {
    /// Returns what the first eight bytes of a text say that it is. Returns `Unknown` if they say nothing, or if the text has fewer bytes.
    #[tactic(auto, unfolding(crate::specs::Showing::known_form))]
    pub fn known(text: &[u8]) -> TextForm
        ensures known { result ≡ known_form text.now }
        ensures long { (result ≡ TextForm.Unknown → ⊥) → 8 ≤ length text.now }
    {
        if text.len() < 8 {
            return TextForm::Unknown;
        }
        form_of_front(&text[..8])
    }

    /// Returns the word for the form, without an article.
    pub fn name(&self) -> &'static str
        ensures { result.now ≡ form_name self.now }
    {
        match self {
            TextForm::Directory => "directory",
            TextForm::Store => "store",
            TextForm::Summary => "summary",
            TextForm::Outline => "outline",
            TextForm::Pack => "pack",
            TextForm::Proof => "proof",
            TextForm::Item => "item",
            TextForm::Unknown => "unknown",
        }
    }
}

/// Writes the form as it stands in a sentence, with an article.
impl fmt::Display for TextForm {
    fn fmt<W: fmt::Write>(&self, f: &mut fmt::Formatter<W>) -> fmt::Result {
        f.write_str(match self {
            TextForm::Directory => "a directory",
            TextForm::Store => "a store",
            TextForm::Summary => "a summary",
            TextForm::Outline => "an outline",
            TextForm::Pack => "a pack",
            TextForm::Proof => "a proof",
            TextForm::Item => "an item",
            TextForm::Unknown => "of no known form",
        })
    }
}
