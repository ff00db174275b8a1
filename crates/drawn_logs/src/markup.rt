//! Short functions that write elements.

ghost use Rattle.std.specs.Prelude.{◌≡◌, ◌++◌, ℕ, List, OnOk};

use page_text::Piece::{self, Close, End, Inside, Line, Number, Open, Set, Text};
use page_text::{Attribute, Page, Tag};
use std::alloc::AllocError;

/// Writes an attribute with a text.
pub fn attribute(page: &mut Page, name: Attribute, value: &str) -> Result<(), AllocError> {
    page.write(&[Set(name), Text(value.as_bytes()), End])
}

/// Writes an attribute with a number.
pub fn measure(page: &mut Page, name: Attribute, value: u64) -> Result<(), AllocError> {
    page.write(&[Set(name), Number(value), End])
}

/// Begins an element of a class.
pub fn begin(page: &mut Page, tag: Tag, class: &str) -> Result<(), AllocError> {
    page.write(&[Open(tag)])?;
    attribute(page, Attribute::Class, class)?;
    page.write(&[Inside])
}

/// Ends an element and its line.
pub fn end(page: &mut Page, tag: Tag) -> Result<(), AllocError> {
    page.write(&[Close(tag), Line])
}

/// Writes an element that has nothing but these pieces.
pub fn element(page: &mut Page, tag: Tag, pieces: &[Piece<'_>]) -> Result<(), AllocError> {
    page.write(&[Open(tag), Inside])?;
    page.write(pieces)?;
    page.write(&[Close(tag)])
}

/// Writes an element of a class that has nothing but these pieces.
pub fn part(
    page: &mut Page,
    tag: Tag,
    class: &str,
    pieces: &[Piece<'_>],
) -> Result<(), AllocError> {
    begin(page, tag, class)?;
    page.write(pieces)?;
    page.write(&[Close(tag)])
}

/// Writes a text.
pub fn text(page: &mut Page, text: &str) -> Result<(), AllocError> {
    page.write(&[Text(text.as_bytes())])
}

/// Writes a number with the word for one, or the word for any other number.
pub fn count(
    page: &mut Page,
    count: u64,
    one: &'static str,
    more: &'static str,
) -> Result<(), AllocError> {
    page.write(&[Number(count)])?;
    text(page, if count == 1 { one } else { more })
}

/// Begins a section with a heading that it is named by.
pub fn begin_section<'a>(page: &mut Page, id: &'a str, heading: &'a str) -> Result<(), AllocError>
    // What was written stays.
    ensures { OnOk result ((more : List ℕ) × (page.new ≡ page.old ++ more)) }
{
    page.write(&[
        Open(Tag::Section),
        Set(Attribute::AriaLabelledby),
        Text(id.as_bytes()),
        End,
        Inside,
        Line,
        Open(Tag::H2),
        Set(Attribute::Id),
        Text(id.as_bytes()),
        End,
        Inside,
        Text(heading.as_bytes()),
        Close(Tag::H2),
        Line,
    ])?;
    Ok(())
}
