//! The page as it grows.

ghost use Rattle.std.specs.Prelude.{◌≡◌, ◌++◌, [], Some, codes, decimal, false, map, true, IfOk, OnOk};
ghost use Rattle.hex.specs.Hex.{encode_lower};
ghost use Rattle.page_text.specs.declared.places.Place.{Place as ThePlace};
ghost use Rattle.page_text.specs.declared.places.Place.TheVariants.{Outside};
ghost use Rattle.page_text.specs.Names.{sign_number};
ghost use Rattle.page_text.specs.Pages.{IsPage, all_written, before_style, behind_style, front, head_of, in_style, written};

use crate::escaping::escape;
use crate::names::{Attribute, Sign, Tag};
use crate::places::{Place, behind_all};
use std::alloc::{AllocError, Global};
use std::marker::Model;

/// A piece of a page. The pieces of markup are a closed set. What comes from outside is [`Text`](Piece::Text), which is escaped.
#[derive(Clone, Copy, Debug)]
pub enum Piece<'a> {
    /// The beginning of an element, up to its attributes.
    Open(Tag),
    /// The beginning of an attribute, up to its value.
    Set(Attribute),
    /// The beginning of a link to a place in the page, up to the place's name.
    Link,
    /// The end of an attribute's value, or of a link's.
    End,
    /// The end of an element's attributes. What is in the element follows.
    Inside,
    /// The end of an element's attributes, if nothing is in the element. It ends the element too.
    Alone,
    /// The end of an element.
    Close(Tag),
    /// A line feed.
    Line,
    /// A sign.
    Sign(Sign),
    /// Text, which is escaped.
    Text(&'a [u8]),
    /// A number in decimal digits.
    Number(u64),
    /// Bytes, each as two hexadecimal digits in lower case.
    Digits(&'a [u8]),
}

/// A page, or a part of one, as far as it is written. A contract sees its bytes.
#[derive(Debug, Drop)]
pub struct Page {
    bytes: Vec<u8>,
    /// Whether it has a head. A part has none.
    has_head: bool,
    /// Where the next piece stands. It is `None` if a call did not write all of its pieces, or wrote one that may not stand where it
    /// does.
    place: Option<Place>,
}

impl Model for Page {
    ghost use Rattle.std.specs.Prelude.{◌≡◌, ℕ, List, Some};
    ghost use Rattle.page_text.specs.declared.places.Place.{Place};
    ghost use Rattle.page_text.specs.within.Growing.{IsGrown};

    ghost Value = { List ℕ };

    ghost view = { λ p. p.bytes.items };

    ghost invariant = { λ p. (place : Place) → p.place ≡ Some place → IsGrown p.has_head place p.bytes.items };
}

/// Writes a name, with signs before and behind it.
fn put_name(
    page: &mut Vec<u8>,
    before: &'static str,
    name: &'static str,
    behind: &'static str,
) -> Result<(), AllocError>
    ensures { OnOk result (page.new.items ≡ page.old.items ++ before.now ++ name.now ++ behind.now) }
{
    page.extend_from_slice(before.as_bytes())?;
    page.extend_from_slice(name.as_bytes())?;
    page.extend_from_slice(behind.as_bytes())
}

/// Writes a number.
fn put_number(alloc: Global, page: &mut Vec<u8>, number: u64) -> Result<(), AllocError>
    ensures { OnOk result (page.new.items ≡ page.old.items ++ decimal number) }
{
    let digits = format!(in alloc; "{number}")?;
    page.extend_from_slice(digits.as_bytes())
}

/// Writes a sign as a reference.
fn put_sign(alloc: Global, page: &mut Vec<u8>, sign: Sign) -> Result<(), AllocError>
    ensures { OnOk result (page.new.items ≡ page.old.items ++ codes "&#" ++ decimal (sign_number sign) ++ codes ";") }
{
    page.extend_from_slice(b"&#")?;
    put_number(alloc, page, sign.number())?;
    page.extend_from_slice(b";")
}

/// Writes bytes as digits.
fn put_digits(alloc: Global, page: &mut Vec<u8>, bytes: &[u8]) -> Result<(), AllocError>
    ensures { OnOk result (page.new.items ≡ page.old.items ++ encode_lower bytes.now) }
{
    let digits = hex::encode(alloc, bytes)?;
    page.extend_from_slice(digits.as_bytes())
}

/// Writes a piece.
#[tactic(auto, unfolding(crate::specs::Pages::written))]
fn put(alloc: Global, page: &mut Vec<u8>, piece: Piece<'_>) -> Result<(), AllocError>
    ensures { OnOk result (page.new.items ≡ page.old.items ++ written piece.entry) }
{
    match piece {
        Piece::Open(tag) => put_name(page, "<", tag.name(), ""),
        Piece::Set(attribute) => put_name(page, " ", attribute.name(), "=\""),
        Piece::Link => page.extend_from_slice(b" href=\"#"),
        Piece::End => page.extend_from_slice(b"\""),
        Piece::Inside => page.extend_from_slice(b">"),
        Piece::Alone => page.extend_from_slice(b"/>"),
        Piece::Close(tag) => put_name(page, "</", tag.name(), ">"),
        Piece::Line => page.extend_from_slice(b"\n"),
        Piece::Sign(sign) => put_sign(alloc, page, sign),
        Piece::Text(text) => escape(page, text),
        Piece::Number(number) => put_number(alloc, page, number),
        Piece::Digits(bytes) => put_digits(alloc, page, bytes),
    }
}

/// Writes pieces one behind the other.
fn put_all(alloc: Global, page: &mut Vec<u8>, pieces: &[Piece<'_>]) -> Result<(), AllocError>
    ensures { OnOk result (page.new.items ≡ page.old.items ++ all_written pieces.now) }
{
    for piece in pieces {
        put(alloc, page, *piece)?;
    }
    Ok(())
}

/// Returns a byte of a style as it is written: a space for `<`, and else the byte.
fn in_style(byte: u8) -> u8
    ensures { result ≡ in_style byte }
{
    if byte == b'<' { b' ' } else { byte }
}

/// Writes a style.
fn put_style(page: &mut Vec<u8>, style: &[u8]) -> Result<(), AllocError>
    ensures { OnOk result (page.new.items ≡ page.old.items ++ map in_style style.now) }
{
    for byte in style {
        page.push(in_style(*byte))?;
    }
    Ok(())
}

/// Returns how each page begins.
#[tactic(auto, unfolding(crate::specs::Pages::front))]
fn front() -> &'static str
    ensures { result.now ≡ front }
{
    "<!DOCTYPE html>\n<html lang=\"en\">\n<head>\n<meta charset=\"utf-8\">\n<meta http-equiv=\"Content-Security-Policy\" content=\"default-src 'none'; style-src 'unsafe-inline'; base-uri 'none'; form-action 'none'\">\n<meta name=\"viewport\" content=\"width=device-width, initial-scale=1\">\n<title>"
}

/// Returns what stands between the title and the style.
#[tactic(auto, unfolding(crate::specs::Pages::before_style))]
fn before_style() -> &'static str
    ensures { result.now ≡ before_style }
{
    "</title>\n<style>\n"
}

/// Returns what stands behind the style.
#[tactic(auto, unfolding(crate::specs::Pages::behind_style))]
fn behind_style() -> &'static str
    ensures { result.now ≡ behind_style }
{
    "</style>\n</head>\n"
}

/// Returns the head of a page.
fn head(alloc: Global, title: &[u8], style: &[u8]) -> Result<Vec<u8>, AllocError>
    ensures { IfOk result (λ page. page.items ≡ head_of title.now style.now) }
{
    let mut page = Vec::new(alloc);
    page.extend_from_slice(front().as_bytes())?;
    escape(&mut page, title)?;
    page.extend_from_slice(before_style().as_bytes())?;
    put_style(&mut page, style)?;
    page.extend_from_slice(behind_style().as_bytes())?;
    Ok(page)
}

/// Returns where the next piece stands, if a part is written behind a page. It is outside of tags, if both end there and the part has no
/// head. Else it is `None`.
fn joint_of(page: Option<Place>, has_head: bool, part: Option<Place>) -> Option<Place>
    ensures { (next : ThePlace) → result ≡ Some next → (next ≡ Outside) × (page ≡ Some Outside) × (part ≡ Some Outside) × (has_head ≡ false) }
{
    match (page, part) {
        (Some(Place::Outside), Some(Place::Outside)) if !has_head => Some(Place::Outside),
        _ => None,
    }
}

/// Returns whether a page has a head, and ends outside of tags.
fn is_whole(has_head: bool, place: Option<Place>) -> bool
    ensures { result ≡ true → (has_head ≡ true) × (place ≡ Some Outside) }
{
    match place {
        Some(Place::Outside) => has_head,
        _ => false,
    }
}

impl Page {
    /// Returns a page with a head of this title and this style, and with nothing behind it yet. The title is escaped. Each `<` in the style
    /// becomes a space. It fails only if memory runs out.
    pub fn new(alloc: Global, title: &[u8], style: &[u8]) -> Result<Page, AllocError>
        ensures { IfOk result (λ page. page ≡ head_of title.now style.now) }
    {
        let bytes = head(alloc, title, style)?;
        Ok(Page {
            bytes,
            has_head: true,
            place: Some(Place::Outside),
        })
    }

    /// Returns an empty part of a page, for [`Page::append`]. It has no head, and takes no memory.
    pub fn part(alloc: Global) -> Page
        ensures { result ≡ [] }
    {
        Page {
            bytes: Vec::new(alloc),
            has_head: false,
            place: Some(Place::Outside),
        }
    }

    /// Writes the pieces behind what is written. If memory runs out, it fails, some of the pieces may have been written, and the page
    /// cannot be finished any more. Nor can it be finished if a piece may not stand where it does, such as a text in a tag. Only
    /// [`Page::finish`] reports that.
    pub fn write(&mut self, pieces: &[Piece<'_>]) -> Result<(), AllocError>
        ensures { OnOk result (self.new ≡ self.old ++ all_written pieces.now) }
    {
        let alloc = *self.bytes.allocator();
        let place = self.place;
        self.place = None;
        put_all(alloc, &mut self.bytes, pieces)?;
        self.place = behind_all(place, pieces);
        Ok(())
    }

    /// Writes a part behind what is written. Both must end outside of tags, and the part must have no head. Else, or if memory runs out,
    /// the page cannot be finished any more, as after [`Page::write`].
    pub fn append(&mut self, part: &Page) -> Result<(), AllocError>
        ensures { OnOk result (self.new ≡ self.old ++ part.now) }
    {
        let place = joint_of(self.place, part.has_head, part.place);
        self.place = None;
        self.bytes.extend_from_slice(&part.bytes)?;
        self.place = place;
        Ok(())
    }

    /// Returns the page's bytes. It fails if memory ran out in a call that wrote, if a piece stands where it may not, if the page ends in a
    /// tag, or if it is a part.
    pub fn finish(self) -> Result<Vec<u8>, AllocError>
        ensures exact { IfOk result (λ page. page.items ≡ self) }
        // The page is a head with a charset and a policy, and behind it markup of the closed set and texts, which are escaped and stand in
        // no tag.
        ensures whole { IfOk result (λ page. IsPage page.items) }
    {
        if is_whole(self.has_head, self.place) {
            Ok(self.bytes)
        } else {
            Err(AllocError)
        }
    }
}
