//! The boxes of entries in the picture.

use crate::choosing::Drawn;
use crate::describing::{entry_name, kind_of, sentence_name, write_line};
use crate::layout::{COLUMN, HEIGHT, Point};
use crate::marks::SentenceId;
use crate::markup::{attribute, measure};
use crate::view::View;
use known_logs::Rows;
use log_chain::kind::{CHECKPOINT, INIT, RECV, SEND, TIMER};
use page_text::Piece::{Alone, Close, End, Inside, Line, Link, Number, Open, Set, Sign, Text};
use page_text::{Attribute, Page, Sign as Signs, Tag};
use sentences::Voice;
use std::alloc::AllocError;

/// Returns the class of an entry's kind, or `bare` if the kind is not known.
pub fn kind_class(rows: &Rows, one: &Drawn) -> &'static str {
    match one.detail(rows) {
        None => "bare",
        Some(detail) => match detail.kind {
            INIT => "init",
            SEND => "send",
            RECV => "recv",
            TIMER => "timer",
            CHECKPOINT => "checkpoint",
            _ => "other",
        },
    }
}

/// Returns the class that says from what an entry is known: `logged` if it stands in a segment, `absent` if it is not known, and else
/// `signed`.
pub fn source_class(rows: &Rows, one: &Drawn) -> &'static str {
    match one.cell(rows) {
        None => "absent",
        Some(cell) if cell.is_logged => "logged",
        Some(_) => "signed",
    }
}

/// Returns the word on an entry.
fn word(rows: &Rows, one: &Drawn) -> &'static str {
    if one.detail(rows).is_some() {
        kind_of(rows, one)
    } else if one.cell(rows).is_some() {
        "SIGNED"
    } else {
        "nothing"
    }
}

/// Returns how round an entry's corners are. Those of a segment's entry are sharp.
fn rounding(rows: &Rows, one: &Drawn) -> u64 {
    match one.cell(rows) {
        Some(cell) if cell.is_logged => 3,
        _ => 21,
    }
}

/// Writes a label of a box.
fn draw_label(page: &mut Page, class: &str, y: u64) -> Result<(), AllocError> {
    page.write(&[Open(Tag::Text)])?;
    attribute(page, Attribute::Class, class)?;
    measure(page, Attribute::X, 40)?;
    measure(page, Attribute::Y, y)?;
    page.write(&[Inside])
}

/// Writes the sign on an entry that is marked.
fn draw_flag(page: &mut Page) -> Result<(), AllocError> {
    page.write(&[Open(Tag::Path)])?;
    attribute(page, Attribute::Class, "flag")?;
    attribute(page, Attribute::D, "M80 -14l12 21h-24z")?;
    page.write(&[Alone, Open(Tag::Text)])?;
    attribute(page, Attribute::Class, "sign")?;
    measure(page, Attribute::X, 80)?;
    measure(page, Attribute::Y, 5)?;
    page.write(&[Inside, Text(b"!"), Close(Tag::Text)])
}

/// Writes the box of an entry, and the sign on one that is marked.
fn draw_box(page: &mut Page, rows: &Rows, one: &Drawn) -> Result<(), AllocError> {
    page.write(&[Open(Tag::Rect)])?;
    attribute(page, Attribute::Class, "box")?;
    measure(page, Attribute::Width, 80)?;
    measure(page, Attribute::Height, 42)?;
    measure(page, Attribute::Rx, rounding(rows, one))?;
    page.write(&[Alone])?;
    draw_label(page, "number", 19)?;
    page.write(&[Number(one.seq), Close(Tag::Text)])?;
    draw_label(page, "kind", 33)?;
    page.write(&[Text(word(rows, one).as_bytes()), Close(Tag::Text)])?;
    if one.sentence.is_some() {
        draw_flag(page)?;
    }
    Ok(())
}

/// Writes the sign of what is left out before an entry.
fn draw_gap(page: &mut Page, one: &Drawn, corner: Point) -> Result<(), AllocError> {
    if !one.is_behind_gap {
        return Ok(());
    }
    page.write(&[Open(Tag::Text)])?;
    attribute(page, Attribute::Class, "gap")?;
    measure(page, Attribute::X, corner.x.saturating_sub(COLUMN / 2))?;
    measure(page, Attribute::Y, corner.y.saturating_add(HEIGHT / 2))?;
    page.write(&[Inside, Sign(Signs::Dots), Close(Tag::Text), Line])
}

/// Writes the beginning of an entry: its name, its classes, and where it stands.
fn begin_entry(page: &mut Page, rows: &Rows, one: &Drawn, corner: Point) -> Result<(), AllocError> {
    page.write(&[Open(Tag::G), Set(Attribute::Id)])?;
    entry_name(page, one.node, one.seq, one.alike)?;
    page.write(&[
        End,
        Set(Attribute::Class),
        Text(b"entry "),
        Text(kind_class(rows, one).as_bytes()),
        Text(b" "),
        Text(source_class(rows, one).as_bytes()),
    ])?;
    if one.sentence.is_some() {
        page.write(&[Text(b" marked")])?;
    }
    page.write(&[End])?;
    measure(page, Attribute::DataNode, one.node.0 as u64)?;
    measure(page, Attribute::DataSeq, one.seq)?;
    page.write(&[
        Set(Attribute::Transform),
        Text(b"translate("),
        Number(corner.x),
        Text(b" "),
        Number(corner.y),
        Text(b")"),
        End,
        Inside,
    ])
}

/// Writes an entry, with what it says on its title.
fn draw_entry<V: Voice>(
    page: &mut Page,
    view: &View<'_, V>,
    one: &Drawn,
    corner: Point,
) -> Result<(), AllocError> {
    begin_entry(page, view.rows, one, corner)?;
    page.write(&[Open(Tag::Title), Inside])?;
    write_line(page, view, one)?;
    page.write(&[Close(Tag::Title)])?;
    draw_box(page, view.rows, one)?;
    page.write(&[Close(Tag::G)])
}

/// Begins a link to a sentence. The tab key does not stop at it, since the table has the same link.
fn begin_link(page: &mut Page, sentence: SentenceId) -> Result<(), AllocError> {
    page.write(&[Open(Tag::A)])?;
    attribute(page, Attribute::Tabindex, "-1")?;
    page.write(&[Link])?;
    sentence_name(page, sentence)?;
    page.write(&[End, Inside])
}

/// Writes an entry. If a sentence marks it, the entry stands in a link to that sentence. If entries before it are left out, the sign of a
/// gap comes first.
pub fn draw_linked<V: Voice>(
    page: &mut Page,
    view: &View<'_, V>,
    one: &Drawn,
    corner: Point,
) -> Result<(), AllocError> {
    draw_gap(page, one, corner)?;
    if let Some(sentence) = one.sentence {
        begin_link(page, sentence)?;
        draw_entry(page, view, one, corner)?;
        page.write(&[Close(Tag::A), Line])
    } else {
        draw_entry(page, view, one, corner)?;
        page.write(&[Line])
    }
}
