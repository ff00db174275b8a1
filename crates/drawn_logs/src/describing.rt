//! What is said of an entry, and the names by which links find entries and sentences.

use crate::choosing::Drawn;
use crate::marks::SentenceId;
use crate::markup::text;
use crate::view::View;
use authenticators::NodeId;
use known_logs::{Cell, Rows};
use log_chain::kind::{CHECKPOINT, INIT, RECV, SEND, TIMER};
use page_text::Page;
use page_text::Piece::{Digits, Number, Text};
use sentences::Voice;
use std::alloc::AllocError;

/// Writes the name of an entry in the picture, such as `entry-3-7`. `alike` is the number of entries with this number that are drawn before
/// it. If it is above 0, the name ends with it, as in `entry-3-7-1`.
pub fn entry_name(page: &mut Page, node: NodeId, seq: u64, alike: u64) -> Result<(), AllocError> {
    page.write(&[
        Text(b"entry-"),
        Number(node.0 as u64),
        Text(b"-"),
        Number(seq),
    ])?;
    if alike > 0 {
        page.write(&[Text(b"-"), Number(alike)])?;
    }
    Ok(())
}

/// Writes the name of a sentence, such as `node-3-sentence-1`.
pub fn sentence_name(page: &mut Page, id: SentenceId) -> Result<(), AllocError> {
    page.write(&[
        Text(b"node-"),
        Number(id.node as u64),
        Text(b"-sentence-"),
        Number(id.number),
    ])
}

/// Returns the name of a kind.
fn kind_name(kind: u8) -> &'static str {
    match kind {
        INIT => "INIT",
        SEND => "SEND",
        RECV => "RECV",
        TIMER => "TIMER",
        CHECKPOINT => "CHECKPOINT",
        _ => "OTHER",
    }
}

/// Returns the name of an entry's kind, or `not known`.
pub fn kind_of(rows: &Rows, one: &Drawn) -> &'static str {
    match one.detail(rows) {
        Some(detail) => kind_name(detail.kind),
        None => "not known",
    }
}

/// Returns from what an entry is known: `segment`, `message` or `statement`.
pub fn source_of(rows: &Rows, cell: &Cell) -> &'static str {
    if cell.is_logged {
        "segment"
    } else if rows.detail(cell).is_some() {
        "message"
    } else {
        "statement"
    }
}

/// Writes what an entry says, without the word for its kind. If that is not known, it writes so.
pub fn write_content<V: Voice>(
    page: &mut Page,
    view: &View<'_, V>,
    one: &Drawn,
) -> Result<(), AllocError> {
    match view.content_of(one)? {
        Some(content) => text(page, content.as_str()),
        None => text(page, "what it says is not here"),
    }
}

/// Writes what is known of an entry that is known.
fn write_known<V: Voice>(
    page: &mut Page,
    view: &View<'_, V>,
    one: &Drawn,
    cell: &Cell,
) -> Result<(), AllocError> {
    if one.detail(view.rows).is_some() {
        text(page, ", ")?;
        text(page, kind_of(view.rows, one))?;
    }
    text(page, ": ")?;
    write_content(page, view, one)?;
    text(page, "; known from a ")?;
    text(page, source_of(view.rows, cell))?;
    page.write(&[Text(b"; hash "), Digits(&cell.place.hash.0)])
}

/// Writes what is known of an entry, in a line.
pub(crate) fn write_line<V: Voice>(
    page: &mut Page,
    view: &View<'_, V>,
    one: &Drawn,
) -> Result<(), AllocError> {
    page.write(&[
        Text(b"Node "),
        Number(one.node.0 as u64),
        Text(b", entry "),
        Number(one.seq),
    ])?;
    match one.cell(view.rows) {
        Some(cell) => write_known(page, view, one, &cell),
        None => text(page, ": nothing of it is here"),
    }
}
