//! The entries in tables, for readers who cannot see the picture.

use crate::folding::are_tables_open;
use drawn_logs::markup::{attribute, begin, count, element, end, part, text};
use drawn_logs::{
    Drawn, PictureRow, SentenceId, View, entry_name, kind_of, sentence_name, source_of,
    write_content,
};
use known_logs::{Cell, Rows};
use log_chain::Hash;
use page_text::Piece::{Close, Digits, End, Inside, Line, Link, Number, Open, Set, Text};
use page_text::{Attribute, Page, Tag};
use sentences::Voice;
use std::alloc::AllocError;

/// How many bytes of a hash are shown first, if no two hashes of a table begin alike.
const SHORT: usize = 8;

/// Returns whether two hashes differ and begin alike.
fn are_alike(one: Hash, other: Hash) -> bool {
    one != other && one.0.get(..SHORT) == other.0.get(..SHORT)
}

/// Returns whether a hash begins as another one of these entries does.
fn is_alike(rows: &Rows, cells: &[Drawn], hash: Hash) -> bool {
    cells.iter().any(|one| match one.cell(rows) {
        Some(cell) => are_alike(cell.place.hash, hash),
        None => false,
    })
}

/// Writes a hash: its beginning, and the rest on demand, unless another one begins alike.
fn write_hash(page: &mut Page, rows: &Rows, cells: &[Drawn], hash: Hash) -> Result<(), AllocError> {
    begin(page, Tag::Td, "hash")?;
    if is_alike(rows, cells, hash) {
        element(page, Tag::Code, &[Digits(&hash.0)])?;
    } else {
        let (front, rest) = hash.0.as_slice().split_at(SHORT);
        page.write(&[Open(Tag::Code), Inside, Digits(front)])?;
        part(page, Tag::Span, "rest", &[Digits(rest)])?;
        page.write(&[Close(Tag::Code)])?;
    }
    page.write(&[Close(Tag::Td)])
}

/// Writes the cells of an entry that is known.
fn write_known<V: Voice>(
    page: &mut Page,
    view: &View<'_, V>,
    cells: &[Drawn],
    one: &Drawn,
    cell: &Cell,
) -> Result<(), AllocError> {
    element(page, Tag::Td, &[Text(kind_of(view.rows, one).as_bytes())])?;
    element(
        page,
        Tag::Td,
        &[Text(source_of(view.rows, cell).as_bytes())],
    )?;
    begin(page, Tag::Td, "content")?;
    write_content(page, view, one)?;
    page.write(&[Close(Tag::Td)])?;
    write_hash(page, view.rows, cells, cell.place.hash)
}

/// Writes the cells between an entry's number and its mark.
fn write_cells<V: Voice>(
    page: &mut Page,
    view: &View<'_, V>,
    cells: &[Drawn],
    one: &Drawn,
) -> Result<(), AllocError> {
    match one.cell(view.rows) {
        Some(cell) => write_known(page, view, cells, one, &cell),
        None => {
            element(page, Tag::Td, &[Text(b"not known")])?;
            element(page, Tag::Td, &[])?;
            element(page, Tag::Td, &[Text(b"nothing of it is here")])?;
            element(page, Tag::Td, &[])
        }
    }
}

/// Writes the link from a marked entry to the sentence that marks it.
fn write_sentence_link(page: &mut Page, sentence: SentenceId) -> Result<(), AllocError> {
    page.write(&[Open(Tag::A)])?;
    attribute(page, Attribute::Tabindex, "-1")?;
    page.write(&[Link])?;
    sentence_name(page, sentence)?;
    page.write(&[End, Inside, Text(b"! contradicts"), Close(Tag::A)])
}

/// Writes the cell that says whether the entry contradicts something.
fn write_mark(page: &mut Page, one: &Drawn) -> Result<(), AllocError> {
    begin(page, Tag::Td, "sign")?;
    if let Some(sentence) = one.sentence {
        write_sentence_link(page, sentence)?;
    }
    page.write(&[Close(Tag::Td)])
}

/// Writes the cell with the number, which links to the picture. The tab key does not stop at it.
fn write_number(page: &mut Page, one: &Drawn) -> Result<(), AllocError> {
    page.write(&[
        Open(Tag::Th),
        Set(Attribute::Scope),
        Text(b"row"),
        End,
        Inside,
        Open(Tag::A),
        Set(Attribute::Tabindex),
        Text(b"-1"),
        End,
        Link,
    ])?;
    entry_name(page, one.node, one.seq, one.alike)?;
    page.write(&[End, Inside, Number(one.seq), Close(Tag::A), Close(Tag::Th)])
}

/// Writes the row of an entry.
fn write_entry<V: Voice>(
    page: &mut Page,
    view: &View<'_, V>,
    cells: &[Drawn],
    one: &Drawn,
) -> Result<(), AllocError> {
    page.write(&[Open(Tag::Tr)])?;
    if one.sentence.is_some() {
        attribute(page, Attribute::Class, "marked")?;
    }
    page.write(&[Inside])?;
    write_number(page, one)?;
    write_cells(page, view, cells, one)?;
    write_mark(page, one)?;
    end(page, Tag::Tr)
}

/// Writes what the table is of, and how much of it is shown.
fn write_summary(page: &mut Page, row: &PictureRow) -> Result<(), AllocError> {
    page.write(&[
        Open(Tag::Summary),
        Inside,
        Text(b"What is known of the log of node "),
        Number(row.node.0 as u64),
        Text(b": "),
    ])?;
    count(page, row.known as u64, " entry", " entries")?;
    if row.drawn < row.known {
        page.write(&[Text(b", of which "), Number(row.drawn as u64)])?;
        text(
            page,
            if row.drawn == 1 {
                " is shown"
            } else {
                " are shown"
            },
        )?;
    }
    end(page, Tag::Summary)
}

/// Writes a column's name.
fn write_column(page: &mut Page, name: &'static str) -> Result<(), AllocError> {
    page.write(&[
        Open(Tag::Th),
        Set(Attribute::Scope),
        Text(b"col"),
        End,
        Inside,
        Text(name.as_bytes()),
        Close(Tag::Th),
    ])
}

/// Writes the table's beginning. The table is one stop of the tab key, and has a name.
fn write_head(page: &mut Page, row: &PictureRow) -> Result<(), AllocError> {
    begin(page, Tag::Details, "whole")?;
    element(page, Tag::Summary, &[Text(b"Whole hashes")])?;
    end(page, Tag::Details)?;
    page.write(&[Open(Tag::Div)])?;
    attribute(page, Attribute::Class, "scroll")?;
    attribute(page, Attribute::Role, "region")?;
    page.write(&[
        Set(Attribute::AriaLabel),
        Text(b"Entries of node "),
        Number(row.node.0 as u64),
        End,
    ])?;
    attribute(page, Attribute::Tabindex, "0")?;
    page.write(&[
        Inside,
        Open(Tag::Table),
        Inside,
        Open(Tag::Thead),
        Inside,
        Open(Tag::Tr),
        Inside,
    ])?;
    for name in ["Number", "Kind", "Known from", "Content", "Hash", "Marked"] {
        write_column(page, name)?;
    }
    page.write(&[
        Close(Tag::Tr),
        Close(Tag::Thead),
        Line,
        Open(Tag::Tbody),
        Inside,
        Line,
    ])
}

/// Writes the table of a row, if something of it is drawn.
pub(crate) fn write_table<V: Voice>(
    page: &mut Page,
    view: &View<'_, V>,
    row: &PictureRow,
) -> Result<(), AllocError> {
    let cells = view.choice.cells_of(row);
    if cells.is_empty() {
        return Ok(());
    }
    page.write(&[Open(Tag::Details)])?;
    if are_tables_open(view.choice) {
        page.write(&[Set(Attribute::Open), End])?;
    }
    page.write(&[Inside])?;
    write_summary(page, row)?;
    write_head(page, row)?;
    for one in cells {
        write_entry(page, view, cells, one)?;
    }
    page.write(&[
        Close(Tag::Tbody),
        Close(Tag::Table),
        Close(Tag::Div),
        Close(Tag::Details),
        Line,
    ])
}
