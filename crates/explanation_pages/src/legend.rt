//! The legend explains what the picture has, and nothing else.

use drawn_logs::markup::{attribute, begin, end, measure, text};
use drawn_logs::{Drawn, Grid, View, kind_class, source_class};
use known_logs::Rows;
use page_text::Piece::{Alone, Close, Inside, Line, Open, Sign, Text};
use page_text::{Attribute, Page, Sign as Signs, Tag};
use sentences::Voice;
use std::alloc::AllocError;

/// The kinds of entries, by their classes.
const KINDS: [(&str, &str); 6] = [
    ("init", "INIT"),
    ("send", "SEND"),
    ("recv", "RECV"),
    ("timer", "TIMER"),
    ("checkpoint", "CHECKPOINT"),
    ("other", "an unknown kind"),
];

/// Returns whether an entry is of the kind with this class.
fn has_kind(rows: &Rows, cells: &[Drawn], class: &str) -> bool {
    cells.iter().any(|one| kind_class(rows, one) == class)
}

/// Returns whether an entry is known from the source that this class names.
fn has_source(rows: &Rows, cells: &[Drawn], class: &str) -> bool {
    cells.iter().any(|one| source_class(rows, one) == class)
}

/// Returns whether an entry quotes another that is drawn.
fn has_arrow(cells: &[Drawn], grid: &Grid) -> bool {
    cells
        .iter()
        .enumerate()
        .any(|(i, _)| grid.quoted_entry(i).is_some())
}

/// Returns whether an entry stands behind another that is drawn.
fn has_chain(cells: &[Drawn], grid: &Grid) -> bool {
    cells
        .iter()
        .enumerate()
        .any(|(i, _)| grid.before(i).is_some())
}

/// Begins a sign of the legend.
fn begin_sign(page: &mut Page) -> Result<(), AllocError> {
    page.write(&[Open(Tag::Li), Inside, Open(Tag::Svg)])?;
    measure(page, Attribute::Width, 26)?;
    measure(page, Attribute::Height, 16)?;
    attribute(page, Attribute::AriaHidden, "true")?;
    page.write(&[Inside])
}

/// Ends a sign of the legend with what it means.
fn end_sign(page: &mut Page, meaning: &str) -> Result<(), AllocError> {
    page.write(&[Close(Tag::Svg)])?;
    text(page, meaning)?;
    end(page, Tag::Li)
}

/// Writes what a box of a class means.
fn write_box(page: &mut Page, class: &str, rounding: u64, meaning: &str) -> Result<(), AllocError> {
    begin_sign(page)?;
    begin(page, Tag::G, class)?;
    page.write(&[Open(Tag::Rect)])?;
    attribute(page, Attribute::Class, "box")?;
    measure(page, Attribute::X, 1)?;
    measure(page, Attribute::Y, 1)?;
    measure(page, Attribute::Width, 24)?;
    measure(page, Attribute::Height, 14)?;
    measure(page, Attribute::Rx, rounding)?;
    page.write(&[Alone, Close(Tag::G)])?;
    end_sign(page, meaning)
}

/// Writes what a path of a class means.
fn write_path(page: &mut Page, class: &str, path: &str, meaning: &str) -> Result<(), AllocError> {
    begin_sign(page)?;
    draw_path(page, class, path)?;
    end_sign(page, meaning)
}

/// Writes a path.
fn draw_path(page: &mut Page, class: &str, path: &str) -> Result<(), AllocError> {
    page.write(&[Open(Tag::Path)])?;
    attribute(page, Attribute::Class, class)?;
    attribute(page, Attribute::D, path)?;
    page.write(&[Alone])
}

/// Writes what the kinds of boxes mean.
fn write_kinds(page: &mut Page, rows: &Rows, cells: &[Drawn]) -> Result<(), AllocError> {
    for (class, name) in KINDS {
        if has_kind(rows, cells, class) {
            write_box(page, class, 2, name)?;
        }
    }
    Ok(())
}

/// Writes what the shapes of boxes mean.
fn write_shapes(page: &mut Page, rows: &Rows, cells: &[Drawn]) -> Result<(), AllocError> {
    if has_source(rows, cells, "signed") {
        write_box(page, "bare signed", 7, "rounded: signed, in no segment")?;
    }
    if has_source(rows, cells, "absent") {
        write_box(page, "bare absent", 7, "dotted: nothing of it is here")?;
    }
    Ok(())
}

/// Writes what the sign on a marked entry means.
fn write_flag(page: &mut Page, cells: &[Drawn]) -> Result<(), AllocError> {
    if !cells.iter().any(|one| one.sentence.is_some()) {
        return Ok(());
    }
    begin_sign(page)?;
    draw_path(page, "flag", "M13 0l9 16h-18z")?;
    page.write(&[Open(Tag::Text)])?;
    attribute(page, Attribute::Class, "sign")?;
    measure(page, Attribute::X, 13)?;
    measure(page, Attribute::Y, 14)?;
    page.write(&[Inside, Text(b"!"), Close(Tag::Text)])?;
    end_sign(page, "contradicts")
}

/// Writes what the sign of a gap means.
fn write_gap(page: &mut Page, cells: &[Drawn]) -> Result<(), AllocError> {
    if !cells.iter().any(|one| one.is_behind_gap) {
        return Ok(());
    }
    page.write(&[Open(Tag::Li), Inside, Sign(Signs::Dots), Text(b" left out")])?;
    end(page, Tag::Li)
}

/// Writes what the lines mean.
fn write_lines(page: &mut Page, cells: &[Drawn], grid: &Grid) -> Result<(), AllocError> {
    if has_chain(cells, grid) {
        write_path(page, "chain", "M1 8h24", "one entry behind another")?;
    }
    if has_arrow(cells, grid) {
        begin_sign(page)?;
        draw_path(page, "arrow", "M1 8h16")?;
        draw_path(page, "head", "M25 8l-9 -5v10z")?;
        end_sign(page, "from a SEND to the entry that quotes it")?;
    }
    Ok(())
}

/// Writes the legend.
pub(crate) fn write_legend<V: Voice>(
    page: &mut Page,
    view: &View<'_, V>,
    grid: &Grid,
) -> Result<(), AllocError> {
    let cells = view.choice.cells.as_slice();
    page.write(&[Open(Tag::Ul)])?;
    attribute(page, Attribute::Class, "legend")?;
    attribute(page, Attribute::AriaLabel, "Legend")?;
    page.write(&[Inside, Line])?;
    write_kinds(page, view.rows, cells)?;
    write_shapes(page, view.rows, cells)?;
    write_flag(page, cells)?;
    write_gap(page, cells)?;
    write_lines(page, cells, grid)?;
    end(page, Tag::Ul)
}
