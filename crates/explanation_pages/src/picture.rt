//! The picture has a row for each node with its entries by number, and arrows from what was sent to what quotes it.

use drawn_logs::markup::{attribute, begin, measure, part, text};
use drawn_logs::{
    Band, Choice, Drawn, Grid, HEIGHT, LEFT, Layout, PAD, PictureRow, View, draw_arrow, draw_chain,
    draw_linked,
};
use page_text::Piece::{Alone, Close, End, Inside, Line, Number, Open, Set, Text};
use page_text::{Attribute, Page, Tag};
use sentences::Voice;
use std::alloc::AllocError;

/// How far the rows go on to the right of the picture, for a window that is wider.
const FAR: u64 = 4000;

/// The width of the rows' names that stay in sight. They end before the first column.
const NAMES: u64 = LEFT - 8;

/// Writes what is beneath the entries: the lines of logs, and arrows.
fn draw_lines(
    page: &mut Page,
    grid: &Grid,
    layout: &Layout,
    count: usize,
) -> Result<(), AllocError> {
    for i in 0..count {
        let here = layout.corner(i);
        if let Some(before) = grid.before(i) {
            draw_chain(page, layout.corner(before), here)?;
        }
        if let Some(source) = grid.quoted_entry(i) {
            draw_arrow(page, layout.corner(source), here, source as u64)?;
        }
    }
    Ok(())
}

/// Writes the entries.
fn draw_entries<V: Voice>(
    page: &mut Page,
    view: &View<'_, V>,
    layout: &Layout,
) -> Result<(), AllocError> {
    for (i, one) in view.choice.cells.iter().enumerate() {
        draw_linked(page, view, one, layout.corner(i))?;
    }
    Ok(())
}

/// Begins a text of a class at a place.
fn begin_label(page: &mut Page, class: &str, x: u64, y: u64) -> Result<(), AllocError> {
    page.write(&[Open(Tag::Text)])?;
    attribute(page, Attribute::Class, class)?;
    measure(page, Attribute::X, x)?;
    measure(page, Attribute::Y, y)?;
    page.write(&[Inside])
}

/// Writes a row's ground and name.
fn draw_row(page: &mut Page, row: &PictureRow, band: &Band, width: u64) -> Result<(), AllocError> {
    page.write(&[Open(Tag::Rect)])?;
    attribute(page, Attribute::Class, "band")?;
    measure(page, Attribute::Y, band.top)?;
    measure(page, Attribute::Width, width)?;
    measure(page, Attribute::Height, band.height)?;
    page.write(&[Alone])?;
    begin_label(page, "name", 14, band.top.saturating_add(PAD + HEIGHT / 2))?;
    page.write(&[
        Text(b"node "),
        Number(row.node.0 as u64),
        Close(Tag::Text),
        Line,
    ])
}

/// Writes that nothing is known of a row.
fn draw_nothing(page: &mut Page, row: &PictureRow, band: &Band) -> Result<(), AllocError> {
    if !row.is_empty() {
        return Ok(());
    }
    let middle = band.top.saturating_add(PAD + HEIGHT / 2);
    begin_label(page, "nothing", LEFT, middle)?;
    page.write(&[Text(b"nothing of its log is here"), Close(Tag::Text), Line])
}

/// Writes the rows' grounds and names, with this width.
fn draw_rows(
    page: &mut Page,
    rows: &[PictureRow],
    layout: &Layout,
    width: u64,
) -> Result<(), AllocError> {
    for (row, band) in rows.iter().zip(layout.bands.as_slice()) {
        draw_row(page, row, band, width)?;
    }
    Ok(())
}

/// Writes that nothing is known of rows.
fn draw_nothings(page: &mut Page, rows: &[PictureRow], layout: &Layout) -> Result<(), AllocError> {
    for (row, band) in rows.iter().zip(layout.bands.as_slice()) {
        draw_nothing(page, row, band)?;
    }
    Ok(())
}

/// Begins a drawing of this size.
fn begin_svg(page: &mut Page, width: u64, height: u64) -> Result<(), AllocError> {
    page.write(&[Open(Tag::Svg)])?;
    measure(page, Attribute::Width, width)?;
    measure(page, Attribute::Height, height)?;
    page.write(&[
        Set(Attribute::ViewBox),
        Text(b"0 0 "),
        Number(width),
        Text(b" "),
        Number(height),
        End,
    ])?;
    attribute(page, Attribute::PreserveAspectRatio, "xMinYMin meet")
}

/// Writes the names of the rows once more. These stay in sight if the picture is wider than the window.
fn draw_names(page: &mut Page, choice: &Choice, layout: &Layout) -> Result<(), AllocError> {
    begin_svg(page, NAMES, layout.height)?;
    attribute(page, Attribute::Class, "names")?;
    attribute(page, Attribute::AriaHidden, "true")?;
    page.write(&[Inside, Line])?;
    draw_rows(page, &choice.rows, layout, NAMES)?;
    page.write(&[Close(Tag::Svg)])
}

/// Begins the picture, which has a name and a sentence of its own.
fn begin_picture(page: &mut Page, layout: &Layout) -> Result<(), AllocError> {
    begin_svg(page, layout.width, layout.height)?;
    attribute(page, Attribute::Class, "logs")?;
    attribute(page, Attribute::Role, "img")?;
    attribute(
        page,
        Attribute::AriaLabelledby,
        "picture-title picture-desc",
    )?;
    page.write(&[Inside, Line, Open(Tag::Title)])?;
    attribute(page, Attribute::Id, "picture-title")?;
    page.write(&[
        Inside,
        Text(b"The logs of the nodes"),
        Close(Tag::Title),
        Line,
    ])?;
    page.write(&[Open(Tag::Desc)])?;
    attribute(page, Attribute::Id, "picture-desc")?;
    page.write(&[Inside])?;
    text(
        page,
        "A row for each node with what is known of its log, by number, and arrows from what was sent to the entry that quotes it. The tables below say the same.",
    )?;
    page.write(&[Close(Tag::Desc), Line])
}

/// Returns where the first marked entry begins, or else where the picture begins.
fn start_of(cells: &[Drawn], layout: &Layout) -> u64 {
    let marked = cells.iter().position(|one| one.sentence.is_some());
    match marked {
        Some(i) => layout.corner(i).x.saturating_sub(LEFT),
        None => 0,
    }
}

/// Writes the place at which a narrow window opens the picture: the first marked entry.
fn write_start(page: &mut Page, x: u64) -> Result<(), AllocError> {
    begin(page, Tag::Div, "start")?;
    begin_svg(page, x, 1)?;
    attribute(page, Attribute::AriaHidden, "true")?;
    page.write(&[Inside, Close(Tag::Svg)])?;
    part(page, Tag::Span, "here", &[])?;
    page.write(&[Close(Tag::Div), Line])
}

/// Writes the picture. Its right edge shows if there is more.
pub(crate) fn draw<V: Voice>(
    page: &mut Page,
    view: &View<'_, V>,
    grid: &Grid,
) -> Result<(), AllocError> {
    let choice = view.choice;
    let layout = Layout::new(view.alloc, choice, grid)?;
    begin(page, Tag::Div, "strip")?;
    page.write(&[Line])?;
    write_start(page, start_of(&choice.cells, &layout))?;
    draw_names(page, choice, &layout)?;
    begin_picture(page, &layout)?;
    draw_rows(
        page,
        &choice.rows,
        &layout,
        layout.width.saturating_add(FAR),
    )?;
    draw_nothings(page, &choice.rows, &layout)?;
    draw_lines(page, grid, &layout, choice.cells.len())?;
    draw_entries(page, view, &layout)?;
    page.write(&[Close(Tag::Svg)])?;
    part(page, Tag::Span, "more", &[])?;
    page.write(&[Line, Close(Tag::Div), Line])
}
