//! The page as a whole.

ghost use Rattle.std.specs.Prelude.{IfOk};
ghost use Rattle.page_text.specs.Pages.{IsPage};
ghost use Rattle.explanation_pages.specs.Shown.{IsPageOf, Shows};

use crate::basis::{title_of, write_front};
use crate::head::{end_page, write_chips, write_lines, write_note};
use crate::index::write_index;
use crate::legend::write_legend;
use crate::picture::draw;
use crate::sections::write_nodes;
use crate::style::STYLE;
use drawn_logs::markup::{attribute, begin_section, end};
use drawn_logs::{Choice, Grid, Marks, PictureRow, View, choice_of};
use known_logs::Rows;
use page_text::Piece::{Inside, Line, Number, Open, Text};
use page_text::{Attribute, Page, Tag};
use sentences::{Basis, Explanation, NodeExplanation, Voice};
use std::alloc::{AllocError, Global};

/// The words for what is drawn of a row that is cut.
const CUT: &[u8] =
    b" drawn: of a long log both ends, and those of which the sentences speak with their neighbours; at most 8 of a number, and 48 of a log.";

/// The greatest number of cut rows that are named one by one.
const MOST_TOLD: u64 = 4;

/// Returns whether a row is cut.
fn is_cut(row: &PictureRow) -> bool {
    row.drawn < row.known
}

/// Writes that a row is cut.
fn write_cut(page: &mut Page, row: &PictureRow) -> Result<(), AllocError> {
    if !is_cut(row) {
        return Ok(());
    }
    write_note(
        page,
        &[
            Number(row.drawn as u64),
            Text(b" of the "),
            Number(row.known as u64),
            Text(b" entries of node "),
            Number(row.node.0 as u64),
            Text(b" are"),
            Text(CUT),
        ],
    )
}

/// Writes which rows are cut. If there are many, it writes only how many.
fn write_cuts(page: &mut Page, rows: &[PictureRow]) -> Result<(), AllocError> {
    let cut = rows.iter().filter(|row| is_cut(row)).count() as u64;
    if cut > MOST_TOLD {
        return write_note(
            page,
            &[
                Text(b"Of the logs of "),
                Number(cut),
                Text(b" nodes not all entries are"),
                Text(CUT),
            ],
        );
    }
    for row in rows {
        write_cut(page, row)?;
    }
    Ok(())
}

/// Writes why this number of nodes has no row.
fn write_why(page: &mut Page, why: &'static str, nodes: u64) -> Result<(), AllocError> {
    if nodes == 0 {
        return Ok(());
    }
    let end = if nodes == 1 { " node." } else { " nodes." };
    write_note(
        page,
        &[Text(why.as_bytes()), Number(nodes), Text(end.as_bytes())],
    )
}

/// Writes how many nodes have no row, and why.
fn write_left_out(page: &mut Page, choice: &Choice) -> Result<(), AllocError> {
    let quiet =
        "Not drawn, since nothing stands against them and no entry of them quotes a marked one: the logs of ";
    write_why(page, quiet, choice.quiet)?;
    let further = "Not drawn, since a picture has no more rows than these: the logs of ";
    write_why(page, further, choice.further)
}

/// Writes the drawing with its legend, and which of its rows are cut.
fn write_drawing<V: Voice>(page: &mut Page, view: &View<'_, V>) -> Result<(), AllocError> {
    let grid = Grid::new(view.alloc, view.rows, view.choice)?;
    write_legend(page, view, &grid)?;
    page.write(&[Open(Tag::Div)])?;
    attribute(page, Attribute::Class, "scroll")?;
    attribute(page, Attribute::Role, "region")?;
    attribute(page, Attribute::AriaLabel, "Picture")?;
    attribute(page, Attribute::Tabindex, "0")?;
    page.write(&[Inside, Line])?;
    draw(page, view, &grid)?;
    end(page, Tag::Div)?;
    write_cuts(page, &view.choice.rows)
}

/// Writes the picture, if there is something to draw, and how many nodes are not drawn.
fn write_picture<V: Voice>(page: &mut Page, view: &View<'_, V>) -> Result<(), AllocError> {
    begin_section(page, "picture-heading", "The logs")?;
    if !view.choice.rows.is_empty() {
        write_drawing(page, view)?;
    }
    write_left_out(page, view.choice)?;
    end(page, Tag::Section)
}

/// Returns what stands between the front of a page and the list of all nodes: links, the picture, what is said of each node, and the lines.
fn middle_of<V: Voice>(
    view: &View<'_, V>,
    nodes: &[NodeExplanation],
    lines: &[&[u8]],
) -> Result<Page, AllocError> {
    let mut part = Page::part(view.alloc);
    write_chips(&mut part, nodes)?;
    write_picture(&mut part, view)?;
    write_nodes(&mut part, view, nodes)?;
    write_lines(&mut part, lines)?;
    Ok(part)
}

/// Returns the page, with `middle` between its front and the list of all nodes.
fn page_around(
    alloc: Global,
    basis: &Basis,
    summary: &str,
    middle: &Page,
    nodes: &[NodeExplanation],
) -> Result<Vec<u8>, AllocError>
    ensures page { IfOk result (λ page. IsPage page.items) }
    ensures shows { IfOk result (λ page. Shows basis.now summary.now nodes.now page.items) }
{
    let title = title_of(alloc, basis, summary)?;
    let mut page = Page::new(alloc, title.as_bytes(), STYLE.as_bytes())?;
    write_front(alloc, &mut page, basis, summary)?;
    page.append(middle)?;
    write_index(&mut page, nodes)?;
    end_page(&mut page)?;
    let text = page.finish()?;
    Ok(text)
}

/// Returns the page of an explanation under a basis: HTML with its style and its picture in it. Payloads are said by the voice. `rows` has
/// what the picture shows of the nodes' logs. The lines, each given as bytes, stand in the page in hexadecimal digits, folded away.
///
/// The page runs nothing and loads nothing. It is made of elements and attributes of a closed set, and of texts that are escaped and stand
/// in no tag. It begins with the line about the whole and the basis, and it lists each node with what is said of it.
pub fn page_of<V: Voice>(
    alloc: Global,
    voice: &V,
    basis: &Basis,
    explanation: &Explanation,
    rows: &Rows,
    lines: &[&[u8]],
) -> Result<Vec<u8>, AllocError>
    // The result is a page, and shows the basis and what is said of each node.
    ensures { IfOk result (λ page. IsPageOf basis.now explanation.now page.items) }
{
    let marks = Marks::of_explanation(alloc, explanation)?;
    let choice = choice_of(alloc, explanation, rows, &marks)?;
    let view = View {
        alloc,
        voice,
        rows,
        choice: &choice,
    };
    let nodes = explanation.nodes.as_slice();
    let middle = middle_of(&view, nodes, lines)?;
    let summary = explanation.heading.as_str();
    let page = page_around(alloc, basis, summary, &middle, nodes)?;
    Ok(page)
}
