//! Links to the nodes, the lines that can be checked, and the page's end.

ghost use Rattle.std.specs.Prelude.{◌≡◌, ◌++◌, ℕ, List, OnOk};
ghost use Rattle.evidence_set.specs.Names.{name_of};

use crate::folding::{count_of, fold_name, fold_words, open_of};
use drawn_logs::markup::{begin, begin_section, count, element, end, part};
use evidence_set::Indication;
use page_text::Piece::{Close, Digits, End, Inside, Line, Link, Number, Open, Set, Text};
use page_text::{Attribute, Page, Piece, Sign, Tag};
use sentences::NodeExplanation;
use std::alloc::AllocError;

/// Returns the word for what is said of a node.
pub(crate) fn word(indication: Indication) -> &'static str
    ensures { result.now ≡ name_of indication }
{
    match indication {
        Indication::Trusted => "trusted",
        Indication::Suspected => "suspected",
        Indication::Exposed => "exposed",
    }
}

/// Returns the sign beside the word.
fn sign(indication: Indication) -> Piece<'static> {
    match indication {
        Indication::Trusted => Piece::Sign(Sign::Check),
        Indication::Suspected => Text(b"?"),
        Indication::Exposed => Text(b"!"),
    }
}

/// Writes the sign beside the word, which is there for the eye only.
pub(crate) fn write_sign(page: &mut Page, indication: Indication) -> Result<(), AllocError> {
    page.write(&[
        Open(Tag::Span),
        Set(Attribute::Class),
        Text(b"sign"),
        End,
        Set(Attribute::AriaHidden),
        Text(b"true"),
        End,
        Inside,
        sign(indication),
        Close(Tag::Span),
        Text(b" "),
    ])
}

/// Writes the lines that can be checked as they are, folded away.
pub(crate) fn write_lines(page: &mut Page, lines: &[&[u8]]) -> Result<(), AllocError> {
    if lines.is_empty() {
        return Ok(());
    }
    begin_section(page, "lines-heading", "To check it")?;
    page.write(&[Open(Tag::Details), Inside])?;
    element(
        page,
        Tag::Summary,
        &[Text(b"The lines of the directory and of the proof")],
    )?;
    page.write(&[Line])?;
    begin(page, Tag::Pre, "lines")?;
    for line in lines {
        page.write(&[Digits(*line), Line])?;
    }
    page.write(&[Close(Tag::Pre), Close(Tag::Details), Line])?;
    end(page, Tag::Section)
}

/// Writes a node's link at the top.
fn write_chip(page: &mut Page, told: &NodeExplanation) -> Result<(), AllocError> {
    begin(page, Tag::Li, word(told.indication))?;
    page.write(&[
        Open(Tag::A),
        Link,
        Text(b"node-"),
        Number(told.node.0 as u64),
        End,
        Inside,
    ])?;
    write_sign(page, told.indication)?;
    page.write(&[Text(b"node "), Number(told.node.0 as u64), Text(b" ")])?;
    let word = word(told.indication);
    element(page, Tag::Strong, &[Text(word.as_bytes())])?;
    page.write(&[Close(Tag::A), Close(Tag::Li), Line])
}

/// Writes the links to the nodes of the indication that stand open.
fn write_chips_of(
    page: &mut Page,
    nodes: &[NodeExplanation],
    indication: Indication,
) -> Result<(), AllocError> {
    let mut left = open_of(nodes, indication);
    for told in nodes {
        if told.indication == indication && left > 0 {
            write_chip(page, told)?;
            left = left.saturating_sub(1);
        }
    }
    write_fold_chip(page, nodes, indication)
}

/// Writes the link to the nodes of the indication that are folded, if there are any.
fn write_fold_chip(
    page: &mut Page,
    nodes: &[NodeExplanation],
    indication: Indication,
) -> Result<(), AllocError> {
    let folded = count_of(nodes, indication).saturating_sub(open_of(nodes, indication));
    if folded == 0 {
        return Ok(());
    }
    begin(page, Tag::Li, word(indication))?;
    let name = Text(fold_name(indication).as_bytes());
    page.write(&[Open(Tag::A), Link, name, End, Inside])?;
    write_sign(page, indication)?;
    count(page, folded, " node ", " nodes ")?;
    let words = Text(fold_words(indication).as_bytes());
    element(page, Tag::Strong, &[words])?;
    page.write(&[Close(Tag::A), Close(Tag::Li), Line])
}

/// Writes the links to the nodes: exposed ones first, then suspected ones, and for each indication one link to all that are folded. It then
/// begins the main part.
pub(crate) fn write_chips(page: &mut Page, nodes: &[NodeExplanation]) -> Result<(), AllocError> {
    page.write(&[
        Open(Tag::Nav),
        Set(Attribute::AriaLabel),
        Text(b"Nodes"),
        End,
        Inside,
    ])?;
    begin(page, Tag::Ul, "nodes")?;
    page.write(&[Line])?;
    write_chips_of(page, nodes, Indication::Exposed)?;
    write_chips_of(page, nodes, Indication::Suspected)?;
    write_chips_of(page, nodes, Indication::Trusted)?;
    page.write(&[Close(Tag::Ul), Close(Tag::Nav), Line])?;
    begin_main(page)
}

/// Ends the head, and begins the main part.
pub(crate) fn begin_main(page: &mut Page) -> Result<(), AllocError> {
    page.write(&[Close(Tag::Header), Line, Open(Tag::Main), Inside, Line])
}

/// Ends the main part and the page.
pub(crate) fn end_page(page: &mut Page) -> Result<(), AllocError>
    ensures { OnOk result ((behind : List ℕ) × (page.new ≡ page.old ++ behind)) }
{
    page.write(&[
        Close(Tag::Main),
        Line,
        Close(Tag::Body),
        Line,
        Close(Tag::Html),
        Line,
    ])?;
    Ok(())
}

/// Writes a text as a paragraph of what is left out.
pub(crate) fn write_note(page: &mut Page, note: &[Piece<'_>]) -> Result<(), AllocError> {
    part(page, Tag::P, "cut", note)?;
    page.write(&[Line])
}
