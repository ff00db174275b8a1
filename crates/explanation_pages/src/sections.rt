//! The sections of the nodes: what is said of each, and the table of its entries.

use crate::folding::{count_of, fold_name, fold_words, open_of, parted};
use crate::head::{word, write_sign};
use crate::tables::write_table;
use authenticators::NodeId;
use drawn_logs::markup::{attribute, begin, count, end, text};
use drawn_logs::{Choice, SentenceId, View, entry_name, sentence_name};
use evidence_set::Indication;
use page_text::Piece::{Close, End, Inside, Line, Link, Number, Open, Set, Text};
use page_text::{Attribute, Page, Tag};
use sentences::{Mark, NodeExplanation, Sentence, Voice};
use std::alloc::{AllocError, Global};
use std::collections::BTreeSet;
use std::ops::Range;

/// Writes a link to a marked entry, if it is drawn.
fn write_mark(page: &mut Page, choice: &Choice, mark: &Mark) -> Result<(), AllocError> {
    if !choice.draws(mark.node, mark.seq) {
        return Ok(());
    }
    page.write(&[Text(b" "), Open(Tag::A)])?;
    attribute(page, Attribute::Class, "mark")?;
    page.write(&[Link])?;
    entry_name(page, mark.node, mark.seq, 0)?;
    page.write(&[
        End,
        Inside,
        Text(b"entry "),
        Number(mark.seq),
        Text(b" of node "),
        Number(mark.node.0 as u64),
        Close(Tag::A),
    ])
}

/// Writes a sentence with links to the entries that it marks.
fn write_sentence(
    page: &mut Page,
    choice: &Choice,
    id: SentenceId,
    sentence: &Sentence,
) -> Result<(), AllocError> {
    page.write(&[Open(Tag::Li), Set(Attribute::Id)])?;
    sentence_name(page, id)?;
    page.write(&[End, Inside, Text(sentence.text.as_bytes())])?;
    for mark in &sentence.marks {
        write_mark(page, choice, mark)?;
    }
    end(page, Tag::Li)
}

/// Writes sentences of a node, from the one with this number on.
fn write_list(
    page: &mut Page,
    choice: &Choice,
    node: NodeId,
    sentences: &[Sentence],
    first: u64,
) -> Result<(), AllocError> {
    begin(page, Tag::Ul, "sentences")?;
    page.write(&[Line])?;
    let NodeId(node) = node;
    let mut number = first;
    for sentence in sentences {
        write_sentence(page, choice, SentenceId { node, number }, sentence)?;
        number = number.saturating_add(1);
    }
    end(page, Tag::Ul)
}

/// Writes a node's sentences. Of many it writes the first ones, and folds the others to one line with their count.
fn write_sentences(
    page: &mut Page,
    choice: &Choice,
    told: &NodeExplanation,
) -> Result<(), AllocError> {
    let (open, folded) = parted(&told.sentences);
    write_list(page, choice, told.node, open, 1)?;
    if folded.is_empty() {
        return Ok(());
    }
    page.write(&[Open(Tag::Details), Inside, Open(Tag::Summary), Inside])?;
    count(
        page,
        folded.len() as u64,
        " further sentence",
        " further sentences",
    )?;
    end(page, Tag::Summary)?;
    let first = (open.len() as u64).saturating_add(1);
    write_list(page, choice, told.node, folded, first)?;
    end(page, Tag::Details)
}

/// Writes the beginning of a node's section, and its name.
fn write_name(page: &mut Page, node: NodeId) -> Result<(), AllocError> {
    let number = Number(node.0 as u64);
    let name = Text(b"node-");
    let heading = Text(b"-heading");
    page.write(&[Open(Tag::Section)])?;
    attribute(page, Attribute::Class, "node")?;
    page.write(&[Set(Attribute::Id), name, number, End])?;
    page.write(&[
        Set(Attribute::AriaLabelledby),
        name,
        number,
        heading,
        End,
        Inside,
        Line,
    ])?;
    page.write(&[
        Open(Tag::H2),
        Set(Attribute::Id),
        name,
        number,
        heading,
        End,
        Inside,
    ])?;
    page.write(&[Text(b"Node "), number])
}

/// Writes the heading of a node's section.
fn write_heading(
    page: &mut Page,
    node: NodeId,
    told: Option<&NodeExplanation>,
) -> Result<(), AllocError> {
    write_name(page, node)?;
    if let Some(told) = told {
        let indication = told.indication;
        page.write(&[
            Text(b" "),
            Open(Tag::Span),
            Set(Attribute::Class),
            Text(b"badge "),
            Text(word(indication).as_bytes()),
            End,
            Inside,
        ])?;
        write_sign(page, indication)?;
        page.write(&[
            Text(word(indication).as_bytes()),
            Text(told.mark().as_bytes()),
            Close(Tag::Span),
        ])?;
    }
    end(page, Tag::H2)
}

/// Writes the table of a node, if it has a row.
fn write_row<V: Voice>(
    page: &mut Page,
    view: &View<'_, V>,
    node: NodeId,
) -> Result<(), AllocError> {
    if let Some(row) = view.choice.row_of(node) {
        write_table(page, view, row)?;
    }
    end(page, Tag::Section)
}

/// Writes the section of a node that is explained.
fn write_node<V: Voice>(
    page: &mut Page,
    view: &View<'_, V>,
    told: &NodeExplanation,
) -> Result<(), AllocError> {
    write_heading(page, told.node, Some(told))?;
    write_sentences(page, view.choice, told)?;
    write_row(page, view, told.node)
}

/// Writes the sections of those nodes of the indication that have these numbers among them. Numbers count from 0.
fn write_some<V: Voice>(
    page: &mut Page,
    view: &View<'_, V>,
    nodes: &[NodeExplanation],
    indication: Indication,
    numbers: Range<u64>,
) -> Result<(), AllocError> {
    let mut number: u64 = 0;
    for told in nodes {
        if told.indication == indication {
            if numbers.contains(&number) {
                write_node(page, view, told)?;
            }
            number = number.saturating_add(1);
        }
    }
    Ok(())
}

/// Writes the sections of the nodes of the indication. It writes the first of them, and folds the others to one line with their count.
fn write_all_of<V: Voice>(
    page: &mut Page,
    view: &View<'_, V>,
    nodes: &[NodeExplanation],
    indication: Indication,
) -> Result<(), AllocError> {
    let open = open_of(nodes, indication);
    let all = count_of(nodes, indication);
    write_some(page, view, nodes, indication, 0..open)?;
    let folded = all.saturating_sub(open);
    if folded == 0 {
        return Ok(());
    }
    page.write(&[Open(Tag::Details)])?;
    attribute(page, Attribute::Id, fold_name(indication))?;
    attribute(page, Attribute::Class, "fold")?;
    page.write(&[Inside, Open(Tag::Summary), Inside])?;
    write_sign(page, indication)?;
    page.write(&[Number(folded), Text(b" ")])?;
    text(page, fold_words(indication))?;
    text(page, if folded == 1 { " node" } else { " nodes" })?;
    end(page, Tag::Summary)?;
    write_some(page, view, nodes, indication, open..all)?;
    end(page, Tag::Details)
}

/// Returns the numbers of the nodes that are explained.
fn numbers_of(alloc: Global, nodes: &[NodeExplanation]) -> Result<BTreeSet<u32>, AllocError> {
    let mut numbers = BTreeSet::new(alloc);
    for told in nodes {
        numbers.insert(told.node.0)?;
    }
    Ok(numbers)
}

/// Writes the sections of the other nodes that are drawn.
fn write_others<V: Voice>(
    page: &mut Page,
    view: &View<'_, V>,
    told: &BTreeSet<u32>,
) -> Result<(), AllocError> {
    for row in &view.choice.rows {
        if !told.contains(&row.node.0) {
            write_heading(page, row.node, None)?;
            write_row(page, view, row.node)?;
        }
    }
    Ok(())
}

/// Writes the sections of all nodes: exposed ones first, then suspected ones, then those that are trusted.
pub(crate) fn write_nodes<V: Voice>(
    page: &mut Page,
    view: &View<'_, V>,
    nodes: &[NodeExplanation],
) -> Result<(), AllocError> {
    write_all_of(page, view, nodes, Indication::Exposed)?;
    write_all_of(page, view, nodes, Indication::Suspected)?;
    write_all_of(page, view, nodes, Indication::Trusted)?;
    let told = numbers_of(view.alloc, nodes)?;
    write_others(page, view, &told)
}
