//! The list of all nodes, each with what is said of it.

ghost use Rattle.std.specs.Prelude.{◌≡◌, ◌++◌, ℕ, List, codes, OnOk};
ghost use Rattle.explanation_pages.specs.Shown.{entries_text, entry_text, link_text, said_text};
ghost use Rattle.explanation_pages.specs.within.Growing.{Lists};

use crate::head::word;
use drawn_logs::markup::begin_section;
use page_text::Piece::{Close, End, Inside, Line, Link, Number, Open, Text};
use page_text::{Page, Tag};
use sentences::NodeExplanation;
use std::alloc::AllocError;

/// Begins a node's line, with a link to its section.
#[tactic(auto, unfolding(page_text::specs::Pages::written, page_text::specs::Names::tag_name, page_text::specs::Escaping::spelled, page_text::specs::Escaping::seen))]
fn begin_entry(page: &mut Page, node: u32) -> Result<(), AllocError>
    ensures { OnOk result (page.new ≡ page.old ++ link_text node) }
{
    let number = Number(node as u64);
    page.write(&[
        Open(Tag::Li),
        Inside,
        Open(Tag::A),
        Link,
        Text(b"node-"),
        number,
        End,
        Inside,
        Text(b"node "),
        number,
        Close(Tag::A),
        Text(b" "),
    ])?;
    Ok(())
}

/// Writes what is said of a node.
#[tactic(auto, using(crate::proofs::Listed::said), unfolding(page_text::specs::Pages::written))]
fn write_said(page: &mut Page, told: &NodeExplanation) -> Result<(), AllocError>
    ensures { OnOk result (page.new ≡ page.old ++ said_text told.now) }
{
    let word = word(told.indication);
    let mark = told.mark();
    page.write(&[Text(word.as_bytes()), Text(mark.as_bytes())])?;
    Ok(())
}

/// Ends a node's line.
#[tactic(auto, unfolding(page_text::specs::Pages::written, page_text::specs::Names::tag_name))]
fn end_entry(page: &mut Page) -> Result<(), AllocError>
    ensures { OnOk result (page.new ≡ page.old ++ codes "</li>\n") }
{
    page.write(&[Close(Tag::Li), Line])?;
    Ok(())
}

/// Writes a node with what is said of it, and a link to its section.
fn write_entry(page: &mut Page, told: &NodeExplanation) -> Result<(), AllocError>
    ensures { OnOk result (page.new ≡ page.old ++ entry_text told.now) }
{
    begin_entry(page, told.node.0)?;
    write_said(page, told)?;
    end_entry(page)?;
    Ok(())
}

/// Writes nodes below each other.
fn write_entries(page: &mut Page, nodes: &[NodeExplanation]) -> Result<(), AllocError>
    ensures { OnOk result (page.new ≡ page.old ++ entries_text nodes.now) }
{
    for told in nodes {
        write_entry(page, told)?;
    }
    Ok(())
}

/// Begins the list of all nodes, folded to one line with their number.
fn begin_list(page: &mut Page, count: usize) -> Result<(), AllocError>
    ensures { OnOk result ((more : List ℕ) × (page.new ≡ page.old ++ more)) }
{
    page.write(&[
        Open(Tag::Details),
        Inside,
        Open(Tag::Summary),
        Inside,
        Text(b"Each node and what is said of it: "),
        Number(count as u64),
        Close(Tag::Summary),
        Line,
        Open(Tag::Ul),
        Inside,
        Line,
    ])?;
    Ok(())
}

/// Begins the section of all nodes, with their number.
fn begin_index(page: &mut Page, count: usize) -> Result<(), AllocError>
    ensures { OnOk result ((more : List ℕ) × (page.new ≡ page.old ++ more)) }
{
    begin_section(page, "all-heading", "All nodes")?;
    begin_list(page, count)?;
    Ok(())
}

/// Ends the list of all nodes, and their section.
fn end_index(page: &mut Page) -> Result<(), AllocError>
    ensures { OnOk result ((more : List ℕ) × (page.new ≡ page.old ++ more)) }
{
    page.write(&[
        Close(Tag::Ul),
        Close(Tag::Details),
        Line,
        Close(Tag::Section),
        Line,
    ])?;
    Ok(())
}

/// Writes all nodes, each with what is said of it.
pub(crate) fn write_index(page: &mut Page, nodes: &[NodeExplanation]) -> Result<(), AllocError>
    ensures { OnOk result (Lists page.old page.new nodes.now) }
{
    begin_index(page, nodes.len())?;
    write_entries(page, nodes)?;
    end_index(page)?;
    Ok(())
}
