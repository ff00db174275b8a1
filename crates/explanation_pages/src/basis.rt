//! The front of a page: what was judged, and under what.

ghost use Rattle.std.specs.Prelude.{◌≡◌, ◌++◌, IfOk, OnOk, codes, string_bytes};
ghost use Rattle.explanation_pages.specs.Shown.{basis_list, digest_text, digits_text, front_text, heading_name, heading_text, judged_name, term_text, terms_text, title_text};

use log_chain::Hash;
use page_text::Piece::{Close, End, Inside, Line, Open, Set, Text};
use page_text::{Attribute, Page, Tag};
use sentences::{Basis, Input, groups_of};
use std::alloc::{AllocError, Global};

/// Returns the page's heading, by what was judged.
fn heading_of(input: Input) -> &'static str
    ensures { result.now ≡ heading_name input }
{
    match input {
        Input::Store | Input::Union => "What the evidence says",
        Input::Proof => "What the proof shows",
    }
}

/// Returns the page's title.
pub(crate) fn title_of(alloc: Global, basis: &Basis, summary: &str) -> Result<String, AllocError>
    ensures { IfOk result (λ title. string_bytes title ≡ title_text basis.now summary.now) }
{
    let heading = heading_of(basis.input);
    format!(in alloc; "{heading}: {summary}")
}

/// Writes the page's heading, and the line about the whole.
#[tactic(auto, unfolding(page_text::specs::Pages::written, page_text::specs::Names::tag_name, page_text::specs::Names::attribute_name, page_text::specs::Escaping::spelled, page_text::specs::Escaping::seen))]
pub(crate) fn write_heading<'a>(
    page: &mut Page,
    heading: &'a str,
    summary: &'a str,
) -> Result<(), AllocError>
    ensures { OnOk result (page.new ≡ page.old ++ heading_text heading.now summary.now) }
{
    page.write(&[
        Open(Tag::Body),
        Inside,
        Line,
        Open(Tag::Header),
        Inside,
        Line,
        Open(Tag::H1),
        Inside,
        Text(heading.as_bytes()),
        Close(Tag::H1),
        Line,
        Open(Tag::P),
        Set(Attribute::Class),
        Text(b"summary"),
        End,
        Inside,
        Text(summary.as_bytes()),
        Close(Tag::P),
        Line,
    ])?;
    Ok(())
}

/// Writes a name, and what it is the name of.
#[tactic(auto, unfolding(page_text::specs::Pages::written, page_text::specs::Names::tag_name))]
fn write_term<'a>(page: &mut Page, name: &'a str, value: &'a str) -> Result<(), AllocError>
    ensures { OnOk result (page.new ≡ page.old ++ term_text name.now value.now) }
{
    page.write(&[
        Open(Tag::Dt),
        Inside,
        Text(name.as_bytes()),
        Close(Tag::Dt),
        Open(Tag::Dd),
        Inside,
        Text(value.as_bytes()),
        Close(Tag::Dd),
        Line,
    ])?;
    Ok(())
}

/// Writes digits after the name of what they are the digits of.
#[tactic(auto, unfolding(page_text::specs::Pages::written, page_text::specs::Names::tag_name))]
fn write_digits<'a>(page: &mut Page, name: &'a str, digits: &'a [u8]) -> Result<(), AllocError>
    ensures { OnOk result (page.new ≡ page.old ++ digits_text name.now digits.now) }
{
    page.write(&[
        Open(Tag::Dt),
        Inside,
        Text(name.as_bytes()),
        Close(Tag::Dt),
        Open(Tag::Dd),
        Inside,
        Open(Tag::Code),
        Inside,
        Text(digits),
        Close(Tag::Code),
        Close(Tag::Dd),
        Line,
    ])?;
    Ok(())
}

/// Writes a digest in groups of four digits, after the name of what has it.
pub(crate) fn write_digest(
    alloc: Global,
    page: &mut Page,
    name: &str,
    hash: &Hash,
) -> Result<(), AllocError>
    ensures { OnOk result (page.new ≡ page.old ++ digest_text name.now hash.now) }
{
    let name = format!(in alloc; "SHA-256 of {name}")?;
    let digits = groups_of(alloc, hash)?;
    write_digits(page, name.as_str(), digits.as_slice())?;
    Ok(())
}

/// Returns the name of what was judged.
fn judged_name(input: Input) -> &'static str
    ensures { result.now ≡ judged_name input }
{
    match input {
        Input::Store => "the store",
        Input::Union => "the union of the stores",
        Input::Proof => "the proof",
    }
}

/// Writes the program, and the digests of the directory and of what was judged.
fn write_terms(alloc: Global, page: &mut Page, basis: &Basis) -> Result<(), AllocError>
    ensures { OnOk result (page.new ≡ page.old ++ terms_text basis.now) }
{
    write_term(page, "Program", basis.program.as_str())?;
    write_digest(alloc, page, "the directory", &basis.directory)?;
    let name = judged_name(basis.input);
    write_digest(alloc, page, name, &basis.evidence)?;
    Ok(())
}

/// Begins the list of what the verdict is given under.
#[tactic(auto, unfolding(page_text::specs::Pages::written, page_text::specs::Names::tag_name, page_text::specs::Names::attribute_name, page_text::specs::Escaping::spelled, page_text::specs::Escaping::seen))]
fn begin_terms(page: &mut Page) -> Result<(), AllocError>
    ensures { OnOk result (page.new ≡ page.old ++ codes "<dl class=\"basis\">\n") }
{
    page.write(&[
        Open(Tag::Dl),
        Set(Attribute::Class),
        Text(b"basis"),
        End,
        Inside,
        Line,
    ])?;
    Ok(())
}

/// Ends the list.
#[tactic(auto, unfolding(page_text::specs::Pages::written, page_text::specs::Names::tag_name))]
fn end_terms(page: &mut Page) -> Result<(), AllocError>
    ensures { OnOk result (page.new ≡ page.old ++ codes "</dl>\n") }
{
    page.write(&[Close(Tag::Dl), Line])?;
    Ok(())
}

/// Writes what the verdict is given under.
fn write_basis(alloc: Global, page: &mut Page, basis: &Basis) -> Result<(), AllocError>
    ensures { OnOk result (page.new ≡ page.old ++ basis_list basis.now) }
{
    begin_terms(page)?;
    write_terms(alloc, page, basis)?;
    end_terms(page)?;
    Ok(())
}

/// Writes what was judged, the line about the whole, and what the verdict is given under.
pub(crate) fn write_front(
    alloc: Global,
    page: &mut Page,
    basis: &Basis,
    summary: &str,
) -> Result<(), AllocError>
    ensures { OnOk result (page.new ≡ page.old ++ front_text basis.now summary.now) }
{
    write_heading(page, heading_of(basis.input), summary)?;
    write_basis(alloc, page, basis)?;
    Ok(())
}
