//! The page of a directory.

ghost use Rattle.std.specs.Prelude.{IfOk};
ghost use Rattle.page_text.specs.Pages.{IsPage};

use crate::basis::{write_digest, write_heading};
use crate::head::{begin_main, end_page};
use crate::style::STYLE;
use drawn_logs::markup::{begin, begin_section, end};
use page_text::{Page, Tag};
use sentences::{ListedNode, Listing};
use std::alloc::{AllocError, Global};

/// The page's heading.
const HEADING: &str = "What the directory lists";

/// Writes a node with its keys.
fn write_node(alloc: Global, page: &mut Page, listed: &ListedNode) -> Result<(), AllocError> {
    let node = listed.node;
    let id = format!(in alloc; "node-{node}")?;
    let heading = format!(in alloc; "Node {node}")?;
    begin_section(page, id.as_str(), heading.as_str())?;
    begin(page, Tag::Dl, "basis")?;
    for (number, key) in listed.keys.iter().enumerate() {
        let name = format!(in alloc; "key {number}")?;
        write_digest(alloc, page, name.as_str(), key)?;
    }
    end(page, Tag::Dl)?;
    end(page, Tag::Section)
}

/// Writes the head: the directory's own digest.
fn write_head(
    alloc: Global,
    page: &mut Page,
    listing: &Listing,
    summary: &str,
) -> Result<(), AllocError> {
    write_heading(page, HEADING, summary)?;
    begin(page, Tag::Dl, "basis")?;
    write_digest(alloc, page, "the directory", &listing.directory)?;
    end(page, Tag::Dl)?;
    begin_main(page)
}

/// Returns the page of what a directory lists: the directory's SHA-256, and that of each key of each node.
pub fn page_of_listing(alloc: Global, listing: &Listing) -> Result<Vec<u8>, AllocError>
    ensures { IfOk result (λ page. IsPage page.items) }
{
    let summary = listing.summary(alloc)?;
    let mut page = Page::new(alloc, HEADING.as_bytes(), STYLE.as_bytes())?;
    write_head(alloc, &mut page, listing, summary.as_str())?;
    for listed in &listing.nodes {
        write_node(alloc, &mut page, listed)?;
    }
    end_page(&mut page)?;
    page.finish()
}
