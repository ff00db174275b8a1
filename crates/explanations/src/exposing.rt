//! Which further items convict a node that is exposed, in a sentence.

use crate::grounds::{Grounds, sites_of};
use crate::places::NodePlaces;
use outcome::Memory;
use sentences::{Count, Lines, Site};
use std::alloc::Global;
use std::fmt;

/// The greatest number of items that are named.
const MOST_ITEMS: usize = 12;

/// Items in order.
#[derive(Clone, Copy)]
struct Items<'a>(&'a [u64]);

/// Writes an item after others.
fn write_item<W: fmt::Write>(first: bool, item: u64, f: &mut fmt::Formatter<W>) -> fmt::Result {
    if !first {
        f.write_str(", ")?;
    }
    write!(f, "item {item}")
}

/// Writes how many items are not named.
fn write_others<W: fmt::Write>(len: usize, f: &mut fmt::Formatter<W>) -> fmt::Result {
    if len <= MOST_ITEMS {
        return Ok(());
    }
    let others = len - MOST_ITEMS;
    write!(f, ", and {others} more")
}

/// Writes the first twelve items, such as `item 2, item 5`, and then how many more there are.
impl<'a> fmt::Display for Items<'a> {
    fn fmt<W: fmt::Write>(&self, f: &mut fmt::Formatter<W>) -> fmt::Result {
        let mut first = true;
        for item in self.0.iter().take(MOST_ITEMS) {
            write_item(first, *item, f)?;
            first = false;
        }
        write_others(self.0.len(), f)
    }
}

/// Returns whether the item is one of these places.
fn is_at(sites: &[Site], item: u64) -> bool {
    sites.iter().any(|site| site.place == item)
}

/// Returns whether a part of the proof stands in the item.
fn is_told(grounds: &Grounds, item: u64) -> bool {
    let first = is_at(sites_of(&grounds.first), item);
    let second = is_at(sites_of(&grounds.second), item);
    first || second || is_at(&grounds.segment.sites, item)
}

/// Returns the items that convict the node, beside those of the parts of its proof.
fn further_items(alloc: Global, found: &NodePlaces) -> Result<Vec<u64>, Memory> {
    let mut further = Vec::new(alloc);
    let Some(held) = &found.held else {
        return Ok(further);
    };
    for item in &held.convicting(alloc)? {
        if !is_told(&found.grounds, *item) {
            further.push(*item)?;
        }
    }
    Ok(further)
}

/// Says how many further items convict the node, if there are any.
pub(crate) fn say_further(lines: &mut Lines, found: &NodePlaces) -> Result<(), Memory> {
    let alloc = lines.alloc();
    let further = further_items(alloc, found)?;
    if further.is_empty() {
        return Ok(());
    }
    let count = Count(
        further.len() as u64,
        "further item convicts it",
        "further items convict it",
    );
    let items = Items(&further);
    let text = format!(in alloc; "{count}, alone or with others: {items}.")?;
    lines.say(text)
}
