//! Encodings of stores that are cut off, that have a byte too many, or whose items do not ascend.

use crate::filling::store_of;
use anyhow::Result;
use authenticators::Directory;
use evidence_store::Evidence;
use ref_programs::Tally;
use std::alloc::Global;

/// The parts of a line: the items that a store has, the encoding of two items in hexadecimal digits, and where in it the first item ends.
#[derive(Clone, Copy)]
struct Line<'a> {
    items: &'a str,
    digits: &'a str,
    place: usize,
}

/// Returns the parts of the line, or `None` if one is missing.
fn line_of(rest: &str) -> Option<Line<'_>> {
    let (items, rest) = rest.split_once(' ')?;
    let (digits, place) = rest.split_once(' ')?;
    Some(Line {
        items,
        digits,
        place: place.parse().ok()?,
    })
}

/// Returns whether the store refuses the text at this item with this number, and is then as it was.
fn refuses<S: Evidence<Tally>>(
    store: &mut S,
    before: &[u8],
    text: &[u8],
    item: u64,
    number: u8,
) -> Result<bool> {
    let told = match store.import(&Tally, text) {
        Ok(_) => false,
        Err(fault) => fault.item == item && fault.cause.number() == number,
    };
    Ok(told && store.export()?.as_slice() == before)
}

/// Returns whether the store refuses each beginning of the text as cut off, at the item whose end is missing.
fn refuses_beginnings<S: Evidence<Tally>>(
    store: &mut S,
    before: &[u8],
    text: &[u8],
    place: usize,
) -> Result<bool> {
    for len in 0..text.len() {
        let item = if len < place { 0 } else { 1 };
        if !refuses(store, before, &text[..len], item, 40)? {
            return Ok(false);
        }
    }
    Ok(true)
}

/// Returns the parts, joined.
fn joined(alloc: Global, parts: &[&[u8]]) -> Result<Vec<u8>> {
    let mut text = Vec::new(alloc);
    for part in parts {
        text.extend_from_slice(part)?;
    }
    Ok(text)
}

/// Returns whether the store refuses the text of two items with a byte more, and with the items in the other order.
fn refuses_others<S: Evidence<Tally>>(
    alloc: Global,
    store: &mut S,
    before: &[u8],
    text: &[u8],
    place: usize,
) -> Result<bool> {
    let (Some(header), Some(first), Some(second)) = (
        text.get(..16),
        text.get(16..place),
        text.get(place..),
    ) else {
        return Ok(false);
    };
    let longer = joined(alloc, &[text, &[0]])?;
    let turned = joined(alloc, &[header, second, first])?;
    Ok(refuses(store, before, &longer, 2, 43)? && refuses(store, before, &turned, 1, 61)?)
}

/// Returns whether the store refuses all that is made of the text.
fn refuses_each<S: Evidence<Tally>>(
    alloc: Global,
    store: &mut S,
    text: &[u8],
    place: usize,
) -> Result<bool> {
    let before = store.export()?;
    Ok(
        refuses_beginnings(store, &before, text, place)?
            && refuses_others(alloc, store, &before, text, place)?,
    )
}

/// Returns whether a store that has the line's items refuses all that is made of the line's text.
pub(crate) fn agrees<S: Evidence<Tally>>(
    alloc: Global,
    directory: &Directory,
    rest: &str,
) -> Result<bool> {
    let Some(line) = line_of(rest) else {
        return Ok(false);
    };
    let mut store: S = store_of(alloc, directory, line.items)?;
    let text = hex::decode(alloc, line.digits)?;
    refuses_each(alloc, &mut store, &text, line.place)
}
