//! What a store has of a node against which nothing speaks, in sentences.

use crate::places::{NodePlaces, Span};
use authenticators::NodeId;
use outcome::Memory;
use sentences::{Count, Lines};
use std::fmt;

/// The greatest number of segments that are named.
const MOST_SPANS: usize = 12;

/// Segments in order.
#[derive(Clone, Copy)]
struct Spans<'a>(&'a [Span]);

/// Writes a segment after others.
fn write_span<W: fmt::Write>(first: bool, span: Span, f: &mut fmt::Formatter<W>) -> fmt::Result {
    if !first {
        f.write_str(", ")?;
    }
    let Span { item, first, last } = span;
    write!(f, "entries {first} to {last} (item {item})")
}

/// Writes how many segments are not named.
fn write_others<W: fmt::Write>(len: usize, f: &mut fmt::Formatter<W>) -> fmt::Result {
    if len <= MOST_SPANS {
        return Ok(());
    }
    let others = len - MOST_SPANS;
    write!(f, ", and {others} more")
}

/// Writes the first twelve segments, such as `entries 1 to 5 (item 1), entries 4 to 9 (item 3)`, and then how many more there are.
impl<'a> fmt::Display for Spans<'a> {
    fn fmt<W: fmt::Write>(&self, f: &mut fmt::Formatter<W>) -> fmt::Result {
        let mut first = true;
        for span in self.0.iter().take(MOST_SPANS) {
            write_span(first, *span, f)?;
            first = false;
        }
        write_others(self.0.len(), f)
    }
}

/// Says which segments there are.
fn say_spans(lines: &mut Lines, spans: &[Span]) -> Result<(), Memory> {
    if spans.is_empty() {
        return Ok(());
    }
    let count = Count(spans.len() as u64, "segment", "segments");
    let spans = Spans(spans);
    let text = format!(in lines.alloc(); "Its log follows the program in {count}: {spans}.")?;
    lines.say(text)
}

/// Says at how many places statements stand. A statement that stands at two places is counted twice.
fn say_statements(lines: &mut Lines, found: &NodePlaces) -> Result<(), Memory> {
    if found.statements == 0 {
        return Ok(());
    }
    let count = Count(found.statements, "place", "places");
    let text = if found.segments.is_empty() {
        format!(in lines.alloc(); "Statements of it stand at {count} in the items.")?
    } else {
        format!(in lines.alloc(); "Beside that, statements of it stand at {count} in the items.")?
    };
    lines.say(text)
}

/// Says how many challenges were answered.
fn say_answered(lines: &mut Lines, found: &NodePlaces) -> Result<(), Memory> {
    if found.challenges == 0 {
        return Ok(());
    }
    let count = Count(
        found.challenges,
        "challenge against it is answered",
        "challenges against it are answered",
    );
    let text = format!(in lines.alloc(); "{count}.")?;
    lines.say(text)
}

/// Says that there is nothing of the node.
pub(crate) fn say_unknown(lines: &mut Lines, node: NodeId) -> Result<(), Memory> {
    let text = format!(in lines.alloc(); "No item is of node {node}.")?;
    lines.say(text)
}

/// Says what there is of the node.
pub(crate) fn say_trust(lines: &mut Lines, found: &NodePlaces) -> Result<(), Memory> {
    say_spans(lines, &found.segments)?;
    say_statements(lines, found)?;
    say_answered(lines, found)
}
