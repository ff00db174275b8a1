//! The lines of the picture. They go around the boxes: through the lanes between columns, and through the room above or below a row.

use crate::layout::{HEIGHT, Point, WIDTH};
use crate::markup::attribute;
use page_text::Piece::{Alone, End, Line, Number, Open, Set, Text};
use page_text::{Attribute, Page, Tag};
use std::alloc::AllocError;

/// Begins a path of a class.
fn begin_path(page: &mut Page, class: &str) -> Result<(), AllocError> {
    page.write(&[Open(Tag::Path)])?;
    attribute(page, Attribute::Class, class)?;
    page.write(&[Set(Attribute::D)])
}

/// Returns what is halfway between two numbers.
fn middle(a: u64, b: u64) -> u64 {
    a / 2 + b / 2
}

/// Writes the line from an entry to the one behind it in its log. The points are the upper left corners of both.
pub fn draw_chain(page: &mut Page, from: Point, to: Point) -> Result<(), AllocError> {
    let x = from.x.saturating_add(WIDTH);
    let y = from.y.saturating_add(HEIGHT / 2);
    let end = to.y.saturating_add(HEIGHT / 2);
    let half = middle(x, to.x);
    begin_path(page, "chain")?;
    page.write(&[
        Text(b"M"),
        Number(x),
        Text(b" "),
        Number(y),
        Text(b"C"),
        Number(half),
        Text(b" "),
        Number(y),
        Text(b" "),
        Number(half),
        Text(b" "),
        Number(end),
        Text(b" "),
        Number(to.x),
        Text(b" "),
        Number(end),
        End,
        Alone,
        Line,
    ])
}

/// Writes the line and the head of an arrow. The line goes from a point to the right, along a lane, and to above or below its end.
fn draw_way(
    page: &mut Page,
    from: Point,
    lane: u64,
    turn: u64,
    to: Point,
    head: &'static str,
) -> Result<(), AllocError> {
    begin_path(page, "arrow")?;
    page.write(&[
        Text(b"M"),
        Number(from.x),
        Text(b" "),
        Number(from.y),
        Text(b"H"),
        Number(lane),
        Text(b"V"),
        Number(turn),
        Text(b"H"),
        Number(to.x),
        Text(b"V"),
        Number(to.y),
        End,
        Alone,
    ])?;
    begin_path(page, "head")?;
    page.write(&[
        Text(b"M"),
        Number(to.x),
        Text(b" "),
        Number(to.y),
        Text(head.as_bytes()),
        End,
        Alone,
        Line,
    ])
}

/// Writes the arrow from a SEND entry to the entry that quotes it. The points are the upper left corners of both. `number` chooses one of
/// five ways through a lane.
pub fn draw_arrow(page: &mut Page, from: Point, to: Point, number: u64) -> Result<(), AllocError> {
    let way = number % 5;
    let right = from.x.saturating_add(WIDTH);
    let lane = right.saturating_add(5 + 3 * way);
    let start = Point {
        x: right,
        y: from.y.saturating_add(HEIGHT - 8),
    };
    let x = to.x.saturating_add(WIDTH / 2);
    if from.y < to.y {
        let end = Point { x, y: to.y };
        let turn = to.y.saturating_sub(11 + way % 3);
        draw_way(page, start, lane, turn, end, "l-5 -8h10z")
    } else {
        let y = to.y.saturating_add(HEIGHT);
        let turn = y.saturating_add(11 + way % 3);
        draw_way(page, start, lane, turn, Point { x, y }, "l-5 8h10z")
    }
}
