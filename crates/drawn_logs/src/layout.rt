//! The places of entries and rows in the picture, in pixels.

use crate::choosing::Choice;
use crate::grid::Grid;
use std::alloc::{AllocError, Global};

/// The left edge of the first column.
pub const LEFT: u64 = 104;

/// The distance from one column to the next.
pub(crate) const COLUMN: u64 = 102;

/// The distance from one lane of a row to the next.
const LANE: u64 = 58;

/// The room above and below the entries of a row.
pub const PAD: u64 = 18;

/// The room between two rows.
const BETWEEN: u64 = 12;

/// An entry's width.
pub(crate) const WIDTH: u64 = 80;

/// An entry's height.
pub const HEIGHT: u64 = 42;

/// The least number of columns.
const LEAST_COLUMNS: u64 = 4;

/// A point, in pixels from the upper left corner of the picture.
#[derive(Clone, Copy, Debug)]
pub struct Point {
    /// The distance to the right.
    pub x: u64,
    /// The distance downwards.
    pub y: u64,
}

/// The place of a row.
#[derive(Clone, Copy, Debug)]
pub struct Band {
    /// Its upper edge.
    pub top: u64,
    /// Its height.
    pub height: u64,
}

/// The upper left corner of each entry, the place of each row, and the size of the whole.
#[derive(Debug, Drop)]
pub struct Layout {
    corners: Vec<Point>,
    /// The place of each row.
    pub bands: Vec<Band>,
    /// The width of the whole.
    pub width: u64,
    /// The height of the whole.
    pub height: u64,
}

/// Returns where rows with these numbers of lanes lie.
fn bands_of(alloc: Global, lanes: &[u64]) -> Result<Vec<Band>, AllocError> {
    let mut bands = Vec::new(alloc);
    let mut top: u64 = 0;
    for count in lanes {
        let more = count.saturating_sub(1).saturating_mul(LANE);
        let height = more.saturating_add(HEIGHT + 2 * PAD);
        bands.push(Band { top, height })?;
        top = top.saturating_add(height).saturating_add(BETWEEN);
    }
    Ok(bands)
}

/// Returns where the last row ends.
fn end_of(bands: &[Band]) -> u64 {
    match bands.last() {
        Some(band) => band.top.saturating_add(band.height),
        None => 0,
    }
}

/// Returns the upper left corner of an entry in this column and lane, and in a row that lies there.
fn corner(column: u64, lane: u64, band: Option<&Band>) -> Point {
    let top = match band {
        Some(band) => band.top,
        None => 0,
    };
    Point {
        x: column.saturating_mul(COLUMN).saturating_add(LEFT),
        y: lane
            .saturating_mul(LANE)
            .saturating_add(top)
            .saturating_add(PAD),
    }
}

impl Layout {
    /// Returns the places of all entries and rows of a choice.
    pub fn new(alloc: Global, choice: &Choice, grid: &Grid) -> Result<Layout, AllocError> {
        let lanes = grid.lanes_by_row(alloc, choice)?;
        let bands = bands_of(alloc, &lanes)?;
        let mut corners = Vec::new(alloc);
        for (i, one) in choice.cells.iter().enumerate() {
            corners.push(corner(grid.column(i), grid.lane(i), bands.get(one.row)))?;
        }
        let columns = grid.width().max(LEAST_COLUMNS);
        Ok(Layout {
            corners,
            width: columns.saturating_mul(COLUMN).saturating_add(LEFT),
            height: end_of(&bands),
            bands,
        })
    }

    /// Returns the upper left corner of entry `i`, or (0, 0) if there is no such entry.
    pub fn corner(&self, i: usize) -> Point {
        match self.corners.get(i) {
            Some(corner) => *corner,
            None => Point { x: 0, y: 0 },
        }
    }
}
