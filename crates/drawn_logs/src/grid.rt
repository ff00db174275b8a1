//! The column and the lane in which each entry stands.

use crate::choosing::{Choice, Drawn};
use authenticators::NodeId;
use known_logs::{Place, Rows};
use log_chain::Hash;
use std::alloc::{AllocError, Global};
use std::collections::BTreeMap;

/// How often the columns are gone over at most. They are gone over so that an entry that quotes stands to the right of what it quotes.
const MOST_SWEEPS: u32 = 64;

/// The end of a node's log at an entry.
#[derive(Clone, Copy, Debug, PartialEq, Eq, PartialOrd, Ord)]
struct LogEnd {
    node: NodeId,
    hash: Hash,
}

/// The columns and the lanes of the entries that are drawn, and the entries that they stand behind and that they quote.
#[derive(Debug, Drop)]
pub struct Grid {
    columns: Vec<u64>,
    lanes: Vec<u64>,
    before: Vec<Option<usize>>,
    quoted_entries: Vec<Option<usize>>,
}

/// Returns the value at a place, or 0 if there is none.
fn at(numbers: &[u64], i: usize) -> u64 {
    numbers.get(i).copied().unwrap_or(0)
}

/// Returns the place of each known entry among those that are drawn.
fn places_of(
    alloc: Global,
    rows: &Rows,
    cells: &[Drawn],
) -> Result<BTreeMap<Place, usize>, AllocError> {
    let mut places = BTreeMap::new(alloc);
    for (i, one) in cells.iter().enumerate() {
        if let Some(cell) = one.cell(rows) {
            places.insert(cell.place, i)?;
        }
    }
    Ok(places)
}

/// Returns for each entry the one that it quotes, if that is drawn.
fn quoted_entries_of(
    alloc: Global,
    rows: &Rows,
    cells: &[Drawn],
) -> Result<Vec<Option<usize>>, AllocError> {
    let places = places_of(alloc, rows, cells)?;
    let mut quoted = Vec::new(alloc);
    for one in cells {
        let source = match one.quoted_place(rows) {
            Some(place) => places.get(&place).copied(),
            None => None,
        };
        quoted.push(source)?;
    }
    Ok(quoted)
}

/// Returns the hash before an entry in its log, if it is known.
fn prev_of(rows: &Rows, one: &Drawn) -> Option<Hash> {
    match one.detail(rows) {
        Some(detail) => Some(detail.prev),
        None => None,
    }
}

/// Returns the entry that an entry stands behind, among those whose hashes these are.
fn behind_which(rows: &Rows, one: &Drawn, ends: &BTreeMap<LogEnd, usize>) -> Option<usize> {
    let hash = prev_of(rows, one)?;
    let end = LogEnd {
        node: one.node,
        hash,
    };
    ends.get(&end).copied()
}

/// Returns for each entry the one that it stands behind in its node's log, if that is drawn.
fn before_of(
    alloc: Global,
    rows: &Rows,
    cells: &[Drawn],
) -> Result<Vec<Option<usize>>, AllocError> {
    let mut ends: BTreeMap<LogEnd, usize> = BTreeMap::new(alloc);
    let mut before = Vec::new(alloc);
    for (i, one) in cells.iter().enumerate() {
        before.push(behind_which(rows, one, &ends))?;
        if let Some(cell) = one.cell(rows) {
            let end = LogEnd {
                node: one.node,
                hash: cell.place.hash,
            };
            ends.insert(end, i)?;
        }
    }
    Ok(before)
}

/// Returns whether two entries stand in one column, one above the other.
fn are_stacked(a: &Drawn, b: &Drawn) -> bool {
    a.row == b.row && a.seq == b.seq
}

/// Returns the first column that an entry can have beside the one on its left.
fn column_behind(left: Option<&Drawn>, column: u64, one: &Drawn) -> u64 {
    match left {
        Some(left) if are_stacked(left, one) => column,
        Some(left) if left.row == one.row => {
            column.saturating_add(if one.is_behind_gap { 2 } else { 1 })
        }
        _ => 0,
    }
}

/// Moves each entry to the right of the one on its left and of what it quotes. Returns whether an entry was moved.
fn sweep(cells: &[Drawn], quoted: &[Option<usize>], columns: &mut Vec<u64>) -> bool {
    let mut moved = false;
    let mut left = None;
    let mut column = 0;
    for (i, one) in cells.iter().enumerate() {
        let mut wanted = column_behind(left, column, one);
        if let Some(Some(source)) = quoted.get(i) {
            wanted = wanted.max(at(columns, *source).saturating_add(1));
        }
        column = wanted.max(at(columns, i));
        if let Some(held) = columns.get_mut(i) {
            moved |= column != *held;
            *held = column;
        }
        left = Some(one);
    }
    moved
}

/// Moves the entries of one number to the column of the one that is farthest right.
fn level(cells: &[Drawn], columns: &mut Vec<u64>) {
    let mut right = None;
    let mut column = 0;
    for (i, one) in cells.iter().enumerate().rev() {
        let held = at(columns, i);
        column = match right {
            Some(right) if are_stacked(one, right) => held.max(column),
            _ => held,
        };
        if let Some(held) = columns.get_mut(i) {
            *held = column;
        }
        right = Some(one);
    }
}

/// Returns the column of each entry.
fn columns_of(
    alloc: Global,
    cells: &[Drawn],
    quoted: &[Option<usize>],
) -> Result<Vec<u64>, AllocError> {
    let mut columns = vec![in alloc; 0; cells.len()]?;
    for _ in 0..MOST_SWEEPS {
        if !sweep(cells, quoted, &mut columns) {
            break;
        }
        level(cells, &mut columns);
    }
    Ok(columns)
}

/// Returns the first of a few lanes, from this one on, in which none of the last entries stands.
fn free_lane(taken: &[u64], wanted: u64) -> u64 {
    let mut lane = wanted;
    for _ in 0..taken.len() {
        if !taken.contains(&lane) {
            break;
        }
        lane = lane.saturating_add(1);
    }
    lane
}

/// Returns the lane of each entry: that of the entry that it stands behind, if it is free, and else the next free one.
fn lanes_of(
    alloc: Global,
    cells: &[Drawn],
    before: &[Option<usize>],
) -> Result<Vec<u64>, AllocError> {
    let mut lanes = Vec::new(alloc);
    let mut taken = Vec::new(alloc);
    for (i, one) in cells.iter().enumerate() {
        if one.alike == 0 {
            taken.clear();
        }
        let wanted = match before.get(i) {
            Some(Some(prev)) => at(&lanes, *prev),
            _ => 0,
        };
        let lane = free_lane(&taken, wanted);
        taken.push(lane)?;
        lanes.push(lane)?;
    }
    Ok(lanes)
}

impl Grid {
    /// Returns the columns and the lanes of the entries of a choice.
    pub fn new(alloc: Global, rows: &Rows, choice: &Choice) -> Result<Grid, AllocError> {
        let cells = choice.cells.as_slice();
        let before = before_of(alloc, rows, cells)?;
        let quoted_entries = quoted_entries_of(alloc, rows, cells)?;
        let columns = columns_of(alloc, cells, &quoted_entries)?;
        let lanes = lanes_of(alloc, cells, &before)?;
        Ok(Grid {
            columns,
            lanes,
            before,
            quoted_entries,
        })
    }

    /// Returns the column of entry `i`, from 0.
    pub(crate) fn column(&self, i: usize) -> u64 {
        at(&self.columns, i)
    }

    /// Returns the lane of entry `i` within its row, from 0.
    pub(crate) fn lane(&self, i: usize) -> u64 {
        at(&self.lanes, i)
    }

    /// Returns the place of the entry that entry `i` stands behind in its node's log, if that is drawn.
    pub fn before(&self, i: usize) -> Option<usize> {
        self.before.get(i).copied().unwrap_or(None)
    }

    /// Returns the place of the entry that entry `i` quotes, if that is drawn.
    pub fn quoted_entry(&self, i: usize) -> Option<usize> {
        self.quoted_entries.get(i).copied().unwrap_or(None)
    }

    /// Returns how many columns there are.
    pub(crate) fn width(&self) -> u64 {
        self.columns
            .iter()
            .copied()
            .max()
            .map_or(0, |last| last.saturating_add(1))
    }

    /// Returns how many lanes each row has.
    pub(crate) fn lanes_by_row(
        &self,
        alloc: Global,
        choice: &Choice,
    ) -> Result<Vec<u64>, AllocError> {
        let mut rows = vec![in alloc; 1; choice.rows.len()]?;
        for (one, lane) in choice.cells.iter().zip(self.lanes.as_slice()) {
            if let Some(lanes) = rows.get_mut(one.row) {
                *lanes = (*lanes).max(lane.saturating_add(1));
            }
        }
        Ok(rows)
    }
}
