//! The choice of what is drawn of the rows.

use crate::marks::{Marks, SentenceId};
use crate::ranking::chosen_of;
use authenticators::NodeId;
use known_logs::{Cell, Detail, Place, Rows};
use sentences::Explanation;
use std::alloc::{AllocError, Global};
use std::collections::BTreeMap;

/// A row with more known entries is cut.
const MOST_CELLS: usize = 40;

/// The greatest number of entries of a row.
const MOST_DRAWN: usize = 48;

/// How many entries are drawn on each side of what is spoken of, and at either end, if a row is cut.
const NEIGHBOURS: usize = 2;

/// The greatest number of entries that are drawn under one number.
const MOST_ALIKE: u64 = 8;

/// An entry that is drawn.
#[derive(Clone, Copy, Debug)]
pub struct Drawn {
    /// The row's place, from 0.
    pub row: usize,
    /// The node whose log has the entry.
    pub node: NodeId,
    /// The entry's number.
    pub seq: u64,
    /// How many entries of this number are drawn before it.
    pub alike: u64,
    /// The sentence that marks it.
    pub sentence: Option<SentenceId>,
    /// Whether entries before it are left out.
    pub is_behind_gap: bool,
    /// Its place among the known entries of its node. If it has none, a sentence speaks of it and nothing of it is known.
    at: Option<usize>,
}

impl Drawn {
    /// Returns the entry, if it is known.
    pub fn cell(&self, rows: &Rows) -> Option<Cell> {
        rows.cell(self.node, self.at?)
    }

    /// Returns what the entry says, if that is known.
    pub fn detail(&self, rows: &Rows) -> Option<Detail> {
        rows.detail(&self.cell(rows)?)
    }

    /// Returns the place of the entry that it quotes, if it quotes one genuinely.
    pub fn quoted_place(&self, rows: &Rows) -> Option<Place> {
        rows.quoted_place(&self.cell(rows)?)
    }

    /// Returns whether it is known.
    fn is_known(&self) -> bool {
        self.at.is_some()
    }
}

/// A row of the picture.
#[derive(Clone, Copy, Debug)]
pub struct PictureRow {
    /// The node.
    pub node: NodeId,
    /// How many entries are known of the node's log.
    pub known: usize,
    /// How many of them are drawn.
    pub drawn: usize,
    /// Where its entries begin among all that are drawn.
    from: usize,
    /// How many entries the row has, with those of which nothing is known.
    count: usize,
}

impl PictureRow {
    /// Returns whether the row has no entry.
    pub fn is_empty(&self) -> bool {
        self.count == 0
    }
}

/// What is drawn: the entries, row by row, and by number in each row.
#[derive(Debug, Drop)]
pub struct Choice {
    /// How many nodes have no row because nothing stands against them, and they neither have nor quote a marked entry.
    pub quiet: u64,
    /// How many further nodes have no row because a picture has no more rows.
    pub further: u64,
    /// The rows, ascending by node.
    pub rows: Vec<PictureRow>,
    /// Their entries.
    pub cells: Vec<Drawn>,
}

/// Returns whether a sentence speaks of the entry, or of what it quotes.
pub(crate) fn is_spoken_of(rows: &Rows, cell: &Cell, marks: &Marks) -> bool {
    if marks.sentence(cell.place.node, cell.place.seq).is_some() {
        return true;
    }
    match rows.quoted_place(cell) {
        Some(quoted) => marks.sentence(quoted.node, quoted.seq).is_some(),
        None => false,
    }
}

/// Returns whether entry `i` is at an end, or beside one that is spoken of.
fn is_near(spoken: &[bool], i: usize) -> bool {
    let left = spoken.len().saturating_sub(i);
    if i < NEIGHBOURS || left <= NEIGHBOURS {
        return true;
    }
    let from = spoken.get(i.saturating_sub(NEIGHBOURS)..).unwrap_or(&[]);
    from.iter().take(2 * NEIGHBOURS + 1).any(|one| *one)
}

/// Returns for each entry of a node whether it is spoken of.
fn spoken_of(
    alloc: Global,
    rows: &Rows,
    cells: &[Cell],
    marks: &Marks,
) -> Result<Vec<bool>, AllocError> {
    let mut spoken = Vec::with_capacity(alloc, cells.len())?;
    for cell in cells {
        spoken.push(is_spoken_of(rows, cell, marks))?;
    }
    Ok(spoken)
}

/// Returns entry `at` of a node as it is drawn, without its place among those of its number.
fn as_drawn(row: usize, at: usize, cell: &Cell, marks: &Marks, is_behind_gap: bool) -> Drawn {
    Drawn {
        row,
        node: cell.place.node,
        seq: cell.place.seq,
        alike: 0,
        sentence: marks.sentence_of(cell.place),
        is_behind_gap,
        at: Some(at),
    }
}

/// Returns the entries of a node that are drawn: all of a short row, and of a longer one those that are near.
fn known_of(
    alloc: Global,
    rows: &Rows,
    row: usize,
    cells: &[Cell],
    marks: &Marks,
) -> Result<Vec<Drawn>, AllocError> {
    let spoken = spoken_of(alloc, rows, cells, marks)?;
    let is_short = cells.len() <= MOST_CELLS;
    let mut kept = Vec::new(alloc);
    let mut is_behind_gap = false;
    for (i, cell) in cells.iter().enumerate() {
        let is_wanted = is_short || is_near(&spoken, i);
        if is_wanted {
            kept.push(as_drawn(row, i, cell, marks, is_behind_gap))?;
        }
        is_behind_gap = !is_wanted;
    }
    Ok(kept)
}

/// Adds the marked entries of a node of which nothing is known.
fn add_absent(
    kept: &mut Vec<Drawn>,
    row: usize,
    node: NodeId,
    cells: &[Cell],
    marked: &BTreeMap<u64, SentenceId>,
) -> Result<(), AllocError> {
    for (seq, sentence) in marked.iter() {
        let seq = *seq;
        let known = cells.binary_search_by_key(&seq, |cell| cell.place.seq);
        if known.is_err() {
            kept.push(Drawn {
                row,
                node,
                seq,
                alike: 0,
                sentence: Some(*sentence),
                is_behind_gap: false,
                at: None,
            })?;
        }
    }
    Ok(())
}

/// Adds those entries that are marked, or those that are not.
fn add_where(to: &mut Vec<Drawn>, from: &[Drawn], is_marked: bool) -> Result<(), AllocError> {
    for one in from {
        if one.sentence.is_some() == is_marked {
            to.push(*one)?;
        }
    }
    Ok(())
}

/// Returns the entries by number. Under one number the marked ones come first.
fn in_order(alloc: Global, kept: &[Drawn]) -> Result<Vec<Drawn>, AllocError> {
    let mut ordered = Vec::with_capacity(alloc, kept.len())?;
    add_where(&mut ordered, kept, true)?;
    add_where(&mut ordered, kept, false)?;
    ordered.sort_by_key(|one| one.seq)?;
    Ok(ordered)
}

/// Numbers the entries under one number, and keeps the first ones.
fn numbered(alloc: Global, kept: &[Drawn]) -> Result<Vec<Drawn>, AllocError> {
    let mut numbered = Vec::new(alloc);
    let mut last = None;
    let mut alike: u64 = 0;
    for one in kept {
        let mut one = *one;
        alike = if last == Some(one.seq) {
            alike.saturating_add(1)
        } else {
            0
        };
        last = Some(one.seq);
        one.alike = alike;
        if alike < MOST_ALIKE {
            numbered.push(one)?;
        }
    }
    Ok(numbered)
}

/// Returns how many entries are marked.
fn marked_among(kept: &[Drawn]) -> usize {
    kept.iter().filter(|one| one.sentence.is_some()).count()
}

/// Returns the entries of a row, as many as it may have. If there are more, the first marked ones are taken, and then the first of the
/// others.
fn within(alloc: Global, kept: Vec<Drawn>) -> Result<Vec<Drawn>, AllocError> {
    if kept.len() <= MOST_DRAWN {
        return Ok(kept);
    }
    let mut marked = marked_among(&kept).min(MOST_DRAWN);
    let mut others = MOST_DRAWN.saturating_sub(marked);
    let mut is_behind_gap = false;
    let mut within = Vec::new(alloc);
    for one in &kept {
        let is_marked = one.sentence.is_some();
        let left = if is_marked { marked } else { others };
        if left == 0 {
            is_behind_gap = true;
            continue;
        }
        within.push(behind(one, is_behind_gap))?;
        is_behind_gap = false;
        if is_marked {
            marked = left.saturating_sub(1);
        } else {
            others = left.saturating_sub(1);
        }
    }
    Ok(within)
}

/// Returns the entry, behind a gap if there is one.
fn behind(one: &Drawn, is_behind_gap: bool) -> Drawn {
    let mut one = *one;
    one.is_behind_gap = one.is_behind_gap || is_behind_gap;
    one
}

/// Returns the entries of a row.
fn row_cells(
    alloc: Global,
    rows: &Rows,
    row: usize,
    node: NodeId,
    marks: &Marks,
) -> Result<Vec<Drawn>, AllocError> {
    let cells = rows.of(node);
    let mut kept = known_of(alloc, rows, row, cells, marks)?;
    if let Some(marked) = marks.of(node) {
        add_absent(&mut kept, row, node, cells, marked)?;
    }
    let ordered = in_order(alloc, &kept)?;
    let numbered = numbered(alloc, &ordered)?;
    within(alloc, numbered)
}

impl Choice {
    /// Adds the row of a node.
    fn add_row(
        &mut self,
        alloc: Global,
        node: NodeId,
        rows: &Rows,
        marks: &Marks,
    ) -> Result<(), AllocError> {
        let kept = row_cells(alloc, rows, self.rows.len(), node, marks)?;
        self.rows.push(PictureRow {
            node,
            known: rows.of(node).len(),
            drawn: kept.iter().filter(|one| one.is_known()).count(),
            from: self.cells.len(),
            count: kept.len(),
        })?;
        self.cells.extend_from_slice(&kept)?;
        Ok(())
    }

    /// Returns the entries of a row.
    pub fn cells_of(&self, row: &PictureRow) -> &[Drawn] {
        let behind = self.cells.get(row.from..).unwrap_or(&[]);
        behind.get(..row.count).unwrap_or(behind)
    }

    /// Returns whether an entry of the node with this number is drawn.
    pub fn draws(&self, node: NodeId, seq: u64) -> bool {
        match self.row_of(node) {
            Some(row) => self.cells_of(row).iter().any(|one| one.seq == seq),
            None => false,
        }
    }

    /// Returns the row of a node.
    pub fn row_of(&self, node: NodeId) -> Option<&PictureRow> {
        let at = self.rows.binary_search_by_key(&node, |row| row.node).ok()?;
        self.rows.get(at)
    }
}

/// Returns what is drawn of the rows.
///
/// - A row of more than 40 known entries is cut to those that the sentences speak of, with two neighbours on each side, and two at each
///   end.
/// - Under one number at most 8 entries are drawn, and in one row at most 48.
/// - If there are more than 12 nodes, a node has a row only if something stands against it, or if it has or quotes a marked entry. There
///   are 12 rows at most.
pub fn choice_of(
    alloc: Global,
    explanation: &Explanation,
    rows: &Rows,
    marks: &Marks,
) -> Result<Choice, AllocError> {
    let chosen = chosen_of(alloc, explanation, rows, marks)?;
    let mut choice = Choice {
        quiet: chosen.quiet,
        further: chosen.further,
        rows: Vec::new(alloc),
        cells: Vec::new(alloc),
    };
    for node in chosen.nodes.iter() {
        choice.add_row(alloc, NodeId(*node), rows, marks)?;
    }
    Ok(choice)
}
