//! What is known so far.

use crate::detail::Detail;
use crate::rows::{Cell, Place, Rows};
use crate::walking::Walker;
use crate::wanted::{Numbered, Wanted};
use authenticators::NodeId;
use outcome::Memory;
use sentences::{Role, Said};
use std::alloc::Global;
use std::collections::btree_map::Entry;
use std::collections::{BTreeMap, BTreeSet};

/// What is known so far of the logs that are wanted.
#[derive(Debug, Drop)]
pub(crate) struct Known {
    wanted: Wanted,
    quoting: BTreeSet<u32>,
    cells: BTreeMap<Place, Cell>,
    details: Vec<Detail>,
    quoted_places: BTreeMap<Place, Place>,
}

impl Known {
    /// Returns a value in which nothing is known.
    pub(crate) fn new(alloc: Global, wanted: Wanted) -> Known {
        Known {
            wanted,
            quoting: BTreeSet::new(alloc),
            cells: BTreeMap::new(alloc),
            details: Vec::new(alloc),
            quoted_places: BTreeMap::new(alloc),
        }
    }

    /// Adds an entry, if less of it was known.
    fn note(&mut self, cell: Cell) -> Result<(), Memory> {
        match self.cells.entry(cell.place)? {
            Entry::Occupied(mut held) => {
                if cell.rank() < held.get().rank() {
                    held.insert(cell);
                }
            }
            Entry::Vacant(free) => {
                free.insert(cell);
            }
        }
        Ok(())
    }

    /// Adds an entry with what it says.
    fn note_entry(
        &mut self,
        place: &Place,
        is_logged: bool,
        detail: &Detail,
    ) -> Result<(), Memory> {
        let at = self.details.len();
        // The type is named here: else rattle does not find it for the proof of `push`.
        let said: Said = detail.said;
        self.details.push(Detail { said, ..*detail })?;
        self.note(Cell {
            place: *place,
            is_logged,
            detail: Some(at),
        })
    }

    /// Turns from the logs that were wanted to those of nodes that quote, as far as they are wanted now. Returns whether there are any.
    pub(crate) fn turn(&mut self, alloc: Global) -> Result<bool, Memory> {
        let mut further = BTreeSet::new(alloc);
        for node in self.quoting.iter() {
            if further.len() < self.wanted.further && !self.wanted.has(NodeId(*node)) {
                further.insert(*node)?;
            }
        }
        let are_any = !further.is_empty();
        self.wanted.nodes = Some(further);
        Ok(are_any)
    }

    /// Returns all that is known, by node and by number.
    pub(crate) fn into_rows(self, alloc: Global) -> Result<Rows, Memory> {
        let mut by_node = BTreeMap::new(alloc);
        for cell in self.cells.values() {
            put(alloc, &mut by_node, *cell)?;
        }
        let by_node = sorted(by_node)?;
        Ok(Rows {
            by_node,
            details: self.details,
            quoted_places: self.quoted_places,
            quoting: self.quoting,
        })
    }
}

impl Walker for Known {
    fn wants(&self, node: NodeId) -> bool {
        self.wanted.has(node)
    }

    fn statement(
        &mut self,
        place: &Place,
        _role: Role,
        detail: Option<&Detail>,
    ) -> Result<(), Memory> {
        if !self.wanted.has(place.node) {
            return Ok(());
        }
        match detail {
            Some(detail) => self.note_entry(place, false, detail),
            None => self.note(Cell {
                place: *place,
                is_logged: false,
                detail: None,
            }),
        }
    }

    fn entry(&mut self, place: &Place, detail: &Detail) -> Result<(), Memory> {
        self.note_entry(place, true, detail)
    }

    fn quote(&mut self, entry: &Place, quoted: &Place) -> Result<(), Memory> {
        let number = Numbered {
            node: quoted.node,
            seq: quoted.seq,
        };
        if self.wanted.quoted.contains(&number) {
            self.quoting.insert(entry.node.0)?;
        }
        if self.wanted.has(entry.node) {
            self.quoted_places.insert(*entry, *quoted)?;
        }
        Ok(())
    }
}

/// Puts an entry after those of its node.
fn put(alloc: Global, by_node: &mut BTreeMap<u32, Vec<Cell>>, cell: Cell) -> Result<(), Memory> {
    let NodeId(node) = cell.place.node;
    let cells = by_node.entry(node)?.or_insert(Vec::new(alloc));
    cells.push(cell)?;
    Ok(())
}

/// Returns the rows, sorted by number. Under each number, the entry of which most is known comes first.
fn sorted(mut by_node: BTreeMap<u32, Vec<Cell>>) -> Result<BTreeMap<u32, Vec<Cell>>, Memory> {
    for cells in by_node.values_mut() {
        cells.sort_by_key(|cell| (cell.place.seq, cell.rank()))?;
    }
    Ok(by_node)
}
