//! A store that takes the items of a text.

ghost use Rattle.std.specs.Prelude.{◌<◌, ◌≤◌};
ghost use Rattle.parallel_checking.specs.declared.limits.TheConstants.{MOST_WORKERS};

use crate::reading::samples::{header, put_item, statement};
use containers::Pending;
use evidence_samples::make_nodes;
use evidence_store::{Evidence, IndexedStore};
use parallel_reading::{Unwatched, Workers, import_by};
use ref_programs::Tally;
use std::alloc::Global;
use std::test::Fail;
use std::thread::Threads;

/// What an import left.
#[derive(Clone, Copy, Debug, PartialEq, Eq)]
struct Left {
    /// How many items were new, and how many are there.
    new: u64,
    count: u64,
    /// Whether the store's export is the text that was imported.
    same_text: bool,
}

/// What is left where so many workers import the text of three statements into a store.
fn left_by<R: Threads + Sync>(rt: &R, alloc: Global, workers: usize) -> Result<Left, Fail>
    requires { (0 < workers) × (workers ≤ MOST_WORKERS) }
{
    let mut nodes = make_nodes(alloc)?;
    let mut text = header(alloc, 3)?;
    for seq in [5, 6, 7] {
        put_item(&mut text, &statement(alloc, &mut nodes.one, seq)?)?;
    }
    let mut store: IndexedStore<Tally> = IndexedStore::new(alloc, nodes.directory.try_clone()?)?;
    let workers = Workers {
        rt,
        alloc,
        count: workers,
    };
    let mut pending = Pending::new(text.to_vec(alloc)?);
    let new = import_by(&workers, &mut store, &Tally, &mut pending, &mut Unwatched)?;
    Ok(Left {
        new,
        count: store.count(),
        same_text: store.export()?.as_slice() == text.as_slice(),
    })
}

#[test]
fn a_store_takes_the_items_of_a_text(rt: HostRuntime) -> Result<(), Fail> {
    let expected = Left {
        new: 3,
        count: 3,
        same_text: true,
    };
    let left = [left_by(&rt, rt.alloc(), 1)?, left_by(&rt, rt.alloc(), 8)?];
    assert_eq!(rt; left, [expected, expected]);
    Ok(())
}
