//! The engine of `merge`, which writes the union of stores.

ghost use Rattle.std.specs.Prelude.{◌<◌, ◌≤◌};
ghost use Rattle.operating.specs.Operating.{HasRoom, RanOnStores};
ghost use Rattle.parallel_checking.specs.declared.limits.TheConstants.{MOST_WORKERS};
ghost use Rattle.operating.specs.Questions.{Merge};

use crate::asking::{Ending, Reading, write_text};
use crate::files::Opener;
use crate::gathering::gather;
use crate::refusal::Refusal;
use crate::watching::StoreWatcher;
use commands::Store;
use commands::device::{Sink, Text, WriteFault};
use evidence::Evidence;
use outcome::Memory;
use replay_verifier::Program;
use std::io;
use std::thread::Threads;

/// The export of a store.
#[derive(Drop)]
struct Exported<'a, P: Program> {
    store: &'a Store<P>,
}

impl<'a, P: Program> Text for Exported<'a, P> {
    ghost use Rattle.evidence.specs.Exports.{export_of};

    ghost bytes = { λ e. export_of e.store.now.items };

    fn to_bytes(&self) -> Result<Vec<u8>, Memory> {
        self.store.export()
    }

    fn write_to<W: io::Write>(&self, writer: &mut W) -> Result<(), WriteFault> {
        self.store.export_to(writer)
    }
}

/// Reads a directory and this many stores, and writes the encoding of the items of all stores. It writes nothing else, and it writes after
/// everything has been decided. If the writer takes texts in pieces, one piece at a time is held beside the items.
pub fn run<R: Threads + Sync, P: Program + Send + Sync, O: Opener, F: StoreWatcher, W: Sink>(
    reading: &Reading<'_, R, P>,
    opener: &mut O,
    stores: usize,
    watcher: &mut F,
    writer: &mut W,
) -> Result<Ending, Refusal>
where
    P::State: Send,
    requires workers { (0 < reading.now.limits.workers) × (reading.now.limits.workers ≤ MOST_WORKERS) }
    requires room { HasRoom stores (O.seen opener.old) (W.seen writer.old) }
    ensures { RanOnStores Merge reading.now.limits.most_bytes stores result (O.seen opener.old) (O.seen opener.new) W.seen writer.old writer.new }
{
    let read = gather::<R, P, Store<P>, O, F>(reading, opener, stores, watcher)?;
    let exported = Exported { store: &read.store };
    write_text(writer, &exported)?;
    Ok(Ending::Done)
}
