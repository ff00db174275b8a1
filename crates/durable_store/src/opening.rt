//! How a journal is opened: it is read, its items are checked again, and what a crash left behind its texts is cut off.

ghost use Rattle.std.specs.Prelude.{◌≡◌, ◌⊎◌, ◌↔◌, ◌<◌, ◌≤◌, [], List, ℕ, length, None, Err, IfErr, IfOk, IsErrOf, MatchResult, OnOk};
ghost use Rattle.evidence_set.specs.ItemSets.{none};
ghost use Rattle.journal.specs.Device.{LeavesOnly};
ghost use Rattle.journal.specs.Journal.{recovered, texts_of};
ghost use Rattle.journal.specs.Reading.{IsDamaged, IsRead, IsReading};
ghost use Rattle.parallel_checking.specs.declared.limits.TheConstants.{MOST_WORKERS};
ghost use Rattle.durable_store.specs.Keeping.{IsJournalOf, IsKept, Keeps, basis_of};
ghost use Rattle.durable_store.specs.Opening.{AreShown, IsUnread, IsWhole};

use crate::checking::{Checkers, take_items};
use crate::durable_store::DurableStore;
use crate::fault::OpenFault;
use crate::finding::{next_items, read_basis};
use crate::item_journal::ItemJournal;
use authenticators::Directory;
use evidence::Evidence;
use item_forms::laws::items_have_one_text;
use journal::{Device, DeviceFault, Reading, Refused};
use outcome::Memory;
use parallel_checking::MOST_WORKERS;
use replay_verifier::Program;
use std::alloc::{AllocError, Global};
use std::marker::{Model, PhantomData};
use std::thread::Threads;

/// A journal that is being opened. First [`read`](Opening::read) reads all of it, and then [`finish`](Opening::finish) opens the store.
/// Nothing of the file is cut or written before `finish`.
///
/// A contract sees how the journal is read, what it is to begin with, whether it was found to begin so, and the store so far.
#[derive(Drop)]
pub struct Opening<P: Program, S: Evidence<P>, D: Device> {
    alloc: Global,
    basis: Vec<Vec<u8>>,
    reading: Reading<D>,
    is_begun: bool,
    store: S,
    program: PhantomData<P>,
}

impl<P: Program, S: Evidence<P>, D: Device> Model for Opening<P, S, D> {
    ghost use Rattle.std.specs.Prelude.{◌≡◌, length};
    ghost use Rattle.journal.specs.Journal.{texts_of};
    ghost use Rattle.durable_store.specs.Opening.{Found, found_code};

    ghost Value = { Found D };

    ghost coded = { found_code D.code };

    ghost view = { λ o. record { reading = o.reading; basis = texts_of o.basis.items; is_begun = o.is_begun; contents = S.contents o.store } };

    ghost invariant = { λ o. length o.basis.items ≡ 2 };
}

/// Returns the two texts with which a journal of this program and this directory begins.
fn basis_texts(
    alloc: Global,
    program_name: &str,
    directory: &Directory,
) -> Result<Vec<Vec<u8>>, Memory>
    ensures { IfOk result (λ texts. texts_of texts.items ≡ basis_of program_name.now directory.now) }
{
    let mut first = Vec::new(alloc);
    first.extend_from_slice(b"PRKEPT01")?;
    first.extend_from_slice(program_name.as_bytes())?;
    let mut texts = Vec::new(alloc);
    texts.push(first)?;
    texts.push(directory.to_bytes()?)?;
    Ok(texts)
}

/// Reads the items of a journal that begins as it should, checks them, and has the store take them.
fn read_items<R: Threads + Sync, P: Program + Send + Sync, S: Evidence<P>, D: Device>(
    checkers: &Checkers<'_, R, P>,
    reading: &mut Reading<D>,
    store: &mut S,
) -> Result<(), OpenFault>
where
    P::State: Send,
    requires workers { (0 < checkers.now.workers) × (checkers.now.workers ≤ MOST_WORKERS) }
    requires begun { IsReading D.found reading.old × (length (recovered (D.found reading.old.device)) ≡ 2) × ((S.contents store.old).items ≡ none) }

    ensures whole { OnOk result (IsRead D.seen D.may_leave reading.new
        × IsJournalOf (recovered (D.found reading.old.device)) (S.contents store.new).items (recovered (D.seen reading.new.device))) }
    ensures directory { (S.contents store.new).directory ≡ (S.contents store.old).directory }
    ensures shown { IfErr result (λ e. (basis : List (List ℕ)) → AreShown D.found D.seen (S.contents store.old).directory basis reading.new e) }
    ensures damaged { IsErrOf result OpenFault.Damaged → IsDamaged (D.found reading.new.device) (D.seen reading.new.device) }
    ensures failed { IsErrOf result OpenFault.DiskFailed → 0 < D.faults reading.new.device }
    ensures workers { IsErrOf result OpenFault.BadWorkers → ⊥ }
{
    items_have_one_text();
    let mut before = 2u64;
    'batches: loop {
        let batch = next_items(checkers.alloc, reading, before)?;
        take_items::<R, P, S>(checkers, store, &batch.items, before)?;
        if batch.is_last {
            return Ok(());
        }
        before += batch.items.len() as u64;
    }
}

impl<P: Program, S: Evidence<P>, D: Device> Opening<P, S, D> {
    /// Begins to open the journal of a device of which nothing was read. If a growth is refused, it reports that and drops the device.
    pub fn new(
        alloc: Global,
        program_name: &str,
        directory: Directory,
        device: D,
    ) -> Result<Opening<P, S, D>, Memory>
    where
        D: Drop,
        requires { D.found device ≡ [] }
        ensures unread { IfOk result (IsUnread D.found) }
        ensures device { IfOk result (λ o. o.reading.device ≡ device) }
        ensures basis { IfOk result (λ o. o.basis ≡ basis_of program_name.now directory) }
        ensures directory { IfOk result (λ o. o.contents.directory ≡ directory) }
    {
        let basis = basis_texts(alloc, program_name, &directory)?;
        let Ok(store) = S::new(alloc, directory) else {
            return Err(AllocError);
        };
        Ok(Opening {
            alloc,
            basis,
            reading: Reading::new(device),
            is_begun: false,
            store,
            program: PhantomData,
        })
    }

    /// Reads all of the journal, checks each item again, by so many workers, and takes it. A new journal has no text, and so no item.
    ///
    /// The call reports the first of these that it meets:
    ///
    /// - `BadWorkers` (90), before anything is read, if the workers are not 1 to [`MOST_WORKERS`];
    /// - `OtherProgram` (123) or `OtherDirectory` (124), if the journal begins otherwise;
    /// - `BadItem` (125), if a text is not that of a valid item;
    /// - `Damaged` (122), if no crash leaves such a file;
    /// - `DiskFailed` (120), only if the device failed.
    ///
    /// Items are read and then checked, up to 4,096 at a time. So a later text of these that cannot be read comes before an earlier item
    /// that is not valid. `Memory` may come in place of each but `BadWorkers`. After an error nothing more may be asked.
    pub fn read<R: Threads + Sync>(
        &mut self,
        rt: &R,
        program: &P,
        workers: usize,
    ) -> Result<(), OpenFault>
    where
        P: Send + Sync,
        P::State: Send,
        requires { IsUnread D.found self.old }
        ensures same { (self.new.basis ≡ self.old.basis) × (self.new.contents.directory ≡ self.old.contents.directory) }
        ensures whole { OnOk result (IsWhole D.seen D.may_leave self.new) }
        ensures shown { IfErr result (AreShown D.found D.seen self.old.contents.directory self.old.basis self.new.reading) }
        ensures damaged { IsErrOf result OpenFault.Damaged → IsDamaged (D.found self.new.reading.device) (D.seen self.new.reading.device) }
        ensures failed { IsErrOf result OpenFault.DiskFailed → 0 < D.faults self.new.reading.device }
        ensures workers { (result ≡ Err OpenFault.BadWorkers) ↔ ((workers ≡ 0) ⊎ (MOST_WORKERS < workers)) }
    {
        if workers == 0 || workers > MOST_WORKERS {
            return Err(OpenFault::BadWorkers);
        }
        self.is_begun = read_basis(self.alloc, &mut self.reading, &self.basis)?;
        if self.is_begun {
            let checkers = Checkers {
                rt,
                alloc: self.alloc,
                program,
                workers,
            };
            read_items::<R, P, S, D>(&checkers, &mut self.reading, &mut self.store)?;
        }
        Ok(())
    }

    /// Opens the store, and cuts off what a crash left behind the journal's last text. A crash meanwhile leaves the same items. The refusal
    /// gives the device back, and says that it failed or that a growth was refused.
    pub fn finish(self) -> Result<DurableStore<P, S, D>, Refused<D>>
        requires { IsWhole D.seen D.may_leave self }
        ensures opened { IfOk result (λ s. (s.basis ≡ self.basis) × (s.contents ≡ self.contents) × (s.closed ≡ None)) }
        ensures kept { IfOk result (IsKept D.may_leave) }
        ensures any_moment { MatchResult result
            (λ s. LeavesOnly D.moment D.left_since self.reading.device s.device (Keeps self.basis self.contents.items))
            (λ e. LeavesOnly D.moment D.left_since self.reading.device e.device (Keeps self.basis self.contents.items)) }
        ensures failed { IfErr result (λ e. e.fault ≡ DeviceFault.Failed → D.faults self.reading.device < D.faults e.device) }
    {
        let Opening {
            alloc,
            basis,
            reading,
            is_begun,
            store,
            program,
        } = self;
        let texts = reading.finish()?;
        let journal = ItemJournal {
            texts,
            basis,
            is_begun,
        };
        Ok(DurableStore {
            alloc,
            journal,
            store,
            closed: None,
            program,
        })
    }
}
