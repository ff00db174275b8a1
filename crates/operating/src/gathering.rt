//! The evidence of files is a directory, and the items of stores under it.

ghost use Rattle.std.specs.Prelude.{◌≡◌, ◌+◌, ◌<◌, ◌≤◌, ◌^◌, IfErr, IfOk, IfSome, IsSome, List, None, Ok, OnOk, Some, option_map, option_to_list, suc, ℕ};
ghost use Rattle.authenticators.specs.DirectoryText.{directory_of};
ghost use Rattle.evidence_set.specs.Valid.{AreValid};
ghost use Rattle.evidence_set.specs.ItemSets.{count, none};
ghost use Rattle.commands.specs.Adding.{AddsStore};
ghost use Rattle.commands.specs.within.OwnFaults.{IsOwn};
ghost use Rattle.operating.specs.GatheredFiles.{AreGathered, RefusesFiles, RefusesFront, RefusesStore, RefusesText, under};
ghost use Rattle.operating.specs.FileTexts.{IsOfReading, Says, SaysBy, Texts, directory_in, evidence_in, texts_of};
ghost use Rattle.parallel_checking.specs.declared.limits.TheConstants.{MOST_WORKERS};

use crate::files::{Limits, Opener};
use crate::reading::{Front, read_front, read_said};
use crate::refusal::{Far, Refusal};
use crate::watching::{StoreWatcher, Watcher};
use commands::fault::Fault;
use commands::laws::texts_are_added;
use containers::Pending;
use evidence::Evidence;
use evidence_set::laws::sets_are_as_expected;
use parallel_reading::{Workers, import_by};
use replay_verifier::Program;
use std::alloc::Global;
use std::thread::Threads;

/// How stores are read, and under what program their items are checked.
#[derive(Drop)]
pub struct Reading<'a, R, P> {
    /// The runtime, which makes the threads.
    pub rt: &'a R,
    /// The allocator.
    pub alloc: Global,
    /// The program that the nodes must follow.
    pub program: &'a P,
    /// How much is read, and how many workers check it.
    pub limits: Limits,
}

/// The evidence that was read from files.
#[derive(Drop)]
pub struct Gathered<S> {
    /// The directory's encoding.
    pub directory: Vec<u8>,
    /// How many stores there were. A store under the directory in file 0 counts as one of them.
    pub stores: usize,
    /// The first eight bytes of the encoding of the last store, which say what it is; zeros if there was no store.
    pub front: [u8; 8],
    /// The evidence.
    pub store: S,
}

/// Returns the first eight bytes of a text, or zeros if it has fewer.
fn front_of(text: &[u8]) -> [u8; 8] {
    match text.first_chunk() {
        Some(front) => *front,
        None => [0u8; 8],
    }
}

/// Shows that every store's items are valid under its directory, and that their count is below 2^64.
fn items_are_valid<P: Program, S: Evidence<P>>(store: &S)
    ensures valid { AreValid (S.contents store.now).directory (S.contents store.now).items }
    ensures few { count (S.contents store.now).items < 2 ^ 64 }
{
    let _ = store.directory();
    let _ = store.count();
}

/// Notes how far a text was read, and reports this to a watcher.
#[derive(Drop)]
struct Noting<'a, F> {
    watcher: &'a mut F,
    far: Far,
}

impl<'a, F: StoreWatcher> Watcher for Noting<'a, F> {
    fn read(&mut self, items: u64, left: u64) {
        self.far.note(items, left);
        self.watcher.read(items, left);
    }
}

/// Adds the items of a file's text. It frees the text as it reads it.
fn add_text<R: Threads + Sync, P: Program + Send + Sync, S: Evidence<P>, F: StoreWatcher>(
    reading: &Reading<'_, R, P>,
    store: &mut S,
    text: Vec<u8>,
    file: usize,
    watcher: &mut F,
) -> Result<(), Refusal>
where
    P::State: Send,
    requires workers { (0 < reading.now.limits.workers) × (reading.now.limits.workers ≤ MOST_WORKERS) }
    ensures added { OnOk result (AddsStore (S.contents store.old) (S.contents store.new) text.items) }
    ensures refused { IfErr result (λ r. (r.file ≡ Some file) × RefusesText (S.contents store.old).directory text.items r) }
    ensures own { IfErr result (λ r. IsOwn r.fault) }
{
    texts_are_added();
    let workers = Workers {
        rt: reading.rt,
        alloc: reading.alloc,
        count: reading.limits.workers,
    };
    let far = Far::none(&text);
    watcher.begin(file, far.len);
    let mut noting = Noting { watcher, far };
    let mut left = Pending::new(text);
    match import_by(&workers, store, reading.program, &mut left, &mut noting) {
        Ok(_) => {
            items_are_valid::<P, S>(store);
            Ok(())
        }
        Err(fault) => Err(Refusal::of_reading(file, &noting.far, left.rest(), fault)),
    }
}

/// Adds the items of the store that a file says under the directory with this encoding. Returns the first eight bytes of the store's
/// encoding.
fn add_file<
    R: Threads + Sync,
    P: Program + Send + Sync,
    S: Evidence<P>,
    O: Opener,
    F: StoreWatcher,
>(
    reading: &Reading<'_, R, P>,
    directory: &[u8],
    store: &mut S,
    opener: &mut O,
    file: usize,
    watcher: &mut F,
) -> Result<[u8; 8], Refusal>
where
    P::State: Send,
    requires workers { (0 < reading.now.limits.workers) × (reading.now.limits.workers ≤ MOST_WORKERS) }
    requires room { (O.seen opener.old).failures < 2 ^ 63 }
    ensures added { OnOk result ((text : List ℕ) × Says reading.now.limits.most_bytes (Some directory.now) ((O.seen opener.old).files file) text × AddsStore (S.contents store.old) (S.contents store.new) text) }
    ensures refused { IfErr result (λ r. (r.file ≡ Some file) × RefusesStore reading.now.limits.most_bytes (under directory.now (S.contents store.old)) ((O.seen opener.old).files file) r) }
    ensures blamed { IfErr result (λ r. IsOfReading (O.seen opener.old) (O.seen opener.new) r.fault) }
    ensures files { (O.seen opener.new).files ≡ (O.seen opener.old).files }
    ensures quiet { OnOk result ((O.seen opener.new).failures ≡ (O.seen opener.old).failures) }
{
    let text = read_said(reading.alloc, opener, file, Some(directory), reading.limits)?;
    let front = front_of(&text);
    add_text::<R, P, S, F>(reading, store, text, file, watcher)?;
    Ok(front)
}

/// A store without items under the directory that file 0 says, and what stands under the directory there.
#[derive(Drop)]
struct Begun<S> {
    directory: Vec<u8>,
    under: Option<Vec<u8>>,
    store: S,
}

fn begin<P: Program, S: Evidence<P>, O: Opener>(
    alloc: Global,
    opener: &mut O,
    limits: Limits,
) -> Result<Begun<S>, Refusal>
    requires room { (O.seen opener.old).failures < 2 ^ 63 }
    ensures said { IfOk result (λ begun. (t : Texts) × SaysBy limits.most_bytes texts_of ((O.seen opener.old).files 0) t × (begun.directory.items ≡ directory_in t) × (option_to_list (option_map (λ v. v.items) begun.under) ≡ evidence_in t)) }
    ensures empty { IfOk result (λ begun. (directory_of begun.directory.items ≡ Ok (S.contents begun.store).directory) × ((S.contents begun.store).items ≡ none)) }
    ensures refused { IfErr result (λ r. (r.file ≡ Some 0) × RefusesFront limits.most_bytes ((O.seen opener.old).files 0) r) }
    ensures blamed { IfErr result (λ r. IsOfReading (O.seen opener.old) (O.seen opener.new) r.fault) }
    ensures files { (O.seen opener.new).files ≡ (O.seen opener.old).files }
    ensures quiet { OnOk result ((O.seen opener.new).failures ≡ (O.seen opener.old).failures) }
{
    let front = read_front(alloc, opener, limits)?;
    let Front {
        text,
        directory,
        under,
    } = front;
    match S::new(alloc, directory) {
        Ok(store) => Ok(Begun {
            directory: text,
            under,
            store,
        }),
        Err(_) => Err(Refusal::of_file(0, Fault::Memory)),
    }
}

/// Adds what stands under the directory in file 0 to a store without items, if something stands there.
fn add_under<R: Threads + Sync, P: Program + Send + Sync, S: Evidence<P>, F: StoreWatcher>(
    reading: &Reading<'_, R, P>,
    begun: Begun<S>,
    watcher: &mut F,
) -> Result<Gathered<S>, Refusal>
where
    P::State: Send,
    requires workers { (0 < reading.now.limits.workers) × (reading.now.limits.workers ≤ MOST_WORKERS) }
    ensures directory { IfOk result (λ read. read.directory.items ≡ begun.directory.items) }
    ensures alone { begun.under ≡ None → IfOk result (λ read. S.contents read.store ≡ S.contents begun.store) }
    ensures more { IfSome begun.under (λ text. IfOk result (λ read. AddsStore (S.contents begun.store) (S.contents read.store) text.items)) }
    ensures one { IfOk result (λ read. read.stores ≤ 1) }
    ensures refused { IfErr result (λ r. (r.file ≡ Some 0) × IsSome begun.under × IfSome begun.under (λ text. RefusesText (S.contents begun.store).directory text.items r)) }
    ensures own { IfErr result (λ r. IsOwn r.fault) }
{
    let Begun {
        directory,
        under,
        mut store,
    } = begun;
    let Some(text) = under else {
        return Ok(Gathered {
            directory,
            stores: 0,
            front: [0u8; 8],
            store,
        });
    };
    let front = front_of(&text);
    add_text::<R, P, S, F>(reading, &mut store, text, 0, watcher)?;
    Ok(Gathered {
        directory,
        stores: 1,
        front,
        store,
    })
}

/// Returns the evidence of file 0: a directory, and what stands under it there.
fn gather_first<
    R: Threads + Sync,
    P: Program + Send + Sync,
    S: Evidence<P>,
    O: Opener,
    F: StoreWatcher,
>(reading: &Reading<'_, R, P>, opener: &mut O, watcher: &mut F) -> Result<Gathered<S>, Refusal>
where
    P::State: Send,
    requires workers { (0 < reading.now.limits.workers) × (reading.now.limits.workers ≤ MOST_WORKERS) }
    requires room { (O.seen opener.old).failures < 2 ^ 63 }
    ensures gathered { IfOk result (λ read. AreGathered reading.now.limits.most_bytes (O.seen opener.old).files 0 (under read.directory.items (S.contents read.store))) }
    ensures one { IfOk result (λ read. read.stores ≤ 1) }
    ensures refused { IfErr result (λ r. (r.file ≡ Some 0) × RefusesFront reading.now.limits.most_bytes ((O.seen opener.old).files 0) r) }
    ensures blamed { IfErr result (λ r. IsOfReading (O.seen opener.old) (O.seen opener.new) r.fault) }
    ensures files { (O.seen opener.new).files ≡ (O.seen opener.old).files }
    ensures quiet { OnOk result ((O.seen opener.new).failures ≡ (O.seen opener.old).failures) }
{
    sets_are_as_expected();
    let begun: Begun<S> = begin::<P, S, O>(reading.alloc, opener, reading.limits)?;
    let read = add_under::<R, P, S, F>(reading, begun, watcher)?;
    Ok(read)
}

/// Returns the evidence of the directory, which is file 0, and of this many stores, which are the files from 1 on.
fn gather_each<
    R: Threads + Sync,
    P: Program + Send + Sync,
    S: Evidence<P>,
    O: Opener,
    F: StoreWatcher,
>(
    reading: &Reading<'_, R, P>,
    opener: &mut O,
    stores: usize,
    watcher: &mut F,
) -> Result<Gathered<S>, Refusal>
where
    P::State: Send,
    requires workers { (0 < reading.now.limits.workers) × (reading.now.limits.workers ≤ MOST_WORKERS) }
    requires stores { stores < 2 ^ 63 }
    requires room { (O.seen opener.old).failures < 2 ^ 63 }
    ensures gathered { IfOk result (λ read. AreGathered reading.now.limits.most_bytes (O.seen opener.old).files stores (under read.directory.items (S.contents read.store))) }
    ensures refused { IfErr result (λ r. RefusesFiles reading.now.limits.most_bytes (O.seen opener.old).files stores r) }
    ensures blamed { IfErr result (λ r. IsOfReading (O.seen opener.old) (O.seen opener.new) r.fault) }
    ensures quiet { OnOk result ((O.seen opener.new).failures ≡ (O.seen opener.old).failures) }
{
    let read: Gathered<S> = gather_first::<R, P, S, O, F>(reading, opener, watcher)?;
    let Gathered {
        directory,
        stores: own,
        mut front,
        mut store,
    } = read;
    for number in 0..stores {
        front = add_file::<R, P, S, O, F>(
            reading,
            &directory,
            &mut store,
            opener,
            number + 1,
            watcher,
        )?;
    }
    Ok(Gathered {
        directory,
        stores: own + stores,
        front,
        store,
    })
}

/// Returns the same. It reports the end to the watcher, whether the files are refused or not.
pub(crate) fn gather<
    R: Threads + Sync,
    P: Program + Send + Sync,
    S: Evidence<P>,
    O: Opener,
    F: StoreWatcher,
>(
    reading: &Reading<'_, R, P>,
    opener: &mut O,
    stores: usize,
    watcher: &mut F,
) -> Result<Gathered<S>, Refusal>
where
    P::State: Send,
    requires workers { (0 < reading.now.limits.workers) × (reading.now.limits.workers ≤ MOST_WORKERS) }
    requires stores { stores < 2 ^ 63 }
    requires room { (O.seen opener.old).failures < 2 ^ 63 }
    ensures gathered { IfOk result (λ read. AreGathered reading.now.limits.most_bytes (O.seen opener.old).files stores (under read.directory.items (S.contents read.store))) }
    ensures refused { IfErr result (λ r. RefusesFiles reading.now.limits.most_bytes (O.seen opener.old).files stores r) }
    ensures blamed { IfErr result (λ r. IsOfReading (O.seen opener.old) (O.seen opener.new) r.fault) }
    ensures quiet { OnOk result ((O.seen opener.new).failures ≡ (O.seen opener.old).failures) }
{
    let read = gather_each::<R, P, S, O, F>(reading, opener, stores, watcher);
    watcher.end();
    read
}
