//! Readings of a container by several workers.

ghost use Rattle.std.specs.Prelude.{◌≡◌, ◌+◌, ◌<◌, ◌≤◌, [], IfErr, IfOk, MatchOption, OnErr, OnOk, Err, Ok, drop, length, take, List, ℕ, suc};
ghost use Rattle.std.specs.List.{All};
ghost use Rattle.evidence_item.specs.Checking.{IsChecked};
ghost use Rattle.containers.specs.declared.fault.Cause.TheVariants as cause;
ghost use Rattle.containers.specs.CheckedItems.{checked_of, fields_of};
ghost use Rattle.containers.specs.Container.{import_of};
ghost use Rattle.containers.specs.Feeding.{AreItems};
ghost use Rattle.containers.specs.Refusals.{IsBehindFront, Refuses};
ghost use Rattle.parallel_checking.specs.declared.limits.TheConstants.{MOST_WORKERS};
ghost use Rattle.containers.specs.Rest.{rest_of};
ghost use Rattle.parallel_reading.specs.within.Texts.{IsBegun, StandsBefore, still_of};

use crate::batch::{keep_all, read_texts};
use crate::item::read_item;
use crate::texts::next_texts;
use crate::watching::Watcher;
use crate::workers::{Checkers, Workers};
use authenticators::Directory;
use containers::{Cause, ImportFault, Pending, next_text, read_count, read_end};
use evidence_item::Checked;
use log_chain::FieldReader;
use replay_verifier::Program;
use std::alloc::Global;
use std::thread::Threads;

/// Reads the first item.
fn read_first<'a, P: Program>(
    alloc: Global,
    program: &P,
    directory: &Directory,
    reader: &mut FieldReader<'a>,
    items: &mut Vec<Checked<P>>,
) -> Result<&'a [u8], ImportFault>
    requires none { items.old.items ≡ [] }
    ensures on { IfOk result (λ text. (n : ℕ) → rest_of (checked_of directory.now) (suc n) [] [] reader.old ≡ rest_of (checked_of directory.now) n text.now (fields_of items.new.items) reader.new) }
    ensures stands { IfOk result (λ text. StandsBefore text.now reader.new reader.old) }
    ensures some { OnOk result (length items.new.items ≡ 1) }
    ensures checked { OnOk result (All (IsChecked directory.now P.means) items.new.items) }
    ensures refused { IfErr result (λ f. (n : ℕ) → Refuses f (rest_of (checked_of directory.now) (suc n) [] [] reader.old)) }
    ensures memory { IfErr result (λ f. f.cause ≡ cause.Memory → (n : ℕ) → IsBehindFront (rest_of (checked_of directory.now) (suc n) [] [] reader.old)) }
{
    let text = next_text(reader, 0)?;
    let item = match read_item(alloc, program, directory, &[], text) {
        Ok(item) => item,
        Err(cause) => return Err(ImportFault { item: 0, cause }),
    };
    match items.push(item) {
        Ok(()) => Ok(text),
        Err(_) => Err(ImportFault {
            item: 0,
            cause: Cause::Memory,
        }),
    }
}

/// Reads the next items. It returns the last one's text, and how many items are left.
fn read_some<'a, R: Threads + Sync, P: Program + Send + Sync>(
    checkers: &Checkers<'_, R, P>,
    reader: &mut FieldReader<'a>,
    items: &mut Vec<Checked<P>>,
    last: &'a [u8],
    left: u64,
) -> Result<(&'a [u8], u64), ImportFault>
where
    P::State: Send,
    requires workers { (0 < checkers.now.workers.now.count) × (checkers.now.workers.now.count ≤ MOST_WORKERS) }
    requires left { 0 < left }
    ensures on { IfOk result (λ x. rest_of (checked_of checkers.now.directory.now) left last.now (fields_of items.old.items) reader.old ≡ rest_of (checked_of checkers.now.directory.now) x.1 x.0.now (fields_of items.new.items) reader.new) }
    ensures stands { IfOk result (λ x. StandsBefore x.0.now reader.new reader.old) }
    ensures falls { IfOk result (λ x. x.1 < left) }
    ensures checked { OnOk result (All (IsChecked checkers.now.directory.now P.means) items.old.items → All (IsChecked checkers.now.directory.now P.means) items.new.items) }
    ensures refused { IfErr result (λ f. Refuses f (rest_of (checked_of checkers.now.directory.now) left last.now (fields_of items.old.items) reader.old)) }
{
    let number = items.len() as u64;
    let texts = next_texts(checkers.workers.alloc, reader, last, left, number)?;
    let readings = match read_texts(
        checkers.workers,
        checkers.program,
        checkers.directory,
        &texts,
    ) {
        Ok(readings) => readings,
        Err(_) => {
            return Err(ImportFault {
                item: number,
                cause: Cause::Memory,
            });
        }
    };
    keep_all(items, readings)?;
    let read = texts.len() - 1;
    Ok((texts[read], left - read as u64))
}

/// How far a text is read.
#[derive(Clone, Copy, Debug)]
struct Reached {
    /// How many bytes stand in front of the text of the last item that was read.
    passed: usize,
    /// How many bytes that text has.
    last: usize,
    /// How many items are left behind it.
    left: u64,
}

/// Reads the next items from bytes that begin with the text of the last item. That text has `last` bytes.
fn read_behind<R: Threads + Sync, P: Program + Send + Sync>(
    checkers: &Checkers<'_, R, P>,
    bytes: &[u8],
    items: &mut Vec<Checked<P>>,
    last: usize,
    left: u64,
) -> Result<Reached, ImportFault>
where
    P::State: Send,
    requires workers { (0 < checkers.now.workers.now.count) × (checkers.now.workers.now.count ≤ MOST_WORKERS) }
    requires last { last ≤ length bytes.now }
    requires left { 0 < left }
    ensures inside { IfOk result (λ r. r.passed + r.last ≤ length bytes.now) }
    ensures on { IfOk result (λ r. still_of (checked_of checkers.now.directory.now) left last (fields_of items.old.items) bytes.now ≡ still_of (checked_of checkers.now.directory.now) r.left r.last (fields_of items.new.items) (drop r.passed bytes.now)) }
    ensures falls { IfOk result (λ r. r.left < left) }
    ensures checked { OnOk result (All (IsChecked checkers.now.directory.now P.means) items.old.items → All (IsChecked checkers.now.directory.now P.means) items.new.items) }
    ensures refused { IfErr result (λ f. Refuses f (still_of (checked_of checkers.now.directory.now) left last (fields_of items.old.items) bytes.now)) }
{
    let (last, rest) = bytes.split_at(last);
    let mut reader = FieldReader::new(rest);
    let (text, left) = read_some(checkers, &mut reader, items, last, left)?;
    Ok(Reached {
        passed: bytes.len() - reader.left() - text.len(),
        last: text.len(),
        left,
    })
}

/// Reads the items that are left, behind those that were read. Memory of what was read is freed, up to the last item's text.
fn read_rest<R: Threads + Sync, P: Program + Send + Sync, W: Watcher>(
    checkers: &Checkers<'_, R, P>,
    text: &mut Pending,
    mut items: Vec<Checked<P>>,
    mut last: usize,
    mut left: u64,
    watcher: &mut W,
) -> Result<Vec<Checked<P>>, ImportFault>
where
    P::State: Send,
    requires workers { (0 < checkers.now.workers.now.count) × (checkers.now.workers.now.count ≤ MOST_WORKERS) }
    requires last { last ≤ length text.old }
    requires checked { All (IsChecked checkers.now.directory.now P.means) items.items }
    ensures items { IfOk result (λ v. AreItems checkers.now.directory.now P.means (still_of (checked_of checkers.now.directory.now) left last (fields_of items.items) text.old) v.items) }
    ensures refused { IfErr result (λ f. Refuses f (still_of (checked_of checkers.now.directory.now) left last (fields_of items.items) text.old)) }
{
    watcher.read(items.len() as u64, (text.rest().len() - last) as u64);
    while left > 0 {
        let reached = read_behind(checkers, text.rest(), &mut items, last, left)?;
        text.skip(reached.passed);
        last = reached.last;
        left = reached.left;
        watcher.read(items.len() as u64, (text.rest().len() - last) as u64);
    }
    let reader = FieldReader::new(&text.rest()[last..]);
    read_end(&reader, items.len() as u64)?;
    Ok(items)
}

/// Reads the header, and the first item if there is one.
fn read_front<P: Program>(
    alloc: Global,
    program: &P,
    directory: &Directory,
    magic: &[u8; 8],
    bytes: &[u8],
    items: &mut Vec<Checked<P>>,
) -> Result<Option<Reached>, ImportFault>
    requires none { items.old.items ≡ [] }
    ensures front { IfOk result (λ o. MatchOption o ((import_of magic.now (checked_of directory.now) bytes.now ≡ Ok []) × (items.new.items ≡ [])) (λ r. IsBegun (checked_of directory.now) magic.now bytes.now (fields_of items.new.items) r.passed r.last r.left)) }
    ensures checked { OnOk result (All (IsChecked directory.now P.means) items.new.items) }
    ensures refused { IfErr result (λ f. Refuses f (import_of magic.now (checked_of directory.now) bytes.now)) }
    ensures memory { IfErr result (λ f. f.cause ≡ cause.Memory → IsBehindFront (import_of magic.now (checked_of directory.now) bytes.now)) }
{
    let mut reader = FieldReader::new(bytes);
    let count = read_count(&mut reader, magic)?;
    if count == 0 {
        read_end(&reader, 0)?;
        return Ok(None);
    }
    let text = read_first(alloc, program, directory, &mut reader, items)?;
    Ok(Some(Reached {
        passed: bytes.len() - reader.left() - text.len(),
        last: text.len(),
        left: count - 1,
    }))
}

/// Reads the items of a text that is all there, and checks each, by workers. It returns what `containers::read_all` returns, whichever
/// worker read which item. Memory of the text is freed as it is read, so text and items are never in memory together.
///
/// The call reports the first fault in the order of the text. Of the header and of each item it reports the first of these that applies:
///
/// - `Truncated` (40) or `BadMagic` (60), in the header;
/// - `Truncated`, of an item's length;
/// - `TooLong` (42), of an item's length;
/// - `Truncated`, of an item's bytes;
/// - the item's own fault of reading (40 to 43);
/// - `NotAscending` (61);
/// - the item's fault of checking (44 to 49).
///
/// `Trailing` (43) comes last, at the count of the items, if bytes follow them. `Memory` may come in place of any of these or of the
/// answer, with one exception: the call reports what is wrong with the header or with the first item's text whether there is memory or not.
///
/// The watcher is called once the first item is read. It is called again each time that workers have read the items that they were given at
/// once. If the call is refused, what is left of the text begins with the text of the last item that was read when the watcher was last
/// called. It is the whole text if the watcher was not called.
///
/// Beside the text and the items, the call takes memory for the items that the workers are given at once. They are at most 4,096.
/// Their texts have less than four mebibytes, but for the last one.
pub fn read_all_by<R: Threads + Sync, P: Program + Send + Sync, W: Watcher>(
    workers: &Workers<'_, R>,
    program: &P,
    directory: &Directory,
    magic: [u8; 8],
    text: &mut Pending,
    watcher: &mut W,
) -> Result<Vec<Checked<P>>, ImportFault>
where
    P::State: Send,
    requires workers { (0 < workers.now.count) × (workers.now.count ≤ MOST_WORKERS) }
    ensures items { IfOk result (λ items. AreItems directory.now P.means (import_of magic (checked_of directory.now) text.old) items.items) }
    ensures refused { IfErr result (λ f. Refuses f (import_of magic (checked_of directory.now) text.old)) }
    ensures memory { IfErr result (λ f. f.cause ≡ cause.Memory → IsBehindFront (import_of magic (checked_of directory.now) text.old)) }
{
    let mut items = Vec::new(workers.alloc);
    let front = read_front(
        workers.alloc,
        program,
        directory,
        &magic,
        text.rest(),
        &mut items,
    )?;
    let Some(reached) = front else {
        return Ok(items);
    };
    text.skip(reached.passed);
    let checkers = Checkers {
        workers,
        program,
        directory,
    };
    read_rest(&checkers, text, items, reached.last, reached.left, watcher)
}
