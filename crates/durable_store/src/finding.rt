//! What stands in a journal: its basis, and behind it items, some at a time.

ghost use Rattle.std.specs.Prelude.{◌≡◌, ◌⊎◌, ◌↔◌, ◌+◌, ◌<◌, ◌^◌, ◌++◌, [], ◌∷◌, List, ℕ, true, false, length, None, Ok, IfErr, IfOk, IfSome, IsErrOf, IsTrue};
ghost use Rattle.authenticators.specs.Directory.{Listing};
ghost use Rattle.journal.specs.Journal.{recovered, texts_of};
ghost use Rattle.journal.specs.Reading.{IsDamaged, IsReading};
ghost use Rattle.item_forms.specs.Pieces.{Piece};
ghost use Rattle.item_forms.specs.Spelling.{spelling};
ghost use Rattle.durable_store.specs.Keeping.{spellings};
ghost use Rattle.durable_store.specs.within.Findings.{AreReached, IsBegun};
ghost use Rattle.durable_store.specs.Opening.{AreShown};

use crate::fault::OpenFault;
use evidence_item::{DecodeFault, Item};
use journal::{Device, Reading};
use std::alloc::Global;

/// The largest number of items that are read before they are checked.
const MOST_AT_ONCE: usize = 4096;

/// Items of a journal, and whether they are its last.
#[derive(Drop)]
pub(crate) struct Batch {
    pub(crate) items: Vec<Item>,
    pub(crate) is_last: bool,
}

/// Reads the next text. Returns `None` if there is no more.
fn next_text<D: Device>(
    alloc: Global,
    reading: &mut Reading<D>,
) -> Result<Option<Vec<u8>>, OpenFault>
    requires { IsReading D.found reading.old }

    ensures text { IfOk result (λ next. IfSome next (λ text. AreReached D.found D.seen D.may_leave false (recovered (D.found reading.old.device) ++ text.items ∷ []) reading.new)) }
    ensures grows { IfOk result (λ next. IfSome next (λ _. reading.old.end < reading.new.end)) }
    ensures end { result ≡ Ok None → AreReached D.found D.seen D.may_leave true (recovered (D.found reading.old.device)) reading.new }
    ensures shown { IfErr result (λ e. (ds : Listing) (basis : List (List ℕ)) → AreShown D.found D.seen ds basis reading.new e) }
    ensures damaged { IsErrOf result OpenFault.Damaged → IsDamaged (D.found reading.new.device) (D.seen reading.new.device) }
    ensures failed { IsErrOf result OpenFault.DiskFailed → 0 < D.faults reading.new.device }
    ensures workers { IsErrOf result OpenFault.BadWorkers → ⊥ }
{
    match reading.next(alloc) {
        Ok(next) => Ok(next),
        Err(journal::OpenFault::Memory) => Err(OpenFault::Memory),
        Err(journal::OpenFault::Failed) => Err(OpenFault::DiskFailed),
        Err(journal::OpenFault::Damaged) => Err(OpenFault::Damaged),
    }
}

/// Returns whether two texts are equal.
fn is_same(text: &[u8], other: &[u8]) -> bool
    ensures { IsTrue result ↔ (text.now ≡ other.now) }
{
    text == other
}

/// Returns whether the journal is begun: `true` if it begins with the basis, `false` if it has no text. Reports `OtherProgram` or
/// `OtherDirectory` if it begins otherwise.
pub(crate) fn read_basis<D: Device>(
    alloc: Global,
    reading: &mut Reading<D>,
    basis: &[Vec<u8>],
) -> Result<bool, OpenFault>
    requires reading { IsReading D.found reading.old }
    requires nothing { D.found reading.old.device ≡ [] }
    requires two { length basis.now ≡ 2 }

    ensures begun { IfOk result (IsBegun D.found D.seen D.may_leave (texts_of basis.now) reading.new) }
    ensures shown { IfErr result (λ e. (ds : Listing) → AreShown D.found D.seen ds (texts_of basis.now) reading.new e) }
    ensures damaged { IsErrOf result OpenFault.Damaged → IsDamaged (D.found reading.new.device) (D.seen reading.new.device) }
    ensures failed { IsErrOf result OpenFault.DiskFailed → 0 < D.faults reading.new.device }
    ensures workers { IsErrOf result OpenFault.BadWorkers → ⊥ }
{
    let Some(first) = next_text(alloc, reading)? else {
        return Ok(false);
    };
    if !is_same(&first, &basis[0]) {
        return Err(OpenFault::OtherProgram);
    }
    let Some(second) = next_text(alloc, reading)? else {
        return Err(OpenFault::OtherDirectory);
    };
    if !is_same(&second, &basis[1]) {
        return Err(OpenFault::OtherDirectory);
    }
    Ok(true)
}

/// Reads the item of a text, which stands at this place.
fn item_of(alloc: Global, text: &[u8], place: u64) -> Result<Item, OpenFault>
    ensures item { IfOk result (λ item. text.now ≡ spelling item.fields) }
    ensures none { IfErr result (λ e. (e ≡ OpenFault.Memory) ⊎ ((e ≡ OpenFault.BadItem place) × ((x : Piece) → text.now ≡ spelling x.fields → ⊥))) }
{
    match Item::decode(alloc, text) {
        Ok(item) => Ok(item),
        Err(DecodeFault::Memory) => Err(OpenFault::Memory),
        Err(_) => Err(OpenFault::BadItem(place)),
    }
}

/// Reads the item of the next text, which stands at this place. Returns `None` if there is no more text.
fn next_item<D: Device>(
    alloc: Global,
    reading: &mut Reading<D>,
    place: u64,
) -> Result<Option<Item>, OpenFault>
    requires { IsReading D.found reading.old × (1 < place) × (place ≡ length (recovered (D.found reading.old.device))) }

    ensures item { IfOk result (λ next. IfSome next (λ item. AreReached D.found D.seen D.may_leave false (recovered (D.found reading.old.device) ++ spelling item.fields ∷ []) reading.new)) }
    ensures grows { IfOk result (λ next. IfSome next (λ _. reading.old.end < reading.new.end)) }
    ensures end { result ≡ Ok None → AreReached D.found D.seen D.may_leave true (recovered (D.found reading.old.device)) reading.new }
    ensures shown { IfErr result (λ e. (ds : Listing) (basis : List (List ℕ)) → AreShown D.found D.seen ds basis reading.new e) }
    ensures damaged { IsErrOf result OpenFault.Damaged → IsDamaged (D.found reading.new.device) (D.seen reading.new.device) }
    ensures failed { IsErrOf result OpenFault.DiskFailed → 0 < D.faults reading.new.device }
    ensures workers { IsErrOf result OpenFault.BadWorkers → ⊥ }
{
    let Some(text) = next_text(alloc, reading)? else {
        return Ok(None);
    };
    match item_of(alloc, &text, place) {
        Ok(item) => Ok(Some(item)),
        Err(fault) => Err(fault),
    }
}

/// Reads the items of the next texts, as many as are checked at once. The first text stands at this place.
pub(crate) fn next_items<D: Device>(
    alloc: Global,
    reading: &mut Reading<D>,
    before: u64,
) -> Result<Batch, OpenFault>
    requires { IsReading D.found reading.old × (1 < before) × (before ≡ length (recovered (D.found reading.old.device))) }

    ensures on { IfOk result (λ batch. AreReached D.found D.seen D.may_leave batch.is_last (recovered (D.found reading.old.device) ++ spellings batch.items.items) reading.new) }
    ensures grows { IfOk result (λ batch. batch.is_last ≡ false → reading.old.end < reading.new.end) }
    ensures place { IfOk result (λ batch. before + length batch.items.items < 2 ^ 64) }
    ensures shown { IfErr result (λ e. (ds : Listing) (basis : List (List ℕ)) → AreShown D.found D.seen ds basis reading.new e) }
    ensures damaged { IsErrOf result OpenFault.Damaged → IsDamaged (D.found reading.new.device) (D.seen reading.new.device) }
    ensures failed { IsErrOf result OpenFault.DiskFailed → 0 < D.faults reading.new.device }
    ensures workers { IsErrOf result OpenFault.BadWorkers → ⊥ }
{
    let mut items = Vec::with_capacity(alloc, MOST_AT_ONCE)?;
    for n in 0..MOST_AT_ONCE {
        let Some(item) = next_item(alloc, reading, before + n as u64)? else {
            return Ok(Batch {
                items,
                is_last: true,
            });
        };
        items.push_reserved(item);
    }
    Ok(Batch {
        items,
        is_last: false,
    })
}
