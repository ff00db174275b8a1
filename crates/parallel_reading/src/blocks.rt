//! Blocks of neighbouring texts. The signatures of their items are verified together.

ghost use Rattle.std.specs.Prelude.{◌≡◌, ◌<◌, ◌++◌, ◌∷◌, ◌-◌, [], IfOk, IfSome, OnErr, OnOk, length, map};
ghost use Rattle.std.specs.List.{All};
ghost use Rattle.outcome.specs.Outcome.{Gives};
ghost use Rattle.evidence_item.specs.Checking.{IsChecked};
ghost use Rattle.evidence_item.specs.Examining.{IsExamined};
ghost use Rattle.containers.specs.declared.fault.Cause.TheVariants as cause;
ghost use Rattle.parallel_checking.specs.Parts.{AreKnown};
ghost use Rattle.parallel_reading.specs.Readings.{AreReadings};
ghost use Rattle.parallel_reading.specs.within.Blocks.{AreBlocks, AreCheckedAs, AreDecoded, AreRead, IsDecoded, valid_of};

use crate::item::read_item;
use authenticators::Directory;
use containers::Cause;
use evidence_item::{Checked, Examined, Item, check_examined, check_item};
use outcome::Memory;
use parallel_checking::examine_some;
use replay_verifier::Program;
use std::alloc::Global;

/// What a text is read as, behind the text before it.
pub(crate) type Reading<P> = Result<Checked<P>, Cause>;

/// Cuts the texts into blocks of so many items. Each block begins with the text before its first item's.
pub(crate) fn blocks_of<'a>(
    alloc: Global,
    texts: &'a [&'a [u8]],
    size: usize,
) -> Result<Vec<&'a [&'a [u8]]>, Memory>
    requires size { 0 < size }
    requires some { 0 < length texts.now }
    ensures blocks { IfOk result (λ v. AreBlocks texts.now 0 (length texts.now - 1) v.items) }
    ensures each { IfOk result (λ v. All (λ b. 0 < length b.now) v.items) }
{
    let mut all = Vec::new(alloc);
    let last = texts.len() - 1;
    let mut start = 0;
    while start < last {
        let end = start + size.min(last - start);
        all.push(&texts[start..end + 1])?;
        start = end;
    }
    Ok(all)
}

/// Returns the item of a text that follows the text `last`. It returns `None` if the text is no item, if it is out of place, or if memory
/// is refused.
fn decode_next(alloc: Global, last: &[u8], text: &[u8]) -> Option<Item>
    ensures { IfSome result (λ i. IsDecoded last.now text.now i) }
{
    let Ok(item) = Item::decode(alloc, text) else {
        return None;
    };
    if !last.cmp(text).is_lt() {
        return None;
    }
    Some(item)
}

/// Adds one item.
fn keep_item(items: &mut Vec<Item>, item: Item) -> Result<(), Memory>
    ensures kept { OnOk result (items.new.items ≡ items.old.items ++ item ∷ []) }
    ensures refused { OnErr result (items.new.items ≡ items.old.items) }
{
    items.push(item)?;
    Ok(())
}

/// Returns the items of the first texts behind the first one, as far as each is an item, in its place, and there is memory.
fn decode_front(alloc: Global, texts: &[&[u8]]) -> Vec<Item>
    requires { 0 < length texts.now }
    ensures { AreDecoded (map (λ t. t.now) texts.now) result.items }
{
    let mut items = Vec::new(alloc);
    while items.len() + 1 < texts.len() {
        let at = items.len();
        let Some(item) = decode_next(alloc, texts[at], texts[at + 1]) else {
            return items;
        };
        let Ok(()) = keep_item(&mut items, item) else {
            return items;
        };
    }
    items
}

/// Checks an item of which something may be known.
fn check_known<P: Program>(
    alloc: Global,
    program: &P,
    directory: &Directory,
    item: Item,
    examined: Option<&Examined>,
) -> Reading<P>
    requires { IfSome examined (λ e. IsExamined directory.now item.fields e.now) }
    ensures exact { Gives cause.Memory (λ c. c.item.fields) result (valid_of directory.now item.fields) }
    ensures checked { IfOk result (λ c. IsChecked directory.now P.means c) }
{
    let checked = match examined {
        None => check_item(alloc, program, directory, item)?,
        Some(examined) => check_examined(alloc, program, directory, item, *examined)?,
    };
    Ok(checked)
}

/// Checks the items in order. Something may be known of each.
fn check_front<P: Program>(
    alloc: Global,
    program: &P,
    directory: &Directory,
    items: Vec<Item>,
    examined: &[Examined],
) -> Result<Vec<Reading<P>>, Memory>
    requires { AreKnown directory.now items.items examined.now }
    ensures { IfOk result (λ v. AreCheckedAs directory.now P.means (length items.items) items.items v.items) }
{
    let mut readings = Vec::new(alloc);
    for item in items {
        let known = examined.get(readings.len());
        readings.push(check_known(alloc, program, directory, item, known))?;
    }
    Ok(readings)
}

/// Reads the items of the texts that are left, one by one.
fn read_others<P: Program>(
    alloc: Global,
    program: &P,
    directory: &Directory,
    texts: &[&[u8]],
    readings: &mut Vec<Reading<P>>,
) -> Result<(), Memory>
    requires read { AreRead directory.now P.means (map (λ t. t.now) texts.now) (length readings.old.items) readings.old.items }
    requires within { length readings.old.items < length texts.now }
    ensures { OnOk result (AreReadings directory.now P.means (map (λ t. t.now) texts.now) readings.new.items) }
{
    while readings.len() + 1 < texts.len() {
        let at = readings.len();
        readings.push(read_item(alloc, program, directory, texts[at], texts[at + 1]))?;
    }
    Ok(())
}

/// Reads each text of a block but the first, behind the one before it. The signatures of items that are no segments are verified together.
pub(crate) fn read_block<P: Program>(
    alloc: Global,
    program: &P,
    directory: &Directory,
    texts: &[&[u8]],
) -> Result<Vec<Reading<P>>, Memory>
    requires { 0 < length texts.now }
    ensures { IfOk result (λ v. AreReadings directory.now P.means (map (λ t. t.now) texts.now) v.items) }
{
    let items = decode_front(alloc, texts);
    let examined = examine_some(alloc, directory, &items);
    let mut readings = check_front(alloc, program, directory, items, &examined)?;
    read_others(alloc, program, directory, texts, &mut readings)?;
    Ok(readings)
}
