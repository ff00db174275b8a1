//! Lists of a bounded length.

ghost use Rattle.std.specs.Prelude.{◌≡◌, ◌<◌, ◌≤◌, [], ◌∷◌, ◌++◌, IfOk, filter, length, nat_le};
ghost use Rattle.std.specs.List.{flat_map};
ghost use Rattle.std.proofs.Common.{rules};
ghost use Rattle.outcome.specs.Outcome.{Took};
ghost use Rattle.log_chain.specs.Fields.{IsListUpTo, parts_at};
ghost use Rattle.state_codec.specs.declared.fault.CodeFault.TheVariants.{Memory};
ghost use Rattle.state_codec.specs.Codings.{Wrote, list_coding};
ghost use Rattle.state_codec.specs.CodingLaws.{list_lawful};

use crate::coded::Coded;
use crate::fault::CodeFault;
use crate::keeps::Keeps;
use log_chain::{FieldReader, FieldWriter};
use outcome::Memory;
use std::alloc::Global;
use std::marker::Model;

/// A list of at most `MOST` items. Its text is their count in four bytes, and the text of each item. A contract sees the list of them.
#[derive(Debug, Drop)]
pub struct Listed<T, const MOST: u32> {
    items: Vec<T>,
}

impl<T, const MOST: u32> Model for Listed<T, MOST> {
    ghost use Rattle.std.specs.Prelude.{◌≤◌, List, length};
    ghost use Rattle.std.specs.Coded.{coded_list};

    ghost Value = { List T };

    ghost coded = { coded_list T.code };

    ghost view = { λ l. l.items.items };

    ghost invariant = { λ l. length l.items.items ≤ MOST };
}

impl<T, const MOST: u32> Listed<T, MOST> {
    /// Makes a list of no items. It takes no memory.
    pub fn new(alloc: Global) -> Listed<T, MOST>
        ensures { result ≡ [] }
    {
        Listed {
            items: Vec::new(alloc),
        }
    }

    /// Returns whether the list has `MOST` items, and so no room for more.
    pub fn is_full(&self) -> bool
        ensures { result ≡ nat_le MOST (length self.now) }
    {
        self.items.len() >= MOST as usize
    }

    /// Returns the items.
    pub fn as_slice(&self) -> &[T]
        ensures { result.now ≡ self.now }
    {
        self.items.as_slice()
    }
}

impl<T: Coded, const MOST: u32> Listed<T, MOST> {
    /// Makes a copy with one item more at its end. Returns `Memory` if memory runs out.
    pub fn with(&self, alloc: Global, item: T) -> Result<Listed<T, MOST>, Memory>
        requires { length self.now < MOST }
        ensures { IfOk result (λ l. l ≡ self.now ++ item ∷ []) }
    {
        let mut items = copies(alloc, self.items.as_slice())?;
        items.push(item)?;
        Ok(Listed { items })
    }

    /// Copies the items that the test keeps, in their order. Returns `Memory` if memory runs out.
    pub fn kept<K: Keeps<T>>(&self, alloc: Global, test: &K) -> Result<Listed<T, MOST>, Memory>
        ensures { IfOk result (λ l. l ≡ filter (K.keeps test.now) self.now) }
    {
        let items = copies_kept(alloc, self.items.as_slice(), test)?;
        Ok(Listed { items })
    }
}

/// Copies each item, in order.
fn copies<T: Coded>(alloc: Global, items: &[T]) -> Result<Vec<T>, Memory>
    ensures { IfOk result (λ v. v.items ≡ items.now) }
{
    let mut copies = Vec::with_capacity(alloc, items.len())?;
    for item in items {
        copies.push(item.try_clone(alloc)?)?;
    }
    Ok(copies)
}

/// Copies each item that the test keeps, in order.
fn copies_kept<T: Coded, K: Keeps<T>>(
    alloc: Global,
    items: &[T],
    test: &K,
) -> Result<Vec<T>, Memory>
    ensures items { IfOk result (λ v. v.items ≡ filter (K.keeps test.now) items.now) }
    ensures few { IfOk result (λ v. length v.items ≤ length items.now) }
{
    let mut kept = Vec::new(alloc);
    for item in items {
        if test.keeps(item) {
            kept.push(item.try_clone(alloc)?)?;
        }
    }
    Ok(kept)
}

/// Writes each item after the one before.
fn write_each<T: Coded>(writer: &mut FieldWriter, items: &[T]) -> Result<(), Memory>
    ensures { Wrote result writer.old writer.new (flat_map T.coding.text items.now) }
{
    for item in items {
        item.write(writer)?;
    }
    Ok(())
}

/// Reads `count` items.
fn read_each<T: Coded>(
    alloc: Global,
    count: u32,
    reader: &mut FieldReader,
) -> Result<Vec<T>, CodeFault>
    ensures items { Took CodeFault.Memory (λ v. v.items) result reader.new (parts_at T.coding.at count reader.old) }
    ensures count { IfOk result (λ v. length v.items ≡ count) }
{
    let mut items = Vec::new(alloc);
    for _ in 0..count {
        let item = T::read(alloc, reader)?;
        items.push(item)?;
    }
    Ok(items)
}

impl<T: Coded, const MOST: u32> Coded for Listed<T, MOST> {
    ghost coding = { list_coding MOST T.coding };

    ghost fits = { IsListUpTo MOST T.fits };

    #[tactic(auto, unfolding(crate::specs::Codings::list_text))]
    fn write(&self, writer: &mut FieldWriter) -> Result<(), Memory> {
        writer.u32(self.items.len() as u32)?;
        write_each(writer, self.items.as_slice())?;
        Ok(())
    }

    fn try_clone(&self, alloc: Global) -> Result<Listed<T, MOST>, Memory> {
        Ok(Listed {
            items: copies(alloc, self.items.as_slice())?,
        })
    }

    #[tactic(auto, unfolding(log_chain::specs::Fields::counted_at))]
    fn read(alloc: Global, reader: &mut FieldReader) -> Result<Listed<T, MOST>, CodeFault> {
        let count = reader.u32()?;
        if count > MOST {
            return Err(CodeFault::TooLong);
        }
        let items = read_each(alloc, count, reader)?;
        Ok(Listed { items })
    }

    ghost lawful = { list_lawful MOST (Prim.search rules) T.lawful };
}
