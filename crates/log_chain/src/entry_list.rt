//! Lists of entries.

ghost use Rattle.std.specs.Prelude.{◌≡◌, ◌↔◌, [], IfOk, IsTrue, length};
ghost use Rattle.std.proofs.Common.{rules};
ghost use Rattle.std.specs.Cmp.Lexicographic.{pointwise};
ghost use Rattle.std.specs.Cmp.Rules.{comparing};
ghost use Rattle.log_chain.specs.contracts.entry.EntryEq.TheImpl.Laws.{laws-law as entry_equiv};
ghost use Rattle.log_chain.specs.contracts.entry.EntryPartialEq.TheImpl.Laws.{laws-law as entry_laws};

use crate::entry::Entry;
use outcome::Memory;
use std::alloc::Global;
use std::marker::Model;

/// Entries in order. A contract sees the list of them.
#[derive(Debug, Drop)]
pub struct EntryList {
    entries: Vec<Entry>,
}

impl Model for EntryList {
    ghost use Rattle.std.specs.Prelude.{List};
    ghost use Rattle.log_chain.specs.declared.entry.Entry.{Entry};

    ghost Value = { List Entry };

    ghost view = { λ l. l.entries.items };
}

impl EntryList {
    /// Makes a list of the vector's entries. It takes no memory.
    pub fn from_vec(entries: Vec<Entry>) -> EntryList
        ensures { result ≡ entries.items }
    {
        EntryList { entries }
    }

    /// Returns the entries as a vector. It takes no memory.
    pub fn into_vec(self) -> Vec<Entry>
        ensures { result.items ≡ self }
    {
        self.entries
    }

    /// Returns the entries.
    pub fn as_slice(&self) -> &[Entry]
        ensures { result.now ≡ self.now }
    {
        self.entries.as_slice()
    }

    /// Returns how many entries there are.
    pub fn len(&self) -> usize
        ensures { result ≡ length self.now }
    {
        self.entries.len()
    }

    /// Returns whether there is no entry.
    pub fn is_empty(&self) -> bool
        ensures { IsTrue result ↔ (self.now ≡ []) }
    {
        self.entries.is_empty()
    }

    /// Copies the entries into a list. Returns `Memory` if memory runs out.
    pub fn from_slice(alloc: Global, entries: &[Entry]) -> Result<EntryList, Memory>
        ensures { IfOk result (λ l. l ≡ entries.now) }
    {
        let entries = copies(alloc, entries)?;
        Ok(EntryList { entries })
    }

    /// Copies the list. Returns `Memory` if memory runs out.
    pub fn try_clone(&self, alloc: Global) -> Result<EntryList, Memory>
        ensures { IfOk result (λ l. l ≡ self.now) }
    {
        EntryList::from_slice(alloc, self.as_slice())
    }
}

/// Copies each entry, in order.
fn copies(alloc: Global, entries: &[Entry]) -> Result<Vec<Entry>, Memory>
    ensures { IfOk result (λ v. v.items ≡ entries.now) }
{
    let mut copied = Vec::with_capacity(alloc, entries.len())?;
    for entry in entries {
        copied.push(entry.try_clone(alloc)?)?;
    }
    Ok(copied)
}

impl PartialEq for EntryList {
    ghost eq = { pointwise ⟦<Entry as PartialEq>⟧.eq };

    ghost laws = { Prim.search (comparing, rules, entry_laws) };

    fn eq(&self, other: &EntryList) -> bool {
        self.entries.as_slice() == other.entries.as_slice()
    }
}

impl Eq for EntryList {
    ghost laws = { Prim.search (comparing, rules, entry_equiv) };
}
