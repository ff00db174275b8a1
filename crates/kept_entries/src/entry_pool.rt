//! The pool that gives handles of entries. For equal entries it gives handles of one entry.

ghost use Rattle.std.specs.Prelude.{◌≡◌, IfOk, IfSome};
ghost use Rattle.std.specs.Arc.{arc_value};
ghost use Rattle.kept_entries.specs.within.Keeping.{wanted_entry};

use crate::keeping::{Wanted, front_of, is_same};
use crate::shared::SharedEntry;
use log_chain::{Entry, Hash};
use outcome::Memory;
use std::alloc::Global;
use std::collections::BTreeMap;
use std::sync::Arc;

/// The entries that are kept, in a tree by the first eight bytes of their hashes. The pool hands out an entry only if all its parts are
/// those that are wanted, whatever the keys say.
#[derive(Drop)]
pub struct EntryPool {
    kept: BTreeMap<u64, Arc<SharedEntry, Global>>,
}

/// Returns the key under which the wanted entry is kept, or would be. This is the front of its hash, or the first number after it under
/// which no other entry is kept. It takes 2^32 hashes to find a second entry with the same front, and 2^43 to find a third one.
fn key_of(kept: &BTreeMap<u64, Arc<SharedEntry, Global>>, wanted: &Wanted<'_>) -> u64 {
    let front = front_of(wanted.hash);
    for turn in 0..u64::MAX {
        let key = front.wrapping_add(turn);
        match kept.get(&key) {
            Some(handle) if !is_same(handle, wanted) => {}
            _ => return key,
        }
    }
    front
}

/// Returns another handle of the wanted entry, if it is kept.
fn kept_handle(
    kept: &BTreeMap<u64, Arc<SharedEntry, Global>>,
    key: u64,
    wanted: &Wanted<'_>,
) -> Result<Option<Arc<SharedEntry, Global>>, Memory>
    ensures { IfOk result (λ o. IfSome o (λ a. arc_value a ≡ wanted_entry wanted.now)) }
{
    match kept.get(&key) {
        Some(handle) if is_same(handle, wanted) => {
            let other = Arc::try_clone(handle)?;
            Ok(Some(other))
        }
        _ => Ok(None),
    }
}

/// Returns a handle of a copy of the entry.
fn copied(alloc: Global, wanted: &Wanted<'_>) -> Result<Arc<SharedEntry, Global>, Memory>
    ensures { IfOk result (λ a. arc_value a ≡ wanted_entry wanted.now) }
{
    let copy = SharedEntry::of(alloc, wanted)?;
    let handle = Arc::new(alloc, copy)?;
    Ok(handle)
}

impl EntryPool {
    /// Returns an empty pool.
    pub fn new(alloc: Global) -> EntryPool {
        EntryPool {
            kept: BTreeMap::new(alloc),
        }
    }

    /// Returns a handle of the wanted entry. If an equal entry is kept, the handle is of that one; else it is of a new one, which is then
    /// kept.
    fn handle_of(
        &mut self,
        alloc: Global,
        wanted: &Wanted<'_>,
    ) -> Result<Arc<SharedEntry, Global>, Memory>
        ensures { IfOk result (λ a. arc_value a ≡ wanted_entry wanted.now) }
    {
        let key = key_of(&self.kept, wanted);
        if let Some(handle) = kept_handle(&self.kept, key, wanted)? {
            return Ok(handle);
        }
        let handle = copied(alloc, wanted)?;
        let other = Arc::try_clone(&handle)?;
        self.kept.insert(key, other)?;
        Ok(handle)
    }

    /// Returns a handle of an entry equal to these parts. If the pool keeps an equal one, the handle is of that one. Else the pool copies
    /// the entry, and keeps the copy.
    ///
    /// `prev` is the hash before the entry, `hash` its own hash, and `quoted` the hash of the statement that it quotes. The pool does not
    /// check them. The error `Memory` comes if a growth is refused.
    pub fn share(
        &mut self,
        alloc: Global,
        prev: Hash,
        entry: &Entry,
        hash: Hash,
        quoted: Option<Hash>,
    ) -> Result<Arc<SharedEntry, Global>, Memory>
        ensures { IfOk result (λ a. arc_value a ≡ record { prev = prev; entry = entry.now; hash = hash; quoted = quoted }) }
    {
        let wanted = Wanted {
            prev,
            seq: entry.seq,
            kind: entry.kind,
            content: entry.content.as_slice(),
            hash,
            quoted,
        };
        self.handle_of(alloc, &wanted)
    }

    /// Returns a handle as [`EntryPool::share`] does, for an entry that another pool keeps.
    pub fn share_again(
        &mut self,
        alloc: Global,
        shared: &SharedEntry,
    ) -> Result<Arc<SharedEntry, Global>, Memory>
        ensures { IfOk result (λ a. arc_value a ≡ shared.now) }
    {
        let wanted = Wanted {
            prev: shared.prev(),
            seq: shared.seq(),
            kind: shared.kind(),
            content: shared.content(),
            hash: shared.hash(),
            quoted: shared.quoted(),
        };
        self.handle_of(alloc, &wanted)
    }
}
