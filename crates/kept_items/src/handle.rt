//! Handles of shared entries.

ghost use Rattle.std.specs.Prelude.{◌≡◌, IfOk};
ghost use Rattle.kept_items.specs.within.Shared.{shared_of};

use kept_entries::{EntryPool, SharedEntry};
use log_chain::{Entry, Hash};
use outcome::Memory;
use std::alloc::Global;
use std::marker::Model;
use std::sync::Arc;

/// A handle of a shared entry. A contract sees the entry.
#[derive(Drop)]
pub(crate) struct Handle {
    shared: Arc<SharedEntry, Global>,
}

impl Model for Handle {
    ghost use Rattle.std.specs.Arc.{arc_value};
    ghost use Rattle.kept_entries.specs.Shared.{SharedEntry};

    ghost Value = { SharedEntry };

    ghost view = { λ h. arc_value h.shared };
}

impl Handle {
    /// The entry.
    pub(crate) fn get(&self) -> &SharedEntry
        ensures { result.now ≡ self.now }
    {
        &self.shared
    }
}

/// Returns handles of the entries that follow the hash `prev`, with these hashes and these quotes. Each entry is kept once.
pub(crate) fn share_each(
    alloc: Global,
    pool: &mut EntryPool,
    prev: Hash,
    entries: &[Entry],
    hashes: &[Hash],
    quotes: &[Option<Hash>],
) -> Result<Vec<Handle>, Memory>
    ensures { IfOk result (λ handles. handles.items ≡ shared_of prev entries.now hashes.now quotes.now) }
{
    let mut handles = Vec::with_capacity(alloc, entries.len())?;
    let mut before = prev;
    let mut hashes_left = hashes;
    let mut quotes_left = quotes;
    for entry in entries {
        let [hash, more_hashes @ ..] = hashes_left else {
            return Ok(handles);
        };
        let [quoted, more_quotes @ ..] = quotes_left else {
            return Ok(handles);
        };
        let shared = pool.share(alloc, before, entry, *hash, *quoted)?;
        handles.push(Handle { shared })?;
        before = *hash;
        hashes_left = more_hashes;
        quotes_left = more_quotes;
    }
    Ok(handles)
}

/// Returns handles of the same entries, as the pool keeps them.
pub(crate) fn share_again(
    alloc: Global,
    pool: &mut EntryPool,
    handles: &[Handle],
) -> Result<Vec<Handle>, Memory>
    ensures { IfOk result (λ again. again.items ≡ handles.now) }
{
    let mut again = Vec::with_capacity(alloc, handles.len())?;
    for handle in handles {
        let shared = pool.share_again(alloc, handle.get())?;
        again.push(Handle { shared })?;
    }
    Ok(again)
}
