//! Adding many checked items at once.

ghost use Rattle.std.specs.Prelude.{◌≡◌, ◌+◌, IfOk, OnErr, OnOk, length};
ghost use Rattle.std.specs.List.{All, flat_map};
ghost use Rattle.std.specs.List.Sorted.{IsStrictlySortedBy};
ghost use Rattle.item_forms.specs.Pieces.{Piece, by_bytes};
ghost use Rattle.evidence_item.specs.Checking.{Checked as TheChecked, IsChecked};
ghost use Rattle.evidence_set.specs.ItemSets.{Join, count, pieces, set_of};
ghost use Rattle.kept_evidence.specs.Kept.{AreKept, IsStore, Keeps};
ghost use Rattle.kept_evidence.specs.Telling.{told_statements};

use crate::joining::{copies_of_missing, drop_kept, join};
use authenticators::{Authenticator, AuthenticatorStore, Directory};
use evidence_item::Checked;
use kept_evidence::{find_each, write_statements};
use outcome::Memory;
use replay_verifier::Program;
use std::alloc::Global;

/// Returns the statements of all of the items, one item after the other.
fn statements_of_each<P>(alloc: Global, items: &[Checked<P>]) -> Result<Vec<Authenticator>, Memory>
    ensures { IfOk result (λ all. all.items ≡ flat_map (λ (c : TheChecked). told_statements c.item.fields c.findings) items.now) }
{
    let mut statements = Vec::new(alloc);
    for item in items {
        write_statements(alloc, &mut statements, item)?;
    }
    Ok(statements)
}

/// Adds all of the items, none of which is kept. If memory runs out, it reports `Memory` and adds none.
pub(crate) fn add_all<P: Program>(
    alloc: Global,
    directory: &Directory,
    kept: &mut Vec<Checked<P>>,
    held: &mut AuthenticatorStore,
    more: Vec<Checked<P>>,
) -> Result<(), Memory>
    requires store { IsStore directory.now P.means kept.old.items held.old }
    requires more { AreKept directory.now P.means more.items }
    requires apart { (x : Piece) → Keeps kept.old.items x → Keeps more.items x → ⊥ }
    ensures store { IsStore directory.now P.means kept.new.items held.new }
    ensures joined { OnOk result (set_of kept.new.items ≡ Join (set_of kept.old.items) (set_of more.items)) }
    ensures count { OnOk result (length kept.new.items ≡ length kept.old.items + length more.items) }
    ensures refused { OnErr result (kept.new.items ≡ kept.old.items) }
{
    let statements = statements_of_each(alloc, &more)?;
    kept.reserve(more.len())?;
    held.insert_all(statements)?;
    join(kept, more);
    Ok(())
}

/// Adds copies of all items that are not kept yet, and returns how many they are. If memory runs out, it reports `Memory` and
/// adds none.
pub(crate) fn merge<P: Program>(
    alloc: Global,
    directory: &Directory,
    kept: &mut Vec<Checked<P>>,
    held: &mut AuthenticatorStore,
    others: &[Checked<P>],
) -> Result<u64, Memory>
    requires store { IsStore directory.now P.means kept.old.items held.old }
    requires others { AreKept directory.now P.means others.now }
    ensures store { IsStore directory.now P.means kept.new.items held.new }
    ensures told { IfOk result (λ new. count (set_of kept.old.items) + new ≡ count (set_of kept.new.items)) }
    ensures joined { OnOk result (set_of kept.new.items ≡ Join (set_of kept.old.items) (set_of others.now)) }
    ensures refused { OnErr result (kept.new.items ≡ kept.old.items) }
{
    let copies = copies_of_missing(alloc, kept, others)?;
    let new = copies.len() as u64;
    add_all(alloc, directory, kept, held, copies)?;
    Ok(new)
}

/// Adds all of the items, which ascend, and returns how many of them are new. If memory runs out, it reports `Memory` and adds
/// none.
pub(crate) fn take_all<P: Program>(
    alloc: Global,
    directory: &Directory,
    kept: &mut Vec<Checked<P>>,
    held: &mut AuthenticatorStore,
    mut items: Vec<Checked<P>>,
) -> Result<u64, Memory>
    requires store { IsStore directory.now P.means kept.old.items held.old }
    requires checked { All (IsChecked directory.now P.means) items.items }
    requires ascending { IsStrictlySortedBy by_bytes (pieces items.items) }
    ensures store { IsStore directory.now P.means kept.new.items held.new }
    ensures told { IfOk result (λ new. count (set_of kept.old.items) + new ≡ count (set_of kept.new.items)) }
    ensures joined { OnOk result (set_of kept.new.items ≡ Join (set_of kept.old.items) (set_of items.items)) }
    ensures refused { OnErr result (kept.new.items ≡ kept.old.items) }
{
    find_each(alloc, directory, &mut items)?;
    drop_kept(kept, &mut items);
    let new = items.len() as u64;
    add_all(alloc, directory, kept, held, items)?;
    Ok(new)
}
