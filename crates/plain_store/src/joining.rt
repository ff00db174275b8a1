//! Joining two lists of checked items.

ghost use Rattle.std.specs.Prelude.{◌≡◌, ◌+◌, ◌≤◌, ◌↔◌, ◌⊎◌, Contains, IfOk, length, not, vec_capacity, vec_len};
ghost use Rattle.std.specs.List.{filter};
ghost use Rattle.std.specs.List.Sorted.{IsPermutation, IsSorted};
ghost use Rattle.item_forms.specs.Pieces.{Piece};
ghost use Rattle.evidence_item.specs.Checking.{Checked as TheChecked};
ghost use Rattle.kept_evidence.specs.Kept.{IsAscending, Keeps, by_item, is_kept};

use crate::placing::keeps;
use evidence_item::Checked;
use outcome::Memory;
use std::alloc::Global;

/// Removes the items that are kept already.
pub(crate) fn drop_kept<P>(kept: &[Checked<P>], more: &mut Vec<Checked<P>>)
    requires { IsAscending kept.now }
    ensures { more.new.items ≡ filter (λ (c : TheChecked). not (is_kept kept.now c.item)) more.old.items }
{
    more.retain(
        |checked|
            requires { IsAscending kept.now }
        { !keeps(kept, checked.item()) },
    );
}

/// Returns copies of the items that are not kept.
pub(crate) fn copies_of_missing<P>(
    alloc: Global,
    kept: &[Checked<P>],
    others: &[Checked<P>],
) -> Result<Vec<Checked<P>>, Memory>
    requires { IsAscending kept.now }
    ensures { IfOk result (λ copies. copies.items ≡ filter (λ (c : TheChecked). not (is_kept kept.now c.item)) others.now) }
{
    let mut copies = Vec::new(alloc);
    for other in others {
        if !keeps(kept, other.item()) {
            copies.push(other.try_clone(alloc)?)?;
        }
    }
    Ok(copies)
}

/// Sorts the items. If they are two ascending lists, one behind the other, it joins these in linear time, with a buffer as long
/// as both. If there is no memory for the buffer, it sorts them in place.
fn sort<P>(items: &mut Vec<Checked<P>>)
    ensures permutation { IsPermutation items.old.items items.new.items }
    ensures len { vec_len items.new ≡ vec_len items.old }
    ensures sorted { IsSorted by_item items.new.items }
{
    if items.sort_by(|a, b| a.item().cmp(b.item())).is_err() {
        items.sort_unstable_by(|a, b| a.item().cmp(b.item()));
    }
}

/// Puts more items into their places. None of them is kept, and there is room for all of them.
pub(crate) fn join<P>(kept: &mut Vec<Checked<P>>, mut more: Vec<Checked<P>>)
    requires room { vec_len kept.old + vec_len more ≤ vec_capacity kept.old }
    requires kept { IsAscending kept.old.items }
    requires more { IsAscending more.items }
    requires apart { (x : Piece) → Keeps kept.old.items x → Keeps more.items x → ⊥ }
    ensures ascending { IsAscending kept.new.items }
    ensures members { (c : TheChecked) → Contains kept.new.items c ↔ (Contains kept.old.items c ⊎ Contains more.items c) }
    ensures count { length kept.new.items ≡ length kept.old.items + length more.items }
{
    if more.is_empty() {
        return;
    }
    let _ = kept.append(&mut more);
    sort(kept);
}
