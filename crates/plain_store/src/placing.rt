//! Places in a list of checked items that ascends.

ghost use Rattle.std.specs.Prelude.{◌≡◌, ◌↔◌, ◌<◌, ◌⊎◌, IfErr, IfOk, Contains, vec_capacity, vec_len};
ghost use Rattle.evidence_item.specs.Checking.{Checked as TheChecked};
ghost use Rattle.evidence_set.specs.ItemSets.{contains, set_of};
ghost use Rattle.kept_evidence.specs.Kept.{IsAscending, IsPlaceOf, Keeps, is_kept};

use evidence_item::{Checked, Item};

/// Finds the place of the item in the list: `Ok` if the item is in it, `Err` with the place where it would be if not. It takes
/// no memory.
pub(crate) fn place_of<P>(kept: &[Checked<P>], item: &Item) -> Result<usize, usize>
    requires { IsAscending kept.now }
    ensures there { IfOk result (λ i. Keeps kept.now item.now) }
    ensures place { IfErr result (λ i. IsPlaceOf item.now kept.now i) }
{
    kept.binary_search_by(|c| c.item().cmp(item))
}

/// Returns whether the item is in the list.
pub(crate) fn keeps<P>(kept: &[Checked<P>], item: &Item) -> bool
    requires { IsAscending kept.now }
    ensures { result ≡ is_kept kept.now item.now }
{
    place_of(kept, item).is_ok()
}

/// Returns whether the set has the item.
pub(crate) fn holds<P>(kept: &[Checked<P>], item: &Item) -> bool
    requires { IsAscending kept.now }
    ensures { result ≡ contains (set_of kept.now) item.now }
{
    keeps(kept, item)
}

/// Puts a checked item into its place. There is room for it.
pub(crate) fn put<P>(kept: &mut Vec<Checked<P>>, place: usize, checked: Checked<P>)
    requires ascending { IsAscending kept.old.items }
    requires place { IsPlaceOf checked.item kept.old.items place }
    requires room { vec_len kept.old < vec_capacity kept.old }
    ensures ascending { IsAscending kept.new.items }
    ensures members { (x : TheChecked) → Contains kept.new.items x ↔ (Contains kept.old.items x ⊎ (x ≡ checked)) }
{
    let _ = kept.insert(place, checked);
}
