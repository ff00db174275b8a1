//! One set within another.

ghost use Rattle.std.specs.Prelude.{◌≡◌, ◌↔◌, IsTrue};
ghost use Rattle.std.specs.List.{list_all};
ghost use Rattle.evidence_item.specs.Checking.{Checked as TheChecked};
ghost use Rattle.evidence_set.specs.ItemSets.{IsWithin, set_of};
ghost use Rattle.kept_evidence.specs.Kept.{IsAscending, is_kept};

use crate::placing::keeps;
use evidence_item::Checked;

/// Returns whether each of the other items is kept. It looks each up once.
fn keeps_each<P>(kept: &[Checked<P>], others: &[Checked<P>]) -> bool
    requires { IsAscending kept.now }
    ensures { result ≡ list_all (λ (c : TheChecked). is_kept kept.now c.item) others.now }
{
    for other in others {
        if !keeps(kept, other.item()) {
            return false;
        }
    }
    true
}

/// Returns whether the set of the other items is within that of these. It takes no memory.
pub(crate) fn includes<P>(kept: &[Checked<P>], others: &[Checked<P>]) -> bool
    requires { IsAscending kept.now }
    ensures { IsTrue result ↔ IsWithin (set_of others.now) (set_of kept.now) }
{
    keeps_each(kept, others)
}
