//! Groups of the items that are kept.

ghost use Rattle.item_forms.specs.Groups.{shown_group};
ghost use Rattle.kept_evidence.specs.Kept.{IsAscending, IsGroupOf};

use evidence_item::Checked;
use item_forms::Group;

/// Returns the items of the group, which are consecutive, in their order. It takes no memory.
pub(crate) fn group_of<'a, P>(kept: &'a [Checked<P>], group: &Group<'_>) -> &'a [Checked<P>]
    requires { IsAscending kept.now }
    ensures members { IsGroupOf (shown_group group.now) kept.now result.now }
    ensures ascending { IsAscending result.now }
{
    let start = kept.partition_point(|checked| checked.item().cmp_group(group).is_lt());
    let end = kept.partition_point(|checked| checked.item().cmp_group(group).is_le());
    &kept[start..end.max(start)]
}
