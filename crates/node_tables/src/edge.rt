//! Searches for an edge: the place up to which a test holds.

ghost use Rattle.std.specs.Prelude.{◌≡◌};
ghost use Rattle.node_tables.specs.within.Bringing.{edge_of, side};

use std::cmp::Ordering;

/// Returns on which side of the edge something stands. It stands before the edge if the test holds.
pub(crate) fn side(is_before: bool) -> Ordering
    ensures { result ≡ side is_before }
{
    if is_before {
        Ordering::Less
    } else {
        Ordering::Greater
    }
}

/// Returns the edge that a search found.
pub(crate) fn edge_at(found: Result<usize, usize>) -> usize
    ensures { result ≡ edge_of found }
{
    match found {
        Ok(place) => place,
        Err(place) => place,
    }
}
