//! Noting the numbers at which statements are in conflict.

ghost use Rattle.std.specs.Prelude.{◌≡◌, ◌⊎◌, ◌+◌, ◌<◌, ◌≤◌, [], ◌∷◌, IfNone, IfOk, IfSome, IsTrue, false, length, map, vec_capacity, vec_len};
ghost use Rattle.std.specs.List.{Contains};
ghost use Rattle.std.specs.List.Sorted.{IsBinarySearchResult, IsSearchInRange, IsStrictlySortedBy};
ghost use Rattle.std.specs.Ordering.{nat_cmp};
ghost use Rattle.authenticators.specs.declared.clash.Clash.{Clash as TheClash};
ghost use Rattle.authenticators.specs.StatementSet.{IsAscending};
ghost use Rattle.authenticators.specs.within.Noted.{AreNoted, HasOf, HasUpTo, IsClash, by_node, point_of};

use crate::authenticator::Authenticator;
use crate::authenticator_store::{conflict_among, range};
use crate::clash::Clash;
use crate::node::NodeId;
use outcome::Memory;
use std::alloc::Global;

/// Returns the statement's node and number.
pub(crate) fn point_of(statement: &Authenticator) -> Clash
    ensures { result ≡ point_of statement.now }
{
    Clash {
        node: statement.node,
        seq: statement.seq,
    }
}

/// Returns the node and number of each statement, in order.
pub(crate) fn points_of(alloc: Global, statements: &[Authenticator]) -> Result<Vec<Clash>, Memory>
    ensures { IfOk result (λ points. points.items ≡ map point_of statements.now) }
{
    let mut points = Vec::with_capacity(alloc, statements.len())?;
    for statement in statements {
        points.push(point_of(statement))?;
    }
    Ok(points)
}

/// Returns the place of the node's clash, or else the place that it would have.
fn place_of(clashes: &[Clash], node: NodeId) -> Result<usize, usize>
    ensures bound { IsSearchInRange result (length clashes.now) }
    ensures position { IsBinarySearchResult (λ (p : TheClash). nat_cmp p.node node) clashes.now result }
{
    clashes.binary_search_by_key(&node, |clash| clash.node)
}

/// Returns the clash of the node, if there is one.
pub(crate) fn clash_of(clashes: &[Clash], node: NodeId) -> Option<Clash>
    requires { IsStrictlySortedBy by_node clashes.now }
    ensures none { IfNone result (HasOf clashes.now node → ⊥) }
    ensures some { IfSome result (λ p. Contains clashes.now p × (p.node ≡ node)) }
{
    match place_of(clashes, node) {
        Err(_) => None,
        Ok(place) => Some(clashes[place]),
    }
}

/// Returns whether two of the statements are in conflict at this number of the node. It looks at the first and the last of that number.
fn is_clash(held: &[Authenticator], clash: &Clash) -> bool
    requires { IsAscending held.now }
    ensures yes { IsTrue result → IsClash held.now clash.now }
    ensures no { result ≡ false → IsClash held.now clash.now → ⊥ }
{
    match conflict_among(range(held, clash.node, clash.seq, clash.seq)) {
        None => false,
        Some(_) => true,
    }
}

/// Keeps the clash if its node has none yet, or one of a greater number. There is room for it.
fn keep(clashes: &mut Vec<Clash>, clash: Clash)
    requires ascending { IsStrictlySortedBy by_node clashes.old.items }
    requires room { vec_len clashes.old < vec_capacity clashes.old }
    ensures ascending { IsStrictlySortedBy by_node clashes.new.items }
    ensures kept { (p : TheClash) → Contains clashes.old.items p → HasUpTo clashes.new.items p }
    ensures only { (p : TheClash) → Contains clashes.new.items p → Contains clashes.old.items p ⊎ (p ≡ clash) }
    ensures has { HasUpTo clashes.new.items clash }
    ensures len { vec_len clashes.new ≤ vec_len clashes.old + 1 }
    ensures capacity { vec_capacity clashes.new ≡ vec_capacity clashes.old }
{
    match place_of(clashes, clash.node) {
        Ok(place) => {
            if clash.seq < clashes[place].seq {
                clashes[place] = clash;
            }
        }
        Err(place) => {
            let _ = clashes.insert(place, clash);
        }
    }
}

/// Keeps the clash if statements are in conflict there, and its node has none yet or one of a greater number. There is room for it.
fn note(held: &[Authenticator], clashes: &mut Vec<Clash>, clash: Clash)
    requires held { IsAscending held.now }
    requires ascending { IsStrictlySortedBy by_node clashes.old.items }
    requires room { vec_len clashes.old < vec_capacity clashes.old }
    ensures noted { AreNoted held.now (clash ∷ []) clashes.old.items clashes.new.items }
    ensures len { vec_len clashes.new ≤ vec_len clashes.old + 1 }
    ensures capacity { vec_capacity clashes.new ≡ vec_capacity clashes.old }
{
    if is_clash(held, &clash) {
        keep(clashes, clash);
    }
}

/// Notes each of the points. There is room for all of them.
pub(crate) fn note_each(held: &[Authenticator], clashes: &mut Vec<Clash>, points: &[Clash])
    requires held { IsAscending held.now }
    requires ascending { IsStrictlySortedBy by_node clashes.old.items }
    requires room { vec_len clashes.old + length points.now ≤ vec_capacity clashes.old }
    ensures { AreNoted held.now points.now clashes.old.items clashes.new.items }
{
    for point in points {
        note(held, clashes, *point);
    }
}
