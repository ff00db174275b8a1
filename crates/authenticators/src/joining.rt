//! Putting many statements into a set at once.

ghost use Rattle.std.specs.Prelude.{◌≡◌, ◌↔◌, ◌+◌, ◌<◌, ◌≤◌, [], ◌++◌, Contains, IfErr, IfOk, OnErr, OnOk, drop, not, reverse, take, vec_capacity, vec_len};
ghost use Rattle.std.specs.List.{filter};
ghost use Rattle.authenticators.specs.declared.authenticator.Authenticator.{Authenticator as Statement};
ghost use Rattle.authenticators.specs.StatementSet.{IsAscending, IsUnion};
ghost use Rattle.authenticators.specs.within.Inserted.{HasInserted};
ghost use Rattle.authenticators.specs.within.Joins.{AreAbove, IsPlaceOf, IsPut, is_held, with_moved};
ghost use Rattle.authenticators.specs.within.Noted.{AreClashesOf};

use crate::authenticator::Authenticator;
use crate::authenticator_store::{InsertRefused, insert};
use crate::clash::Clash;
use crate::noting::{note_each, point_of, points_of};
use outcome::Memory;

/// Up to so many new statements are put into a set one by one, and more of them all at once.
const FEW: usize = 16;

/// Returns the place of a statement among those that are held, or else the place that it would have.
fn place_of(held: &[Authenticator], statement: &Authenticator) -> Result<usize, usize>
    requires { IsAscending held.now }
    ensures there { IfOk result (λ i. Contains held.now statement.now) }
    ensures place { IfErr result (λ i. IsPlaceOf statement.now held.now i) }
{
    held.binary_search(statement)
}

/// Returns whether the statement is held.
fn is_held(held: &[Authenticator], statement: &Authenticator) -> bool
    requires { IsAscending held.now }
    ensures { result ≡ is_held held.now statement.now }
{
    place_of(held, statement).is_ok()
}

/// Sorts the statements, and keeps each of them once.
fn sort(statements: &mut Vec<Authenticator>)
    ensures ascending { IsAscending statements.new.items }
    ensures same { (x : Statement) → Contains statements.new.items x ↔ Contains statements.old.items x }
{
    statements.sort_unstable();
    statements.dedup();
}

/// Takes away the statements that are held.
fn drop_held(held: &[Authenticator], statements: &mut Vec<Authenticator>)
    requires { IsAscending held.now }
    ensures { statements.new.items ≡ filter (λ (x : Statement). not (is_held held.now x)) statements.old.items }
{
    statements.retain(
        |statement|
            requires { IsAscending held.now }
        { !is_held(held, statement) },
    );
}

/// Puts new statements, which ascend, among those that are held. If a growth is refused, what is held stays as it was.
fn insert_new(held: &mut Vec<Authenticator>, statements: Vec<Authenticator>) -> Result<(), Memory>
    requires ascending { IsAscending held.old.items }
    requires statements { IsAscending statements.items }
    ensures added { OnOk result (IsUnion held.old.items statements.items held.new.items) }
    ensures unchanged { OnErr result (held.new.items ≡ held.old.items) }
    ensures ascending { IsAscending held.new.items }
{
    held.reserve(statements.len())?;
    if statements.len() <= FEW {
        insert_each(held, statements);
        return Ok(());
    }
    let moved = Vec::with_capacity(*held.allocator(), held.len() + statements.len())?;
    join(held, statements, moved);
    Ok(())
}

/// Puts all of the statements among those that are held, and notes what is in conflict with them. If a growth is refused, all stays
/// as it was.
pub(crate) fn insert_all(
    held: &mut Vec<Authenticator>,
    clashes: &mut Vec<Clash>,
    mut statements: Vec<Authenticator>,
) -> Result<(), Memory>
    requires ascending { IsAscending held.old.items }
    requires clashes { AreClashesOf held.old.items clashes.old.items }
    ensures added { OnOk result (IsUnion held.old.items statements.items held.new.items) }
    ensures unchanged { OnErr result (held.new.items ≡ held.old.items) }
    ensures ascending { IsAscending held.new.items }
    ensures clashes { AreClashesOf held.new.items clashes.new.items }
{
    sort(&mut statements);
    drop_held(held, &mut statements);
    let points = points_of(*held.allocator(), &statements)?;
    clashes.reserve(points.len())?;
    insert_new(held, statements)?;
    note_each(held, clashes, &points);
    Ok(())
}

/// Puts one statement among those that are held, and notes what is in conflict with it. If a growth is refused, all stays as it was.
pub(crate) fn insert_one(
    held: &mut Vec<Authenticator>,
    clashes: &mut Vec<Clash>,
    authenticator: Authenticator,
) -> Result<bool, InsertRefused>
    requires ascending { IsAscending held.old.items }
    requires clashes { AreClashesOf held.old.items clashes.old.items }
    ensures inserted { HasInserted held.old.items held.new.items authenticator result }
    ensures clashes { AreClashesOf held.new.items clashes.new.items }
{
    if is_held(held, &authenticator) {
        return Ok(false);
    }
    if clashes.reserve(1).is_err() {
        return Err(InsertRefused(authenticator));
    }
    let point = point_of(&authenticator);
    let new = insert(held, authenticator)?;
    note_each(held, clashes, &[point]);
    Ok(new)
}

/// Inserts one statement after the other. There is room for all of them.
fn insert_each(held: &mut Vec<Authenticator>, mut statements: Vec<Authenticator>)
    requires ascending { IsAscending held.old.items }
    requires room { vec_len held.old + vec_len statements ≤ vec_capacity held.old }
    ensures added { IsUnion held.old.items statements.items held.new.items }
    ensures ascending { IsAscending held.new.items }
{
    while let Some(statement) = statements.pop() {
        let _ = insert(held, statement);
    }
}

/// Moves what is held from this place on to the end of what was moved before, the last first.
fn move_from(held: &mut Vec<Authenticator>, place: usize, moved: &mut Vec<Authenticator>)
    requires inside { place ≤ vec_len held.old }
    requires room { vec_len held.old + vec_len moved.old ≤ vec_capacity moved.old }
    ensures held { held.new.items ≡ take place held.old.items }
    ensures moved { moved.new.items ≡ moved.old.items ++ reverse (drop place held.old.items) }
    ensures len { vec_len held.new + vec_len moved.new ≡ vec_len held.old + vec_len moved.old }
    ensures held_capacity { vec_capacity held.new ≡ vec_capacity held.old }
    ensures moved_capacity { vec_capacity moved.new ≡ vec_capacity moved.old }
{
    while held.len() > place {
        if let Some(last) = held.pop() {
            moved.push_reserved(last);
        }
    }
}

/// Puts a statement, which is below all that were moved, into its place. It moves what is held and above the statement, and then the
/// statement itself. If the statement is held already, it is dropped.
fn put(held: &mut Vec<Authenticator>, statement: Authenticator, moved: &mut Vec<Authenticator>)
    requires ascending { IsAscending (with_moved held.old.items moved.old.items) }
    requires below { AreAbove statement moved.old.items }
    requires room { vec_len held.old + vec_len moved.old < vec_capacity moved.old }
    ensures put { IsPut held.old.items moved.old.items statement held.new.items moved.new.items }
    ensures len { vec_len held.new + vec_len moved.new ≤ vec_len held.old + vec_len moved.old + 1 }
    ensures held_capacity { vec_capacity held.new ≡ vec_capacity held.old }
    ensures moved_capacity { vec_capacity moved.new ≡ vec_capacity moved.old }
{
    let Err(place) = place_of(held, &statement) else {
        return;
    };
    move_from(held, place, moved);
    moved.push_reserved(statement);
}

/// Joins ascending statements with those that are held, the greatest first. It moves what is above a statement to `moved`, which is
/// empty at first. In the end it moves all of that back. There is room for all of them in both.
fn join(
    held: &mut Vec<Authenticator>,
    mut statements: Vec<Authenticator>,
    mut moved: Vec<Authenticator>,
)
    requires held { IsAscending held.old.items }
    requires statements { IsAscending statements.items }
    requires empty { moved.items ≡ [] }
    requires room { vec_len held.old + vec_len statements ≤ vec_capacity held.old }
    requires moving { vec_len held.old + vec_len statements ≤ vec_capacity moved }
    ensures added { IsUnion held.old.items statements.items held.new.items }
    ensures ascending { IsAscending held.new.items }
{
    while let Some(statement) = statements.pop() {
        put(held, statement, &mut moved);
    }
    moved.reverse();
    let _ = held.append(&mut moved);
}
