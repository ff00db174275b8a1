//! Taking one checked item.

ghost use Rattle.std.specs.Prelude.{◌≡◌, ◌<◌, false, not, IfErr, IfOk, OnErr, OnOk, Ok, vec_capacity, vec_len};
ghost use Rattle.evidence_item.specs.Checking.{IsChecked};
ghost use Rattle.evidence_set.specs.ItemSets.{Has, contains, insert, set_of};
ghost use Rattle.authenticators.specs.StatementSet.{IsUnion};
ghost use Rattle.kept_evidence.specs.Kept.{IsStore, IsWhole};
ghost use Rattle.kept_evidence.specs.Telling.{told_statements};

use crate::placing::{place_of, put};
use authenticators::{AuthenticatorStore, Directory};
use evidence::TakeRefused;
use evidence_item::Checked;
use kept_evidence::write_statements;
use outcome::Memory;
use replay_verifier::Program;
use std::alloc::Global;

/// Finds what was not found yet of the item, makes room for it among those that are kept, and puts its statements into the set.
/// If memory runs out, it reports `Memory`, and the items and the set are as they were.
fn prepare<P: Program>(
    alloc: Global,
    directory: &Directory,
    kept: &mut Vec<Checked<P>>,
    held: &mut AuthenticatorStore,
    checked: &mut Checked<P>,
) -> Result<(), Memory>
    requires { IsChecked directory.now P.means checked.old }
    ensures item { (checked.new.item ≡ checked.old.item) × (checked.new.verdict ≡ checked.old.verdict) }
    ensures checked { IsChecked directory.now P.means checked.new }
    ensures kept { kept.new.items ≡ kept.old.items }
    ensures room { OnOk result (vec_len kept.new < vec_capacity kept.new) }
    ensures whole { OnOk result (IsWhole directory.now P.means checked.new) }
    ensures held { OnOk result (IsUnion held.old (told_statements checked.new.item.fields checked.new.findings) held.new) }
    ensures refused { OnErr result (held.new ≡ held.old) }
{
    checked.find(alloc, directory)?;
    kept.reserve(1)?;
    let mut statements = Vec::new(alloc);
    write_statements(alloc, &mut statements, checked)?;
    held.insert_all(statements)
}

/// Takes the item if it is not kept yet, and returns whether it is new.
pub(crate) fn take<P: Program>(
    alloc: Global,
    directory: &Directory,
    kept: &mut Vec<Checked<P>>,
    held: &mut AuthenticatorStore,
    mut checked: Checked<P>,
) -> Result<bool, TakeRefused<P>>
    requires store { IsStore directory.now P.means kept.old.items held.old }
    requires checked { IsChecked directory.now P.means checked }
    ensures store { IsStore directory.now P.means kept.new.items held.new }
    ensures told { IfOk result (λ new. new ≡ not (contains (set_of kept.old.items) checked.item)) }
    ensures taken { OnOk result (set_of kept.new.items ≡ insert (set_of kept.old.items) checked.item) }
    ensures held { Has (set_of kept.old.items) checked.item → result ≡ Ok false }
    ensures given_back { IfErr result (λ refused. (refused.0.item ≡ checked.item) × (refused.0.verdict ≡ checked.verdict) × IsChecked directory.now P.means refused.0) }
    ensures refused { OnErr result (kept.new.items ≡ kept.old.items) }
{
    let Err(place) = place_of(kept, checked.item()) else {
        return Ok(false);
    };
    if prepare(alloc, directory, kept, held, &mut checked).is_err() {
        return Err(TakeRefused(checked));
    }
    put(kept, place, checked);
    Ok(true)
}
