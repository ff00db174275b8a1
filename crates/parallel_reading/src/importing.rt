//! Adds the items of the text of a set to a store.

ghost use Rattle.std.specs.Prelude.{◌≡◌, ◌+◌, ◌<◌, ◌≤◌, IfErr, IfOk, IsOk, OnErr, OnOk};
ghost use Rattle.std.specs.List.{All};
ghost use Rattle.std.specs.List.Sorted.{IsStrictlySortedBy};
ghost use Rattle.item_forms.specs.Pieces.{by_bytes};
ghost use Rattle.evidence_item.specs.Checking.{IsChecked};
ghost use Rattle.containers.specs.declared.fault.Cause.TheVariants as cause;
ghost use Rattle.containers.specs.Refusals.{IsBehindFront, Refuses};
ghost use Rattle.evidence.specs.Exports.{magic_of, set_text};
ghost use Rattle.evidence_set.specs.ItemSets.{Items, Join, count, pieces, set_of};
ghost use Rattle.evidence.specs.Contents.{with_items};
ghost use Rattle.evidence.specs.Importing.{import_set};
ghost use Rattle.parallel_checking.specs.declared.limits.TheConstants.{MOST_WORKERS};

use crate::reading::read_all_by;
use crate::watching::Watcher;
use crate::workers::Workers;
use authenticators::Directory;
use containers::{ImportFault, Pending};
use evidence::laws::sets_have_one_text;
use evidence::{Evidence, add_all, magic_of};
use evidence_item::Checked;
use log_chain::laws::bytes_fit;
use replay_verifier::Program;
use std::thread::Threads;

/// Reads the items of the text of a set. Each is checked under the directory, and they are in the order of their encodings.
fn items_of<R: Threads + Sync, P: Program + Send + Sync, W: Watcher>(
    workers: &Workers<'_, R>,
    program: &P,
    directory: &Directory,
    text: &mut Pending,
    watcher: &mut W,
) -> Result<Vec<Checked<P>>, ImportFault>
where
    P::State: Send,
    requires workers { (0 < workers.now.count) × (workers.now.count ≤ MOST_WORKERS) }
    ensures checked { IfOk result (λ items. All (IsChecked directory.now P.means) items.items) }
    ensures ascending { IfOk result (λ items. IsStrictlySortedBy by_bytes (pieces items.items)) }
    ensures text { IfOk result (λ items. text.old ≡ set_text (magic_of text.old) (set_of items.items)) }
    ensures read { OnOk result (IsOk (import_set directory.now text.old)) }
    ensures fault { IfErr result (λ f. Refuses f (import_set directory.now text.old)) }
    ensures memory { IfErr result (λ f. f.cause ≡ cause.Memory → IsBehindFront (import_set directory.now text.old)) }
{
    let bytes = text.rest();
    bytes_fit(bytes);
    sets_have_one_text();
    let magic = magic_of(bytes);
    let items = read_all_by(workers, program, directory, magic, text, watcher)?;
    Ok(items)
}

/// Reads the text of a set, behind `PRSTORE2` or `PRSTORE1`, checks its items by workers, and adds all of them, or none. It returns how
/// many are new, as `Evidence::import` does, and reports the same refusals. As with [`read_all_by`], memory of the text is freed as it is
/// read, and the watcher is called.
pub fn import_by<R: Threads + Sync, P: Program + Send + Sync, S: Evidence<P>, W: Watcher>(
    workers: &Workers<'_, R>,
    store: &mut S,
    program: &P,
    text: &mut Pending,
    watcher: &mut W,
) -> Result<u64, ImportFault>
where
    P::State: Send,
    requires workers { (0 < workers.now.count) × (workers.now.count ≤ MOST_WORKERS) }
    ensures told { IfOk result (λ new. count (S.contents store.old).items + new ≡ count (S.contents store.new).items) }
    ensures joined { OnOk result ((added : Items) × (text.old ≡ set_text (magic_of text.old) added) × (S.contents store.new ≡ with_items (S.contents store.old) (Join (S.contents store.old).items added))) }
    ensures fault { IfErr result (λ f. Refuses f (import_set (S.contents store.old).directory text.old)) }
    ensures memory { IfErr result (λ f. f.cause ≡ cause.Memory → IsBehindFront (import_set (S.contents store.old).directory text.old)) }
    ensures refused { OnErr result (S.contents store.new ≡ S.contents store.old) }
{
    let items = items_of(workers, program, store.directory(), text, watcher)?;
    add_all::<P, S>(store, items)
}
