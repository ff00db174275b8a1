//! How workers check the items of a journal again, and how a store takes them.

ghost use Rattle.std.specs.Prelude.{◌≡◌, ◌⊎◌, ◌+◌, ◌<◌, ◌≤◌, ◌^◌, List, ℕ, length, IfErr, IfOk, OnOk};
ghost use Rattle.std.specs.List.{All};
ghost use Rattle.authenticators.specs.Directory.{Listing};
ghost use Rattle.evidence.specs.Contents.{with_items};
ghost use Rattle.evidence_item.specs.Checking.{IsChecked};
ghost use Rattle.evidence_set.specs.ItemSets.{insert_all, pieces};
ghost use Rattle.item_forms.specs.Pieces.{Piece};
ghost use Rattle.parallel_checking.specs.Checks.{AreAnswers};
ghost use Rattle.parallel_checking.specs.declared.limits.TheConstants.{MOST_WORKERS};
ghost use Rattle.durable_store.specs.within.Findings.{IsBad, refusal_of};

use crate::fault::OpenFault;
use crate::taking::take_each;
use evidence::Evidence;
use evidence_item::laws::valid_items_have_no_fault;
use evidence_item::{Checked, Item, ItemFault};
use parallel_checking::{OpenGate, check_all};
use replay_verifier::Program;
use std::alloc::Global;
use std::thread::Threads;

/// What checks items, and for which program.
#[derive(Drop)]
pub(crate) struct Checkers<'a, R, P> {
    pub(crate) rt: &'a R,
    pub(crate) alloc: Global,
    pub(crate) program: &'a P,
    /// How many workers there are, 1 to [`MOST_WORKERS`](parallel_checking::MOST_WORKERS).
    pub(crate) workers: usize,
}

/// Returns why the item at this place is not taken.
fn refusal(fault: ItemFault, place: u64) -> OpenFault
    ensures { result ≡ refusal_of place fault }
{
    match fault {
        ItemFault::Memory => OpenFault::Memory,
        _ => OpenFault::BadItem(place),
    }
}

/// Returns the items of the answers, or the refusal of the first answer that is a fault. The first answer's item stands at this place.
fn valid_items<P: Program>(
    alloc: Global,
    answers: Vec<Result<Checked<P>, ItemFault>>,
    before: u64,
) -> Result<Vec<Checked<P>>, OpenFault>
    requires { before + length answers.items < 2 ^ 64 }
    ensures valid { (ds : Listing) (items : List Piece) → AreAnswers ds P.means items answers.items
        → IfOk result (λ v. (pieces v.items ≡ items) × All (IsChecked ds P.means) v.items) }
    ensures bad { (ds : Listing) (items : List Piece) → AreAnswers ds P.means items answers.items → IfErr result (IsBad ds items before) }
{
    valid_items_have_no_fault();
    let mut valid = Vec::with_capacity(alloc, answers.len())?;
    for answer in answers {
        match answer {
            Ok(checked) => valid.push(checked)?,
            Err(fault) => return Err(refusal(fault, before + valid.len() as u64)),
        }
    }
    Ok(valid)
}

/// Checks the items, and has the store take them. The first item stands at this place.
pub(crate) fn take_items<R: Threads + Sync, P: Program + Send + Sync, S: Evidence<P>>(
    checkers: &Checkers<'_, R, P>,
    store: &mut S,
    items: &[Item],
    before: u64,
) -> Result<(), OpenFault>
where
    P::State: Send,
    requires workers { (0 < checkers.now.workers) × (checkers.now.workers ≤ MOST_WORKERS) }
    requires place { before + length items.now < 2 ^ 64 }
    ensures taken { OnOk result (S.contents store.new ≡ with_items (S.contents store.old) (insert_all (S.contents store.old).items items.now)) }
    ensures bad { IfErr result (IsBad (S.contents store.old).directory items.now before) }
    ensures directory { (S.contents store.new).directory ≡ (S.contents store.old).directory }
{
    let Ok(answers) = check_all(
        checkers.rt,
        checkers.alloc,
        checkers.program,
        store.directory(),
        items,
        checkers.workers,
        &OpenGate,
    ) else {
        return Err(OpenFault::Memory);
    };
    let valid = valid_items(checkers.alloc, answers, before)?;
    let news = Vec::with_capacity(checkers.alloc, valid.len())?;
    take_each::<P, S>(store, valid, news)?;
    Ok(())
}
