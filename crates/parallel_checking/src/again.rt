//! Checks that are made again, since they were refused memory.

ghost use Rattle.std.specs.Prelude.{◌≡◌, ◌≢◌, ◌↔◌, ◌<◌, ◌≤◌, ◌⊎◌, All, Err, IfErr, IfOk, count_by, length, slice_set};
ghost use Rattle.parallel_checking.specs.Again.{AreAgain, wants_answer};
ghost use Rattle.parallel_checking.specs.declared.fault.CheckAllFault.TheVariants as all;
ghost use Rattle.parallel_checking.specs.declared.limits.TheConstants.{MOST_WORKERS};
ghost use Rattle.parallel_checking.specs.within.Placing.{ArePlaced, AreWanting, IsPlacedAt, IsPlaceOf, written};

use crate::checking::{Gate, check_copy};
use crate::fault::CheckAllFault;
use crate::limits::MOST_WORKERS;
use authenticators::Directory;
use evidence_item::{Checked, Item, ItemFault};
use outcome::Memory;
use parallel_map::map_claimed;
use replay_verifier::Program;
use std::alloc::{AllocError, Global};
use std::thread::Threads;

/// An answer, and its place.
#[derive(Drop)]
struct Placed<T> {
    place: usize,
    answer: T,
}

/// Returns whether the check was refused memory.
#[tactic(auto, unfolding(crate::specs::Again::wants_answer))]
fn wants<P: Program>(answer: &Result<Checked<P>, ItemFault>) -> bool
    ensures { result ≡ wants_answer answer.now }
{
    matches!(answer, Err(ItemFault::Memory))
}

/// Returns the places that want an answer, ascending.
fn wanting<P: Program>(
    alloc: Global,
    results: &[Result<Checked<P>, ItemFault>],
) -> Result<Vec<usize>, Memory>
    ensures { IfOk result (λ places. AreWanting results.now (length results.now) places.items) }
{
    let mut places = Vec::new(alloc);
    for n in 0..results.len() {
        if wants(&results[n]) {
            places.push(n)?;
        }
    }
    Ok(places)
}

/// Returns how many places want an answer.
fn how_many<P: Program>(results: &[Result<Checked<P>, ItemFault>]) -> usize
    ensures { result ≡ count_by wants_answer results.now }
{
    results.iter().filter(|r| wants(r)).count()
}

/// Writes an answer to a place.
fn write<T: Drop>(results: &mut Vec<T>, place: usize, answer: T)
    requires { place < length results.old.items }
    ensures { results.new.items ≡ slice_set results.old.items place answer }
{
    results[place] = answer;
}

/// Writes the answers to their places, one after the other. It takes no memory.
fn write_all<T: Drop>(results: &mut Vec<T>, answers: Vec<Placed<T>>)
    requires { All (IsPlaceOf results.old.items) answers.items }
    ensures { results.new.items ≡ written results.old.items answers.items }
{
    for one in answers {
        let Placed { place, answer } = one;
        write(results, place, answer);
    }
}

/// Checks the items at the places, by so many workers. Each answer comes with its place.
fn check_places<R: Threads + Sync, P: Program + Send + Sync, G: Gate + Sync>(
    rt: &R,
    alloc: Global,
    program: &P,
    directory: &Directory,
    items: &[Item],
    places: &[usize],
    workers: usize,
    gate: &G,
) -> Result<Vec<Placed<Result<Checked<P>, ItemFault>>>, Memory>
where
    P::State: Send,
    requires workers { (0 < workers) × (workers ≤ MOST_WORKERS) }
    requires places { All (λ n. n < length items.now) places.now }
    ensures { IfOk result (λ v. ArePlaced directory.now P.means items.now places.now v.items) }
{
    let check = |k: usize| -> Placed<Result<Checked<P>, ItemFault>>
        requires { (k < length places.now) × All (λ n. n < length items.now) places.now }
        ensures { IsPlacedAt directory.entry.now P.means items.entry.now places.entry.now k result }
    {
        let place = places[k];
        gate.enter(place);
        let answer = check_copy(alloc, program, directory, &items[place]);
        gate.leave(place);
        Placed { place, answer }
    };
    let answers = map_claimed(rt, alloc, places.len(), workers, &check)?;
    Ok(answers)
}

/// Checks those items again whose result is `Memory`, by so many workers. It writes each answer to its place and leaves the other results.
/// It returns how many results are `Memory` now. The gate is called before and after each check.
///
/// The call reports the first of these that applies, and then leaves all results:
///
/// - `BadWorkers` (90), if the workers are not 1 to [`MOST_WORKERS`];
/// - `LengthMismatch` (93), if there is not one result for each item;
/// - `Memory`, if a growth beside the checks was refused. All growths come before the first result is written.
pub fn check_again<R: Threads + Sync, P: Program + Send + Sync, G: Gate + Sync>(
    rt: &R,
    alloc: Global,
    program: &P,
    directory: &Directory,
    items: &[Item],
    results: &mut Vec<Result<Checked<P>, ItemFault>>,
    workers: usize,
    gate: &G,
) -> Result<u64, CheckAllFault>
where
    P::State: Send,
    ensures again { IfOk result (λ left. AreAgain directory.now P.means items.now results.old.items left results.new.items) }
    ensures kept { IfErr result (λ _. results.new ≡ results.old) }
    ensures refused { (result ≡ Err all.BadWorkers) ↔ ((workers ≡ 0) ⊎ (MOST_WORKERS < workers)) }
    ensures lengths { (result ≡ Err all.LengthMismatch) ↔ ((0 < workers) × (¬ (MOST_WORKERS < workers)) × (length results.old.items ≢ length items.now)) }
{
    if workers == 0 || workers > MOST_WORKERS {
        return Err(CheckAllFault::BadWorkers);
    }
    if results.len() != items.len() {
        return Err(CheckAllFault::LengthMismatch);
    }
    let places = match wanting(alloc, results) {
        Ok(places) => places,
        Err(AllocError) => return Err(CheckAllFault::Memory),
    };
    let answers = match check_places(rt, alloc, program, directory, items, &places, workers, gate) {
        Ok(answers) => answers,
        Err(AllocError) => return Err(CheckAllFault::Memory),
    };
    write_all(results, answers);
    Ok(how_many(results) as u64)
}
