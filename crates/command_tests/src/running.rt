//! Scenarios that are run.

use evidence_store::{Evidence, IndexedStore, PlainStore};
use ref_programs::Tally;
use scenario_run::{Outcome, RunFault, Witness, run};
use scenarios::Scenario;
use std::alloc::Global;
use std::sync::Wait;
use std::test::Fail;
use std::thread::Threads;

/// What comes of the scenario in the end.
fn outcome<S: Evidence<Tally> + Send, R: Threads + Wait + Sync>(
    rt: &R,
    alloc: Global,
    text: &[u8],
    workers: usize,
) -> Result<Outcome<S>, Fail> {
    let scenario = Scenario::read(alloc, text)?;
    Ok(run(rt, alloc, Tally, &scenario, workers)?)
}

/// How many items a witness has, and how many calls each of its passes notes.
fn counts_of<S: Evidence<Tally>>(alloc: Global, witness: &Witness<S>) -> Result<Vec<u64>, Fail> {
    let mut counts = Vec::new(alloc);
    counts.push(witness.store.count())?;
    for pass in &witness.passes {
        counts.push(pass.calls().len() as u64)?;
    }
    Ok(counts)
}

/// The same of witnesses, one after the other.
fn counts_of_all<S: Evidence<Tally>>(
    alloc: Global,
    witnesses: &[Witness<S>],
) -> Result<Vec<u64>, Fail> {
    let mut counts = Vec::new(alloc);
    for witness in witnesses {
        let own = counts_of(alloc, witness)?;
        counts.extend_from_slice(&own)?;
    }
    Ok(counts)
}

/// These counts of the witnesses of the scenario in the end.
fn counts<S: Evidence<Tally> + Send, R: Threads + Wait + Sync>(
    rt: &R,
    alloc: Global,
    text: &[u8],
    workers: usize,
) -> Result<Vec<u64>, Fail> {
    let outcome: Outcome<S> = outcome(rt, alloc, text, workers)?;
    counts_of_all(alloc, &outcome.witnesses)
}

/// Whether the scenario, of which three items come, is run by any number of workers as it is told: witness 0 gets the first and the last
/// of them, one for each of its callers, and witness 1 the other. Then the second caller of each exports the store, and merges what the
/// other witness has.
fn runs_as_told<S: Evidence<Tally> + Send, R: Threads + Wait + Sync>(
    rt: &R,
    alloc: Global,
) -> Result<bool, Fail> {
    let text =
        b"witnesses 2\nnode 1 honest\nnode 2 wrong\nnode 3 mute\ntimer 1 5\ntimer 2 7\naudit 2\n";
    for workers in [1, 2, 8] {
        let counts = counts::<S, R>(rt, alloc, text, workers)?;
        if counts.as_slice() != [3, 1, 3, 3, 1, 2].as_slice() {
            return Ok(false);
        }
    }
    Ok(true)
}

#[test]
fn a_scenario_is_run(rt: HostRuntime) -> Result<(), Fail> {
    assert!(rt; runs_as_told::<PlainStore<Tally>, HostRuntime>(&rt, rt.alloc())?);
    assert!(rt; runs_as_told::<IndexedStore<Tally>, HostRuntime>(&rt, rt.alloc())?);
    Ok(())
}

/// Whether each wrong number of workers is told.
fn tells_wrong_numbers<S: Evidence<Tally> + Send, R: Threads + Wait + Sync>(
    rt: &R,
    alloc: Global,
) -> Result<bool, Fail> {
    let scenario = Scenario::read(alloc, b"witnesses 1\nnode 1 honest\ntimer 1 5\n")?;
    for workers in [0, 9, usize::MAX] {
        let told: Result<Outcome<S>, RunFault> = run(rt, alloc, Tally, &scenario, workers);
        if !matches!(told, Err(RunFault::BadWorkers)) {
            return Ok(false);
        }
    }
    Ok(true)
}

#[test]
fn a_wrong_number_of_workers_is_told(rt: HostRuntime) -> Result<(), Fail> {
    assert!(rt; tells_wrong_numbers::<PlainStore<Tally>, HostRuntime>(&rt, rt.alloc())?);
    assert!(rt; tells_wrong_numbers::<IndexedStore<Tally>, HostRuntime>(&rt, rt.alloc())?);
    assert!(rt; RunFault::BadWorkers.number() == 90);
    assert!(rt; RunFault::BadWorkers.name() == "BadWorkers");
    Ok(())
}
