//! The engine of `play`, which returns what a scenario leaves, as files that the other engines read.

ghost use Rattle.std.specs.Prelude.{◌≡◌, ◌⊎◌, ◌<◌, ◌^◌, IfErr, IfOk, MatchResult, Ok, OnOk, map};
ghost use Rattle.authenticators.specs.DirectoryText.{directory_text};
ghost use Rattle.evidence.specs.Exports.{export_of};
ghost use Rattle.scenarios.specs.Scenarios.{scenario_of};
ghost use Rattle.commands.specs.declared.fault.Fault.TheVariants as fault;
ghost use Rattle.commands.specs.Scenarios.{IsNone, IsOfRun};
ghost use Rattle.commands.specs.within.OwnFaults.{IsOwn};
ghost use Rattle.operating.specs.FileTexts.{IsOfReading};
ghost use Rattle.operating.specs.Plays.{AreLeft, Leaves, RefusesPlay};

use crate::files::{Limits, Opener};
use crate::reading::read_said;
use crate::refusal::Refusal;
use commands::Store;
use commands::fault::Fault;
use evidence::Evidence;
use replay_verifier::Program;
use scenario_run::{Outcome, Scenario, Witness};
use scenarios::ScenarioFault;
use std::alloc::{AllocError, Global};
use std::sync::Wait;
use std::thread::Threads;

/// What a scenario leaves.
#[derive(Drop)]
pub struct Played {
    /// The encoding of the directory of its nodes.
    pub directory: Vec<u8>,
    /// The encoding of the store of each witness, in order.
    pub stores: Vec<Vec<u8>>,
}

/// Reads the scenario that a text is.
fn scenario_in(alloc: Global, text: &[u8]) -> Result<Scenario, Fault>
    ensures told { MatchResult result (λ s. scenario_of text.now ≡ Ok s) (λ f. (f ≡ fault.Memory) ⊎ IsNone text.now f) }
    ensures own { IfErr result IsOwn }
{
    match Scenario::read(alloc, text) {
        Ok(scenario) => Ok(scenario),
        Err(ScenarioFault::BadScenario) => Err(Fault::BadScenario),
        Err(ScenarioFault::Memory) => Err(Fault::Memory),
    }
}

/// Returns the encodings of the witnesses' stores.
fn stores_of<P: Program, S: Evidence<P>>(
    alloc: Global,
    witnesses: &[Witness<S>],
) -> Result<Vec<Vec<u8>>, AllocError>
    ensures { IfOk result (λ v. map (λ t. t.items) v.items ≡ map (λ w. export_of (S.contents w.store).items) witnesses.now) }
{
    let mut texts = Vec::new(alloc);
    for witness in witnesses {
        let text = witness.store.export()?;
        texts.push(text)?;
    }
    Ok(texts)
}

/// Returns the encodings of what a run left.
fn texts_of<P: Program, S: Evidence<P>>(
    alloc: Global,
    outcome: &Outcome<S>,
) -> Result<Played, AllocError>
    ensures directory { IfOk result (λ p. p.directory.items ≡ directory_text outcome.now.directory) }
    ensures stores { IfOk result (λ p. map (λ t. t.items) p.stores.items ≡ map (λ w. export_of (S.contents w.store).items) outcome.now.witnesses.items) }
{
    let directory = outcome.directory.to_bytes()?;
    let stores = stores_of::<P, S>(alloc, &outcome.witnesses)?;
    Ok(Played { directory, stores })
}

/// Returns what a scenario leaves, if this number of workers checks its items.
fn play_out<
    H: Threads + Wait + Sync,
    P: Program + Copy + Send + Sync + Drop,
    S: Evidence<P> + Send,
>(rt: &H, alloc: Global, program: &P, scenario: &Scenario, workers: usize) -> Result<Played, Fault>
where
    P::State: Send,
    ensures told { MatchResult result (AreLeft P.means scenario.now workers) (λ f. (f ≡ fault.Memory) ⊎ IsOfRun workers f) }
    ensures own { IfErr result IsOwn }
{
    let outcome: Outcome<S> = match scenario_run::run(rt, alloc, *program, scenario, workers) {
        Ok(outcome) => outcome,
        Err(fault) => return Err(Fault::Run(fault)),
    };
    let texts = texts_of::<P, S>(alloc, &outcome)?;
    Ok(texts)
}

/// Reads the scenario that file 0 says, and plays it. Returns the directory of its nodes and the store of each of its witnesses. No
/// contract says which items the stores have. `limits.workers` workers check the items.
pub fn run<H: Threads + Wait + Sync, P: Program + Copy + Send + Sync + Drop, O: Opener>(
    rt: &H,
    alloc: Global,
    program: &P,
    opener: &mut O,
    limits: Limits,
) -> Result<Played, Refusal>
where
    P::State: Send,
    requires room { (O.seen opener.old).failures < 2 ^ 63 }
    ensures left { IfOk result (Leaves P.means limits.most_bytes limits.workers ((O.seen opener.old).files 0)) }
    ensures refused { IfErr result (RefusesPlay limits.most_bytes limits.workers ((O.seen opener.old).files 0)) }
    ensures blamed { IfErr result (λ r. IsOfReading (O.seen opener.old) (O.seen opener.new) r.fault) }
    ensures quiet { OnOk result ((O.seen opener.new).failures ≡ (O.seen opener.old).failures) }
{
    let text = read_said(alloc, opener, 0, None, limits)?;
    let scenario = match scenario_in(alloc, &text) {
        Ok(scenario) => scenario,
        Err(fault) => return Err(Refusal::of_text(0, &text, fault)),
    };
    match play_out::<H, P, Store<P>>(rt, alloc, program, &scenario, limits.workers) {
        Ok(texts) => Ok(texts),
        Err(fault) => Err(Refusal::of_none(fault)),
    }
}
