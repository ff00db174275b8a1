//! Scenarios.

ghost use Rattle.std.specs.Prelude.{◌≡◌, nat_lt};
ghost use Rattle.std.specs.List.{list_all};
ghost use Rattle.outcome.specs.Outcome.{Gives};
ghost use Rattle.scenarios.specs.declared.fault.ScenarioFault.TheVariants.{Memory};
ghost use Rattle.scenarios.specs.Scenarios.{completed, is_readable, scenario_of};

use crate::draft::Draft;
use crate::fault::ScenarioFault;
use crate::instruction::{Act, Member};
use crate::limits::MOST_LINES;
use crate::lines::line_count;
use std::alloc::Global;
use std::marker::Model;

/// What nodes and witnesses do. A contract sees how many witnesses there are, the nodes, and what happens to them.
#[derive(Debug, Drop)]
pub struct Scenario {
    witnesses: u8,
    nodes: Vec<Member>,
    acts: Vec<Act>,
}

impl Model for Scenario {
    ghost use Rattle.scenarios.specs.Scenarios.{Script};

    ghost Value = { Script };

    ghost view = { λ s. record { witnesses = s.witnesses; nodes = s.nodes.items; acts = s.acts.items } };
}

/// Returns whether all bytes are below 128.
fn is_ascii(text: &[u8]) -> bool
    ensures { result ≡ list_all (λ byte. nat_lt byte 128) text.now }
{
    text.iter().all(|byte| *byte < 128)
}

/// Returns whether all bytes are below 128 and the lines are not too many.
fn is_readable(text: &[u8]) -> bool
    ensures { result ≡ is_readable text.now }
{
    is_ascii(text) && line_count(text) <= MOST_LINES
}

/// Returns the scenario, if it says how many witnesses there are and has a node.
fn completed(draft: Draft) -> Result<Scenario, ScenarioFault>
    ensures { result ≡ completed draft.witnesses draft.nodes draft.acts }
{
    match draft.witnesses {
        Some(witnesses) if !draft.nodes.is_empty() => Ok(Scenario {
            witnesses,
            nodes: draft.nodes,
            acts: draft.acts,
        }),
        _ => Err(ScenarioFault::BadScenario),
    }
}

impl Scenario {
    /// Reads a scenario's text.
    ///
    /// Its bytes are below 128. It has at most 1,000 lines. Each line ends with a line feed, which the last may lack. Empty lines and lines
    /// that begin with `#` are skipped, but count. In the other lines, one blank separates two words, and numbers are decimal digits
    /// without leading zeros. These lines are, in this order:
    ///
    /// - `witnesses W`, once, with a number from 1 to 8;
    /// - `node ID KIND`, 1 to 64 times, with different numbers of 32 bits, and a kind of `honest`, `fork`, `mute` and `wrong`;
    /// - any number of `timer ID M`, with a moment of 64 bits, `checkpoint ID`, `audit ID` and `rekey ID`, each of a listed node.
    ///
    /// All else is refused with `BadScenario` (105). `Memory` may come in place of it, or of the answer.
    pub fn read(alloc: Global, text: &[u8]) -> Result<Scenario, ScenarioFault>
        ensures { Gives Memory (λ s. s) result (scenario_of text.now) }
    {
        if !is_readable(text) {
            return Err(ScenarioFault::BadScenario);
        }
        let draft = Draft::read(alloc, text)?;
        completed(draft)
    }

    /// Returns how many witnesses there are: 1 to 8.
    pub fn witnesses(&self) -> u8
        ensures { result ≡ self.now.witnesses }
    {
        self.witnesses
    }

    /// Returns the nodes, in the order in which they are listed.
    pub fn nodes(&self) -> &[Member]
        ensures { result.now ≡ self.now.nodes }
    {
        &self.nodes
    }

    /// Returns what happens, in order.
    pub fn acts(&self) -> &[Act]
        ensures { result.now ≡ self.now.acts }
    {
        &self.acts
    }
}
