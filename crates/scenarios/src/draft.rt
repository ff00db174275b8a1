//! What is read of a scenario, line by line.

ghost use Rattle.std.specs.Prelude.{◌≡◌, IfErr, OnOk, Ok};
ghost use Rattle.outcome.specs.Outcome.{Fails, Gives};
ghost use Rattle.scenarios.specs.declared.fault.ScenarioFault.TheVariants.{Memory};
ghost use Rattle.scenarios.specs.declared.instruction.Instruction.TheVariants as says;
ghost use Rattle.scenarios.specs.Scenarios.{is_listed, line_taken, lines_of, lines_taken, nothing, taken, takes_node};

use crate::fault::ScenarioFault;
use crate::instruction::{Act, Instruction, Member};
use crate::instructions::instruction_of;
use crate::limits::MOST_NODES;
use crate::lines::{first_line, is_skipped};
use authenticators::NodeId;
use std::alloc::Global;
use std::marker::Model;

/// What was read of a scenario so far.
#[derive(Debug, Drop)]
pub(crate) struct Draft {
    pub(crate) witnesses: Option<u8>,
    pub(crate) nodes: Vec<Member>,
    pub(crate) acts: Vec<Act>,
}

impl Model for Draft {
    ghost use Rattle.scenarios.specs.Scenarios.{Draft as TheDraft};

    ghost Value = { TheDraft };

    ghost view = { λ d. record { witnesses = d.witnesses; nodes = d.nodes.items; acts = d.acts.items } };
}

impl Draft {
    /// Makes a draft of which nothing was read.
    fn new(alloc: Global) -> Draft
        ensures { result ≡ nothing }
    {
        Draft {
            witnesses: None,
            nodes: Vec::new(alloc),
            acts: Vec::new(alloc),
        }
    }

    /// Returns whether the node is listed.
    fn is_listed(&self, id: NodeId) -> bool
        ensures { result ≡ is_listed self.now.nodes id }
    {
        self.nodes.iter().any(|member| member.id == id)
    }

    /// Returns whether a node may come now, and this one.
    fn takes_node(&self, id: NodeId) -> bool
        ensures { result ≡ takes_node self.now id }
    {
        let is_new = !self.is_listed(id);
        let has_room = self.nodes.len() < MOST_NODES;
        self.witnesses.is_some() && has_room && self.acts.is_empty() && is_new
    }

    /// Takes how many witnesses there are.
    #[tactic(auto, unfolding(crate::specs::Scenarios::taken))]
    fn take_witnesses(&mut self, count: u8) -> Result<(), ScenarioFault>
        ensures done { OnOk result (taken self.old (says.Witnesses count) ≡ Ok self.new) }
        ensures refused { IfErr result (λ f. Fails Memory f (taken self.old (says.Witnesses count))) }
    {
        if self.witnesses.is_some() {
            return Err(ScenarioFault::BadScenario);
        }
        self.witnesses = Some(count);
        Ok(())
    }

    /// Takes a node.
    #[tactic(auto, unfolding(crate::specs::Scenarios::taken))]
    fn take_node(&mut self, member: Member) -> Result<(), ScenarioFault>
        ensures done { OnOk result (taken self.old (says.Node member) ≡ Ok self.new) }
        ensures refused { IfErr result (λ f. Fails Memory f (taken self.old (says.Node member))) }
    {
        if !self.takes_node(member.id) {
            return Err(ScenarioFault::BadScenario);
        }
        self.nodes.push(member)?;
        Ok(())
    }

    /// Takes what happens.
    #[tactic(auto, unfolding(crate::specs::Scenarios::taken))]
    fn take_act(&mut self, act: Act) -> Result<(), ScenarioFault>
        ensures done { OnOk result (taken self.old (says.Happens act) ≡ Ok self.new) }
        ensures refused { IfErr result (λ f. Fails Memory f (taken self.old (says.Happens act))) }
    {
        if !self.is_listed(act.node()) {
            return Err(ScenarioFault::BadScenario);
        }
        self.acts.push(act)?;
        Ok(())
    }

    /// Takes what a line says.
    fn take(&mut self, instruction: Instruction) -> Result<(), ScenarioFault>
        ensures done { OnOk result (taken self.old instruction ≡ Ok self.new) }
        ensures refused { IfErr result (λ f. Fails Memory f (taken self.old instruction)) }
    {
        match instruction {
            Instruction::Witnesses(count) => self.take_witnesses(count),
            Instruction::Node(member) => self.take_node(member),
            Instruction::Happens(act) => self.take_act(act),
        }
    }

    /// Takes a line.
    #[tactic(auto, unfolding(crate::specs::Scenarios::line_taken))]
    fn take_line(&mut self, line: &[u8]) -> Result<(), ScenarioFault>
        ensures done { OnOk result (line_taken self.old line.now ≡ Ok self.new) }
        ensures refused { IfErr result (λ f. Fails Memory f (line_taken self.old line.now)) }
    {
        if is_skipped(line) {
            return Ok(());
        }
        self.take(instruction_of(line)?)
    }

    /// Returns what the lines of a text say.
    pub(crate) fn read(alloc: Global, text: &[u8]) -> Result<Draft, ScenarioFault>
        ensures { Gives Memory (λ d. d) result (lines_taken nothing (lines_of text.now)) }
    {
        let mut draft = Draft::new(alloc);
        let mut rest = text;
        while let Some((line, more)) = first_line(rest) {
            draft.take_line(line)?;
            rest = more;
        }
        Ok(draft)
    }
}
