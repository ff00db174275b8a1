//! Readings of what a line says. No call here takes memory.

ghost use Rattle.std.specs.Prelude.{◌≡◌};
ghost use Rattle.scenarios.specs.Instructions.{id_of, kind_of, member_of, pair_of, instruction_of, timer_of, triple_of, witnesses_of};

use crate::fault::ScenarioFault;
use crate::instruction::{Act, Instruction, Kind, Member};
use crate::limits::MOST_WITNESSES;
use crate::lines::{Words, words_of};
use crate::numbers::number_to;
use authenticators::NodeId;

/// Reads a node's number, of 32 bits.
fn id_of(word: &[u8]) -> Result<NodeId, ScenarioFault>
    ensures { result ≡ id_of word.now }
{
    let number = number_to(u64::from(u32::MAX), word)?;
    Ok(NodeId(number as u32))
}

/// Reads the word for a kind of node.
#[tactic(auto, unfolding(crate::specs::Instructions::kind_of))]
fn kind_of(word: &[u8]) -> Result<Kind, ScenarioFault>
    ensures { result ≡ kind_of word.now }
{
    if word == b"honest".as_slice() {
        Ok(Kind::Honest)
    } else if word == b"fork".as_slice() {
        Ok(Kind::Fork)
    } else if word == b"mute".as_slice() {
        Ok(Kind::Mute)
    } else if word == b"wrong".as_slice() {
        Ok(Kind::Wrong)
    } else {
        Err(ScenarioFault::BadScenario)
    }
}

/// Reads the number of witnesses, from 1 to 8.
#[tactic(auto, unfolding(crate::specs::Instructions::witnesses_of))]
fn witnesses_of(word: &[u8]) -> Result<Instruction, ScenarioFault>
    ensures { result ≡ witnesses_of word.now }
{
    let count = number_to(u64::from(MOST_WITNESSES), word)?;
    if count < 1 {
        return Err(ScenarioFault::BadScenario);
    }
    Ok(Instruction::Witnesses(count as u8))
}

/// Reads the number and the kind of a node.
#[tactic(auto, unfolding(crate::specs::Instructions::member_of))]
fn member_of(first: &[u8], second: &[u8]) -> Result<Instruction, ScenarioFault>
    ensures { result ≡ member_of first.now second.now }
{
    let id = id_of(first)?;
    let kind = kind_of(second)?;
    Ok(Instruction::Node(Member { id, kind }))
}

/// Reads the node and the moment of a timer.
#[tactic(auto, unfolding(crate::specs::Instructions::timer_of))]
fn timer_of(first: &[u8], second: &[u8]) -> Result<Instruction, ScenarioFault>
    ensures { result ≡ timer_of first.now second.now }
{
    let node = id_of(first)?;
    let moment = number_to(u64::MAX, second)?;
    Ok(Instruction::Happens(Act::Timer { node, moment }))
}

/// Returns what two words say.
#[tactic(auto, unfolding(crate::specs::Instructions::pair_of, crate::specs::Instructions::happening_of))]
fn pair_of(verb: &[u8], word: &[u8]) -> Result<Instruction, ScenarioFault>
    ensures { result ≡ pair_of verb.now word.now }
{
    if verb == b"witnesses".as_slice() {
        witnesses_of(word)
    } else if verb == b"checkpoint".as_slice() {
        let node = id_of(word)?;
        Ok(Instruction::Happens(Act::Checkpoint { node }))
    } else if verb == b"audit".as_slice() {
        let node = id_of(word)?;
        Ok(Instruction::Happens(Act::Audit { node }))
    } else if verb == b"rekey".as_slice() {
        let node = id_of(word)?;
        Ok(Instruction::Happens(Act::Rekey { node }))
    } else {
        Err(ScenarioFault::BadScenario)
    }
}

/// Returns what three words say.
#[tactic(auto, unfolding(crate::specs::Instructions::triple_of))]
fn triple_of(verb: &[u8], first: &[u8], second: &[u8]) -> Result<Instruction, ScenarioFault>
    ensures { result ≡ triple_of verb.now first.now second.now }
{
    if verb == b"node".as_slice() {
        member_of(first, second)
    } else if verb == b"timer".as_slice() {
        timer_of(first, second)
    } else {
        Err(ScenarioFault::BadScenario)
    }
}

/// Returns what the line says.
#[tactic(auto, unfolding(crate::specs::Instructions::instruction_of))]
pub(crate) fn instruction_of(line: &[u8]) -> Result<Instruction, ScenarioFault>
    ensures { result ≡ instruction_of line.now }
{
    match words_of(line) {
        Some(Words::Two(verb, word)) => pair_of(verb, word),
        Some(Words::Three(verb, first, second)) => triple_of(verb, first, second),
        None => Err(ScenarioFault::BadScenario),
    }
}
