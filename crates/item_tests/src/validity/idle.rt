//! A program that does nothing.

ghost use Rattle.item_tests.specs.Idling.{IsIdle, idling, idling_lawful};

use authenticators::NodeId;
use outcome::Memory;
use replay_verifier::{Input, OutputList, Program, Step};
use std::alloc::Global;

/// A program that has one state and puts nothing out.
#[derive(Drop)]
pub(crate) struct Idle;

impl Program for Idle {
    type State = ();

    ghost means = { idling };

    ghost is_state = { IsIdle };

    fn start(&self, _alloc: Global, _me: NodeId) -> Result<(), Memory> {
        Ok(())
    }

    fn step(
        &self,
        alloc: Global,
        _me: NodeId,
        _state: &(),
        _input: &Input,
    ) -> Result<Step<()>, Memory> {
        Ok(Step {
            state: (),
            outputs: OutputList::new(alloc),
        })
    }

    fn encode(&self, alloc: Global, _state: &()) -> Result<Vec<u8>, Memory> {
        Ok(Vec::new(alloc))
    }

    fn decode(&self, _alloc: Global, bytes: &[u8]) -> Result<Option<()>, Memory> {
        match bytes {
            [] => Ok(Some(())),
            [_, ..] => Ok(None),
        }
    }

    ghost lawful = { idling_lawful };
}
