//! A state is given and told in its bytes: the clock in eight, the draft behind its length in four, the count of mails in four, and
//! each mail as its sender, its receiver, its moment, and its text behind the text's length in four.

use authenticators::NodeId;
use log_chain::FieldWriter;
use mailbox::Mailbox;
use replay_verifier::{Input, Output, Program};
use std::alloc::Global;
use std::test::Fail;

/// No draft and no mail, at moment 5.
pub(crate) const EMPTY: &[u8] = b"\0\0\0\0\0\0\0\x05\0\0\0\0\0\0\0\0";

/// Writes the outputs: each is its receiver, the length of its payload in eight bytes, and the payload.
fn tell(writer: &mut FieldWriter, outputs: &[Output]) -> Result<(), Fail> {
    for output in outputs {
        writer.u32(output.to.0)?;
        writer.u64(output.payload.len() as u64)?;
        writer.rest(output.payload.as_slice())?;
    }
    Ok(())
}

/// The state after a step of node 9 from the state of these bytes, and then what is put out. Nothing where there is no such state.
fn after(alloc: Global, state: &[u8], input: &Input) -> Result<Vec<u8>, Fail> {
    let mut writer = FieldWriter::new(alloc);
    if let Some(state) = Mailbox.decode(alloc, state)? {
        let step = Mailbox.step(alloc, NodeId(9), &state, input)?;
        writer.rest(&Mailbox.encode(alloc, &step.state)?)?;
        tell(&mut writer, step.outputs.as_slice())?;
    }
    Ok(writer.finish())
}

/// The same, where a message of the node comes.
pub(crate) fn heard(
    alloc: Global,
    state: &[u8],
    from: u32,
    payload: &[u8],
) -> Result<Vec<u8>, Fail> {
    let from = NodeId(from);
    after(alloc, state, &Input::Recv { from, payload })
}

/// The same, where a moment of the timer comes.
pub(crate) fn ticked(alloc: Global, state: &[u8], moment: u64) -> Result<Vec<u8>, Fail> {
    after(alloc, state, &Input::Timer { moment })
}
