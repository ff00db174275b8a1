//! The steps that send the relay a request, and those that do nothing.

ghost use Rattle.std.specs.Prelude.{◌≡◌, ◌≤◌, IfOk, length};
ghost use Rattle.mailbox.specs.UserWishes.{asking, fetching, leaving, silent, wished, writing};

use crate::held::{Held, LONGEST_TEXT, RELAY};
use crate::letters::{DELIVER, FETCH};
use crate::wishes::{FETCH_WISH, LEAVE_WISH};
use authenticators::NodeId;
use log_chain::{ByteString, FieldWriter};
use outcome::Memory;
use replay_verifier::{Output, OutputList, Step};
use state_codec::{Coded, Text};
use std::alloc::Global;

/// Makes the step that does nothing.
pub(crate) fn stay(alloc: Global, held: &Held) -> Result<Step<Held>, Memory>
    ensures { IfOk result (λ x. x ≡ silent held.now) }
{
    Ok(Step {
        state: held.try_clone(alloc)?,
        outputs: OutputList::new(alloc),
    })
}

/// Makes the step to this state that sends the relay a request.
fn ask(alloc: Global, state: Held, request: Vec<u8>) -> Result<Step<Held>, Memory>
    ensures { IfOk result (λ x. x ≡ asking state request.items) }
{
    let mut outputs = Vec::new(alloc);
    outputs.push(Output {
        to: RELAY,
        payload: ByteString::from_vec(request),
    })?;
    Ok(Step {
        state,
        outputs: OutputList::from_vec(outputs),
    })
}

/// Returns what the node holds, with another draft.
fn with_draft(alloc: Global, held: &Held, draft: &[u8]) -> Result<Held, Memory>
    requires { length draft.now ≤ LONGEST_TEXT }
    ensures { IfOk result (λ x. x ≡ (record held.now { draft = draft.now })) }
{
    Ok(Held {
        clock: held.clock,
        draft: Text::from_slice(alloc, draft)?,
        mails: held.mails.try_clone(alloc)?,
    })
}

/// Makes the step that fetches.
fn fetch(alloc: Global, held: &Held) -> Result<Step<Held>, Memory>
    ensures { IfOk result (λ x. x ≡ fetching held.now) }
{
    let request = Vec::from_slice(alloc, &[FETCH])?;
    Ok(ask(alloc, held.try_clone(alloc)?, request)?)
}

/// Makes the step that writes bytes to the end of the draft, if they fit. Else it does nothing.
#[tactic(auto, unfolding(crate::specs::UserWishes::writing))]
fn write(alloc: Global, held: &Held, bytes: &[u8]) -> Result<Step<Held>, Memory>
    ensures { IfOk result (λ x. x ≡ writing held.now bytes.now) }
{
    let mut draft = Vec::from_slice(alloc, held.draft.as_slice())?;
    draft.extend_from_slice(bytes)?;
    if draft.len() > LONGEST_TEXT as usize {
        return Ok(stay(alloc, held)?);
    }
    Ok(Step {
        state: with_draft(alloc, held, &draft)?,
        outputs: OutputList::new(alloc),
    })
}

/// Makes the step that leaves the draft for the node `to`.
#[tactic(auto, unfolding(crate::specs::UserWishes::leaving))]
fn leave(alloc: Global, held: &Held, to: NodeId) -> Result<Step<Held>, Memory>
    ensures { IfOk result (λ x. x ≡ leaving held.now to) }
{
    let mut writer = FieldWriter::new(alloc);
    writer.u8(DELIVER)?;
    writer.u32(to.0)?;
    writer.rest(held.draft.as_slice())?;
    let state = with_draft(alloc, held, &[])?;
    Ok(ask(alloc, state, writer.finish())?)
}

/// Makes the step at a moment that is a wish.
pub(crate) fn wish(alloc: Global, held: &Held, moment: u64) -> Result<Step<Held>, Memory>
    ensures { IfOk result (λ x. x ≡ wished held.now moment) }
{
    let wish = moment.to_be_bytes();
    match wish {
        [FETCH_WISH, ..] => Ok(fetch(alloc, held)?),
        [LEAVE_WISH, _, _, _, a, b, c, d] => {
            let to = NodeId(u32::from_be_bytes([a, b, c, d]));
            Ok(leave(alloc, held, to)?)
        }
        [kind, ..] if kind > FETCH_WISH && kind < LEAVE_WISH => {
            let count = kind - FETCH_WISH;
            Ok(write(alloc, held, &wish[8 - count as usize..])?)
        }
        _ => Ok(stay(alloc, held)?),
    }
}
