//! Relays that do not follow Mailbox.

ghost use Rattle.std.specs.Prelude.{◌≡◌, IfOk, map};
ghost use Rattle.mailbox.specs.HeldMails.{IsHeld};
ghost use Rattle.mailbox_tour.specs.FaultyLaws.{changing_lawful, forgetful_lawful};
ghost use Rattle.mailbox_tour.specs.FaultyMeaning.{changed, changed_output, changing, forgetful, forgotten};

use authenticators::NodeId;
use log_chain::ByteString;
use mailbox::letters::MAIL;
use mailbox::{Held, Mailbox};
use outcome::Memory;
use replay_verifier::{Input, Output, OutputList, Program, Step};
use state_codec::Listed;
use std::alloc::Global;

/// Does what Mailbox does, but holds no mail: it says that a text is held, and forgets it.
#[derive(Clone, Copy, Debug)]
pub struct Forgetful;

/// What is held, without the mails.
fn forget(alloc: Global, held: Held) -> Held
    ensures { result ≡ forgotten held }
{
    Held {
        clock: held.clock,
        draft: held.draft,
        mails: Listed::new(alloc),
    }
}

impl Program for Forgetful {
    type State = Held;

    ghost means = { forgetful };

    ghost is_state = { IsHeld };

    fn start(&self, alloc: Global, me: NodeId) -> Result<Held, Memory> {
        Mailbox.start(alloc, me)
    }

    fn step(
        &self,
        alloc: Global,
        me: NodeId,
        state: &Held,
        input: &Input,
    ) -> Result<Step<Held>, Memory> {
        let step = Mailbox.step(alloc, me, state, input)?;
        Ok(Step {
            state: forget(alloc, step.state),
            outputs: step.outputs,
        })
    }

    fn encode(&self, alloc: Global, state: &Held) -> Result<Vec<u8>, Memory> {
        Mailbox.encode(alloc, state)
    }

    fn decode(&self, alloc: Global, bytes: &[u8]) -> Result<Option<Held>, Memory> {
        Mailbox.decode(alloc, bytes)
    }

    ghost lawful = { forgetful_lawful };
}

/// Does what Mailbox does, but changes each mail that it sends on: the last byte is exclusive-or 1.
#[derive(Clone, Copy, Debug)]
pub struct Changing;

/// Changes the bytes of a mail, and of nothing else.
fn change(payload: &mut [u8])
    ensures { payload.new ≡ changed payload.old }
{
    let len = payload.len();
    if len > 0 && payload[0] == MAIL {
        payload[len - 1] ^= 1;
    }
}

/// Changes a message, if it is a mail.
fn change_output(output: Output) -> Output
    ensures { result ≡ changed_output output }
{
    let mut payload = output.payload.into_vec();
    change(&mut payload);
    Output {
        to: output.to,
        payload: ByteString::from_vec(payload),
    }
}

/// Changes each mail that a step puts out.
fn change_all(alloc: Global, outputs: OutputList) -> Result<OutputList, Memory>
    ensures { IfOk result (λ l. l ≡ map changed_output outputs) }
{
    let changed: Vec<Output> = outputs
        .into_vec()
        .into_iter()
        .map(|output| change_output(output))
        .collect(alloc)?;
    Ok(OutputList::from_vec(changed))
}

impl Program for Changing {
    type State = Held;

    ghost means = { changing };

    ghost is_state = { IsHeld };

    fn start(&self, alloc: Global, me: NodeId) -> Result<Held, Memory> {
        Mailbox.start(alloc, me)
    }

    fn step(
        &self,
        alloc: Global,
        me: NodeId,
        state: &Held,
        input: &Input,
    ) -> Result<Step<Held>, Memory> {
        let step = Mailbox.step(alloc, me, state, input)?;
        Ok(Step {
            state: step.state,
            outputs: change_all(alloc, step.outputs)?,
        })
    }

    fn encode(&self, alloc: Global, state: &Held) -> Result<Vec<u8>, Memory> {
        Mailbox.encode(alloc, state)
    }

    fn decode(&self, alloc: Global, bytes: &[u8]) -> Result<Option<Held>, Memory> {
        Mailbox.decode(alloc, bytes)
    }

    ghost lawful = { changing_lawful };
}
