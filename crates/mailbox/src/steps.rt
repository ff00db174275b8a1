//! The steps on messages and moments.

ghost use Rattle.std.specs.Prelude.{◌≡◌, IfOk, filter, map, not};
ghost use Rattle.mailbox.specs.MailboxMeaning.{answered, delivered, fetched, heard, is_for, is_fresh, passed, sent, ticked};

use crate::asking::{stay, wish};
use crate::held::{Held, LIFETIME, LONGEST_TEXT, Mail};
use crate::letters::{DELIVER, FETCH, FULL, MAIL, STORED, TOO_LONG, UNCLEAR};
use authenticators::NodeId;
use log_chain::{ByteString, FieldWriter};
use outcome::Memory;
use replay_verifier::{Output, OutputList, Step};
use state_codec::{Coded, Keeps, Text};
use std::alloc::Global;

/// Makes the step to this state that answers a node with a receipt.
fn answer(alloc: Global, state: Held, to: NodeId, letter: u8) -> Result<Step<Held>, Memory>
    ensures { IfOk result (λ x. x ≡ answered state to letter) }
{
    let mut outputs = Vec::new(alloc);
    outputs.push(Output {
        to,
        payload: ByteString::from_slice(alloc, &[letter])?,
    })?;
    Ok(Step {
        state,
        outputs: OutputList::from_vec(outputs),
    })
}

/// Makes the step on a text of `from` for the node `to`.
fn deliver(
    alloc: Global,
    held: &Held,
    from: NodeId,
    to: NodeId,
    text: &[u8],
) -> Result<Step<Held>, Memory>
    ensures { IfOk result (λ x. x ≡ delivered held.now from to text.now) }
{
    if text.len() > LONGEST_TEXT as usize {
        return Ok(answer(alloc, held.try_clone(alloc)?, from, TOO_LONG)?);
    }
    if held.mails.is_full() {
        return Ok(answer(alloc, held.try_clone(alloc)?, from, FULL)?);
    }
    let mail = Mail {
        from,
        to,
        at: held.clock,
        text: Text::from_slice(alloc, text)?,
    };
    let state = Held {
        clock: held.clock,
        draft: held.draft.try_clone(alloc)?,
        mails: held.mails.with(alloc, mail)?,
    };
    Ok(answer(alloc, state, from, STORED)?)
}

/// Returns the message in which the mail is sent to its receiver.
fn sent(alloc: Global, mail: &Mail) -> Result<Output, Memory>
    ensures { IfOk result (λ o. o ≡ sent mail.now) }
{
    let mut writer = FieldWriter::new(alloc);
    writer.u8(MAIL)?;
    writer.u32(mail.from.0)?;
    writer.rest(mail.text.as_slice())?;
    Ok(Output {
        to: mail.to,
        payload: ByteString::from_vec(writer.finish()),
    })
}

/// Returns whether the mail is for the node.
fn is_for(node: NodeId, mail: &Mail) -> bool
    ensures { result ≡ is_for node mail.now }
{
    mail.to == node
}

/// Returns the messages in which the mails for the node are sent to it.
fn sent_to(alloc: Global, mails: &[Mail], to: NodeId) -> Result<Vec<Output>, Memory>
    ensures { IfOk result (λ v. v.items ≡ map sent (filter (is_for to) mails.now)) }
{
    let mut outputs = Vec::new(alloc);
    for mail in mails {
        if is_for(to, mail) {
            outputs.push(sent(alloc, mail)?)?;
        }
    }
    Ok(outputs)
}

/// A filter, which keeps the mails for other nodes than this one.
#[derive(Clone, Copy)]
struct ForOthers {
    node: NodeId,
}

impl Keeps<Mail> for ForOthers {
    ghost keeps = { λ t m. not (is_for t.node m) };

    fn keeps(&self, mail: &Mail) -> bool {
        !is_for(self.node, mail)
    }
}

/// Makes the step on a request of `from` for its mails.
fn fetch(alloc: Global, held: &Held, from: NodeId) -> Result<Step<Held>, Memory>
    ensures { IfOk result (λ x. x ≡ fetched held.now from) }
{
    let outputs = sent_to(alloc, held.mails.as_slice(), from)?;
    let mails = held.mails.kept(alloc, &ForOthers { node: from })?;
    Ok(Step {
        state: Held {
            clock: held.clock,
            draft: held.draft.try_clone(alloc)?,
            mails,
        },
        outputs: OutputList::from_vec(outputs),
    })
}

/// Makes the step on a message of `from`.
pub(crate) fn hear(
    alloc: Global,
    held: &Held,
    from: NodeId,
    payload: &[u8],
) -> Result<Step<Held>, Memory>
    ensures { IfOk result (λ x. x ≡ heard held.now from payload.now) }
{
    match payload {
        [DELIVER, a, b, c, d, text @ ..] => {
            let to = NodeId(u32::from_be_bytes([*a, *b, *c, *d]));
            Ok(deliver(alloc, held, from, to, text)?)
        }
        [FETCH] => Ok(fetch(alloc, held, from)?),
        [MAIL | STORED | TOO_LONG | FULL | UNCLEAR, ..] => Ok(stay(alloc, held)?),
        _ => Ok(answer(alloc, held.try_clone(alloc)?, from, UNCLEAR)?),
    }
}

/// A filter, which keeps the mails that are not too old at this time.
#[derive(Clone, Copy)]
struct Fresh {
    clock: u64,
}

impl Keeps<Mail> for Fresh {
    ghost keeps = { λ t m. is_fresh t.clock m };

    fn keeps(&self, mail: &Mail) -> bool {
        self.clock.saturating_sub(mail.at) <= LIFETIME
    }
}

/// Makes the step at a moment that is the time.
fn pass(alloc: Global, held: &Held, moment: u64) -> Result<Step<Held>, Memory>
    ensures { IfOk result (λ x. x ≡ passed held.now moment) }
{
    let clock = held.clock.max(moment);
    let mails = held.mails.kept(alloc, &Fresh { clock })?;
    Ok(Step {
        state: Held {
            clock,
            draft: held.draft.try_clone(alloc)?,
            mails,
        },
        outputs: OutputList::new(alloc),
    })
}

/// Makes the step at a moment of the timer.
pub(crate) fn tick(alloc: Global, held: &Held, moment: u64) -> Result<Step<Held>, Memory>
    ensures { IfOk result (λ x. x ≡ ticked held.now moment) }
{
    if moment < 1 << 63 {
        Ok(pass(alloc, held, moment)?)
    } else {
        Ok(wish(alloc, held, moment)?)
    }
}
