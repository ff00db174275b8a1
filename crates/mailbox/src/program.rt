//! The program of the mail relay.

ghost use Rattle.mailbox.specs.HeldMails.{IsHeld};
ghost use Rattle.mailbox.specs.MailboxLaws.{mailbox_lawful};
ghost use Rattle.mailbox.specs.MailboxMeaning.{mailbox};

use crate::held::Held;
use crate::steps::{hear, tick};
use authenticators::NodeId;
use outcome::Memory;
use replay_verifier::{Input, Program, Step};
use state_codec::{Listed, Text, decoded, encoded};
use std::alloc::Global;

/// The program of the mail relay. It holds texts that nodes leave for one another. Each node's user leaves and fetches texts at
/// [`RELAY`](crate::RELAY).
///
/// - A message of `D`, a node's number in four bytes and a text leaves the text for that node. The answer is one letter, which says
///   whether the text is held ([`letters`](crate::letters)). It is not held if it has more than [`LONGEST_TEXT`](crate::LONGEST_TEXT)
///   bytes, or if [`MOST_MAILS`](crate::MOST_MAILS) mails are held already.
/// - A message of `F` alone fetches. Each mail for the sender is sent to it, and is held no longer.
/// - An answer does nothing. Any other message is answered by `?`.
/// - A moment of the timer below 2^63 is the time. It sets the clock, but never back. A mail that came more than
///   [`LIFETIME`](crate::LIFETIME) before is held no longer.
/// - Any other moment is a wish of the node's user ([`wishes`](crate::wishes)).
#[derive(Clone, Copy, Debug)]
pub struct Mailbox;

impl Program for Mailbox {
    type State = Held;

    ghost means = { mailbox };

    ghost is_state = { IsHeld };

    fn start(&self, alloc: Global, _me: NodeId) -> Result<Held, Memory> {
        Ok(Held {
            clock: 0,
            draft: Text::from_slice(alloc, &[])?,
            mails: Listed::new(alloc),
        })
    }

    fn step(
        &self,
        alloc: Global,
        _me: NodeId,
        state: &Held,
        input: &Input,
    ) -> Result<Step<Held>, Memory> {
        match input {
            Input::Recv { from, payload } => Ok(hear(alloc, state, *from, payload)?),
            Input::Timer { moment } => Ok(tick(alloc, state, *moment)?),
        }
    }

    fn encode(&self, alloc: Global, state: &Held) -> Result<Vec<u8>, Memory> {
        Ok(encoded(alloc, state)?)
    }

    fn decode(&self, alloc: Global, bytes: &[u8]) -> Result<Option<Held>, Memory> {
        Ok(decoded(alloc, bytes)?)
    }

    ghost lawful = { mailbox_lawful };
}
