//! The state of a node.

ghost use Rattle.std.specs.Prelude.{◌≡◌, IfOk};
ghost use Rattle.mailbox.specs.HeldMails.{IsHeld, IsMail, held_coding, mail_coding};
ghost use Rattle.mailbox.specs.MailboxLaws.{held_lawful, mail_lawful};

use authenticators::NodeId;
use log_chain::{FieldReader, FieldWriter};
use outcome::Memory;
use state_codec::{CodeFault, Coded, Listed, Text};
use std::alloc::Global;

/// The greatest length of a text, in bytes.
pub const LONGEST_TEXT: u32 = 256;

/// The greatest number of mails that a node holds. All of them can be sent in one step.
pub const MOST_MAILS: u32 = 16;

/// The longest time for which a mail is held, in the unit of the timer's moments.
pub const LIFETIME: u64 = 1000;

/// The number of the relay.
const RELAY_NUMBER: u32 = 1;

/// The relay: the node at which the users of all nodes leave texts, and from which they fetch.
pub const RELAY: NodeId = NodeId(RELAY_NUMBER);

/// A text that one node left for another.
#[derive(Drop)]
pub struct Mail {
    /// The node that left it.
    pub from: NodeId,
    /// The node that it is for.
    pub to: NodeId,
    /// The clock of the node that holds it, when it came.
    pub at: u64,
    /// The text.
    pub text: Text<LONGEST_TEXT>,
}

/// The state of a node: what it holds.
#[derive(Drop)]
pub struct Held {
    /// The latest time of the timer, or 0 if there was none yet.
    pub clock: u64,
    /// The text that the node's user wrote and has not left yet.
    pub draft: Text<LONGEST_TEXT>,
    /// The mails, the oldest first.
    pub mails: Listed<Mail, MOST_MAILS>,
}

impl Coded for Mail {
    ghost coding = { mail_coding };

    ghost fits = { IsMail };

    fn write(&self, writer: &mut FieldWriter) -> Result<(), Memory> {
        self.from.write(writer)?;
        self.to.write(writer)?;
        self.at.write(writer)?;
        self.text.write(writer)?;
        Ok(())
    }

    fn try_clone(&self, alloc: Global) -> Result<Mail, Memory> {
        Ok(Mail {
            from: self.from,
            to: self.to,
            at: self.at,
            text: self.text.try_clone(alloc)?,
        })
    }

    fn read(alloc: Global, reader: &mut FieldReader) -> Result<Mail, CodeFault> {
        let from = NodeId::read(alloc, reader)?;
        let to = NodeId::read(alloc, reader)?;
        let at = u64::read(alloc, reader)?;
        let text = Text::read(alloc, reader)?;
        Ok(Mail { from, to, at, text })
    }

    ghost lawful = { mail_lawful };
}

impl Coded for Held {
    ghost coding = { held_coding };

    ghost fits = { IsHeld };

    fn write(&self, writer: &mut FieldWriter) -> Result<(), Memory> {
        self.clock.write(writer)?;
        self.draft.write(writer)?;
        self.mails.write(writer)?;
        Ok(())
    }

    fn try_clone(&self, alloc: Global) -> Result<Held, Memory> {
        Ok(Held {
            clock: self.clock,
            draft: self.draft.try_clone(alloc)?,
            mails: self.mails.try_clone(alloc)?,
        })
    }

    fn read(alloc: Global, reader: &mut FieldReader) -> Result<Held, CodeFault> {
        let clock = u64::read(alloc, reader)?;
        let draft = Text::read(alloc, reader)?;
        let mails = Listed::read(alloc, reader)?;
        Ok(Held {
            clock,
            draft,
            mails,
        })
    }

    ghost lawful = { held_lawful };
}
