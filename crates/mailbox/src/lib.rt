//! A mail relay, as an example of a program. Nodes leave texts for one another, and fetch the texts that were left for them.
//!
//! [`Mailbox`] is the program. All nodes run it, the relay too. `specs/MailboxMeaning.antt` says what its steps do.
//! `specs/UserWishes.antt` says what the steps do that a node's user wishes ([`wishes`]). The state is [`Held`]. It is made of the parts
//! of `state_codec`, and so are its encoding and its law (`specs/MailboxLaws.antt`).
#![tactic(auto)]

pub use held::{Held, LIFETIME, LONGEST_TEXT, MOST_MAILS, Mail, RELAY};
pub use program::Mailbox;

mod asking;
mod held;
pub mod letters;
mod program;
mod steps;
pub mod wishes;
