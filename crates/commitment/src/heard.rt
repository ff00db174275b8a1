//! The messages that a node received.

use messages::{Ack, Message};

/// A message that was received, and the acknowledgement that was given for it.
#[derive(Debug, Drop)]
pub struct Heard {
    /// The message.
    pub message: Message,
    /// The acknowledgement that was given for the message.
    pub ack: Ack,
}
