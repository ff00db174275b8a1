//! Laws over the definitions. Each is a function that does nothing: its contract is the law.

ghost use Rattle.outcome.specs.Equality.{TellsEqual};
ghost use Rattle.messages.specs.declared.message.Ack.{Ack as TheAck};
ghost use Rattle.messages.specs.declared.message.Message.{Message as TheMessage};

use crate::message::{Ack, Message};

/// `==` of two messages is true exactly if all their fields are the same.
pub fn messages_are_equal_by_fields()
    ensures { TellsEqual TheMessage ⟦<Message as PartialEq>⟧.eq }
{}

/// `==` of two acknowledgements is true exactly if all their fields are the same.
pub fn acks_are_equal_by_fields()
    ensures { TellsEqual TheAck ⟦<Ack as PartialEq>⟧.eq }
{}
