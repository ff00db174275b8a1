//! The kinds of log entries. The chain accepts any byte as a kind. A log that follows its node's program has only these.

/// INIT, which begins a log. Its content is the node's number.
pub const INIT: u8 = 1;

/// SEND, of a message that the node sends. Its content is the receiver's number and the payload.
pub const SEND: u8 = 2;

/// RECV, of a message that came. Its content is what is quoted of the message.
pub const RECV: u8 = 3;

/// TIMER, of a moment of the timer. Its content is the moment.
pub const TIMER: u8 = 4;

/// CHECKPOINT, of the program's state. Its content is the encoded state.
pub const CHECKPOINT: u8 = 5;
