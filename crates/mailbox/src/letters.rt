//! The first bytes of messages. A request is answered, and an answer is not.

/// A request to hold a text. The receiver's number in four bytes follows, and then the text to the end of the message.
pub const DELIVER: u8 = b'D';

/// A request for the mails that are held for the sender. Nothing follows.
pub const FETCH: u8 = b'F';

/// A mail that is sent to its receiver. The number of the node that left it follows in four bytes, and then the text to the end.
pub const MAIL: u8 = b'M';

/// A receipt: the text is held.
pub const STORED: u8 = b'S';

/// A receipt: the text is longer than [`LONGEST_TEXT`](crate::LONGEST_TEXT), and is not held.
pub const TOO_LONG: u8 = b'L';

/// A receipt: the node holds [`MOST_MAILS`](crate::MOST_MAILS) mails already, and the text is not held.
pub const FULL: u8 = b'X';

/// A receipt: the message is neither a request nor an answer.
pub const UNCLEAR: u8 = b'?';
