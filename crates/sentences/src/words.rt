//! The words for counts and kinds.

use log_chain::kind::{CHECKPOINT, INIT, RECV, SEND, TIMER};
use std::fmt;

/// A number of things, the word for one thing, and the word for any other number.
#[derive(Clone, Copy)]
pub struct Count(pub u64, pub &'static str, pub &'static str);

/// Writes the number and the word for it, such as `1 segment` or `2 segments`.
impl fmt::Display for Count {
    fn fmt<W: fmt::Write>(&self, f: &mut fmt::Formatter<W>) -> fmt::Result {
        let Count(count, one, more) = *self;
        let word = if count == 1 { one } else { more };
        write!(f, "{count} {word}")
    }
}

/// An entry's kind.
#[derive(Clone, Copy)]
pub struct Kind(pub u8);

/// Writes the kind, such as `a SEND` or `an entry of the unknown kind 9`.
impl fmt::Display for Kind {
    fn fmt<W: fmt::Write>(&self, f: &mut fmt::Formatter<W>) -> fmt::Result {
        match self.0 {
            INIT => f.write_str("an INIT"),
            SEND => f.write_str("a SEND"),
            RECV => f.write_str("a RECV"),
            TIMER => f.write_str("a TIMER"),
            CHECKPOINT => f.write_str("a CHECKPOINT"),
            kind => write!(f, "an entry of the unknown kind {kind}"),
        }
    }
}
