//! Why a line of a script is no call.

use std::alloc::AllocError;
use thiserror::Error;

/// Why a line is no call. Words are counted from 0, which is the verb.
#[derive(Clone, Copy, Debug, PartialEq, Eq, Error)]
pub enum Mistake {
    #[error("there is no such verb")]
    Verb,
    #[error("the verb takes {0} words behind it")]
    Count(usize),
    #[error("the verb takes fewer names behind `as`, or more")]
    Names,
    #[error("word {0} is no number that fits")]
    Number(usize),
    #[error("word {0} spells no bytes")]
    Bytes(usize),
    #[error("word {0} spells another number of bytes than the verb takes")]
    Length(usize),
    #[error("word {0} is none of the words that the verb takes there")]
    Choice(usize),
    #[error("word {0} names nothing")]
    Name(usize),
    #[error("the loop has no `end`, or its line has more than a name and two numbers")]
    Loop,
    #[error("the braces have something else than the loop's name, times a number, plus a number")]
    Braces,
    #[error("no call was refused before")]
    Why,
    #[error("the call has more growths of memory than are tried")]
    Growths,
    #[error("memory ran out beside the call")]
    Memory,
}

impl From<AllocError> for Mistake {
    fn from(_: AllocError) -> Mistake {
        Mistake::Memory
    }
}
