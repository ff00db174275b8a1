//! What a call answered.

use std::alloc::{AllocError, Global};
use std::fmt::Display;

/// An answer of a call.
#[derive(Drop)]
pub struct Answer {
    /// What is compared with the answer in the script.
    pub text: String,
    /// The line of the refusal for people, if the call was refused.
    pub why: Option<String>,
    /// Whether the call was refused for lack of memory.
    pub is_memory: bool,
    /// Whether the call was refused and changed what it was made on.
    pub has_changed: bool,
}

impl Answer {
    /// Returns an answer that is no refusal, with this text.
    pub fn told(text: String) -> Answer {
        Answer {
            text,
            why: None,
            is_memory: false,
            has_changed: false,
        }
    }

    /// Returns an answer that is no refusal, with a copy of this text.
    pub fn of(alloc: Global, text: &str) -> Result<Answer, AllocError> {
        Ok(Answer::told(String::from_str(alloc, text)?))
    }

    /// Returns the answer `yes` or `no`.
    pub fn whether(alloc: Global, holds: bool) -> Result<Answer, AllocError> {
        Answer::of(alloc, if holds { "yes" } else { "no" })
    }

    /// Returns the refusal `refused NUMBER NAME`, whose line is that of the fault.
    pub fn refused<F: Display>(
        alloc: Global,
        number: u8,
        name: &str,
        fault: &F,
    ) -> Result<Answer, AllocError> {
        Ok(Answer {
            text: format!(in alloc; "refused {number} {name}")?,
            why: Some(format!(in alloc; "{fault}")?),
            is_memory: number == 99 && name == "Memory",
            has_changed: false,
        })
    }

    /// Returns the refusal for lack of memory.
    pub fn memory(alloc: Global) -> Result<Answer, AllocError> {
        Ok(Answer {
            text: String::from_str(alloc, "refused 99 Memory")?,
            why: Some(String::from_str(alloc, "out of memory")?),
            is_memory: true,
            has_changed: false,
        })
    }
}
