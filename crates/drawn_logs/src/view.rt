//! What a page is made of: what is known, what of it is drawn, and the voice that says payloads.

use crate::choosing::{Choice, Drawn};
use known_logs::{Detail, Rows};
use sentences::{Content, Payload, Voice};
use std::alloc::{AllocError, Global};

/// What a page is made of.
#[derive(Drop)]
pub struct View<'a, V> {
    /// The allocator.
    pub alloc: Global,
    /// The voice that says payloads.
    pub voice: &'a V,
    /// What is known.
    pub rows: &'a Rows,
    /// What of it is drawn.
    pub choice: &'a Choice,
}

impl<'a, V: Voice> View<'a, V> {
    /// Returns what an entry says, without the word for its kind, if that is known.
    pub(crate) fn content_of(&self, one: &Drawn) -> Result<Option<String>, AllocError> {
        match one.detail(self.rows) {
            Some(detail) => Ok(Some(self.words_of(&detail)?)),
            None => Ok(None),
        }
    }

    /// Returns what an entry says, without the word for its kind.
    fn words_of(&self, detail: &Detail) -> Result<String, AllocError> {
        let content = Content {
            said: detail.said,
            payload: Payload {
                voice: self.voice,
                shown: detail.shown(),
            },
        };
        format!(in self.alloc; "{content}")
    }
}
