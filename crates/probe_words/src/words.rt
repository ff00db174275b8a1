//! The words of a line.

use crate::bytes::read_bytes;
use crate::mistake::Mistake;
use crate::table::Table;
use std::alloc::{AllocError, Global};

/// A line's words, the names of what its call gives, and the answer that must come, if the line has one.
#[derive(Drop)]
pub struct Words<'a> {
    alloc: Global,
    words: Vec<&'a str>,
    names: Vec<&'a str>,
    wanted: Option<&'a str>,
}

/// Returns what is before the word and what is behind it. Without the word, all of the line is before it.
fn parted<'a>(line: &'a str, word: &str) -> (&'a str, Option<&'a str>) {
    match line.split_once(word) {
        Some((before, behind)) => (before, Some(behind.trim())),
        None => (line, None),
    }
}

impl<'a> Words<'a> {
    /// Returns the words of the line.
    pub fn of(alloc: Global, line: &'a str) -> Result<Words<'a>, AllocError> {
        let (call, wanted) = parted(line, "=>");
        let (call, names) = parted(call, " as ");
        Ok(Words {
            alloc,
            words: call.split_ascii_whitespace().collect(alloc)?,
            names: names.unwrap_or("").split_ascii_whitespace().collect(alloc)?,
            wanted,
        })
    }

    /// Returns the first word, or an empty text.
    pub fn verb(&self) -> &'a str {
        self.word(0)
    }

    /// Returns the answer that must come.
    pub fn wanted(&self) -> Option<&'a str> {
        self.wanted
    }

    /// Refuses the line if it has another number of words behind the verb, or more names than so many.
    pub fn take(&self, words: usize, names: usize) -> Result<(), Mistake> {
        if self.words.len() != words.saturating_add(1) {
            return Err(Mistake::Count(words));
        }
        if self.names.len() > names {
            return Err(Mistake::Names);
        }
        Ok(())
    }

    /// Returns the word at a place, or an empty text.
    pub fn word(&self, place: usize) -> &'a str {
        self.words.get(place).copied().unwrap_or("")
    }

    /// Returns the name at a place behind `as`. It refuses the line if there is none.
    pub fn name(&self, place: usize) -> Result<&'a str, Mistake> {
        match self.names.get(place) {
            Some(name) => Ok(*name),
            None => Err(Mistake::Names),
        }
    }

    /// Returns the number that the word is.
    pub fn number(&self, place: usize) -> Result<u64, Mistake> {
        self.word(place)
            .parse::<u64>()
            .map_err(|_| Mistake::Number(place))
    }

    /// Returns the number of 32 bits that the word is.
    pub fn short(&self, place: usize) -> Result<u32, Mistake> {
        self.word(place)
            .parse::<u32>()
            .map_err(|_| Mistake::Number(place))
    }

    /// Returns the number of 8 bits that the word is.
    pub fn byte(&self, place: usize) -> Result<u8, Mistake> {
        self.word(place)
            .parse::<u8>()
            .map_err(|_| Mistake::Number(place))
    }

    /// Returns the bytes that the word spells.
    pub fn bytes(&self, named: &Table<Vec<u8>>, place: usize) -> Result<Vec<u8>, Mistake> {
        read_bytes(self.alloc, named, place, self.word(place))
    }

    /// Returns the bytes that the word spells. It refuses the line if they are not `N`.
    pub fn array<const N: usize>(
        &self,
        named: &Table<Vec<u8>>,
        place: usize,
    ) -> Result<[u8; N], Mistake> {
        let bytes = self.bytes(named, place)?;
        let mut array = [0u8; N];
        if bytes.len() != N {
            return Err(Mistake::Length(place));
        }
        array.copy_from_slice(&bytes);
        Ok(array)
    }
}
