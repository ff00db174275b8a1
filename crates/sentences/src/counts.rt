//! Counts of items, in words.

use crate::words::Count;
use std::fmt;

/// How many items there are, by form.
#[derive(Clone, Copy, Debug)]
pub struct FormCounts {
    /// Statements that are items by themselves.
    pub statements: u64,
    /// Segments.
    pub segments: u64,
    /// Audit challenges.
    pub audits: u64,
    /// Send challenges.
    pub sends: u64,
    /// Acknowledgements.
    pub acks: u64,
}

impl FormCounts {
    /// Returns the counts of no item.
    pub fn none() -> FormCounts {
        FormCounts {
            statements: 0,
            segments: 0,
            audits: 0,
            sends: 0,
            acks: 0,
        }
    }
}

/// Writes a count after others, unless it is zero. Returns whether something was written so far.
fn write_count<W: fmt::Write>(
    written: bool,
    count: Count,
    f: &mut fmt::Formatter<W>,
) -> Result<bool, fmt::Error> {
    if count.0 == 0 {
        return Ok(written);
    }
    let before = if written { ", " } else { ": " };
    write!(f, "{before}{count}")?;
    Ok(true)
}

/// Writes the counts that are not zero, such as `: 2 statements, 1 segment`. It writes nothing if there is no item.
impl fmt::Display for FormCounts {
    fn fmt<W: fmt::Write>(&self, f: &mut fmt::Formatter<W>) -> fmt::Result {
        let counts = [
            Count(self.statements, "statement", "statements"),
            Count(self.segments, "segment", "segments"),
            Count(self.audits, "audit challenge", "audit challenges"),
            Count(self.sends, "send challenge", "send challenges"),
            Count(self.acks, "acknowledgement", "acknowledgements"),
        ];
        let mut written = false;
        for count in counts.as_slice() {
            written = write_count(written, *count, f)?;
        }
        Ok(())
    }
}
