//! Payloads in words.

use std::fmt;

/// The greatest number of bytes of a content that are shown.
pub const MOST_SHOWN: usize = 64;

/// The beginning of bytes, and how many there are. If what is shown is printable ASCII without a quotation mark or a backslash, it is
/// written in quotes, and else in hexadecimal digits.
#[derive(Clone, Copy, Debug)]
pub struct Shown<'a> {
    /// The first of the bytes, or all of them.
    pub bytes: &'a [u8],
    /// How many bytes there are.
    pub size: usize,
}

impl<'a> Shown<'a> {
    /// Returns the bytes, of which no more than 64 are shown.
    pub fn of(bytes: &'a [u8]) -> Shown<'a> {
        Shown {
            bytes: bytes.get(..MOST_SHOWN).unwrap_or(bytes),
            size: bytes.len(),
        }
    }

    /// Returns what is behind the first `count` bytes. Returns `None` if fewer than `count` bytes are shown.
    pub fn behind(self, count: usize) -> Option<Shown<'a>> {
        let bytes = self.bytes.get(count..)?;
        Some(Shown {
            bytes,
            size: self.size.saturating_sub(count),
        })
    }
}

/// Returns whether the byte can stand in quotes as it is.
fn is_quotable(byte: u8) -> bool {
    (0x20..0x7f).contains(&byte) && byte != b'"' && byte != b'\\'
}

/// Returns whether all of the bytes can.
fn are_quotable(bytes: &[u8]) -> bool {
    bytes.iter().all(|byte| is_quotable(*byte))
}

/// Writes the bytes as characters.
fn write_text<W: fmt::Write>(bytes: &[u8], f: &mut fmt::Formatter<W>) -> fmt::Result {
    for byte in bytes {
        let letter = char::from(*byte);
        write!(f, "{letter}")?;
    }
    Ok(())
}

/// Writes the bytes as digits.
fn write_digits<W: fmt::Write>(bytes: &[u8], f: &mut fmt::Formatter<W>) -> fmt::Result {
    for byte in bytes {
        write!(f, "{byte:02x}")?;
    }
    Ok(())
}

/// Writes the bytes that are shown.
fn write_shown<W: fmt::Write>(shown: &[u8], f: &mut fmt::Formatter<W>) -> fmt::Result {
    if are_quotable(shown) {
        f.write_str("\"")?;
        write_text(shown, f)?;
        return f.write_str("\"");
    }
    f.write_str("the bytes ")?;
    write_digits(shown, f)
}

/// Writes the bytes, such as `"total"`, `the bytes 0007` or `no bytes`. If not all are shown, it writes those that are, and how many there
/// are.
impl<'a> fmt::Display for Shown<'a> {
    fn fmt<W: fmt::Write>(&self, f: &mut fmt::Formatter<W>) -> fmt::Result {
        let Shown { bytes, size } = *self;
        if size == 0 {
            return f.write_str("no bytes");
        }
        write_shown(bytes, f)?;
        if bytes.len() < size {
            return write!(f, ".. ({size} bytes)");
        }
        Ok(())
    }
}

/// Says the payloads of a program in words.
pub trait Voice {
    /// Writes what a payload says.
    fn say<W: fmt::Write>(&self, payload: Shown<'_>, f: &mut fmt::Formatter<W>) -> fmt::Result;
}

/// The voice that shows the bytes of each payload.
#[derive(Clone, Copy, Debug)]
pub struct PlainVoice;

impl Voice for PlainVoice {
    fn say<W: fmt::Write>(&self, payload: Shown<'_>, f: &mut fmt::Formatter<W>) -> fmt::Result {
        write!(f, "{payload}")
    }
}

/// A payload, and the voice that says it.
#[derive(Drop)]
pub struct Payload<'a, V> {
    /// The voice that says it.
    pub voice: &'a V,
    /// The bytes of the payload that are shown, and how many there are.
    pub shown: Shown<'a>,
}

impl<'a, V: Voice> fmt::Display for Payload<'a, V> {
    fn fmt<W: fmt::Write>(&self, f: &mut fmt::Formatter<W>) -> fmt::Result {
        self.voice.say(self.shown, f)
    }
}
