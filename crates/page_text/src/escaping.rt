//! How a text stands in a page.

ghost use Rattle.std.specs.Prelude.{◌≡◌, ◌<◌, ◌++◌, IfOk, OnOk, All, List, ℕ};
ghost use Rattle.page_text.specs.Escaping.{IsInert, digit, escaped, is_digits, is_reference, legible, seen, spelled};

use std::alloc::{AllocError, Global};

/// Shows that each element of a text is below 256.
fn are_bytes(text: &[u8])
    ensures { All (λ b. b < 256) text.now }
{}

/// Returns a hexadecimal digit.
fn digit(nibble: u8) -> u8
    requires { nibble < 16 }
    ensures { result ≡ digit nibble }
{
    if nibble < 10 {
        b'0' + nibble
    } else {
        b'a' + (nibble - 10)
    }
}

/// Returns whether a reader sees the byte as its digits.
fn is_digits(byte: u8) -> bool
    ensures { result ≡ is_digits byte }
{
    byte < 32 || byte == b'\\' || 126 < byte
}

/// Returns whether the byte stands as a reference.
fn is_reference(byte: u8) -> bool
    ensures { result ≡ is_reference byte }
{
    byte == b'"' || byte == b'&' || byte == b'\'' || byte == b'<' || byte == b'>' || byte == b'`'
}

/// Writes a byte as a reader sees it.
#[tactic(auto, unfolding(crate::specs::Escaping::seen))]
fn write_seen(page: &mut Vec<u8>, byte: u8) -> Result<(), AllocError>
    ensures { OnOk result (page.new.items ≡ page.old.items ++ seen byte) }
{
    if is_digits(byte) {
        page.extend_from_slice(&[b'\\', b'x', digit(byte / 16), digit(byte % 16)])
    } else {
        page.push(byte).map_err(AllocError::from)
    }
}

/// Writes a byte as it stands in a page.
#[tactic(auto, unfolding(crate::specs::Escaping::spelled))]
fn escape_byte(page: &mut Vec<u8>, byte: u8) -> Result<(), AllocError>
    ensures { OnOk result (page.new.items ≡ page.old.items ++ spelled byte) }
{
    if is_reference(byte) {
        page.extend_from_slice(&[b'&', b'#', b'0' + byte / 10, b'0' + byte % 10, b';'])
    } else {
        write_seen(page, byte)
    }
}

/// Writes a text as it stands in a page, behind what is written.
pub(crate) fn escape(page: &mut Vec<u8>, text: &[u8]) -> Result<(), AllocError>
    ensures { OnOk result (page.new.items ≡ page.old.items ++ escaped text.now) }
{
    for byte in text {
        escape_byte(page, *byte)?;
    }
    Ok(())
}

/// Returns the text as it stands in a page, in an element or in a quoted attribute. Any bytes may be given. For each of them it takes
/// five bytes at most. It fails only if memory runs out.
pub fn escaped(alloc: Global, text: &[u8]) -> Result<Vec<u8>, AllocError>
    ensures exact { IfOk result (λ page. page.items ≡ escaped text.now) }
    // It ends no element and no attribute, and begins none.
    ensures inert { IfOk result (λ page. All IsInert page.items) }
    // A reader sees two different texts as different.
    ensures apart { IfOk result (λ page. (other : List ℕ) → All (λ b. b < 256) other → legible other ≡ legible text.now → other ≡ text.now) }
{
    are_bytes(text);
    let mut page = Vec::new(alloc);
    escape(&mut page, text)?;
    Ok(page)
}
