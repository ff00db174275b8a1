//! Whom a proof convicts, and under which program and directory.

ghost use Rattle.std.specs.Prelude.{◌≡◌, IfOk, decimal, string_bytes};
ghost use Rattle.answers.specs.Json.{conviction_json, conviction_members};
ghost use Rattle.answers.specs.Lines.{conviction_lines};
ghost use Rattle.answers.specs.Texts.{conviction_text};

use crate::style::Style;
use crate::writing::sum_of;
use authenticators::NodeId;
use std::alloc::{AllocError, Global};

/// Returns a number in decimal digits.
fn decimal_of(alloc: Global, number: u64) -> Result<String, AllocError>
    ensures { IfOk result (λ word. string_bytes word ≡ decimal number) }
{
    format!(in alloc; "{number}")
}

/// Returns whom a proof convicts, in lines.
fn lines_of(
    alloc: Global,
    node: NodeId,
    program: &[u8],
    directory: &[u8],
) -> Result<Vec<u8>, AllocError>
    ensures { IfOk result (λ text. text.items ≡ conviction_lines node program.now directory.now) }
{
    let number = decimal_of(alloc, u64::from(node.0))?;
    let sum = sum_of(directory);
    let mut text = Vec::new(alloc);
    text.extend_from_slice(b"exposes ")?;
    text.extend_from_slice(number.as_bytes())?;
    text.extend_from_slice(b"\nprogram ")?;
    text.extend_from_slice(program)?;
    text.extend_from_slice(b"\ndirectory ")?;
    text.extend_from_slice(&sum)?;
    text.extend_from_slice(b"\n")?;
    Ok(text)
}

/// Returns the members of JSON that say whom a proof convicts.
fn members_of(
    alloc: Global,
    node: NodeId,
    program: &[u8],
    directory: &[u8],
) -> Result<Vec<u8>, AllocError>
    ensures { IfOk result (λ text. text.items ≡ conviction_members node program.now directory.now) }
{
    let number = decimal_of(alloc, u64::from(node.0))?;
    let sum = sum_of(directory);
    let mut text = Vec::new(alloc);
    text.extend_from_slice(b"\"exposes\":")?;
    text.extend_from_slice(number.as_bytes())?;
    text.extend_from_slice(b",\"program\":\"")?;
    text.extend_from_slice(program)?;
    text.extend_from_slice(b"\",\"directory\":\"")?;
    text.extend_from_slice(&sum)?;
    text.extend_from_slice(b"\"")?;
    Ok(text)
}

/// Returns whom a proof convicts, as JSON.
fn json_of(
    alloc: Global,
    node: NodeId,
    program: &[u8],
    directory: &[u8],
) -> Result<Vec<u8>, AllocError>
    ensures { IfOk result (λ text. text.items ≡ conviction_json node program.now directory.now) }
{
    let members = members_of(alloc, node, program, directory)?;
    let mut text = Vec::new(alloc);
    text.extend_from_slice(b"{")?;
    text.extend_from_slice(&members)?;
    text.extend_from_slice(b"}\n")?;
    Ok(text)
}

/// Returns whom a proof convicts, under the program of this name and the directory of this text. The answer has the SHA-256 value of the
/// directory's text. The name must have no character that JSON escapes. The call is refused only if memory is.
pub fn conviction_text(
    alloc: Global,
    style: Style,
    node: NodeId,
    program: &[u8],
    directory: &[u8],
) -> Result<Vec<u8>, AllocError>
    ensures { IfOk result (λ text. text.items ≡ conviction_text style node program.now directory.now) }
{
    match style {
        Style::Lines => lines_of(alloc, node, program, directory),
        Style::Json => json_of(alloc, node, program, directory),
    }
}
