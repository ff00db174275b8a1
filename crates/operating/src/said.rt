//! What a file says: its bytes, or those that its digits spell.

ghost use Rattle.std.specs.Prelude.{◌≡◌, option_copied, option_map, IfErr, Ok, Err, MatchResult};
ghost use Rattle.outcome.specs.Outcome.{Gives};
ghost use Rattle.commands.specs.declared.fault.Fault.TheVariants.{Memory};
ghost use Rattle.commands.specs.HexLines.{lines_of};
ghost use Rattle.commands.specs.within.OwnFaults.{IsOwn};
ghost use Rattle.operating.specs.FileTexts.{is_spelled, one_in, read_under, spelled_in, texts_of, two_in};

use commands::fault::Fault;
use commands::lines::{bytes_of, first_line, has_digits};
use std::alloc::Global;

/// A text, and the directory's encoding that stands above it in the file.
#[derive(Debug, Drop)]
pub(crate) struct FileTexts {
    pub above: Option<Vec<u8>>,
    pub text: Vec<u8>,
}

/// Returns whether the file is lines of digits: it has at least eight bytes, and the first eight are digits.
fn is_spelled(bytes: &[u8]) -> bool
    ensures { result ≡ is_spelled bytes.now }
{
    if bytes.len() < 8 {
        return false;
    }
    has_digits(&bytes[..8])
}

/// Returns what one line spells.
#[tactic(auto, unfolding(crate::specs::FileTexts::one_in))]
fn one_in(alloc: Global, line: &[u8]) -> Result<FileTexts, Fault>
    ensures { Gives Memory (λ t. record { above = option_map (λ v. v.items) t.above; text = t.text.items }) result (one_in line.now) }
{
    let text = bytes_of(alloc, line)?;
    Ok(FileTexts { above: None, text })
}

/// Returns what two lines spell.
#[tactic(auto, unfolding(crate::specs::FileTexts::two_in))]
fn two_in(alloc: Global, line: &[u8], other: &[u8]) -> Result<FileTexts, Fault>
    ensures { Gives Memory (λ t. record { above = option_map (λ v. v.items) t.above; text = t.text.items }) result (two_in line.now other.now) }
{
    if other.is_empty() {
        return Err(Fault::LineCount);
    }
    let directory = bytes_of(alloc, line)?;
    let text = bytes_of(alloc, other)?;
    let above = Some(directory);
    Ok(FileTexts { above, text })
}

/// Returns what the lines of a file spell.
fn spelled_in(alloc: Global, bytes: &[u8]) -> Result<FileTexts, Fault>
    ensures { Gives Memory (λ t. record { above = option_map (λ v. v.items) t.above; text = t.text.items }) result (spelled_in (lines_of bytes.now)) }
{
    let Some((line, rest)) = first_line(bytes) else {
        return Err(Fault::LineCount);
    };
    let Some((other, rest)) = first_line(rest) else {
        return one_in(alloc, line);
    };
    match first_line(rest) {
        None => two_in(alloc, line, other),
        Some(_) => Err(Fault::LineCount),
    }
}

/// Returns what a file says.
#[tactic(auto, unfolding(crate::specs::FileTexts::texts_of))]
pub(crate) fn texts_of(alloc: Global, bytes: Vec<u8>) -> Result<FileTexts, Fault>
    ensures { Gives Memory (λ t. record { above = option_map (λ v. v.items) t.above; text = t.text.items }) result (texts_of bytes.items) }
{
    if is_spelled(&bytes) {
        return spelled_in(alloc, &bytes);
    }
    Ok(FileTexts {
        above: None,
        text: bytes,
    })
}

/// Returns a text that stands alone. If a directory's encoding is given, the text may stand under that directory too.
pub(crate) fn read_under(given: Option<&[u8]>, texts: FileTexts) -> Result<Vec<u8>, Fault>
    ensures told { MatchResult result (λ text. read_under (option_copied given.entry) (option_map (λ v. v.items) texts.above) texts.text.items ≡ Ok text.items) (λ f. read_under (option_copied given.entry) (option_map (λ v. v.items) texts.above) texts.text.items ≡ Err f) }
    ensures own { IfErr result IsOwn }
{
    let FileTexts { above, text } = texts;
    let Some(above) = above else {
        return Ok(text);
    };
    let Some(given) = given else {
        return Err(Fault::LineCount);
    };
    if above.as_slice() == given {
        return Ok(text);
    }
    Err(Fault::LineCount)
}
