//! How a bundle is judged.

ghost use Rattle.std.specs.Prelude.{◌≡◌, IfOk, MatchResult};
ghost use Rattle.bundling.specs.Convicting.{RefusesTexts};
ghost use Rattle.bundling.specs.Judging.{IsJudged, found, is_agreed, judgement, other_directory, other_program};

use crate::convicting::convicted;
use crate::fault::TextFault;
use crate::sentences::{decimal_of, sum_of};
use authenticators::NodeId;
use bundles::OpenBundle;
use replay_verifier::Program;
use std::alloc::{AllocError, Global};

/// What is said of a bundle.
#[derive(Debug, Drop)]
pub struct Judgement {
    /// The text.
    pub text: Vec<u8>,
    /// Whether the bundle names the program and has the directory that were given.
    pub agrees: bool,
}

/// Returns whether the bundle names this program, and has this directory.
pub(crate) fn is_agreed(name: &[u8], directory: &[u8], bundle: &OpenBundle) -> bool
    ensures { result ≡ is_agreed name.now directory.now bundle.now }
{
    let own: &[u8] = &bundle.directory;
    name == bundle.program && directory == own
}

/// Returns the lines that say whom the proof convicts, under which program and which directory.
fn found_of(
    alloc: Global,
    node: NodeId,
    name: &[u8],
    directory: &[u8],
) -> Result<Vec<u8>, AllocError>
    ensures { IfOk result (λ lines. lines.items ≡ found node name.now directory.now) }
{
    let number = decimal_of(alloc, u64::from(node.0))?;
    let sum = sum_of(directory);
    let mut lines = Vec::new(alloc);
    lines.extend_from_slice(b"exposes ")?;
    lines.extend_from_slice(number.as_bytes())?;
    lines.extend_from_slice(b"\nprogram ")?;
    lines.extend_from_slice(name)?;
    lines.extend_from_slice(b"\ndirectory ")?;
    lines.extend_from_slice(&sum)?;
    lines.extend_from_slice(b"\n")?;
    Ok(lines)
}

/// Returns the line about the program if the bundle names another one, and otherwise nothing.
fn other_program_of(alloc: Global, name: &[u8], said: &[u8]) -> Result<Vec<u8>, AllocError>
    ensures { IfOk result (λ line. line.items ≡ other_program name.now said.now) }
{
    let mut line = Vec::new(alloc);
    if name == said {
        return Ok(line);
    }
    line.extend_from_slice(b"disagrees: the bundle names the program ")?;
    line.extend_from_slice(said)?;
    line.extend_from_slice(b"\n")?;
    Ok(line)
}

/// Returns the line about the directory if the bundle has another one, and otherwise nothing.
fn other_directory_of(alloc: Global, directory: &[u8], own: &[u8]) -> Result<Vec<u8>, AllocError>
    ensures { IfOk result (λ line. line.items ≡ other_directory directory.now own.now) }
{
    let mut line = Vec::new(alloc);
    if directory == own {
        return Ok(line);
    }
    let sum = sum_of(own);
    line.extend_from_slice(b"disagrees: the bundle has the directory ")?;
    line.extend_from_slice(&sum)?;
    line.extend_from_slice(b"\n")?;
    Ok(line)
}

/// Returns all lines.
fn judgement_of(
    alloc: Global,
    node: NodeId,
    name: &[u8],
    directory: &[u8],
    bundle: &OpenBundle,
) -> Result<Vec<u8>, AllocError>
    ensures { IfOk result (λ text. text.items ≡ judgement node name.now directory.now bundle.now) }
{
    let found = found_of(alloc, node, name, directory)?;
    let other_program = other_program_of(alloc, name, bundle.program)?;
    let other_directory = other_directory_of(alloc, directory, &bundle.directory)?;
    let mut text = Vec::new(alloc);
    text.extend_from_slice(&found)?;
    text.extend_from_slice(&other_program)?;
    text.extend_from_slice(&other_directory)?;
    Ok(text)
}

/// Returns whom the bundle's proof convicts under the directory and the program, which has this name. The text has the lines `exposes ID`,
/// `program NAME` and `directory SUM`, each with a line feed. Behind them stands a line `disagrees: ..` if the bundle names another program,
/// and one if it has another directory. The bundle agrees if there is no such line.
///
/// The call is refused if the texts convict nobody. The directory's fault comes before the proof's. Memory may run out in place of these.
pub fn judge<P: Program>(
    alloc: Global,
    program: &P,
    name: &[u8],
    directory: &[u8],
    bundle: &OpenBundle,
) -> Result<Judgement, TextFault>
    ensures { MatchResult result (λ said. IsJudged P.means name.now directory.now bundle.now said.text.items said.agrees) (λ f. RefusesTexts P.means directory.now bundle.now.proof f) }
{
    let found = convicted(alloc, program, directory, &bundle.proof)?;
    let text = judgement_of(alloc, found.node, name, directory, bundle)?;
    let agrees = is_agreed(name, directory, bundle);
    Ok(Judgement { text, agrees })
}
