//! How a bundle is judged, for programs.

ghost use Rattle.std.specs.Prelude.{◌≡◌, IfOk, MatchResult};
ghost use Rattle.bundling.specs.Convicting.{RefusesTexts};
ghost use Rattle.bundling.specs.JudgingJson.{IsJudgedInJson, document, members, opening};

use crate::convicting::convicted;
use crate::fault::TextFault;
use crate::judging::{Judgement, is_agreed};
use crate::sentences::{decimal_of, sum_of};
use authenticators::NodeId;
use bundles::OpenBundle;
use replay_verifier::Program;
use std::alloc::{AllocError, Global};

/// Returns the beginning of the document, which says whom the proof convicts.
#[tactic(auto, unfolding(crate::specs::JudgingJson::opening))]
fn opening_of(alloc: Global, node: NodeId) -> Result<Vec<u8>, AllocError>
    ensures { IfOk result (λ text. text.items ≡ opening node) }
{
    let number = decimal_of(alloc, u64::from(node.0))?;
    let mut text = Vec::new(alloc);
    text.extend_from_slice(b"{\"exposes\":")?;
    text.extend_from_slice(number.as_bytes())?;
    text.extend_from_slice(b",")?;
    Ok(text)
}

/// Returns the members of JSON that say a program's name and a directory.
#[tactic(auto, unfolding(crate::specs::JudgingJson::members))]
fn members_of(alloc: Global, name: &[u8], directory: &[u8]) -> Result<Vec<u8>, AllocError>
    ensures { IfOk result (λ text. text.items ≡ members name.now directory.now) }
{
    let sum = sum_of(directory);
    let mut text = Vec::new(alloc);
    text.extend_from_slice(b"\"program\":\"")?;
    text.extend_from_slice(name)?;
    text.extend_from_slice(b"\",\"directory\":\"")?;
    text.extend_from_slice(&sum)?;
    text.extend_from_slice(b"\"")?;
    Ok(text)
}

/// Returns the document that says what is found, and what the bundle has.
fn document_of(
    alloc: Global,
    node: NodeId,
    name: &[u8],
    directory: &[u8],
    bundle: &OpenBundle,
) -> Result<Vec<u8>, AllocError>
    ensures { IfOk result (λ text. text.items ≡ document node name.now directory.now bundle.now) }
{
    let opening = opening_of(alloc, node)?;
    let found = members_of(alloc, name, directory)?;
    let own = members_of(alloc, bundle.program, &bundle.directory)?;
    let mut text = Vec::new(alloc);
    text.extend_from_slice(&opening)?;
    text.extend_from_slice(&found)?;
    text.extend_from_slice(b",\"bundle\":{")?;
    text.extend_from_slice(&own)?;
    text.extend_from_slice(b"}}\n")?;
    Ok(text)
}

/// Returns whom the bundle's proof convicts under the directory and the program, which has this name, and which ones the bundle
/// has. The text is one document of JSON (RFC 8259), in one line. Names are of `a` to `z`, `0` to `9` and `_`.
///
/// The call is refused if the texts convict nobody. The directory's fault comes before the proof's. Memory may run out in place of these.
pub fn judge_in_json<P: Program>(
    alloc: Global,
    program: &P,
    name: &[u8],
    directory: &[u8],
    bundle: &OpenBundle,
) -> Result<Judgement, TextFault>
    ensures { MatchResult result (λ said. IsJudgedInJson P.means name.now directory.now bundle.now said.text.items said.agrees) (λ f. RefusesTexts P.means directory.now bundle.now.proof f) }
{
    let found = convicted(alloc, program, directory, &bundle.proof)?;
    let text = document_of(alloc, found.node, name, directory, bundle)?;
    let agrees = is_agreed(name, directory, bundle);
    Ok(Judgement { text, agrees })
}
