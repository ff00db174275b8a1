//! What is said of nodes, in lines or as JSON.

ghost use Rattle.std.specs.Prelude.{◌≡◌, ◌++◌, IfOk, OnOk, codes};
ghost use Rattle.std.specs.List.{flat_map, join_by};
ghost use Rattle.evidence_set.specs.Names.{name_of};
ghost use Rattle.answers.specs.Json.{comma, indication_members, known_member, standing_object, standings_json};
ghost use Rattle.answers.specs.Lines.{standing_line};
ghost use Rattle.answers.specs.Texts.{standings_text};

use crate::style::Style;
use crate::writing::{put_number, sum_of};
use evidence_set::Indication;
use std::alloc::{AllocError, Global};
use std::collections::BTreeMap;

/// What is said of a node.
#[derive(Clone, Copy, Debug)]
pub struct Standing {
    /// The node's indication.
    pub indication: Indication,
    /// Whether anything is known of the node. A node that behaved well is trusted, and so is a node of which there is no evidence.
    pub known: bool,
}

/// Returns the word for an indication.
fn word_of(indication: Indication) -> &'static str
    ensures { result.now ≡ name_of indication }
{
    match indication {
        Indication::Trusted => "trusted",
        Indication::Suspected => "suspected",
        Indication::Exposed => "exposed",
    }
}

/// Returns, as a member of JSON, whether anything is known of a node.
#[tactic(auto, unfolding(crate::specs::Json::known_member))]
fn known_member(known: bool) -> &'static str
    ensures { result.now ≡ known_member known }
{
    if known {
        ",\"known\":true"
    } else {
        ",\"known\":false"
    }
}

/// Writes a node's line.
fn put_line(
    alloc: Global,
    text: &mut Vec<u8>,
    node: u32,
    standing: Standing,
) -> Result<(), AllocError>
    ensures { OnOk result (text.new.items ≡ text.old.items ++ standing_line (node, standing)) }
{
    put_number(alloc, text, node as u64)?;
    text.extend_from_slice(b" ")?;
    text.extend_from_slice(word_of(standing.indication).as_bytes())?;
    text.extend_from_slice(b"\n")
}

/// Writes the lines of all nodes.
fn put_lines(
    alloc: Global,
    text: &mut Vec<u8>,
    standings: &BTreeMap<u32, Standing>,
) -> Result<(), AllocError>
    ensures { OnOk result (text.new.items ≡ text.old.items ++ flat_map standing_line standings.now.entries) }
{
    for (node, standing) in standings.iter() {
        put_line(alloc, text, *node, *standing)?;
    }
    Ok(())
}

/// Writes a node's number and its indication.
#[tactic(auto, unfolding(crate::specs::Json::indication_members))]
fn put_indication(
    alloc: Global,
    text: &mut Vec<u8>,
    node: u32,
    indication: Indication,
) -> Result<(), AllocError>
    ensures { OnOk result (text.new.items ≡ text.old.items ++ indication_members node indication) }
{
    text.extend_from_slice(b"\"node\":")?;
    put_number(alloc, text, node as u64)?;
    text.extend_from_slice(b",\"indication\":\"")?;
    text.extend_from_slice(word_of(indication).as_bytes())?;
    text.extend_from_slice(b"\"")
}

/// Writes what is said of a node, behind a comma unless it is the first.
fn put_object(
    alloc: Global,
    text: &mut Vec<u8>,
    is_first: bool,
    node: u32,
    standing: Standing,
) -> Result<(), AllocError>
    ensures { OnOk result (text.new.items ≡ text.old.items ++ (comma is_first ++ standing_object (node, standing))) }
{
    if !is_first {
        text.extend_from_slice(b",")?;
    }
    text.extend_from_slice(b"{")?;
    put_indication(alloc, text, node, standing.indication)?;
    text.extend_from_slice(known_member(standing.known).as_bytes())?;
    text.extend_from_slice(b"}")
}

/// Writes what is said of all nodes, with commas between.
fn put_objects(
    alloc: Global,
    text: &mut Vec<u8>,
    standings: &BTreeMap<u32, Standing>,
) -> Result<(), AllocError>
    ensures { OnOk result (text.new.items ≡ text.old.items ++ join_by standing_object (codes ",") standings.now.entries) }
{
    let mut is_first = true;
    for (node, standing) in standings.iter() {
        put_object(alloc, text, is_first, *node, *standing)?;
        is_first = false;
    }
    Ok(())
}

/// Returns what is said of each node, in lines.
fn lines_of(alloc: Global, standings: &BTreeMap<u32, Standing>) -> Result<Vec<u8>, AllocError>
    ensures { IfOk result (λ text. text.items ≡ flat_map standing_line standings.now.entries) }
{
    let mut text = Vec::new(alloc);
    put_lines(alloc, &mut text, standings)?;
    Ok(text)
}

/// Returns what is said of each node, as JSON.
fn json_of(
    alloc: Global,
    program: &[u8],
    directory: &[u8],
    standings: &BTreeMap<u32, Standing>,
) -> Result<Vec<u8>, AllocError>
    ensures { IfOk result (λ text. text.items ≡ standings_json program.now directory.now standings.now.entries) }
{
    let sum = sum_of(directory);
    let mut text = Vec::new(alloc);
    text.extend_from_slice(b"{\"program\":\"")?;
    text.extend_from_slice(program)?;
    text.extend_from_slice(b"\",\"directory\":\"")?;
    text.extend_from_slice(&sum)?;
    text.extend_from_slice(b"\",\"nodes\":[")?;
    put_objects(alloc, &mut text, standings)?;
    text.extend_from_slice(b"]}\n")?;
    Ok(text)
}

/// Returns what is said of each node, ascending by their numbers, under the program of this name and the directory of this text. JSON has
/// the name, the SHA-256 value of the directory's text, and of which nodes anything is known. Lines have none of these. The name must have
/// no character that JSON escapes. The call is refused only if memory is.
pub fn standings_text(
    alloc: Global,
    style: Style,
    program: &[u8],
    directory: &[u8],
    standings: &BTreeMap<u32, Standing>,
) -> Result<Vec<u8>, AllocError>
    ensures { IfOk result (λ text. text.items ≡ standings_text style program.now directory.now standings.now.entries) }
{
    match style {
        Style::Lines => lines_of(alloc, standings),
        Style::Json => json_of(alloc, program, directory, standings),
    }
}
