//! The text of an explanation.

ghost use Rattle.std.specs.Prelude.{◌≡◌, ◌++◌, ◌<◌, ◌^◌, All, IfOk, OnOk, string_bytes};
ghost use Rattle.std.specs.List.{flat_map};
ghost use Rattle.sentences.specs.Bases.{basis_text};
ghost use Rattle.sentences.specs.Texts.{in_line, in_one_line, margin, mark_of, node_text, nodes_text, report_of, row_line, sentence_text, text_of};

use crate::basis::{Basis, put_basis};
use crate::explanation::{Explanation, NodeExplanation, Sentence};
use std::alloc::{AllocError, Global};

/// Returns the byte as it stands within a line: a blank for a line feed.
fn in_line(byte: u8) -> u8
    ensures { result ≡ in_line byte }
{
    if byte == b'\n' { b' ' } else { byte }
}

/// Writes a text in one line, with a blank for each line feed.
fn put_text(text: &mut Vec<u8>, bytes: &[u8]) -> Result<(), AllocError>
    ensures { OnOk result (text.new.items ≡ text.old.items ++ in_one_line bytes.now) }
{
    for byte in bytes {
        text.push(in_line(*byte))?;
    }
    Ok(())
}

/// Writes a sentence in a line of its own, after two blanks.
fn put_sentence(text: &mut Vec<u8>, sentence: &Sentence) -> Result<(), AllocError>
    ensures { OnOk result (text.new.items ≡ text.old.items ++ sentence_text sentence.now) }
{
    text.extend_from_slice(b"  ")?;
    put_text(text, sentence.text.as_bytes())?;
    text.extend_from_slice(b"\n")
}

/// Writes sentences below each other.
fn put_sentences(text: &mut Vec<u8>, sentences: &[Sentence]) -> Result<(), AllocError>
    ensures { OnOk result (text.new.items ≡ text.old.items ++ flat_map sentence_text sentences.now) }
{
    for sentence in sentences {
        put_sentence(text, sentence)?;
    }
    Ok(())
}

impl NodeExplanation {
    /// Returns what follows the word for the indication: ` (no item)`, or nothing.
    pub fn mark(&self) -> &'static str
        ensures { result.now ≡ mark_of self.now.has_no_item }
    {
        if self.has_no_item { " (no item)" } else { "" }
    }
}

/// Returns a node's line.
fn row_line(alloc: Global, node: &NodeExplanation) -> Result<String, AllocError>
    ensures { IfOk result (λ s. string_bytes s ≡ row_line node.now) }
{
    let number = node.node;
    let indication = node.indication;
    let mark = node.mark();
    format!(in alloc; "{number} {indication}{mark}\n")
}

/// Writes a node's line, and its sentences below it.
fn put_node(alloc: Global, text: &mut Vec<u8>, node: &NodeExplanation) -> Result<(), AllocError>
    ensures { OnOk result (text.new.items ≡ text.old.items ++ node_text node.now) }
{
    let line = row_line(alloc, node)?;
    text.extend_from_slice(line.as_bytes())?;
    put_sentences(text, node.sentences.as_slice())
}

/// Writes nodes below each other.
fn put_nodes(alloc: Global, text: &mut Vec<u8>, nodes: &[NodeExplanation]) -> Result<(), AllocError>
    ensures { OnOk result (text.new.items ≡ text.old.items ++ flat_map node_text nodes.now) }
{
    for node in nodes {
        put_node(alloc, text, node)?;
    }
    Ok(())
}

/// Returns a node's number.
fn number_of(node: &NodeExplanation) -> u32
    ensures value { result ≡ node.now.node }
    ensures fits { node.now.node < 2 ^ 32 }
{
    node.node.0
}

/// Shows that the nodes have numbers of 32 bits.
fn have_numbers(nodes: &[NodeExplanation])
    ensures { All (λ n. n.node < 2 ^ 32) nodes.now }
{
    for node in nodes {
        let _number = number_of(node);
    }
}

/// Writes an explanation.
fn put_explanation(
    alloc: Global,
    text: &mut Vec<u8>,
    explanation: &Explanation,
) -> Result<(), AllocError>
    ensures written { OnOk result (text.new.items ≡ text.old.items ++ text_of explanation.now) }
    ensures report { OnOk result (margin (nodes_text explanation.now) ≡ report_of explanation.now) }
{
    put_text(text, explanation.heading.as_bytes())?;
    text.extend_from_slice(b"\n")?;
    let nodes = explanation.nodes.as_slice();
    have_numbers(nodes);
    put_nodes(alloc, text, nodes)?;
    Ok(())
}

/// Returns the text of an explanation. It begins with the heading's line. For each node a line `NODE INDICATION` follows, which ends with
/// ` (no item)` if no item is of the node. The node's sentences come below it, each in a line after two blanks.
///
/// A line feed in the heading or in a sentence is written as a blank.
pub fn text_of(alloc: Global, explanation: &Explanation) -> Result<Vec<u8>, AllocError>
    ensures exact { IfOk result (λ text. text.items ≡ text_of explanation.now) }
    // After the heading, the lines that do not begin with a blank are those of the nodes, and no other.
    ensures report { OnOk result (margin (nodes_text explanation.now) ≡ report_of explanation.now) }
{
    let mut text = Vec::new(alloc);
    put_explanation(alloc, &mut text, explanation)?;
    Ok(text)
}

/// Returns the text of an explanation under a basis: the three lines of the basis, and after them those of the explanation.
pub fn verdict_text(
    alloc: Global,
    basis: &Basis,
    explanation: &Explanation,
) -> Result<Vec<u8>, AllocError>
    ensures exact { IfOk result (λ text. text.items ≡ basis_text basis.now ++ text_of explanation.now) }
    // After the heading, the lines that do not begin with a blank are those of the nodes, and no other.
    ensures report { OnOk result (margin (nodes_text explanation.now) ≡ report_of explanation.now) }
{
    let mut text = Vec::new(alloc);
    put_basis(alloc, &mut text, basis)?;
    put_explanation(alloc, &mut text, explanation)?;
    Ok(text)
}
