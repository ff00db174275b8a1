//! What is said of a proof.

ghost use Rattle.std.specs.Prelude.{◌≡◌, ◌∷◌, [], Err, IfOk, Ok, Some, ℕ, string_bytes};
ghost use Rattle.outcome.specs.Outcome.{Gives};
ghost use Rattle.proofs.specs.declared.fault.ProofFault.{ProofFault as TheFault};
ghost use Rattle.proofs.specs.declared.fault.ProofFault.TheVariants as fault;
ghost use Rattle.proofs.specs.Convicting.{Convicts, Tells, early_fault_of};
ghost use Rattle.explanations.specs.Headings.{parts_words, proof_words};
ghost use Rattle.explanations.specs.Whys.{ExplainsParts, convicted_of};

use crate::grounds::{Found, Grounds};
use crate::telling::proof_sentences;
use crate::under::Under;
use authenticators::{Directory, NodeId};
use evidence_set::Indication;
use outcome::Memory;
use proofs::{Parts, Proof, ProofFault, check_proof};
use replay_verifier::{Program, replay};
use sentences::{Explanation, NodeExplanation, Role, Site, Voice};
use std::alloc::{AllocError, Global};

/// The node that a proof convicts, and what is said of it.
#[derive(Debug, Drop)]
pub struct Conviction {
    /// The node that it convicts.
    pub node: NodeId,
    /// What is said of that node alone, which is exposed.
    pub explanation: Explanation,
}

/// Notes that a statement stands in this part of the proof.
fn place_statement(sought: &mut Option<Found>, place: u64) -> Result<(), Memory> {
    if let Some(found) = sought {
        found.sites.push(Site::part(place, Role::Statement))?;
    }
    Ok(())
}

/// Returns where a proof's parts stand, and what is found of them.
fn grounds_of<P: Program>(
    alloc: Global,
    program: &P,
    directory: &Directory,
    proof: &Proof,
) -> Result<Grounds, Memory> {
    let mut grounds = Grounds::of_proof(alloc, proof);
    match proof.parts() {
        Parts::TwoAuths(..) => {
            place_statement(&mut grounds.first, 1)?;
            place_statement(&mut grounds.second, 2)?;
        }
        Parts::AuthSegment(..) => {
            place_statement(&mut grounds.first, 1)?;
            grounds.segment.sites.push(Site::part(2, Role::Segment))?;
        }
        Parts::Nonconforming(segment) => {
            grounds.segment.sites.push(Site::part(1, Role::Segment))?;
            let entries = segment.entries.as_slice();
            let verdict = replay(
                alloc,
                program,
                directory,
                segment.node,
                segment.prev,
                entries,
            )?;
            grounds.segment.verdict = Some(verdict);
        }
    }
    Ok(grounds)
}

/// Returns the parts of a proof, in words.
fn words_of(parts: &Parts) -> &'static str
    ensures { result.now ≡ parts_words parts.now }
{
    match parts {
        Parts::TwoAuths(..) => "two statements",
        Parts::AuthSegment(..) => "a statement and a segment",
        Parts::Nonconforming(_) => "one segment",
    }
}

/// Returns the line about a proof of these parts: whom it convicts, and the parts.
fn heading_of(alloc: Global, node: NodeId, parts: &Parts) -> Result<String, AllocError>
    ensures { IfOk result (λ text. string_bytes text ≡ proof_words node parts.now) }
{
    let mut text = format!(in alloc; "The proof exposes node {node} by ")?;
    text.push_str(words_of(parts))?;
    text.push_str(".")?;
    Ok(text)
}

/// Returns a list of one node.
fn one(alloc: Global, told: NodeExplanation) -> Result<Vec<NodeExplanation>, Memory>
    ensures { IfOk result (λ nodes. nodes.items ≡ told ∷ []) }
{
    let mut nodes = Vec::new(alloc);
    nodes.push(told)?;
    Ok(nodes)
}

/// Returns what is said of a proof that convicts the node.
fn explanation_of<P: Program, V: Voice>(
    alloc: Global,
    program: &P,
    voice: &V,
    directory: &Directory,
    proof: &Proof,
    node: NodeId,
) -> Result<Explanation, Memory>
    ensures { IfOk result (λ explanation. ExplainsParts node proof.now.parts explanation) }
{
    let heading = heading_of(alloc, node, proof.parts())?;
    let grounds = grounds_of(alloc, program, directory, proof)?;
    let under = Under {
        program,
        voice,
        directory,
    };
    let sentences = proof_sentences(alloc, &under, proof, &grounds)?;
    let told = NodeExplanation {
        node,
        indication: Indication::Exposed,
        has_no_item: false,
        sentences,
    };
    let nodes = one(alloc, told)?;
    Ok(Explanation { heading, nodes })
}

/// Returns which node a proof convicts, as [`check_proof`] does, and what is said of that node, with payloads said by the voice. If the
/// proof is refused, the error is that of [`check_proof`], or `Memory` (99).
pub fn explain_proof<P: Program, V: Voice>(
    alloc: Global,
    program: &P,
    voice: &V,
    directory: &Directory,
    proof: &Proof,
) -> Result<Conviction, ProofFault>
    // The result is the node that the proof convicts, or why it is refused.
    ensures told { Tells directory.now P.means proof.now.parts (convicted_of result) }
    // If the proof convicts a node, the result is that node, unless memory runs out.
    ensures only { (node : ℕ) → Convicts directory.now P.means node proof.now.parts → Gives fault.Memory (λ c. c.node) result (Ok node) }
    // A fault that shows before a segment's signature is verified is reported, whether there is memory or not.
    ensures early { (e : TheFault) → early_fault_of directory.now proof.now.parts ≡ Some e → result ≡ Err e }
    // The explanation is of that node, which is exposed, and of the proof's parts.
    ensures explanation { IfOk result (λ c. ExplainsParts c.node proof.now.parts c.explanation) }
{
    let node = check_proof(alloc, program, directory, proof)?;
    let explanation = explanation_of(alloc, program, voice, directory, proof, node)?;
    Ok(Conviction { node, explanation })
}
