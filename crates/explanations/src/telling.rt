//! What is said of a store.

ghost use Rattle.std.specs.Prelude.{◌≡◌, IfOk};
ghost use Rattle.explanations.specs.Leads.{TellsParts};
ghost use Rattle.explanations.specs.Whys.{ExplainsSet, IsExplained};
ghost use Rattle.explanations.specs.within.Telling.{AreTold, IsTold, TellsWhy};

use crate::challenging::say_challenges;
use crate::contradicting::{denial_lead, say_other_side, two_hashes_lead};
use crate::deviating::{deviation_lead, say_deviation};
use crate::exposing::say_further;
use crate::grounds::Grounds;
use crate::heading::heading_of;
use crate::joining::followed_by;
use crate::noting::places_of;
use crate::places::NodePlaces;
use crate::trusting::{say_trust, say_unknown};
use crate::under::Under;
use crate::why::{NodeWhy, Why, whys_of};
use authenticators::NodeId;
use evidence::Evidence;
use item_forms::Item;
use outcome::Memory;
use proofs::{Parts, Proof};
use replay_verifier::Program;
use sentences::{Basis, Explanation, Lines, NodeExplanation, Sentence, Voice, verdict_text};
use std::alloc::Global;

/// Returns the first sentences of what the parts of a proof show.
fn parts_lead(alloc: Global, parts: &Parts, grounds: &Grounds) -> Result<Vec<Sentence>, Memory>
    ensures { IfOk result (λ lead. TellsParts parts.now lead.items) }
{
    match parts {
        Parts::TwoAuths(first, second) => {
            let lead = two_hashes_lead(alloc, first, second, grounds)?;
            Ok(lead)
        }
        Parts::AuthSegment(auth, segment) => {
            let lead = denial_lead(alloc, auth, segment, grounds)?;
            Ok(lead)
        }
        Parts::Nonconforming(segment) => {
            let lead = deviation_lead(alloc, segment, &grounds.segment)?;
            Ok(lead)
        }
    }
}

/// Says what else a proof has: what the segment has instead of the statement, or what the program does.
fn say_more_of_proof<P: Program, V: Voice>(
    lines: &mut Lines,
    under: &Under<'_, P, V>,
    proof: &Proof,
    grounds: &Grounds,
) -> Result<(), Memory> {
    match proof.parts() {
        Parts::TwoAuths(..) => Ok(()),
        Parts::AuthSegment(auth, segment) => say_other_side(lines, under.voice, segment, auth.seq),
        Parts::Nonconforming(segment) => say_deviation(lines, under, segment, &grounds.segment),
    }
}

/// Returns the sentences of what a proof shows.
pub(crate) fn proof_sentences<P: Program, V: Voice>(
    alloc: Global,
    under: &Under<'_, P, V>,
    proof: &Proof,
    grounds: &Grounds,
) -> Result<Vec<Sentence>, Memory>
    ensures { IfOk result (λ all. TellsParts proof.now.parts all.items) }
{
    let lead = parts_lead(alloc, proof.parts(), grounds)?;
    let mut lines = Lines::new(alloc);
    say_more_of_proof(&mut lines, under, proof, grounds)?;
    let all = followed_by(lead, lines)?;
    Ok(all)
}

/// Returns the sentences about an exposed node: its proof, and what else speaks against it.
fn exposed_sentences<P: Program, V: Voice>(
    alloc: Global,
    under: &Under<'_, P, V>,
    proof: &Proof,
    open: &[&Item],
    found: &NodePlaces,
) -> Result<Vec<Sentence>, Memory>
    ensures { IfOk result (λ all. TellsParts proof.now.parts all.items) }
{
    let lead = proof_sentences(alloc, under, proof, &found.grounds)?;
    let mut lines = Lines::new(alloc);
    say_further(&mut lines, found)?;
    say_challenges(&mut lines, under.voice, open, &found.unanswered)?;
    let all = followed_by(lead, lines)?;
    Ok(all)
}

/// Returns the sentences about a suspected node.
fn suspected_sentences<V: Voice>(
    alloc: Global,
    voice: &V,
    open: &[&Item],
    found: &NodePlaces,
) -> Result<Vec<Sentence>, Memory> {
    let mut lines = Lines::new(alloc);
    say_challenges(&mut lines, voice, open, &found.unanswered)?;
    Ok(lines.into_sentences())
}

/// Returns the sentences about a node that is trusted, and of which something is known.
fn trusted_sentences(alloc: Global, found: &NodePlaces) -> Result<Vec<Sentence>, Memory> {
    let mut lines = Lines::new(alloc);
    say_trust(&mut lines, found)?;
    Ok(lines.into_sentences())
}

/// Returns the sentence about a node of which nothing is known.
fn unknown_sentences(alloc: Global, node: NodeId) -> Result<Vec<Sentence>, Memory> {
    let mut lines = Lines::new(alloc);
    say_unknown(&mut lines, node)?;
    Ok(lines.into_sentences())
}

/// Returns the sentences about a node.
fn sentences_of<P: Program, V: Voice>(
    alloc: Global,
    under: &Under<'_, P, V>,
    row: &NodeWhy<'_>,
    found: &NodePlaces,
) -> Result<Vec<Sentence>, Memory>
    ensures { IfOk result (λ all. TellsWhy row.now.why all.items) }
{
    match &row.why {
        Why::Exposed(proof, open) => {
            let all = exposed_sentences(alloc, under, proof, open, found)?;
            Ok(all)
        }
        Why::Suspected(open) => {
            let all = suspected_sentences(alloc, under.voice, open, found)?;
            Ok(all)
        }
        Why::Trusted => {
            let all = trusted_sentences(alloc, found)?;
            Ok(all)
        }
        Why::Unknown => {
            let all = unknown_sentences(alloc, row.node)?;
            Ok(all)
        }
    }
}

/// Returns what is said of a node.
fn explanation_of<P: Program, V: Voice>(
    alloc: Global,
    under: &Under<'_, P, V>,
    row: &NodeWhy<'_>,
    found: &NodePlaces,
) -> Result<NodeExplanation, Memory>
    ensures { IfOk result (λ n. IsTold row.now n) }
{
    let sentences = sentences_of(alloc, under, row, found)?;
    Ok(NodeExplanation {
        node: row.node,
        indication: row.why.indication(),
        has_no_item: row.why.is_unknown(),
        sentences,
    })
}

/// Returns what is said of all nodes, in their order.
fn explanations_of<P: Program, V: Voice>(
    alloc: Global,
    under: &Under<'_, P, V>,
    whys: &[NodeWhy<'_>],
    found: &[NodePlaces],
) -> Result<Vec<NodeExplanation>, Memory>
    ensures { IfOk result (λ told. AreTold whys.now told.items) }
{
    let mut nodes = Vec::with_capacity(alloc, whys.len())?;
    for row in whys {
        let nothing = NodePlaces::new(alloc, row);
        let found = found.get(nodes.len()).unwrap_or(&nothing);
        let told = explanation_of(alloc, under, row, found)?;
        nodes.push(told)?;
    }
    Ok(nodes)
}

/// Returns what a store says of the nodes of its directory, and why. Payloads are said by the voice.
///
/// It makes one pass over the items. It verifies and hashes nothing of what was verified and hashed before. If a segment exposes a node, it
/// replays the entries before the deviation. `Memory` if the program, or a growth, was refused memory.
pub fn explain_store<P: Program, S: Evidence<P>, V: Voice>(
    alloc: Global,
    program: &P,
    voice: &V,
    store: &S,
) -> Result<Explanation, Memory>
    ensures { IfOk result (λ explanation. ExplainsSet P.means (S.contents store.now) explanation) }
{
    let whys = whys_of::<P, S>(alloc, store)?;
    let places = places_of::<P, S>(alloc, store, &whys)?;
    let heading = heading_of(alloc, &whys, store.count(), places.counts)?;
    let under = Under {
        program,
        voice,
        directory: store.directory(),
    };
    let nodes = explanations_of(alloc, &under, &whys, &places.nodes)?;
    Ok(Explanation { heading, nodes })
}

/// Returns the text of what a store says under a basis: the lines of the basis, one line about the whole, and for each node its line and
/// its sentences.
pub fn explained_text<P: Program, S: Evidence<P>, V: Voice>(
    alloc: Global,
    program: &P,
    voice: &V,
    store: &S,
    basis: &Basis,
) -> Result<Vec<u8>, Memory>
    ensures { IfOk result (λ text. IsExplained P.means basis.now (S.contents store.now) text.items) }
{
    let explanation = explain_store::<P, S, V>(alloc, program, voice, store)?;
    let text = verdict_text(alloc, basis, &explanation)?;
    Ok(text)
}
