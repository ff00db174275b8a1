//! Statements and segments that are not of one log, in sentences.

ghost use Rattle.std.specs.Prelude.{◌≡◌, ◌⊎◌, IfOk, string_bytes};
ghost use Rattle.explanations.specs.Leads.{Begins, IsDenied, IsSaidTwice, hash_words, number_words, signed_words, twice_words, two_hashes_words};

use crate::deviating::{hash_behind, segment_sentence};
use crate::grounds::{Grounds, first_place_of, sites_of};
use crate::joining::{joined, three};
use authenticators::{Authenticator, NodeId};
use item_forms::{Hash, Segment};
use log_chain::base_hash;
use outcome::Memory;
use sentences::{Lines, Logged, Sentence, Site, Sites, Voice};
use std::alloc::{AllocError, Global};

/// Returns a hash, in words.
fn hash_front(alloc: Global, hash: Hash) -> Result<String, AllocError>
    ensures { IfOk result (λ text. string_bytes text ≡ hash_words hash) }
{
    format!(in alloc; "Hash {hash}:")
}

/// Returns the sentence that names a hash of the node, and where it is signed.
fn hash_sentence(
    alloc: Global,
    node: NodeId,
    seq: u64,
    hash: Hash,
    sites: &[Site],
) -> Result<Sentence, Memory>
    ensures { IfOk result (λ s. Begins s (hash_words hash)) }
{
    let sites = Sites(sites);
    let rest = format!(in alloc; " {sites}.")?;
    let front = hash_front(alloc, hash)?;
    let text = joined(front, &rest)?;
    let sentence = Sentence::of_hash(alloc, node, seq, hash, text)?;
    Ok(sentence)
}

/// Returns the words that say that a node signed two hashes.
fn twice_front(alloc: Global, node: NodeId) -> Result<String, AllocError>
    ensures { IfOk result (λ text. string_bytes text ≡ twice_words node) }
{
    format!(in alloc; "Node {node} signed two hashes for entry ")
}

/// Returns the number of an entry of its log, in words.
fn number_of_log(alloc: Global, seq: u64) -> Result<String, AllocError>
    ensures { IfOk result (λ text. string_bytes text ≡ number_words seq) }
{
    format!(in alloc; "{seq} of its log.")
}

/// Returns the words that say that a node signed two hashes for one entry.
fn two_hashes_front(alloc: Global, node: NodeId, seq: u64) -> Result<String, AllocError>
    ensures { IfOk result (λ text. string_bytes text ≡ two_hashes_words node seq) }
{
    let front = twice_front(alloc, node)?;
    let rest = number_of_log(alloc, seq)?;
    let text = joined(front, &rest)?;
    Ok(text)
}

/// Returns the sentence that says that the node signed two hashes for one entry.
fn two_hashes_sentence(alloc: Global, node: NodeId, seq: u64) -> Result<Sentence, Memory>
    ensures { IfOk result (λ s. Begins s (two_hashes_words node seq)) }
{
    let rest = String::new(alloc);
    let front = two_hashes_front(alloc, node, seq)?;
    let text = joined(front, &rest)?;
    let sentence = Sentence::of_number(alloc, node, seq, text)?;
    Ok(sentence)
}

/// Returns the sentences that say which two hashes a node signed for one entry, and where, in this order.
fn two_hashes_in_order(
    alloc: Global,
    one: &Authenticator,
    sites: &[Site],
    other: &Authenticator,
    other_sites: &[Site],
) -> Result<Vec<Sentence>, Memory>
    ensures { IfOk result (λ lead. IsSaidTwice one.now other.now lead.items) }
{
    let first = two_hashes_sentence(alloc, one.node, one.seq)?;
    let second = hash_sentence(alloc, one.node, one.seq, one.hash, sites)?;
    let third = hash_sentence(alloc, other.node, other.seq, other.hash, other_sites)?;
    let lead = three(alloc, first, second, third)?;
    Ok(lead)
}

/// Returns the sentences that say which two hashes a node signed for one entry, and where. The hash that stands first comes first.
pub(crate) fn two_hashes_lead(
    alloc: Global,
    one: &Authenticator,
    other: &Authenticator,
    grounds: &Grounds,
) -> Result<Vec<Sentence>, Memory>
    ensures { IfOk result (λ lead. IsSaidTwice one.now other.now lead.items ⊎ IsSaidTwice other.now one.now lead.items) }
{
    let (first, second) = (sites_of(&grounds.first), sites_of(&grounds.second));
    let is_turned = first_place_of(second) < first_place_of(first);
    if is_turned {
        let lead = two_hashes_in_order(alloc, other, second, one, first)?;
        return Ok(lead);
    }
    let lead = two_hashes_in_order(alloc, one, first, other, second)?;
    Ok(lead)
}

/// How a statement contradicts a segment.
#[derive(Clone, Copy)]
pub(crate) enum Denial {
    /// Its number lies within the segment's, and no entry has it.
    LeftOut,
    /// An entry has its number, with another hash.
    Otherwise,
    /// Its number is just before the segment's first one, and its hash is not the one before the segment.
    OffStart {
        /// The segment's first number.
        first: u64,
    },
    /// The segment begins the log, and its number is below the first one.
    BeforeLog {
        /// The segment's first number.
        first: u64,
    },
}

/// Returns how a statement with this number contradicts the segment, if it does.
pub(crate) fn denial_of(seq: u64, segment: &Segment) -> Denial {
    let entries = segment.entries.as_slice();
    let first = match entries {
        [first, ..] => first.seq,
        [] => seq,
    };
    if first <= seq {
        if entries.iter().any(|entry| entry.seq == seq) {
            Denial::Otherwise
        } else {
            Denial::LeftOut
        }
    } else if segment.prev == base_hash() {
        Denial::BeforeLog { first }
    } else {
        Denial::OffStart { first }
    }
}

/// Returns how a statement contradicts a segment, in the words behind its number.
fn denial_words(alloc: Global, denial: Denial) -> Result<String, AllocError> {
    match denial {
        Denial::LeftOut => format!(in alloc; "that its own log leaves out."),
        Denial::Otherwise => format!(in alloc; "that is not in its own log."),
        Denial::OffStart { first } => {
            format!(in alloc; "that is not the one before its own log from entry {first} on.")
        }
        Denial::BeforeLog { first } => {
            format!(in alloc; "before its own log, which begins with entry {first}.")
        }
    }
}

/// Returns the words that say that a node signed a hash.
fn signed_front(alloc: Global, node: NodeId, seq: u64) -> Result<String, AllocError>
    ensures { IfOk result (λ text. string_bytes text ≡ signed_words node seq) }
{
    let front = format!(in alloc; "Node {node} signed a hash for entry ")?;
    let rest = format!(in alloc; "{seq} ")?;
    let text = joined(front, &rest)?;
    Ok(text)
}

/// Returns the sentence that says that a statement of the node contradicts its log so.
fn denial_sentence(
    alloc: Global,
    node: NodeId,
    seq: u64,
    denial: Denial,
) -> Result<Sentence, Memory>
    ensures { IfOk result (λ s. Begins s (signed_words node seq)) }
{
    let rest = denial_words(alloc, denial)?;
    let front = signed_front(alloc, node, seq)?;
    let text = joined(front, &rest)?;
    let sentence = Sentence::of_number(alloc, node, seq, text)?;
    Ok(sentence)
}

/// Returns the sentences that say how a statement and a segment of its node contradict each other, and where they stand.
pub(crate) fn denial_lead(
    alloc: Global,
    auth: &Authenticator,
    segment: &Segment,
    grounds: &Grounds,
) -> Result<Vec<Sentence>, Memory>
    ensures { IfOk result (λ lead. IsDenied auth.now segment.now lead.items) }
{
    let denial = denial_of(auth.seq, segment);
    let sites = sites_of(&grounds.first);
    let first = denial_sentence(alloc, auth.node, auth.seq, denial)?;
    let second = hash_sentence(alloc, auth.node, auth.seq, auth.hash, sites)?;
    let third = segment_sentence(alloc, segment, &grounds.segment)?;
    let lead = three(alloc, first, second, third)?;
    Ok(lead)
}

/// Says what stands in the segment at the number.
fn say_entry<V: Voice>(
    lines: &mut Lines,
    voice: &V,
    segment: &Segment,
    seq: u64,
) -> Result<(), Memory> {
    let alloc = lines.alloc();
    let entries = segment.entries.as_slice();
    if let Some(at) = entries.iter().position(|entry| entry.seq == seq)
        && let Some(entry) = entries.get(at)
        && let Some(hash) = hash_behind(segment, at)
    {
        let logged = Logged { voice, entry };
        let text = format!(in alloc; "There entry {seq} is {logged}, with the hash {hash}.")?;
        let sentence = Sentence::of_hash(alloc, segment.node, seq, hash, text)?;
        return lines.add(sentence);
    }
    let text = format!(in alloc; "There is no entry {seq} in it.")?;
    lines.say(text)
}

/// Says what the segment says of the number.
pub(crate) fn say_other_side<V: Voice>(
    lines: &mut Lines,
    voice: &V,
    segment: &Segment,
    seq: u64,
) -> Result<(), Memory> {
    match denial_of(seq, segment) {
        Denial::LeftOut | Denial::Otherwise => say_entry(lines, voice, segment, seq),
        Denial::OffStart { first } => {
            let prev = segment.prev;
            let text = format!(in lines.alloc(); "There the hash before entry {first} is {prev}.")?;
            lines.say(text)
        }
        Denial::BeforeLog { .. } => Ok(()),
    }
}
