//! A segment that deviates from its node's program, in sentences.

ghost use Rattle.std.specs.Prelude.{◌≡◌, IfOk, string_bytes};
ghost use Rattle.item_forms.specs.Segments.{first_seq, last_seq};
ghost use Rattle.replay_verifier.specs.Conforming.{setting_of};
ghost use Rattle.replay_verifier.specs.Stands.{IsStanding};
ghost use Rattle.explanations.specs.Leads.{Begins, IsDeviation, deviates_words, segment_words};

use crate::grounds::FoundSegment;
use crate::joining::{joined, two};
use crate::under::Under;
use authenticators::{Directory, NodeId};
use item_forms::{Entry, Hash, Segment};
use log_chain::chain_end;
use outcome::Memory;
use replay_verifier::{Program, Reason, Receipt, Stand, Verdict, stand_behind};
use sentences::{Kind, Lines, Logged, Sending, Sentence, Shown, Sites, Voice};
use std::alloc::{AllocError, Global};

/// Returns a reason in words.
fn words_of(reason: Reason) -> &'static str {
    match reason {
        Reason::SeqOrder => "its number is not above the one before",
        Reason::BadInit => "a log begins with an INIT of its node",
        Reason::BadKind => "no entry of this kind can stand there",
        Reason::BadContent => "its content is none of its kind",
        Reason::BadReceipt => {
            "it quotes no message that another listed node signed by the key which the signature names"
        },
        Reason::MissingOutput => "a message that the program sends is missing",
        Reason::ExtraOutput => "the program sends no message there",
        Reason::WrongOutput => "the program sends another message there",
        Reason::WrongCheckpoint => "the program is in another state there",
        Reason::DuplicateReceipt =>
            "a RECV before it quotes a message of the same sender and number",
    }
}

/// Returns the hash of the entry behind `at` others of the segment.
pub(crate) fn hash_behind(segment: &Segment, at: usize) -> Option<Hash> {
    let front = segment.entries.as_slice().get(..=at)?;
    Some(chain_end(segment.prev, front))
}

/// Returns a sentence about the entry behind `at` others of the segment.
fn entry_sentence(
    alloc: Global,
    segment: &Segment,
    at: usize,
    seq: u64,
    text: String,
) -> Result<Sentence, Memory>
    ensures { IfOk result (λ s. s.text ≡ text) }
{
    let Some(hash) = hash_behind(segment, at) else {
        return Ok(Sentence::plain(alloc, text));
    };
    let sentence = Sentence::of_entry(alloc, segment.node, seq, hash, text)?;
    Ok(sentence)
}

/// Returns where the segment deviates, and why, in the words behind the node's.
fn place_words(alloc: Global, entry: &Entry, reason: Reason) -> Result<String, AllocError> {
    let seq = entry.seq;
    let kind = Kind(entry.kind);
    let words = words_of(reason);
    let name = reason.name();
    format!(in alloc; " at entry {seq} of its log, {kind}: {words} ({name}).")
}

/// A place of a segment: behind how many entries, at which one, and why it deviates there.
type Place<'a> = (usize, &'a Entry, Reason);

/// Returns the words behind those that say that a node deviates.
fn rest_of_words(alloc: Global, deviation: Option<Place<'_>>) -> Result<String, AllocError> {
    match deviation {
        Some((_, entry, reason)) => place_words(alloc, entry, reason),
        None => format!(in alloc; "."),
    }
}

/// Returns the words that say that a node deviates from its program.
fn deviates_front(alloc: Global, node: NodeId) -> Result<String, AllocError>
    ensures { IfOk result (λ text. string_bytes text ≡ deviates_words node) }
{
    format!(in alloc; "Node {node} deviates from its program")
}

/// Returns a sentence about the place at which a segment deviates.
fn sentence_at(
    alloc: Global,
    segment: &Segment,
    deviation: Option<Place<'_>>,
    text: String,
) -> Result<Sentence, Memory>
    ensures { IfOk result (λ s. s.text ≡ text) }
{
    let Some((at, entry, _)) = deviation else {
        return Ok(Sentence::plain(alloc, text));
    };
    let sentence = entry_sentence(alloc, segment, at, entry.seq, text)?;
    Ok(sentence)
}

/// Returns the sentence that says where the segment deviates, and why.
fn place_sentence(
    alloc: Global,
    segment: &Segment,
    deviation: Option<Place<'_>>,
) -> Result<Sentence, Memory>
    ensures { IfOk result (λ s. Begins s (deviates_words segment.now.node)) }
{
    let rest = rest_of_words(alloc, deviation)?;
    let front = deviates_front(alloc, segment.node)?;
    let text = joined(front, &rest)?;
    let sentence = sentence_at(alloc, segment, deviation, text)?;
    Ok(sentence)
}

/// Returns the number of the first entry, or 0 if there is none.
fn first_of(entries: &[Entry]) -> u64
    ensures { result ≡ first_seq entries.now }
{
    match entries {
        [] => 0,
        [first, ..] => first.seq,
    }
}

/// Returns the number of a segment's last entry, or 0 if it has none.
fn last_of(segment: &Segment) -> u64
    ensures { result ≡ last_seq segment.now.entries }
{
    match segment.last_seq() {
        Some(last) => last,
        None => 0,
    }
}

/// Returns the words that say from where to where a segment goes.
fn segment_front(alloc: Global, segment: &Segment) -> Result<String, AllocError>
    ensures { IfOk result (λ text. string_bytes text ≡ segment_words segment.now) }
{
    let first = first_of(segment.entries.as_slice());
    let last = last_of(segment);
    let front = format!(in alloc; "Its log from entry {first}")?;
    let rest = format!(in alloc; " to entry {last}:")?;
    let text = joined(front, &rest)?;
    Ok(text)
}

/// Returns the sentence that says where the segment stands.
pub(crate) fn segment_sentence(
    alloc: Global,
    segment: &Segment,
    found: &FoundSegment,
) -> Result<Sentence, Memory>
    ensures { IfOk result (λ s. Begins s (segment_words segment.now)) }
{
    let sites = Sites(&found.sites);
    let rest = format!(in alloc; " {sites}.")?;
    let front = segment_front(alloc, segment)?;
    let text = joined(front, &rest)?;
    let sentence = Sentence::plain(alloc, text);
    Ok(sentence)
}

/// Says which message the program sends there, if it sends one.
fn say_awaited<V: Voice, S>(
    lines: &mut Lines,
    voice: &V,
    stand: &Stand<S>,
    reason: Reason,
) -> Result<(), Memory> {
    match stand.awaited().first() {
        Some(output) => {
            let sending = Sending { voice, output };
            let text = format!(in lines.alloc(); "The program awaited {sending}.")?;
            lines.say(text)
        }
        None if reason == Reason::ExtraOutput => {
            let text = format!(in lines.alloc(); "The program awaited no SEND.")?;
            lines.say(text)
        }
        None => Ok(()),
    }
}

/// Says in which state the program is there, if a CHECKPOINT has another one.
fn say_state<P: Program>(
    lines: &mut Lines,
    program: &P,
    stand: &Stand<P::State>,
    reason: Reason,
) -> Result<(), Memory> {
    if reason != Reason::WrongCheckpoint {
        return Ok(());
    }
    let state = program.encode(lines.alloc(), stand.state())?;
    let shown = Shown::of(&state);
    let text = format!(in lines.alloc(); "The program's state was {shown}.")?;
    lines.say(text)
}

/// Returns the sender and the send number of a message that an entry quotes.
fn quoted_number(entry: &Entry) -> Option<(u32, u64)> {
    match Receipt::read(entry.content.as_slice()) {
        Some(receipt) => Some((receipt.from.0, receipt.seq)),
        None => None,
    }
}

/// Returns the place among these entries of the one that quotes a message with the same sender and number.
fn same_quote(entries: &[Entry], entry: &Entry) -> Option<usize> {
    let number = quoted_number(entry)?;
    for (at, earlier) in entries.iter().enumerate() {
        if earlier.kind == entry.kind && quoted_number(earlier) == Some(number) {
            return Some(at);
        }
    }
    None
}

/// Returns the place of the earlier entry that this one does not agree with, if the reason speaks of one.
fn rival(earlier: &[Entry], entry: &Entry, reason: Reason) -> Option<usize> {
    match reason {
        Reason::SeqOrder => earlier.len().checked_sub(1),
        Reason::DuplicateReceipt => same_quote(earlier, entry),
        _ => None,
    }
}

/// Says which earlier entry this one does not agree with, if there is one.
fn say_rival<V: Voice>(
    lines: &mut Lines,
    voice: &V,
    segment: &Segment,
    earlier: &[Entry],
    entry: &Entry,
    reason: Reason,
) -> Result<(), Memory> {
    let Some(at) = rival(earlier, entry, reason) else {
        return Ok(());
    };
    let Some(entry) = earlier.get(at) else {
        return Ok(());
    };
    let seq = entry.seq;
    let logged = Logged { voice, entry };
    let text = format!(in lines.alloc(); "Before it stands entry {seq}, {logged}.")?;
    let sentence = entry_sentence(lines.alloc(), segment, at, seq, text)?;
    lines.add(sentence)
}

/// Says what is logged.
fn say_logged<V: Voice>(lines: &mut Lines, voice: &V, entry: &Entry) -> Result<(), Memory> {
    let logged = Logged { voice, entry };
    let text = format!(in lines.alloc(); "Logged is {logged}.")?;
    lines.say(text)
}

/// Returns where the log of the segment stands behind the entries before the one at which it deviates. Returns `None` at its first entry.
fn stand_there<P: Program>(
    alloc: Global,
    program: &P,
    directory: &Directory,
    segment: &Segment,
    earlier: &[Entry],
) -> Result<Option<Stand<P::State>>, Memory>
    ensures { IfOk result (λ o. IsStanding (setting_of directory.now segment.now.node P.means) segment.now.prev earlier.now o) }
{
    let node = segment.node;
    stand_behind(alloc, program, directory, node, segment.prev, earlier)
}

/// Says what the program does behind the entries before the one at which the segment deviates.
fn say_before<P: Program, V: Voice>(
    lines: &mut Lines,
    under: &Under<'_, P, V>,
    segment: &Segment,
    earlier: &[Entry],
    reason: Reason,
) -> Result<(), Memory> {
    let alloc = lines.alloc();
    let stand = stand_there(alloc, under.program, under.directory, segment, earlier)?;
    let Some(stand) = stand else {
        return Ok(());
    };
    say_awaited(lines, under.voice, &stand, reason)?;
    say_state(lines, under.program, &stand, reason)
}

/// Returns where the segment deviates, by its verdict: behind how many entries, at which one, and why.
fn deviation_of<'a>(segment: &'a Segment, found: &FoundSegment) -> Option<Place<'a>> {
    let Some(Verdict::Deviates { at, reason }) = found.verdict else {
        return None;
    };
    let entry = segment.entries.as_slice().get(at)?;
    Some((at, entry, reason))
}

/// Returns the sentences that say where a segment deviates and why, and where it stands.
pub(crate) fn deviation_lead(
    alloc: Global,
    segment: &Segment,
    found: &FoundSegment,
) -> Result<Vec<Sentence>, Memory>
    ensures { IfOk result (λ lead. IsDeviation segment.now lead.items) }
{
    let deviation = deviation_of(segment, found);
    let first = place_sentence(alloc, segment, deviation)?;
    let second = segment_sentence(alloc, segment, found)?;
    let lead = two(alloc, first, second)?;
    Ok(lead)
}

/// Says of a segment that deviates what the program awaits there, and what is logged.
pub(crate) fn say_deviation<P: Program, V: Voice>(
    lines: &mut Lines,
    under: &Under<'_, P, V>,
    segment: &Segment,
    found: &FoundSegment,
) -> Result<(), Memory> {
    let Some((at, entry, reason)) = deviation_of(segment, found) else {
        return Ok(());
    };
    let earlier = segment.entries.as_slice().get(..at).unwrap_or(&[]);
    say_rival(lines, under.voice, segment, earlier, entry, reason)?;
    say_before(lines, under, segment, earlier, reason)?;
    say_logged(lines, under.voice, entry)
}
