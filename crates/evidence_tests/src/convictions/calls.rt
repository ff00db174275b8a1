//! What contradicts a segment, and the texts of proofs: values from outside, and each public call once on its happy path.

ghost use Rattle.std.specs.Prelude.{◌≡◌, IfOk};
ghost use Rattle.log_chain.specs.Chain.{hashes};

use authenticators::{Authenticator, NodeId};
use evidence_item::Segment;
use log_chain::{ByteString, Entry, EntryList, Hash, base_hash, chain_end, entry_hash, kind};
use proofs::{BadTag, DecodeFault, Item, Parts, Proof, ProofFault, RangedSegment};
use std::alloc::Global;
use std::test::Fail;

pub(crate) const ZEROS: Hash = Hash([0; 32]);

pub(crate) const ONES: Hash = Hash([1; 32]);

pub(crate) fn no_bytes(alloc: Global) -> ByteString {
    ByteString::from_vec(Vec::new(alloc))
}

/// Entries of these numbers, of kind TIMER and with no content.
fn entries_of(alloc: Global, numbers: &[u64]) -> Result<Vec<Entry>, Fail> {
    let mut entries = Vec::new(alloc);
    for seq in numbers {
        entries.push(Entry {
            seq: *seq,
            kind: kind::TIMER,
            content: no_bytes(alloc),
        })?;
    }
    Ok(entries)
}

/// The hash of each entry, after the hash `prev`.
fn hashes_of(alloc: Global, prev: Hash, entries: &[Entry]) -> Result<Vec<Hash>, Fail>
    ensures { IfOk result (λ all. all.items ≡ hashes prev entries.now) }
{
    let mut all = Vec::new(alloc);
    let mut hash = prev;
    for entry in entries {
        hash = entry_hash(hash, entry);
        all.push(hash)?;
    }
    Ok(all)
}

/// Whether the statement contradicts a segment of entries of these numbers after the hash.
fn is_told(alloc: Global, prev: Hash, numbers: &[u64], seq: u64, hash: Hash) -> Result<bool, Fail> {
    let entries = entries_of(alloc, numbers)?;
    let hashes = hashes_of(alloc, prev, &entries)?;
    let segment = Segment {
        node: NodeId(1),
        prev,
        entries: EntryList::from_vec(entries),
        sig: no_bytes(alloc),
    };
    Ok(RangedSegment::new(&segment, &hashes).contradicts(seq, hash))
}

/// The hash of the last of entries of these numbers after 32 zero bytes.
fn end_of(alloc: Global, numbers: &[u64]) -> Result<Hash, Fail> {
    let entries = entries_of(alloc, numbers)?;
    Ok(chain_end(ZEROS, &entries))
}

#[test]
fn statements_within_a_segment(rt: HostRuntime) -> Result<(), Fail> {
    let alloc = rt.alloc();
    let first = end_of(alloc, &[5])?;
    let last = end_of(alloc, &[5, 9])?;
    for (seq, hash, told) in [
        (5, first, false),
        (5, last, true),
        (7, first, true),
        (9, last, false),
        (9, first, true),
        (10, first, false),
        (u64::MAX, first, false),
    ] {
        assert_eq!(rt; is_told(alloc, ZEROS, &[5, 9], seq, hash)?, told);
    }
    Ok(())
}

#[test]
fn statements_before_a_segment(rt: HostRuntime) -> Result<(), Fail> {
    let alloc = rt.alloc();
    for (prev, seq, hash, told) in [
        (ZEROS, 4, ZEROS, false),
        (ZEROS, 4, ONES, true),
        (ZEROS, 3, ONES, false),
        (ZEROS, 0, ONES, false),
        (base_hash(), 4, base_hash(), true),
        (base_hash(), 0, ONES, true),
    ] {
        assert_eq!(rt; is_told(alloc, prev, &[5, 9], seq, hash)?, told);
    }
    Ok(())
}

#[test]
fn segments_that_contradict_little(rt: HostRuntime) -> Result<(), Fail> {
    let alloc = rt.alloc();
    for (numbers, seq, told) in [
        ([0].as_slice(), u64::MAX, false),
        ([0].as_slice(), 0, true),
        ([5, 5].as_slice(), 5, false),
        ([9, 5].as_slice(), 4, false),
        ([].as_slice(), 0, false),
    ] {
        assert_eq!(rt; is_told(alloc, ZEROS, numbers, seq, ONES)?, told);
    }
    Ok(())
}

fn auth_of(alloc: Global, seq: u64, hash: Hash) -> Result<Box<Item>, Fail> {
    let item = Item::auth(Authenticator {
        node: NodeId(1),
        seq,
        hash,
        sig: ByteString::from_slice(alloc, &[9, 8, 7])?,
    })?;
    Ok(Box::new(alloc, item)?)
}

fn segment_item(alloc: Global) -> Result<Box<Item>, Fail> {
    let entries = entries_of(alloc, &[5, 9])?;
    let item = Item::segment(NodeId(1), ZEROS, entries, no_bytes(alloc))?;
    Ok(Box::new(alloc, item)?)
}

pub(crate) fn two_auths(first: Box<Item>, second: Box<Item>) -> Result<Proof, Fail> {
    Ok(Proof::two_auths(Box::into_inner(first), Box::into_inner(second))?)
}

pub(crate) fn auth_segment(auth: Box<Item>, segment: Box<Item>) -> Result<Proof, Fail> {
    Ok(Proof::auth_segment(Box::into_inner(auth), Box::into_inner(segment))?)
}

pub(crate) fn nonconforming(segment: Box<Item>) -> Result<Proof, Fail> {
    Ok(Proof::nonconforming(Box::into_inner(segment))?)
}

/// A proof of each form, by its number.
pub(crate) fn proof_of(alloc: Global, form: u8) -> Result<Box<Proof>, Fail> {
    let proof = match form {
        1 => two_auths(auth_of(alloc, 5, ZEROS)?, auth_of(alloc, 5, ONES)?)?,
        2 => auth_segment(auth_of(alloc, 5, ZEROS)?, segment_item(alloc)?)?,
        _ => nonconforming(segment_item(alloc)?)?,
    };
    Ok(Box::new(alloc, proof)?)
}

fn read(alloc: Global, bytes: &[u8]) -> Result<Box<Proof>, DecodeFault> {
    let proof = Proof::decode(alloc, bytes)?;
    Ok(Box::new(alloc, proof)?)
}

/// The number of the refusal, or 0 where the bytes are a proof.
fn refusal(alloc: Global, bytes: &[u8]) -> u8 {
    match read(alloc, bytes) {
        Ok(_) => 0,
        Err(fault) => fault.number(),
    }
}

/// The text of the form's proof.
fn text_of(alloc: Global, form: u8) -> Result<Vec<u8>, Fail> {
    Ok(proof_of(alloc, form)?.encode(alloc)?)
}

/// Whether each proper prefix of that text is told as cut off.
fn is_cut_off(alloc: Global, form: u8) -> Result<bool, Fail> {
    let text = text_of(alloc, form)?;
    for len in 0..text.len() {
        if refusal(alloc, &text[..len]) != 40 {
            return Ok(false);
        }
    }
    Ok(true)
}

#[test]
fn a_proof_that_is_cut_off_is_truncated(rt: HostRuntime) -> Result<(), Fail> {
    for form in 1..4u8 {
        assert!(rt; is_cut_off(rt.alloc(), form)?);
    }
    Ok(())
}

fn copy_of(alloc: Global, proof: &Proof) -> Result<Box<Proof>, Fail> {
    let copy = proof.try_clone(alloc)?;
    Ok(Box::new(alloc, copy)?)
}

/// Whether the text of the form's proof is read as what a copy of that proof is.
fn is_read_again(alloc: Global, form: u8) -> Result<bool, Fail> {
    let proof = proof_of(alloc, form)?;
    let text = proof.encode(alloc)?;
    let again = read(alloc, &text)?;
    let copy = copy_of(alloc, &proof)?;
    Ok(*again == *copy)
}

#[test]
fn proofs_are_read_again(rt: HostRuntime) -> Result<(), Fail> {
    for form in 1..4u8 {
        assert!(rt; is_read_again(rt.alloc(), form)?);
    }
    Ok(())
}

/// The refusal of the text of the form's proof with the byte at a place changed to another.
fn refusal_with(alloc: Global, form: u8, place: usize, byte: u8) -> Result<u8, Fail> {
    let mut text = text_of(alloc, form)?;
    if let Some(changed) = text.get_mut(place) {
        *changed = byte;
    }
    Ok(refusal(alloc, &text))
}

/// The same with a byte more at the end.
fn refusal_of_longer(alloc: Global, form: u8) -> Result<u8, Fail> {
    let mut text = text_of(alloc, form)?;
    text.push(0)?;
    Ok(refusal(alloc, &text))
}

#[test]
fn other_texts_are_refused(rt: HostRuntime) -> Result<(), Fail> {
    let alloc = rt.alloc();
    // The form; the first part's length, its tag, and a length that ends within it.
    for (place, byte, number) in [(0, 4, 41), (1, 0x21, 42), (5, 2, 41), (4, 51, 40)] {
        assert_eq!(rt; refusal_with(alloc, 1, place, byte)?, number);
    }
    assert_eq!(rt; refusal_of_longer(alloc, 1)?, 43);
    Ok(())
}

/// The text of a proof of form 1 and a byte more. Each statement has a signature of one byte, and 50 bytes.
fn longer_text() -> [u8; 110] {
    let mut text = [0u8; 110];
    text[0] = 1;
    text[4] = 50;
    text[5] = 1;
    text[53] = 1;
    text[58] = 50;
    text[59] = 1;
    text[107] = 1;
    text
}

/// The refusals of that text, and of one whose second part has another tag. All growth of memory is that of reading them.
fn refusals_of_longer(alloc: Global) -> [u8; 2] {
    let text = longer_text();
    let mut other_tag = text;
    other_tag[59] = 2;
    [refusal(alloc, &text), refusal(alloc, &other_tag)]
}

#[test]
fn a_fault_is_told_without_memory(rt: HostRuntime) -> Result<(), Fail> {
    assert_eq!(rt; refusals_of_longer(rt.alloc()), [43, 41]);
    Ok(())
}

/// The refusal of a proof whose first item has this length, of which no byte is there.
fn refusal_of_length(alloc: Global, len: [u8; 4]) -> u8 {
    let [a, b, c, d] = len;
    refusal(alloc, &[1, a, b, c, d])
}

#[test]
fn an_item_has_a_greatest_length(rt: HostRuntime) -> Result<(), Fail> {
    let numbers = [
        refusal_of_length(rt.alloc(), [0x20, 0x00, 0xf4, 0x9a]),
        refusal_of_length(rt.alloc(), [0x20, 0x00, 0xf4, 0x9b]),
    ];
    assert_eq!(rt; numbers, [40, 42]);
    Ok(())
}

/// The number of the refusal of two items as two statements, or 0 where they make a proof.
fn refusal_of_two(first: Box<Item>, second: Box<Item>) -> u8 {
    match Proof::two_auths(Box::into_inner(first), Box::into_inner(second)) {
        Ok(_) => 0,
        Err(refused) => refused.number(),
    }
}

/// The same of two items as a statement and a segment.
fn refusal_of_both(auth: Box<Item>, segment: Box<Item>) -> u8 {
    match Proof::auth_segment(Box::into_inner(auth), Box::into_inner(segment)) {
        Ok(_) => 0,
        Err(refused) => refused.number(),
    }
}

/// The same of an item as a segment.
fn refusal_of_one(segment: Box<Item>) -> u8 {
    match Proof::nonconforming(Box::into_inner(segment)) {
        Ok(_) => 0,
        Err(refused) => refused.number(),
    }
}

#[test]
fn other_items_make_no_proof(rt: HostRuntime) -> Result<(), Fail> {
    let alloc = rt.alloc();
    let numbers = [
        refusal_of_two(auth_of(alloc, 5, ZEROS)?, segment_item(alloc)?),
        refusal_of_two(segment_item(alloc)?, auth_of(alloc, 5, ZEROS)?),
        refusal_of_both(segment_item(alloc)?, segment_item(alloc)?),
        refusal_of_both(auth_of(alloc, 5, ZEROS)?, auth_of(alloc, 5, ZEROS)?),
        refusal_of_one(auth_of(alloc, 5, ZEROS)?),
    ];
    assert_eq!(rt; numbers, [41; 5]);
    Ok(())
}

#[test]
fn refusals_have_numbers_and_names(rt: HostRuntime) -> Result<(), Fail> {
    assert!(rt; (BadTag.number(), ProofFault::NoContradiction.number()) == (41, 50));
    assert!(rt; BadTag.name() == "BadTag" && ProofFault::Conforms.name() == "Conforms");
    Ok(())
}

/// The number of the form of the parts.
fn form_of(parts: &Parts) -> u8 {
    match parts {
        Parts::TwoAuths(_, _) => 1,
        Parts::AuthSegment(_, _) => 2,
        Parts::Nonconforming(_) => 3,
    }
}

/// The form of the proof's parts, as it lends them and as it gives them away.
fn forms_of(proof: Box<Proof>) -> [u8; 2] {
    let lent = form_of(proof.parts());
    let parts = Box::into_inner(proof).into_parts();
    [lent, form_of(&parts)]
}

#[test]
fn proofs_have_their_parts(rt: HostRuntime) -> Result<(), Fail> {
    for form in 1..4u8 {
        assert_eq!(rt; forms_of(proof_of(rt.alloc(), form)?), [form; 2]);
    }
    Ok(())
}
