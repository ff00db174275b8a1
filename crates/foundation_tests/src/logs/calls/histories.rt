//! Histories: their chain, their segments, and what they refuse.

use super::{FIRST, SECOND, THIRD, three_entries};
use log_chain::{
    AppendFault, AppendRefused, ByteString, Hash, SecureHistory, SegmentFault, base_hash,
    chain_end, place_of,
};
use std::alloc::Global;
use std::test::*;

fn append(
    alloc: Global,
    history: &mut SecureHistory,
    seq: u64,
    kind: u8,
    content: &[u8],
) -> Result<Hash, Fail> {
    let content = ByteString::from_slice(alloc, content)?;
    Ok(history.append(seq, kind, content)?)
}

/// Appends the three entries, and answers what the history answers.
fn append_three(alloc: Global, history: &mut SecureHistory) -> Result<[Hash; 3], Fail> {
    Ok([
        append(alloc, history, 1, 1, &[0, 0, 0, 2])?,
        append(alloc, history, 7, 2, b"abc")?,
        append(alloc, history, 9, 5, b"")?,
    ])
}

/// The history of the three entries.
fn history_of_three(alloc: Global) -> Result<SecureHistory, Fail> {
    let mut history = SecureHistory::new(alloc);
    append_three(alloc, &mut history)?;
    Ok(history)
}

/// The history of one entry, which is numbered 1.
fn history_of_one(alloc: Global) -> Result<SecureHistory, Fail> {
    let mut history = SecureHistory::new(alloc);
    append(alloc, &mut history, 1, 1, b"one")?;
    Ok(history)
}

#[test]
fn appending_tells_the_hash(rt: HostRuntime) -> Result<(), Fail> {
    let mut history = SecureHistory::new(rt.alloc());
    assert!(rt; (history.last(), history.is_empty()) == (None, true));
    assert!(rt; append_three(rt.alloc(), &mut history)? == [FIRST, SECOND, THIRD]);
    Ok(())
}

/// The hashes of the entries 1, 7 and 8.
fn hashes_at(history: &SecureHistory) -> [Option<Hash>; 3] {
    [history.hash_at(1), history.hash_at(7), history.hash_at(8)]
}

#[test]
fn a_history_keeps_the_chain(rt: HostRuntime) -> Result<(), Fail> {
    let history = history_of_three(rt.alloc())?;
    assert!(rt; (history.len(), history.last()) == (3, Some((9, THIRD))));
    assert!(rt; hashes_at(&history) == [Some(FIRST), Some(SECOND), None]);
    let entries = three_entries(rt.alloc())?;
    assert!(rt; history.entries() == entries.as_slice());
    Ok(())
}

/// Whether what `Debug` shows of the history starts so.
fn starts_with(alloc: Global, history: &SecureHistory, start: &str) -> Result<bool, Fail> {
    let shown = format!(in alloc; "{history:?}")?;
    Ok(shown.as_str().starts_with(start))
}

#[test]
fn a_history_is_shown_by_its_length(rt: HostRuntime) -> Result<(), Fail> {
    let history = history_of_three(rt.alloc())?;
    let start = "SecureHistory { len: 3, spare: ";
    assert!(rt; starts_with(rt.alloc(), &history, start)?);
    Ok(())
}

/// The hash before the segment, its number of entries, and the hash at its end.
fn ends_of(
    history: &SecureHistory,
    from: u64,
    to: u64,
) -> Result<(Hash, usize, Hash), SegmentFault> {
    let (prev, entries) = history.segment(from, to)?;
    Ok((prev, entries.len(), chain_end(prev, entries.as_slice())))
}

#[test]
fn a_segment_is_a_part_of_the_chain(rt: HostRuntime) -> Result<(), Fail> {
    let history = history_of_three(rt.alloc())?;
    let ends = [
        ends_of(&history, 7, 9),
        ends_of(&history, 1, 1),
        ends_of(&history, 9, 7),
    ];
    let one = Ok((base_hash(), 1, FIRST));
    assert!(rt; ends == [Ok((FIRST, 2, THIRD)), one, Err(SegmentFault::NoEntry)]);
    Ok(())
}

#[test]
fn a_segment_ends_with_an_entry(rt: HostRuntime) -> Result<(), Fail> {
    let history = history_of_one(rt.alloc())?;
    assert!(rt; ends_of(&history, 1, 9) == Err(SegmentFault::NoEntry));
    Ok(())
}

/// The places of the entries with the numbers 1, 7, 9, 8 and 10.
fn places(history: &SecureHistory) -> [Option<usize>; 5] {
    let entries = history.entries();
    [
        place_of(entries, 1),
        place_of(entries, 7),
        place_of(entries, 9),
        place_of(entries, 8),
        place_of(entries, 10),
    ]
}

#[test]
fn an_entry_is_found_by_its_number(rt: HostRuntime) -> Result<(), Fail> {
    let mut history = SecureHistory::new(rt.alloc());
    assert!(rt; places(&history) == [None; 5]);
    append_three(rt.alloc(), &mut history)?;
    assert!(rt; places(&history) == [Some(0), Some(1), Some(2), None, None]);
    Ok(())
}

#[test]
fn an_append_takes_of_the_room(rt: HostRuntime) -> Result<(), Fail> {
    let mut history = SecureHistory::new(rt.alloc());
    history.reserve(2)?;
    assert!(rt; history.spare() >= 2);
    append(rt.alloc(), &mut history, 1, 1, b"one")?;
    assert!(rt; history.spare() >= 1);
    Ok(())
}

/// The refusal of an entry.
fn refusal(
    history: &mut SecureHistory,
    seq: u64,
    content: ByteString,
) -> Result<AppendRefused, Fail> {
    Ok(history.append(seq, 1, content).err().ok_or("a refusal")?)
}

/// Why a history of one entry refuses another one with this number and content, whether the content comes back, and how many
/// entries the history then has.
fn refused_with(
    alloc: Global,
    seq: u64,
    content: &[u8],
) -> Result<(AppendFault, bool, usize), Fail> {
    let mut history = history_of_one(alloc)?;
    let refused = refusal(&mut history, seq, ByteString::from_slice(alloc, content)?)?;
    let comes_back = refused.content.as_slice() == content;
    Ok((refused.fault, comes_back, history.entries().len()))
}

#[test]
fn a_history_refuses_a_number_that_does_not_rise(rt: HostRuntime) -> Result<(), Fail> {
    let refused = refused_with(rt.alloc(), 1, b"two")?;
    assert_eq!(rt; refused, (AppendFault::SeqNotRising, true, 1));
    Ok(())
}

#[test]
fn a_history_refuses_a_content_that_is_too_long(rt: HostRuntime) -> Result<(), Fail> {
    let long = vec![in rt.alloc(); 0; 131_073]?;
    let refused = refused_with(rt.alloc(), 2, long.as_slice())?;
    assert!(rt; refused == (AppendFault::ContentTooLong, true, 1));
    Ok(())
}

/// How many entries the segment has.
fn length_of(history: &SecureHistory, from: u64, to: u64) -> Result<usize, SegmentFault> {
    let (_prev, entries) = history.segment(from, to)?;
    Ok(entries.len())
}

#[test]
fn a_segment_has_4096_entries_at_most(rt: HostRuntime) -> Result<(), Fail> {
    let mut history = SecureHistory::new(rt.alloc());
    for seq in 1..4098 {
        append(rt.alloc(), &mut history, seq, 4, b"")?;
    }
    assert!(rt; length_of(&history, 1, 4097) == Err(SegmentFault::SegmentTooLong));
    assert!(rt; length_of(&history, 2, 4097) == Ok(4096));
    Ok(())
}
