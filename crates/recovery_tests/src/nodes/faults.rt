//! Texts that are no record, or no beginning, and the numbers and words of what is refused.

use crate::texts::{acknowledged, beginning, received, rekeyed, ticked};
use node_journals::{Beginning, DraftFault, GiveFault, RebuildFault, RecordFault, Recorded};
use std::alloc::Global;
use std::test::Fail;

/// The number by which the text of these digits, one behind the other, is refused as a record; 0 where it is one.
fn number_of(alloc: Global, digits: &[&str]) -> Result<u8, Fail> {
    let text = bytes_of(alloc, digits)?;
    match Recorded::from_bytes(alloc, &text) {
        Ok(_) => Ok(0),
        Err(fault) => Ok(fault.number()),
    }
}

/// The bytes of these digits, one behind the other.
fn bytes_of(alloc: Global, digits: &[&str]) -> Result<Vec<u8>, Fail> {
    let mut bytes = Vec::new(alloc);
    for text in digits {
        bytes.extend_from_slice(&hex::decode(alloc, *text)?)?;
    }
    Ok(bytes)
}

/// 32 bytes.
fn bytes_32() -> &'static str {
    "0707070707070707070707070707070707070707070707070707070707070707"
}

#[test]
fn the_record_of_a_message_is_refused_by_its_first_fault(rt: HostRuntime) -> Result<(), Fail> {
    let rows: [(&[&str], u8); 10] = [
        // The entropy, the length and the item are cut off.
        (&["01"], 40),
        (&["01", bytes_32(), "000000"], 40),
        (&["01", bytes_32(), "00000002", "04"], 40),
        // The length is above its limit.
        (&["01", bytes_32(), "ffffffff"], 42),
        // The item has no byte, is a statement, is none, and is cut off.
        (&["01", bytes_32(), "00000000"], 40),
        (&["01", bytes_32(), "00000001", "01"], 41),
        (&["01", bytes_32(), "00000001", "06"], 41),
        (&["01", bytes_32(), "00000004", "04000000"], 40),
        (&[received()], 0),
        (&[received(), "00"], 43),
    ];
    for (digits, wanted) in rows {
        assert!(rt; number_of(rt.alloc(), digits)? == wanted);
    }
    Ok(())
}

#[test]
fn other_records_are_refused_by_their_first_fault(rt: HostRuntime) -> Result<(), Fail> {
    // An acknowledgement up to its hash, and an identifier.
    let ack = "040000000300000000000000090000000000000002";
    let id = "07070707070707070707070707070707";
    let rows: [(&[&str], u8); 14] = [
        // No byte, and the kinds 0 and 6.
        (&[], 40),
        (&["00"], 41),
        (&["06"], 41),
        (&["02", bytes_32(), "00000000000000"], 40),
        (&[ticked(), "00"], 43),
        (&["0300"], 43),
        (&["0400000003"], 40),
        (&[ack, bytes_32(), "0000246d"], 40),
        (&[ack, bytes_32(), "0000246e"], 42),
        (&[acknowledged(), "00"], 43),
        (&["050000000500000003", id], 40),
        (&["050000000400000003", id, bytes_32()], 2),
        (&["050000000500000005", id, bytes_32()], 3),
        (&[rekeyed(), "00"], 43),
    ];
    for (digits, wanted) in rows {
        assert!(rt; number_of(rt.alloc(), digits)? == wanted);
    }
    Ok(())
}

/// The number by which the text is refused as a beginning; 0 where it is one.
fn number_of_beginning(alloc: Global, text: &[u8]) -> u8 {
    match Beginning::from_bytes(alloc, text) {
        Ok(_) => 0,
        Err(fault) => fault.number(),
    }
}

/// The same of node 2's beginning, where the byte at this place is another one.
fn number_with(alloc: Global, place: usize, byte: u8) -> Result<u8, Fail> {
    let mut text = hex::decode(alloc, beginning())?;
    if let Some(old) = text.get_mut(place) {
        *old = byte;
    }
    Ok(number_of_beginning(alloc, &text))
}

/// The key stands at 52, with its types first, and the name's length at 108.
#[test]
fn a_beginning_is_refused_by_its_first_fault(rt: HostRuntime) -> Result<(), Fail> {
    for (place, byte, wanted) in [
        (0, b'Q', 60),
        (7, b'2', 60),
        (55, 4, 2),
        (59, 5, 3),
        (110, 1, 42),
        (111, 6, 40),
        (111, 4, 43),
        (111, 5, 0),
    ] {
        assert!(rt;
            number_with(rt.alloc(), place, byte)? == wanted,
            "at {place}"
        );
    }
    Ok(())
}

#[test]
fn a_beginning_that_is_cut_off_is_refused(rt: HostRuntime) -> Result<(), Fail> {
    let alloc = rt.alloc();
    for len in [0, 7, 8, 11, 19, 51, 107, 111, 116] {
        let mut text = hex::decode(alloc, beginning())?;
        text.truncate(len);
        assert!(rt; number_of_beginning(alloc, &text) == 40, "at {len}");
    }
    Ok(())
}

#[test]
fn faults_of_texts_have_numbers_names_and_lines(rt: HostRuntime) -> Result<(), Fail> {
    for (fault, told) in [
        (
            RecordFault::UnknownLmsType,
            "2 UnknownLmsType: the type of the tree is unknown",
        ),
        (
            RecordFault::UnknownOtsType,
            "3 UnknownOtsType: the type of the one-time signatures is unknown",
        ),
        (
            RecordFault::Truncated,
            "40 Truncated: the bytes end within a field",
        ),
        (
            RecordFault::BadTag,
            "41 BadTag: the kind of the record is unknown, or its item is no send challenge",
        ),
        (
            RecordFault::TooLong,
            "42 TooLong: a length is above its limit",
        ),
        (
            RecordFault::Trailing,
            "43 Trailing: bytes are left over after the record",
        ),
        (
            RecordFault::BadMagic,
            "60 BadMagic: the first bytes are not those of a node's journal",
        ),
        (RecordFault::Memory, "99 Memory: memory ran out"),
    ] {
        let line = format!(in rt.alloc(); "{} {}: {fault}", fault.number(), fault.name())?;
        assert!(rt; line.as_str() == told);
    }
    Ok(())
}

#[test]
fn faults_of_drafts_have_numbers_names_and_lines(rt: HostRuntime) -> Result<(), Fail> {
    for (fault, told) in [
        (
            DraftFault::TooLong,
            "42 TooLong: a part of the record is above its limit",
        ),
        (
            DraftFault::OtherKey,
            "128 OtherKey: none of the seeds makes the key",
        ),
        (DraftFault::Memory, "99 Memory: memory ran out"),
    ] {
        let line = format!(in rt.alloc(); "{} {}: {fault}", fault.number(), fault.name())?;
        assert!(rt; line.as_str() == told);
    }
    Ok(())
}

#[test]
fn the_end_of_a_node_has_a_number_a_name_and_a_line(rt: HostRuntime) -> Result<(), Fail> {
    let ended = GiveFault::Ended;
    assert!(rt; ended.number() == 130 && ended.name() == "Ended");
    let line = "memory ran out after the record was written: rebuild the node from its journal";
    assert!(rt; format!(in rt.alloc(); "{ended}")?.as_str() == line);
    Ok(())
}

#[test]
fn refusals_to_rebuild_have_numbers_names_and_lines(rt: HostRuntime) -> Result<(), Fail> {
    for (fault, told) in [
        (
            RebuildFault::UnknownNode,
            "30 UnknownNode: the node is not listed in the directory",
        ),
        (
            RebuildFault::WrongKey,
            "31 WrongKey: the key is none of the node's keys",
        ),
        (RebuildFault::Memory, "99 Memory: memory ran out"),
        (
            RebuildFault::OtherProgram,
            "123 OtherProgram: the journal is of another program",
        ),
        (
            RebuildFault::OtherDirectory,
            "124 OtherDirectory: the journal is of another directory",
        ),
        (
            RebuildFault::EmptyJournal,
            "126 EmptyJournal: the journal is empty",
        ),
        (
            RebuildFault::NoBeginning,
            "127 NoBeginning: the first text of the journal is not that of a node's journal",
        ),
        (
            RebuildFault::OtherKey,
            "128 OtherKey: none of the seeds makes a key that the journal names",
        ),
        (
            RebuildFault::BadRecord,
            "129 BadRecord: a text of the journal is no record",
        ),
    ] {
        let line = format!(in rt.alloc(); "{} {}: {fault}", fault.number(), fault.name())?;
        assert!(rt; line.as_str() == told);
    }
    Ok(())
}
