//! Texts of outlines and summaries that are refused.

use std::alloc::Global;
use std::test::Fail;
use transfer::{Outline, Summary, SummaryFault};

#[test]
fn refusals_have_numbers_names_and_lines(rt: HostRuntime) -> Result<(), Fail> {
    for (fault, number, name, line) in [
        (
            SummaryFault::Truncated,
            40,
            "Truncated",
            "the bytes end within a field",
        ),
        (
            SummaryFault::BadTag,
            41,
            "BadTag",
            "the byte in front of a bucket is neither 0 nor 1",
        ),
        (
            SummaryFault::Trailing,
            43,
            "Trailing",
            "bytes are left over",
        ),
        (
            SummaryFault::BadMagic,
            60,
            "BadMagic",
            "the first bytes are not those of an outline or a summary",
        ),
        (
            SummaryFault::NotAscending,
            61,
            "NotAscending",
            "a digest is not above the one before it, or is not of its bucket",
        ),
        (
            SummaryFault::NothingKept,
            62,
            "NothingKept",
            "the summary keeps no bucket, so it says nothing",
        ),
        (SummaryFault::Memory, 99, "Memory", "memory ran out"),
    ] {
        assert_eq!(rt; fault.number(), number);
        assert_eq!(rt; fault.name(), name);
        let told = format!(in rt.alloc(); "{fault}")?;
        assert_eq!(rt; told.as_str(), line);
    }
    Ok(())
}

/// The fault of a text, as its number; 0 where it is read.
fn number_of(alloc: Global, text: &[u8]) -> u8 {
    match Summary::from_bytes(alloc, text) {
        Ok(_) => 0,
        Err(fault) => fault.number(),
    }
}

#[test]
fn summaries_that_are_refused(rt: HostRuntime) -> Result<(), Fail> {
    let alloc = rt.alloc();
    let told = [
        number_of(alloc, b"PRSUMM0"),
        number_of(alloc, b"PRSUMM03"),
        number_of(alloc, b"PRSUMM01\0\0\0\0\0\0\0"),
        number_of(alloc, b"PRSUMM01\0\0\0\0\0\0\0\0"),
        number_of(alloc, b"PRSUMM01\0\0\0\0\0\0\0\0\0"),
        number_of(alloc, b"PRSUMM01\0\0\0\0\0\0\0\x01\0"),
    ];
    assert_eq!(rt; told, [40, 60, 40, 0, 43, 40]);
    Ok(())
}

/// The text of a summary of two digests, each of one byte 32 times over.
fn of_two(alloc: Global, first: u8, second: u8) -> Result<Vec<u8>, Fail> {
    let mut text = Vec::from_slice(alloc, b"PRSUMM01\0\0\0\0\0\0\0\x02")?;
    text.extend_from_slice(&[first; 32])?;
    text.extend_from_slice(&[second; 32])?;
    Ok(text)
}

#[test]
fn digests_ascend(rt: HostRuntime) -> Result<(), Fail> {
    let alloc = rt.alloc();
    let told = [
        number_of(alloc, of_two(alloc, 1, 2)?.as_slice()),
        number_of(alloc, of_two(alloc, 2, 2)?.as_slice()),
        number_of(alloc, of_two(alloc, 2, 1)?.as_slice()),
    ];
    assert_eq!(rt; told, [0, 61, 61]);
    Ok(())
}

/// Whether each text that is cut off is told so.
fn is_cut_off(alloc: Global) -> Result<bool, Fail> {
    let text = of_two(alloc, 1, 2)?;
    for len in 0..text.len() {
        let (front, _) = text.split_at(len);
        if number_of(alloc, front) != 40 {
            return Ok(false);
        }
    }
    Ok(true)
}

#[test]
fn a_summary_that_is_cut_off_is_truncated(rt: HostRuntime) -> Result<(), Fail> {
    assert!(rt; is_cut_off(rt.alloc())?);
    Ok(())
}

/// The fault of an outline's text, as its number; 0 where it is read.
fn number_of_outline(alloc: Global, text: &[u8]) -> u8 {
    match Outline::from_bytes(alloc, text) {
        Ok(_) => 0,
        Err(fault) => fault.number(),
    }
}

/// The text of an outline of so many digests, which need not ascend.
fn outline_of(alloc: Global, count: u16) -> Result<Vec<u8>, Fail> {
    let mut text = Vec::from_slice(alloc, b"PROUTL01".as_slice())?;
    for _ in 0..count {
        text.extend_from_slice(&[7; 32])?;
    }
    Ok(text)
}

#[test]
fn outlines_that_are_refused(rt: HostRuntime) -> Result<(), Fail> {
    let alloc = rt.alloc();
    let told = [
        number_of_outline(alloc, b"PROUTL0"),
        number_of_outline(alloc, b"PRSUMM01"),
        number_of_outline(alloc, outline_of(alloc, 255)?.as_slice()),
        number_of_outline(alloc, outline_of(alloc, 256)?.as_slice()),
        number_of_outline(alloc, outline_of(alloc, 257)?.as_slice()),
    ];
    assert_eq!(rt; told, [40, 60, 40, 0, 43]);
    Ok(())
}

/// The number of the refusal of a text that keeps the first bucket and has this tag and these bytes in the place of the last one.
fn of_last_bucket(alloc: Global, tag: u8, kept: u8, digest: u8, more: bool) -> Result<u8, Fail> {
    let mut text = Vec::from_slice(alloc, b"PRSUMM02".as_slice())?;
    for bucket in 0..255u16 {
        if bucket == 0 && kept == 1 {
            text.push(1)?;
            text.extend_from_slice(&[7; 32])?;
        } else {
            text.extend_from_slice(&[0; 9])?;
        }
    }
    text.push(tag)?;
    text.extend_from_slice(&[0, 0, 0, 0, 0, 0, 0, 1])?;
    text.extend_from_slice(&[digest; 32])?;
    if more {
        text.push(0)?;
    }
    Ok(number_of(alloc, &text))
}

#[test]
fn short_summaries_that_are_refused(rt: HostRuntime) -> Result<(), Fail> {
    let alloc = rt.alloc();
    let told = [
        of_last_bucket(alloc, 0, 1, 255, false)?,
        of_last_bucket(alloc, 2, 1, 255, false)?,
        of_last_bucket(alloc, 0, 1, 254, false)?,
        of_last_bucket(alloc, 0, 1, 255, true)?,
        of_last_bucket(alloc, 0, 0, 255, false)?,
        of_last_bucket(alloc, 0, 0, 255, true)?,
        number_of(alloc, b"PRSUMM02"),
    ];
    assert_eq!(rt; told, [0, 41, 61, 43, 62, 43, 40]);
    Ok(())
}
