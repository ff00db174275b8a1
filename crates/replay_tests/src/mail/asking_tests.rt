//! Wishes of a node's user, and the moments that make them.

use crate::mail::told::{EMPTY, ticked};
use authenticators::NodeId;
use log_chain::FieldWriter;
use mailbox::wishes;
use std::alloc::Global;
use std::test::Fail;

/// At moment 5, a draft `hi`, and no mail.
const HI: &[u8] = b"\0\0\0\0\0\0\0\x05\0\0\0\x02hi\0\0\0\0";

/// The state at moment 5 of no mail and a draft of so many bytes: so many sevens, and `end` behind them.
fn drafted(alloc: Global, len: u32, sevens: u8, end: &[u8]) -> Result<Vec<u8>, Fail> {
    let mut writer = FieldWriter::new(alloc);
    writer.rest(b"\0\0\0\0\0\0\0\x05")?;
    writer.u32(len)?;
    for _ in 0..sevens {
        writer.u8(7)?;
    }
    writer.rest(end)?;
    writer.rest(b"\0\0\0\0")?;
    Ok(writer.finish())
}

/// Whether these are the moments.
fn are(moments: &[u64], wanted: &[u64]) -> bool {
    moments == wanted
}

#[test]
fn a_fetch_is_sent_to_the_relay(rt: HostRuntime) -> Result<(), Fail> {
    let wanted = b"\0\0\0\0\0\0\0\x05\0\0\0\x02hi\0\0\0\0\0\0\0\x01\0\0\0\0\0\0\0\x01F".as_slice();
    for moment in [0x8000_0000_0000_0000, 0x80ff_ffff_ffff_ffff] {
        let found = ticked(rt.alloc(), HI, moment)?;
        assert!(rt; found.as_slice() == wanted);
    }
    assert!(rt; wishes::fetch() == 0x8000_0000_0000_0000);
    Ok(())
}

#[test]
fn bytes_are_written_behind_the_draft(rt: HostRuntime) -> Result<(), Fail> {
    let alloc = rt.alloc();
    let before = drafted(alloc, 3, 3, b"")?;
    for (moment, len, end) in [
        (0x8100_0000_0000_0021, 4, b"!".as_slice()),
        (0x8161_6263_6465_6667, 4, b"g"),
        (0x8261_6263_6465_6667, 5, b"fg"),
        (0x8361_6263_6465_6667, 6, b"efg"),
        (0x8461_6263_6465_6667, 7, b"defg"),
        (0x8561_6263_6465_6667, 8, b"cdefg"),
        (0x8661_6263_6465_6667, 9, b"bcdefg"),
        (0x8761_6263_6465_6667, 10, b"abcdefg"),
    ] {
        let found = ticked(alloc, &before, moment)?;
        assert!(rt; found.as_slice() == drafted(alloc, len, 3, end)?.as_slice());
    }
    Ok(())
}

#[test]
fn a_draft_that_is_full_stays(rt: HostRuntime) -> Result<(), Fail> {
    let alloc = rt.alloc();
    let found = ticked(
        alloc,
        &drafted(alloc, 249, 249, b"")?,
        0x8761_6263_6465_6667,
    )?;
    assert!(rt; found.as_slice() == drafted(alloc, 256, 249, b"abcdefg")?.as_slice());
    let nearly = drafted(alloc, 250, 250, b"")?;
    let found = ticked(alloc, &nearly, 0x8761_6263_6465_6667)?;
    assert!(rt; found.as_slice() == nearly.as_slice());
    let full = drafted(alloc, 256, 250, b"abcdef")?;
    let found = ticked(alloc, &full, 0x8100_0000_0000_0021)?;
    assert!(rt; found.as_slice() == full.as_slice());
    Ok(())
}

#[test]
fn a_draft_is_left_at_the_relay(rt: HostRuntime) -> Result<(), Fail> {
    let alloc = rt.alloc();
    let found = ticked(alloc, HI, 0x8800_0000_0102_0304)?;
    let wanted =
        b"\0\0\0\0\0\0\0\x05\0\0\0\0\0\0\0\0\0\0\0\x01\0\0\0\0\0\0\0\x07D\x01\x02\x03\x04hi";
    assert!(rt; found.as_slice() == wanted.as_slice());
    let found = ticked(alloc, EMPTY, 0x88ff_ffff_0000_0002)?;
    let wanted = b"\0\0\0\0\0\0\0\x05\0\0\0\0\0\0\0\0\0\0\0\x01\0\0\0\0\0\0\0\x05D\0\0\0\x02";
    assert!(rt; found.as_slice() == wanted.as_slice());
    assert!(rt; wishes::leave(NodeId(0x0102_0304)) == 0x8800_0000_0102_0304);
    Ok(())
}

#[test]
fn a_moment_below_the_wishes_is_a_time(rt: HostRuntime) -> Result<(), Fail> {
    let found = ticked(rt.alloc(), HI, 0x7fff_ffff_ffff_ffff)?;
    let wanted = b"\x7f\xff\xff\xff\xff\xff\xff\xff\0\0\0\x02hi\0\0\0\0";
    assert!(rt; found.as_slice() == wanted.as_slice());
    Ok(())
}

#[test]
fn other_wishes_do_nothing(rt: HostRuntime) -> Result<(), Fail> {
    for letter in 0x89..=0xff {
        let found = ticked(
            rt.alloc(),
            HI,
            u64::from_be_bytes([letter, 0, 0, 0, 0, 0, 0, 2]),
        )?;
        assert!(rt; found.as_slice() == HI);
    }
    Ok(())
}

#[test]
fn a_text_is_written_by_seven_bytes(rt: HostRuntime) -> Result<(), Fail> {
    let moments = wishes::write(rt.alloc(), b"abcdefghijklmn")?;
    assert!(rt; are(&moments, &[0x8761_6263_6465_6667, 0x8768_696a_6b6c_6d6e]));
    let moments = wishes::write(rt.alloc(), b"abcdefghi")?;
    assert!(rt; are(&moments, &[0x8761_6263_6465_6667, 0x8200_0000_0000_6869]));
    let moments = wishes::write(rt.alloc(), b"")?;
    assert!(rt; are(&moments, &[]));
    Ok(())
}
