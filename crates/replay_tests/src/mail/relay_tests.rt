//! Messages and times.

use crate::mail::told::{EMPTY, heard, ticked};
use authenticators::NodeId;
use log_chain::FieldWriter;
use mailbox::Mailbox;
use replay_verifier::Program;
use std::alloc::Global;
use std::test::Fail;

/// At moment 6, a draft `ok`, a mail `hi` of node 1 for node 2 of moment 5, and an empty one of node 2 for node 3 of moment 6.
const TWO: &[u8] =
    b"\0\0\0\0\0\0\0\x06\0\0\0\x02ok\0\0\0\x02\0\0\0\x01\0\0\0\x02\0\0\0\0\0\0\0\x05\0\0\0\x02hi\0\0\0\x02\0\0\0\x03\0\0\0\0\0\0\0\x06\0\0\0\0";

/// The state of no draft and so many empty mails of node 1 for node 2 at moment 0, and `end` behind it.
fn many(alloc: Global, count: u8, end: &[u8]) -> Result<Vec<u8>, Fail> {
    let mut writer = FieldWriter::new(alloc);
    writer.rest(b"\0\0\0\0\0\0\0\0\0\0\0\0\0\0\0")?;
    writer.u8(count)?;
    for _ in 0..count {
        writer.rest(b"\0\0\0\x01\0\0\0\x02\0\0\0\0\0\0\0\0\0\0\0\0")?;
    }
    writer.rest(end)?;
    Ok(writer.finish())
}

/// Whether bytes are those of a state, which is then written again so.
fn is_state(alloc: Global, bytes: &[u8]) -> Result<bool, Fail> {
    match Mailbox.decode(alloc, bytes)? {
        Some(state) => Ok(Mailbox.encode(alloc, &state)?.as_slice() == bytes),
        None => Ok(false),
    }
}

#[test]
fn a_node_begins_with_no_draft_and_no_mail(rt: HostRuntime) -> Result<(), Fail> {
    let state = Mailbox.start(rt.alloc(), NodeId(9))?;
    let bytes = Mailbox.encode(rt.alloc(), &state)?;
    assert!(rt; bytes.as_slice() == [0; 16].as_slice());
    Ok(())
}

#[test]
fn a_text_is_held_and_its_sender_told(rt: HostRuntime) -> Result<(), Fail> {
    let found = heard(rt.alloc(), EMPTY, 1, b"D\0\0\0\x02hi")?;
    let wanted =
        b"\0\0\0\0\0\0\0\x05\0\0\0\0\0\0\0\x01\0\0\0\x01\0\0\0\x02\0\0\0\0\0\0\0\x05\0\0\0\x02hi\0\0\0\x01\0\0\0\0\0\0\0\x01S";
    assert!(rt; found.as_slice() == wanted.as_slice());
    Ok(())
}

#[test]
fn a_fetch_takes_the_mails_for_its_sender(rt: HostRuntime) -> Result<(), Fail> {
    let found = heard(rt.alloc(), TWO, 2, b"F")?;
    let wanted =
        b"\0\0\0\0\0\0\0\x06\0\0\0\x02ok\0\0\0\x01\0\0\0\x02\0\0\0\x03\0\0\0\0\0\0\0\x06\0\0\0\0\0\0\0\x02\0\0\0\0\0\0\0\x07M\0\0\0\x01hi";
    assert!(rt; found.as_slice() == wanted.as_slice());
    let found = heard(rt.alloc(), TWO, 1, b"F")?;
    assert!(rt; found.as_slice() == TWO);
    Ok(())
}

#[test]
fn a_time_sets_the_clock_and_drops_what_is_old(rt: HostRuntime) -> Result<(), Fail> {
    let alloc = rt.alloc();
    let found = ticked(alloc, TWO, 1006)?;
    let wanted =
        b"\0\0\0\0\0\0\x03\xee\0\0\0\x02ok\0\0\0\x01\0\0\0\x02\0\0\0\x03\0\0\0\0\0\0\0\x06\0\0\0\0";
    assert!(rt; found.as_slice() == wanted.as_slice());
    let found = ticked(alloc, TWO, 3)?;
    assert!(rt; found.as_slice() == TWO);
    Ok(())
}

#[test]
fn what_does_not_fit_is_answered_so(rt: HostRuntime) -> Result<(), Fail> {
    let alloc = rt.alloc();
    let full = many(alloc, 16, b"")?;
    let found = heard(alloc, &full, 1, b"D\0\0\0\x02hi")?;
    assert!(rt; found.as_slice() == many(alloc, 16, b"\0\0\0\x01\0\0\0\0\0\0\0\x01X")?.as_slice());
    let mut long = Vec::from_slice(alloc, b"D\0\0\0\x02")?;
    long.extend_from_slice(&[7; 257])?;
    let found = heard(alloc, &many(alloc, 1, b"")?, 1, &long)?;
    assert!(rt; found.as_slice() == many(alloc, 1, b"\0\0\0\x01\0\0\0\0\0\0\0\x01L")?.as_slice());
    Ok(())
}

#[test]
fn other_messages_are_not_understood(rt: HostRuntime) -> Result<(), Fail> {
    let wanted = b"\0\0\0\0\0\0\0\x05\0\0\0\0\0\0\0\0\0\0\0\x01\0\0\0\0\0\0\0\x01?".as_slice();
    for payload in [
        b"".as_slice(),
        b"D\0\0\0",
        b"F ",
        b"f",
        b"m",
        b"G\0\0\0\x02hi",
    ] {
        let found = heard(rt.alloc(), EMPTY, 1, payload)?;
        assert!(rt; found.as_slice() == wanted);
    }
    Ok(())
}

#[test]
fn answers_are_taken_in_silence(rt: HostRuntime) -> Result<(), Fail> {
    for payload in [
        b"S".as_slice(),
        b"L",
        b"X",
        b"?",
        b"?hi",
        b"M",
        b"M\0\0\0\x02hi",
    ] {
        let found = heard(rt.alloc(), TWO, 1, payload)?;
        assert!(rt; found.as_slice() == TWO);
    }
    Ok(())
}

#[test]
fn only_bytes_of_a_state_are_decoded(rt: HostRuntime) -> Result<(), Fail> {
    let alloc = rt.alloc();
    for (count, end, is) in [
        (16, b"".as_slice(), true),
        (16, b"\0", false),
        (17, b"", false),
    ] {
        let bytes = many(alloc, count, end)?;
        assert!(rt; is_state(alloc, &bytes)? == is);
    }
    for len in 0..TWO.len() {
        assert!(rt; !is_state(alloc, &TWO[..len])?);
    }
    assert!(rt; is_state(alloc, TWO)?);
    Ok(())
}
