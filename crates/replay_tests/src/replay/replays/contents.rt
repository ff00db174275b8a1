//! How long the contents of entries may be.

use super::{Line, deviates, make_nodes, verdict_on};
use replay_verifier::Reason;
use std::alloc::Global;
use std::test::Fail;

#[test]
fn contents_are_well_formed(rt: HostRuntime) -> Result<(), Fail> {
    let alloc = rt.alloc();
    let mut nodes = make_nodes(alloc)?;
    let long = vec![in alloc; 0; 65541]?;
    for line in [
        Line::Other(4, b"\x00\x00\x00\x00\x00\x00\x00"),
        Line::Other(2, b"\x00\x00\x00"),
        Line::Other(2, &long),
        Line::Other(3, b"\x00\x00\x00"),
        Line::Other(5, &long),
    ] {
        assert!(rt; verdict_on(alloc, &mut nodes, line)? == deviates(1, Reason::BadContent));
    }
    Ok(())
}

/// The content of a RECV of node 1's entry 7 with a signature and a payload of these lengths.
fn quote_with(alloc: Global, sig: u16, payload: usize) -> Result<Vec<u8>, Fail> {
    let mut content = Vec::new(alloc);
    content.extend_from_slice(&[0, 0, 0, 1, 0, 0, 0, 0, 0, 0, 0, 7])?;
    content.extend_from_slice(&[0; 32])?;
    content.extend_from_slice(&u32::from(sig).to_be_bytes())?;
    content.extend_from_slice(&vec![in alloc; 1; usize::from(sig)]?)?;
    content.extend_from_slice(&vec![in alloc; 2; payload]?)?;
    Ok(content)
}

/// No such signature is valid: one that is not too long is told as that.
#[test]
fn quotes_have_lengths(rt: HostRuntime) -> Result<(), Fail> {
    let alloc = rt.alloc();
    let mut nodes = make_nodes(alloc)?;
    for (sig, payload, reason) in [
        (9325, 65536, Reason::BadReceipt),
        (9326, 1, Reason::BadContent),
        (1, 65537, Reason::BadContent),
    ] {
        let content = quote_with(alloc, sig, payload)?;
        let line = Line::Other(3, &content);
        assert!(rt; verdict_on(alloc, &mut nodes, line)? == deviates(1, reason));
    }
    Ok(())
}
