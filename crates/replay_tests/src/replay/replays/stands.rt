//! Where a log stands behind some entries.

use super::{ADD_FIVE, Line, Nodes, TOLD_FIVE, TOLD_SIX, log_of, make_nodes};
use authenticators::NodeId;
use log_chain::{Hash, base_hash};
use ref_programs::Tally;
use replay_verifier::stand_behind;
use std::alloc::Global;
use std::test::Fail;

/// Tally's total behind the lines after the hash, and the node and the payload of each message that is awaited; no bytes where
/// there is no stand.
fn stand_after(
    alloc: Global,
    nodes: &mut Nodes,
    prev: Hash,
    lines: &[Line],
) -> Result<Vec<u8>, Fail> {
    let log = log_of(alloc, nodes, lines)?;
    let mut told = Vec::new(alloc);
    let me = NodeId(u32::from(nodes.me));
    let Some(stand) = stand_behind(alloc, &Tally, &nodes.directory, me, prev, &log)? else {
        return Ok(told);
    };
    told.extend_from_slice(&stand.state().to_be_bytes())?;
    for output in stand.awaited() {
        told.extend_from_slice(&output.to.0.to_be_bytes())?;
        told.extend_from_slice(output.payload.as_slice())?;
    }
    Ok(told)
}

const NOTHING: &[u8] = b"\x00\x00\x00\x00\x00\x00\x00\x00";

const FIVE: &[u8] = b"\x00\x00\x00\x00\x00\x00\x00\x05";

const FIVE_UNTOLD: &[u8] =
    b"\x00\x00\x00\x00\x00\x00\x00\x05\x00\x00\x00\x01T\x00\x00\x00\x00\x00\x00\x00\x05";

/// INIT, an A and the 5, and what it is told: the stand behind each of the first three entries.
#[test]
fn logs_stand_behind_each_entry(rt: HostRuntime) -> Result<(), Fail> {
    let alloc = rt.alloc();
    let mut nodes = make_nodes(alloc)?;
    let lines = [Line::Init, Line::Recv(ADD_FIVE), Line::Send(1, TOLD_FIVE)];
    for (len, stand) in [(1, NOTHING), (2, FIVE_UNTOLD), (3, FIVE)] {
        let told = stand_after(alloc, &mut nodes, base_hash(), &lines[..len])?;
        assert!(rt; told.as_slice() == stand);
    }
    Ok(())
}

#[test]
fn parts_stand_from_their_checkpoint(rt: HostRuntime) -> Result<(), Fail> {
    let alloc = rt.alloc();
    let mut nodes = make_nodes(alloc)?;
    let told = stand_after(alloc, &mut nodes, Hash([7; 32]), &[Line::Checkpoint(FIVE)])?;
    assert!(rt; told.as_slice() == FIVE);
    Ok(())
}

/// No entries; a log that does not begin with INIT; another sum; a message that came twice.
#[test]
fn others_stand_nowhere(rt: HostRuntime) -> Result<(), Fail> {
    let alloc = rt.alloc();
    let mut nodes = make_nodes(alloc)?;
    for lines in [
        [].as_slice(),
        &[Line::Timer(1)],
        &[Line::Init, Line::Recv(ADD_FIVE), Line::Send(1, TOLD_SIX)],
        &[Line::Init, Line::Recv(b"X"), Line::Recv(b"X")],
    ] {
        assert!(rt; stand_after(alloc, &mut nodes, base_hash(), lines)?.is_empty());
    }
    Ok(())
}
