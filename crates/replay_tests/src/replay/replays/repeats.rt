//! Messages that came twice: two RECV entries with one sender and send number.

use super::{
    ADD_FIVE, Line, Nodes, TOLD_FIVE, deviates, log_of, make_nodes, nodes_of, quote_of,
    verdict_after,
};
use authenticators::{Directory, NodeId};
use log_chain::{Entry, Hash, base_hash, kind};
use ref_programs::Tally;
use replay_verifier::{Reason, Verdict, replay, replay_with_quotes};
use std::alloc::Global;
use std::test::Fail;

const ZERO: &[u8] = b"\x00\x00\x00\x00\x00\x00\x00\x00";

/// The verdicts of both calls on node 2's log.
fn verdicts(alloc: Global, directory: &Directory, log: &[Entry]) -> Result<[Verdict; 2], Fail> {
    let me = NodeId(2);
    let verdict = replay(alloc, &Tally, directory, me, base_hash(), log)?;
    let replayed = replay_with_quotes(alloc, &Tally, directory, me, base_hash(), log)?;
    Ok([verdict, replayed.verdict])
}

/// The lines, and after them the second one's entry again, byte for byte.
fn with_second_again(alloc: Global, nodes: &mut Nodes, lines: &[Line]) -> Result<Vec<Entry>, Fail> {
    let mut log = log_of(alloc, nodes, lines)?;
    let seq = log.len() as u64 + 1;
    let Some(second) = log.get(1) else {
        return Err("a second line")?;
    };
    let kind = second.kind;
    let content = second.content.try_clone(alloc)?;
    log.push(Entry { seq, kind, content })?;
    Ok(log)
}

#[test]
fn an_entry_that_came_before_deviates(rt: HostRuntime) -> Result<(), Fail> {
    let alloc = rt.alloc();
    let mut nodes = make_nodes(alloc)?;
    for (line, verdict) in [
        (
            Line::Send(1, TOLD_FIVE),
            deviates(3, Reason::DuplicateReceipt),
        ),
        (Line::Timer(1), deviates(2, Reason::MissingOutput)),
    ] {
        let lines = [Line::Init, Line::Recv(ADD_FIVE), line];
        let log = with_second_again(alloc, &mut nodes, &lines)?;
        assert!(rt; verdicts(alloc, &nodes.directory, &log)? == [verdict; 2]);
    }
    Ok(())
}

/// The verdicts of both calls on these lines.
fn verdicts_of(alloc: Global, nodes: &mut Nodes, lines: &[Line]) -> Result<[Verdict; 2], Fail> {
    let log = log_of(alloc, nodes, lines)?;
    verdicts(alloc, &nodes.directory, &log)
}

/// The signatures differ, and in the second log the payloads too.
#[test]
fn sender_and_number_make_a_repeat(rt: HostRuntime) -> Result<(), Fail> {
    let alloc = rt.alloc();
    let mut nodes = make_nodes(alloc)?;
    let repeat = deviates(2, Reason::DuplicateReceipt);
    for payload in [b"X".as_slice(), b"Y"] {
        let lines = [Line::Init, Line::Recv(b"X"), Line::Recv(payload)];
        assert!(rt; verdicts_of(alloc, &mut nodes, &lines)? == [repeat; 2]);
    }
    Ok(())
}

#[test]
fn a_repeat_need_not_be_the_next_entry(rt: HostRuntime) -> Result<(), Fail> {
    let alloc = rt.alloc();
    let mut nodes = make_nodes(alloc)?;
    for (numbers, verdict) in [
        ([7, 8, 7, 9], deviates(3, Reason::DuplicateReceipt)),
        ([8, 7, 9, 8], deviates(4, Reason::DuplicateReceipt)),
        ([7, 8, 9, 8], deviates(4, Reason::DuplicateReceipt)),
        ([7, 8, 8, 7], deviates(3, Reason::DuplicateReceipt)),
        ([9, 7, 0, 8], Verdict::Conforms),
    ] {
        let [a, b, c, d] = numbers.map(|number| Line::Numbered(number, b"X"));
        let lines = [Line::Init, a, b, c, d];
        assert!(rt; verdicts_of(alloc, &mut nodes, &lines)? == [verdict; 2]);
    }
    Ok(())
}

/// Lines of which the last one repeats a message and has an earlier fault.
#[test]
fn an_earlier_line_of_a_repeat_is_told(rt: HostRuntime) -> Result<(), Fail> {
    let alloc = rt.alloc();
    let mut nodes = make_nodes(alloc)?;
    let long = vec![in alloc; 0; 65537]?;
    for (first, second, reason) in [
        (
            Line::Recv(ADD_FIVE),
            Line::Recv(ADD_FIVE),
            Reason::MissingOutput,
        ),
        (Line::Recv(b"X"), Line::Changed(b"X"), Reason::BadReceipt),
        (Line::Recv(b"X"), Line::Recv(&long), Reason::BadContent),
    ] {
        let verdict = deviates(2, reason);
        let lines = [Line::Init, first, second];
        assert!(rt; verdicts_of(alloc, &mut nodes, &lines)? == [verdict; 2]);
    }
    Ok(())
}

/// A log whose last entry repeats a message and has the number of the entry before it.
fn repeat_out_of_order(alloc: Global, nodes: &mut Nodes) -> Result<Vec<Entry>, Fail> {
    let lines = [Line::Init, Line::Recv(b"X"), Line::Recv(b"X")];
    let mut log = log_of(alloc, nodes, &lines)?;
    if let Some(last) = log.last_mut() {
        last.seq = 2;
    }
    Ok(log)
}

#[test]
fn the_order_of_numbers_is_told_first(rt: HostRuntime) -> Result<(), Fail> {
    let alloc = rt.alloc();
    let mut nodes = make_nodes(alloc)?;
    let log = repeat_out_of_order(alloc, &mut nodes)?;
    let verdict = deviates(2, Reason::SeqOrder);
    assert!(rt; verdicts(alloc, &nodes.directory, &log)? == [verdict; 2]);
    Ok(())
}

#[test]
fn the_first_deviation_is_told(rt: HostRuntime) -> Result<(), Fail> {
    let alloc = rt.alloc();
    let mut nodes = make_nodes(alloc)?;
    let [recv, send] = [Line::Recv(b"X"), Line::Send(1, b"X")];
    for (second, third, reason) in [
        (send, recv, Reason::ExtraOutput),
        (recv, send, Reason::DuplicateReceipt),
    ] {
        let verdict = deviates(2, reason);
        let lines = [Line::Init, recv, second, third];
        assert!(rt; verdicts_of(alloc, &mut nodes, &lines)? == [verdict; 2]);
    }
    Ok(())
}

/// Of a log that does not begin with INIT only the part is judged.
#[test]
fn a_part_repeats_what_stands_in_it(rt: HostRuntime) -> Result<(), Fail> {
    let alloc = rt.alloc();
    let mut nodes = make_nodes(alloc)?;
    for (line, verdict) in [
        (Line::Recv(b"X"), deviates(2, Reason::DuplicateReceipt)),
        (Line::Numbered(8, b"X"), Verdict::Conforms),
    ] {
        let lines = [Line::Checkpoint(ZERO), Line::Recv(b"X"), line];
        let told = verdict_after(alloc, &mut nodes, &Tally, Hash([7; 32]), &lines)?;
        assert!(rt; told == verdict);
    }
    Ok(())
}

/// Node 2's INIT, node 1's message 7, and node 3's.
fn log_of_two_senders(
    alloc: Global,
    nodes: &mut Nodes,
    other: &mut Nodes,
) -> Result<Vec<Entry>, Fail> {
    let mut log = log_of(alloc, nodes, &[Line::Init, Line::Recv(b"X")])?;
    log.push(Entry {
        seq: 3,
        kind: kind::RECV,
        content: quote_of(alloc, other, 7, b"X", 0)?,
    })?;
    Ok(log)
}

/// Node 3 signs too, and is listed beside the nodes 1 and 2.
#[test]
fn one_number_of_two_senders_is_no_repeat(rt: HostRuntime) -> Result<(), Fail> {
    let alloc = rt.alloc();
    let mut nodes = make_nodes(alloc)?;
    let mut other = nodes_of(alloc, 2, 3)?;
    nodes.directory.add(NodeId(3), other.key.public_key())?;
    let log = log_of_two_senders(alloc, &mut nodes, &mut other)?;
    assert!(rt; verdicts(alloc, &nodes.directory, &log)? == [Verdict::Conforms; 2]);
    Ok(())
}
