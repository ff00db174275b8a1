//! Steps of the two programs, called through the trait's bound.

use authenticators::NodeId;
use ref_programs::{Relay, Tally};
use replay_verifier::{Input, Output, Program};
use std::alloc::Global;
use std::test::Fail;

/// Whether the outputs are one message to the node, or none where `to` is 0.
fn are_to(outputs: &[Output], to: u32, payload: &[u8]) -> bool {
    match outputs {
        [] => to == 0,
        [output] => output.to == NodeId(to) && output.payload.as_slice() == payload,
        _ => false,
    }
}

/// Whether a step of the node `me` from the state ends in `after`, and puts out one message with this payload to the node `to`, or
/// none where `to` is 0.
fn steps_to<P: Program<State = u64>>(
    alloc: Global,
    program: &P,
    (me, state): (u32, u64),
    input: &Input,
    (after, to, payload): (u64, u32, &[u8]),
) -> Result<bool, Fail> {
    let step = program.step(alloc, NodeId(me), &state, input)?;
    Ok(step.state == after && are_to(step.outputs.as_slice(), to, payload))
}

/// The state in which a program begins, after it was written down and read back.
fn start_read_back<P: Program<State = u64>>(
    alloc: Global,
    program: &P,
) -> Result<Option<u64>, Fail> {
    let state = program.start(alloc, NodeId(2))?;
    let text = program.encode(alloc, &state)?;
    Ok(program.decode(alloc, &text)?)
}

/// What a program makes of a number in bytes: the number, and whether the bytes are written again.
fn state_of<P: Program<State = u64>>(
    alloc: Global,
    program: &P,
    bytes: &[u8],
) -> Result<Option<(u64, bool)>, Fail> {
    let Some(state) = program.decode(alloc, bytes)? else {
        return Ok(None);
    };
    let again = program.encode(alloc, &state)?;
    Ok(Some((state, again.as_slice() == bytes)))
}

#[test]
fn tally_adds_and_tells_the_sender(rt: HostRuntime) -> Result<(), Fail> {
    for (total, payload, after, to, told) in [
        (
            0,
            b"A\x00\x00\x00\x00\x00\x00\x00\x05".as_slice(),
            5,
            1,
            b"T\x00\x00\x00\x00\x00\x00\x00\x05".as_slice(),
        ),
        (
            u64::MAX,
            b"A\x00\x00\x00\x00\x00\x00\x00\x01",
            u64::MAX,
            1,
            b"T\xff\xff\xff\xff\xff\xff\xff\xff",
        ),
        (
            0x0102,
            b"A\x01\x00\x00\x00\x00\x00\x01\x00",
            0x0100_0000_0000_0202,
            1,
            b"T\x01\x00\x00\x00\x00\x00\x02\x02",
        ),
        (7, b"A\x00\x00\x00\x00\x00\x00\x00\x05\x00", 7, 0, b""),
        (7, b"A\x00\x00\x00\x00\x00\x00\x05", 7, 0, b""),
        (7, b"B\x00\x00\x00\x00\x00\x00\x00\x05", 7, 0, b""),
        (7, b"", 7, 0, b""),
    ] {
        let input = Input::Recv {
            from: NodeId(1),
            payload,
        };
        assert!(rt; steps_to(rt.alloc(), &Tally, (2, total), &input, (after, to, told))?);
    }
    Ok(())
}

#[test]
fn relay_counts_and_passes_on(rt: HostRuntime) -> Result<(), Fail> {
    for (me, count, payload, after, to) in [
        (1, 0, b"X".as_slice(), 1, 2),
        (1, 1, b"", 2, 2),
        (2, u64::MAX, b"XY", u64::MAX, 3),
        (u32::MAX, 5, b"X", 6, 0),
    ] {
        let input = Input::Recv {
            from: NodeId(2),
            payload,
        };
        assert!(rt;
            steps_to(
                rt.alloc(),
                &Relay,
                (me, count),
                &input,
                (after, to, payload)
            )?
        );
    }
    Ok(())
}

#[test]
fn timers_send_to_the_next_node(rt: HostRuntime) -> Result<(), Fail> {
    let alloc = rt.alloc();
    let input = Input::Timer { moment: 10 };
    for (me, to) in [(1, 2), (u32::MAX - 1, u32::MAX), (u32::MAX, 0)] {
        let tally = b"A\x00\x00\x00\x00\x00\x00\x00\x0a".as_slice();
        assert!(rt; steps_to(alloc, &Tally, (me, 4), &input, (4, to, tally))?);
        let relay = b"\x00\x00\x00\x00\x00\x00\x00\x0a".as_slice();
        assert!(rt; steps_to(alloc, &Relay, (me, 4), &input, (4, to, relay))?);
    }
    Ok(())
}

#[test]
fn states_are_numbers_in_eight_bytes(rt: HostRuntime) -> Result<(), Fail> {
    let alloc = rt.alloc();
    let starts = [
        start_read_back(alloc, &Tally)?,
        start_read_back(alloc, &Relay)?,
    ];
    assert!(rt; starts == [Some(0); 2]);
    let text = b"\x01\x02\x03\x04\x05\x06\x07\x08\x09";
    let state = Some((0x0102_0304_0506_0708, true));
    for (len, found) in [(0, None), (7, None), (8, state), (9, None)] {
        assert!(rt; state_of(alloc, &Tally, &text[..len])? == found);
        assert!(rt; state_of(alloc, &Relay, &text[..len])? == found);
    }
    Ok(())
}
