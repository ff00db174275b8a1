//! Scenarios that are read, and texts that are none.

use scenarios::{Act, Kind, Member, NodeId, Scenario, ScenarioFault};
use std::alloc::Global;
use std::test::Fail;

/// Whether the scenario has these parts.
fn has(scenario: &Scenario, witnesses: u8, nodes: &[Member], acts: &[Act]) -> bool {
    scenario.witnesses() == witnesses && scenario.nodes() == nodes && scenario.acts() == acts
}

/// A node of this number and kind.
fn member(id: u32, kind: Kind) -> Member {
    Member {
        id: NodeId(id),
        kind,
    }
}

#[test]
fn a_scenario_is_read(rt: HostRuntime) -> Result<(), Fail> {
    let text =
        b"# who\nwitnesses 8\n\nnode 4294967295 honest\nnode 0 fork\nnode 10 mute\nnode 7 wrong\n#\n\
        timer 10 18446744073709551615\ncheckpoint 0\n\nrekey 7\naudit 4294967295";
    let scenario = Scenario::read(rt.alloc(), text)?;
    let nodes = [
        member(u32::MAX, Kind::Honest),
        member(0, Kind::Fork),
        member(10, Kind::Mute),
        member(7, Kind::Wrong),
    ];
    let acts = [
        Act::Timer {
            node: NodeId(10),
            moment: u64::MAX,
        },
        Act::Checkpoint { node: NodeId(0) },
        Act::Rekey { node: NodeId(7) },
        Act::Audit {
            node: NodeId(u32::MAX),
        },
    ];
    assert!(rt; has(&scenario, 8, &nodes, &acts));
    Ok(())
}

/// The number of the refusal; 0 where a scenario is read.
fn number_of(alloc: Global, text: &[u8]) -> u8 {
    match Scenario::read(alloc, text) {
        Ok(_) => 0,
        Err(fault) => fault.number(),
    }
}

/// One witness and the honest node 5.
const HEAD: &[u8] = b"witnesses 1\nnode 5 honest\n";

/// The same of lines that follow others.
fn number_after(alloc: Global, head: &[u8], lines: &[u8]) -> Result<u8, Fail> {
    let mut text = Vec::from_slice(alloc, head)?;
    text.extend_from_slice(lines)?;
    Ok(number_of(alloc, &text))
}

/// The place of the first lines that have another number behind the head.
fn first_other(
    alloc: Global,
    head: &[u8],
    all: &[&str],
    number: u8,
) -> Result<Option<usize>, Fail> {
    for (place, lines) in all.iter().enumerate() {
        if number_after(alloc, head, lines.as_bytes())? != number {
            return Ok(Some(place));
        }
    }
    Ok(None)
}

#[test]
fn texts_that_are_read(rt: HostRuntime) -> Result<(), Fail> {
    let all = [
        "",
        "\n",
        "#audit  6",
        "node 6 honest",
        "audit 5\n",
        "timer 5 0\n\naudit 5",
        "rekey 5\nrekey 5",
        "# \x7f",
    ];
    assert!(rt; first_other(rt.alloc(), HEAD, &all, 0)? == None);
    Ok(())
}

#[test]
fn nodes_come_after_witnesses(rt: HostRuntime) -> Result<(), Fail> {
    let all = [
        "",
        "#\n",
        "witnesses 1",
        "node 5 honest",
        "node 5 honest\nwitnesses 1",
        "audit 5\nwitnesses 1\nnode 5 honest",
        "witnesses 1\nwitnesses 1\nnode 5 honest",
        "witnesses 0\nnode 5 honest",
        "witnesses 9\nnode 5 honest",
        "witnesses 08\nnode 5 honest",
        "witnesses\nnode 5 honest",
        "witnesses 1 2\nnode 5 honest",
    ];
    assert!(rt; first_other(rt.alloc(), b"", &all, 105)? == None);
    Ok(())
}

#[test]
fn nodes_that_are_refused(rt: HostRuntime) -> Result<(), Fail> {
    let all = [
        "witnesses 1",
        "node 5 mute",
        "node 6 other",
        "node 6 Honest",
        "node 6",
        "node 6 honest 1",
        "node 06 honest",
        "node 4294967296 honest",
        "node x honest",
        "audit 5\nnode 6 honest",
    ];
    assert!(rt; first_other(rt.alloc(), HEAD, &all, 105)? == None);
    Ok(())
}

#[test]
fn acts_that_are_refused(rt: HostRuntime) -> Result<(), Fail> {
    let all = [
        "audit 6",
        "checkpoint 6\nnode 6 honest",
        "timer 6 0",
        "rekey 6",
        "audit 4294967296",
        "audit 4294967301",
        "audit 05",
        "audit +5",
        "audit -5",
        "audit 5x",
        "timer 5",
        "timer 5 01",
        "timer 5 18446744073709551616",
        "timer 5 18446744073709551617",
        "timer 5 0 0",
        "rekey 05",
        "rekey 5 1",
    ];
    assert!(rt; first_other(rt.alloc(), HEAD, &all, 105)? == None);
    Ok(())
}

#[test]
fn lines_that_are_refused(rt: HostRuntime) -> Result<(), Fail> {
    let all = [
        "audit",
        "audit ",
        "audit 5 ",
        "audit  5",
        " audit 5",
        " ",
        " # 5",
        "audit\t5",
        "audit 5\r",
        "\r\n",
        "audit 5 5",
        "stop 5",
        "Audit 5",
        "rekey",
        "rekey  5",
        "Rekey 5",
        "5",
    ];
    assert!(rt; first_other(rt.alloc(), HEAD, &all, 105)? == None);
    assert!(rt; number_after(rt.alloc(), HEAD, b"# \x80")? == 105);
    Ok(())
}

/// The number of the refusal of a text with so many nodes; 0 where a scenario is read.
fn number_of_nodes(alloc: Global, count: u32) -> Result<u8, Fail> {
    let mut text = Vec::from_slice(alloc, b"witnesses 1\n")?;
    for id in 0..count {
        let line = format!(in alloc; "node {id} mute\n")?;
        text.extend_from_slice(line.as_bytes())?;
    }
    Ok(number_of(alloc, &text))
}

#[test]
fn nodes_are_at_most_64(rt: HostRuntime) -> Result<(), Fail> {
    assert!(rt; number_of_nodes(rt.alloc(), 64)? == 0);
    assert!(rt; number_of_nodes(rt.alloc(), 65)? == 105);
    Ok(())
}

/// The number of the refusal, where so many copies of a line follow a witness and a node; 0 where a scenario is read.
fn number_of_copies(alloc: Global, count: u32, line: &[u8]) -> Result<u8, Fail> {
    let mut lines = Vec::new(alloc);
    for _ in 0..count {
        lines.extend_from_slice(line)?;
    }
    number_after(alloc, HEAD, &lines)
}

#[test]
fn lines_are_at_most_1000(rt: HostRuntime) -> Result<(), Fail> {
    for line in ["audit 5\n", "#\n", "\n"] {
        assert!(rt; number_of_copies(rt.alloc(), 998, line.as_bytes())? == 0);
        assert!(rt; number_of_copies(rt.alloc(), 999, line.as_bytes())? == 105);
    }
    Ok(())
}

/// Whether the refusal has this number, this name and this line.
fn is_told(
    alloc: Global,
    fault: ScenarioFault,
    number: u8,
    name: &str,
    line: &str,
) -> Result<bool, Fail> {
    let told = format!(in alloc; "{fault}")?;
    Ok(fault.number() == number && fault.name() == name && told.as_str() == line)
}

#[test]
fn refusals_have_numbers_names_and_lines(rt: HostRuntime) -> Result<(), Fail> {
    let line = "the text is no scenario";
    let bad = is_told(
        rt.alloc(),
        ScenarioFault::BadScenario,
        105,
        "BadScenario",
        line,
    )?;
    let memory = is_told(
        rt.alloc(),
        ScenarioFault::Memory,
        99,
        "Memory",
        "memory ran out",
    )?;
    assert!(rt; (bad, memory) == (true, true));
    Ok(())
}
