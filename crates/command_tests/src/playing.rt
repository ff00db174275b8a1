//! Scenarios that are played.

use authenticators::NodeId;
use commitment::{NewFault, NodeFault};
use log_chain::Hash;
use ref_programs::Tally;
use scenarios::Scenario;
use sha2::{Digest, Sha256};
use simulation::{PlayFault, Played, play};
use std::alloc::Global;
use std::test::Fail;

/// Each kind of node, by its first key and then by its second, and each kind of item.
const SCENARIO: &[u8] = b"witnesses 1\n\
    node 1 honest\nnode 4 fork\nnode 2 wrong\nnode 3 mute\nnode 9 fork\n\
    timer 1 5\ntimer 2 7\ncheckpoint 2\ntimer 3 9\naudit 3\naudit 9\ntimer 4 1\naudit 2\naudit 1\n\
    rekey 1\nrekey 2\ntimer 1 6\naudit 2\nrekey 3\nrekey 4\ntimer 3 8\naudit 4\n";

/// Nodes and acts whose items would be others if a checkpoint did nothing, if forks were shown in another order than ascending, if an
/// audit's answer did not count as a call, or if the audit of a mute node did.
const EFFECTS: &[u8] = b"witnesses 1\n\
    node 1 honest\nnode 9 fork\nnode 4 fork\nnode 2 wrong\nnode 3 mute\nnode 10 honest\n\
    timer 1 5\ncheckpoint 2\ntimer 2 7\ntimer 3 9\naudit 3\naudit 10\naudit 2\ntimer 9 1\n\
    checkpoint 1\ntimer 1 6\naudit 1\naudit 2\naudit 10\n";

/// What comes of the scenario under Tally.
fn played(alloc: Global, text: &[u8]) -> Result<Result<Played, PlayFault>, Fail> {
    let scenario = Scenario::read(alloc, text)?;
    Ok(play(alloc, Tally, &scenario))
}

/// The SHA-256 value of the items, each behind its length in eight bytes.
fn digest_of(alloc: Global, played: &Played) -> Result<Hash, Fail> {
    let mut text = Vec::new(alloc);
    for item in &played.items {
        let item = item.encode(alloc)?;
        text.extend_from_slice(&(item.len() as u64).to_be_bytes())?;
        text.extend_from_slice(&item)?;
    }
    Ok(Hash(Sha256::digest(&text)))
}

/// The items are those of `checks/reference/scenarios.py`, and the directory lists the nodes as the scenario does, each with two keys.
#[test]
fn each_kind_of_node_plays(rt: HostRuntime) -> Result<(), Fail> {
    let played = played(rt.alloc(), SCENARIO)??;
    assert!(rt; played.items.len() == 14);
    let digest = digest_of(rt.alloc(), &played)?;
    let digits = format!(in rt.alloc(); "{digest}")?;
    assert!(rt;
        digits.as_str() == "f9c2c5d35a4f8007fb5120b61e457cfe2477a5a5166f4fac18ede0191d4a4f57"
    );
    let nodes = [NodeId(1), NodeId(4), NodeId(2), NodeId(3), NodeId(9)];
    assert!(rt; played.directory.nodes() == nodes.as_slice());
    assert!(rt;
        nodes
            .iter()
            .all(|node| played.directory.key_count(*node) == 2)
    );
    Ok(())
}

/// The items are those of `checks/reference/scenarios.py`.
#[test]
fn each_act_has_its_effect(rt: HostRuntime) -> Result<(), Fail> {
    let played = played(rt.alloc(), EFFECTS)??;
    assert!(rt; played.items.len() == 15);
    let digest = digest_of(rt.alloc(), &played)?;
    let digits = format!(in rt.alloc(); "{digest}")?;
    assert!(rt;
        digits.as_str() == "2a870a5c826353715a60d3dd5685f6188b9c65a0752ee6d2a480c6c1e1375266"
    );
    Ok(())
}

/// A node that is mute drops each message, and signs until its key is spent.
#[test]
fn a_spent_key_ends_the_scenario(rt: HostRuntime) -> Result<(), Fail> {
    let alloc = rt.alloc();
    let mut text = Vec::from_slice(alloc, b"witnesses 1\nnode 1 honest\nnode 2 mute\n")?;
    for _ in 0..32 {
        text.extend_from_slice(b"timer 1 5\n")?;
    }
    let done = played(alloc, &text)??;
    assert!(rt; done.items.len() == 32);
    text.extend_from_slice(b"timer 1 5\n")?;
    let fault = played(alloc, &text)?.err();
    assert!(rt; fault == Some(PlayFault::Node(NodeFault::KeySpent)));
    Ok(())
}

/// Why nodes 1 and 2 do not play these lines; nothing, where they do.
fn fault_of(alloc: Global, lines: &[u8]) -> Result<Option<PlayFault>, Fail> {
    let mut text = Vec::from_slice(alloc, b"witnesses 1\nnode 1 honest\nnode 2 mute\n")?;
    text.extend_from_slice(lines)?;
    Ok(played(alloc, &text)?.err())
}

/// A node takes its second key once, whatever it has signed by it and whatever others take.
#[test]
fn a_second_key_is_taken_once(rt: HostRuntime) -> Result<(), Fail> {
    let twice = Some(PlayFault::New(NewFault::WrongKey));
    assert!(rt; fault_of(rt.alloc(), b"rekey 1\nrekey 2\ntimer 1 5\n")? == None);
    assert!(rt; fault_of(rt.alloc(), b"rekey 1\nrekey 1\n")? == twice);
    assert!(rt;
        fault_of(
            rt.alloc(),
            b"rekey 2\ntimer 1 5\nrekey 1\ntimer 1 5\nrekey 2\n"
        )? == twice
    );
    Ok(())
}
