//! What events answer, and events that are refused.

use crate::worlds::testing::{copy_of, make_world, take, tell};
use authenticators::{Directory, NodeId};
use evidence_samples::make_nodes;
use evidence_store::{Evidence, IndexedStore, PlainStore};
use log_chain::Hash;
use ref_programs::Tally;
use std::alloc::Global;
use std::test::Fail;
use witness_core::{Event, EventFault, World, run};

#[test]
fn refusals_have_numbers_names_and_lines(rt: HostRuntime) -> Result<(), Fail> {
    for (cause, number, name, line) in [
        (
            EventFault::NoWitness,
            80,
            "NoWitness",
            "there is no witness of this number",
        ),
        (
            EventFault::NoPacket,
            81,
            "NoPacket",
            "no outline, summary or pack of this number was made",
        ),
        (
            EventFault::UnknownNode,
            82,
            "UnknownNode",
            "the node is not listed in the directory",
        ),
        (EventFault::Memory, 99, "Memory", "memory ran out"),
    ] {
        assert_eq!(rt; cause.number(), number);
        assert_eq!(rt; cause.name(), name);
        let told = format!(in rt.alloc(); "{cause}")?;
        assert_eq!(rt; told.as_str(), line);
    }
    Ok(())
}

/// The replies to a statement that one witness takes twice, to another one's summary, to the pack of all that the first has against
/// it, to that pack's delivery at the other, twice, to a question, and to an export.
fn replies_to_one_statement<S: Evidence<Tally>>(alloc: Global) -> Result<[(u8, u64); 8], Fail> {
    let mut nodes = make_nodes(alloc)?;
    let mut world: Box<World<Tally, S>> = make_world(alloc, &nodes.directory, 2)?;
    let item = nodes.one.statement(alloc, 5, Hash([7; 32]), 9)?;
    let again = copy_of(alloc, &item)?;
    let world = &mut world;
    let node = NodeId(1);
    Ok([
        take(alloc, &Tally, world, 0, item)?,
        take(alloc, &Tally, world, 0, again)?,
        tell(alloc, world, Event::Summarise { witness: 1 }),
        pack_against(alloc, world, 0, 0),
        deliver(alloc, world, 0, 1),
        deliver(alloc, world, 0, 1),
        tell(alloc, world, Event::Ask { witness: 1, node }),
        tell(alloc, world, Event::Export { witness: 1 }),
    ])
}

/// A statement under W1 and H5 has 8,733 bytes: one for the form, four for the node, eight for the number, 32 for the hash and 8,688
/// for the signature and its length. Its store has 20 more.
#[test]
fn each_event_has_its_reply(rt: HostRuntime) -> Result<(), Fail> {
    let expected = [
        (1, 1),
        (1, 0),
        (2, 0),
        (3, 0),
        (4, 1),
        (4, 0),
        (5, 0),
        (6, 8753),
    ];
    assert!(rt; replies_to_one_statement::<PlainStore<Tally>>(rt.alloc())? == expected);
    assert!(rt; replies_to_one_statement::<IndexedStore<Tally>>(rt.alloc())? == expected);
    Ok(())
}

/// Two witnesses of whom the first has one statement: what is told of the first one's outline, of the second one's outline, of the second
/// one's short summary against each, of the first one's packs against both summaries, and of their deliveries at the second.
fn replies_to_outlines<S: Evidence<Tally>>(alloc: Global) -> Result<[(u8, u64); 8], Fail> {
    let mut nodes = make_nodes(alloc)?;
    let mut world: Box<World<Tally, S>> = make_world(alloc, &nodes.directory, 2)?;
    let item = nodes.one.statement(alloc, 5, Hash([7; 32]), 9)?;
    let world = &mut world;
    take(alloc, &Tally, world, 0, item)?;
    let told = [
        tell(alloc, world, Event::Outline { witness: 0 }),
        tell(alloc, world, Event::Outline { witness: 1 }),
        short(alloc, world, 1, 0),
        short(alloc, world, 1, 1),
        pack_against(alloc, world, 0, 0),
        pack_against(alloc, world, 1, 0),
        deliver(alloc, world, 1, 1),
        deliver(alloc, world, 0, 1),
    ];
    Ok(told)
}

/// What the witness's short summary against the outline is told.
fn short<S: Evidence<Tally>>(
    alloc: Global,
    world: &mut World<Tally, S>,
    witness: u64,
    outline: u64,
) -> (u8, u64) {
    tell(alloc, world, Event::Short { witness, outline })
}

/// What the witness's pack against the summary is told.
fn pack_against<S: Evidence<Tally>>(
    alloc: Global,
    world: &mut World<Tally, S>,
    witness: u64,
    summary: u64,
) -> (u8, u64) {
    tell(alloc, world, Event::Pack { witness, summary })
}

/// What the pack's delivery at the witness is told.
fn deliver<S: Evidence<Tally>>(
    alloc: Global,
    world: &mut World<Tally, S>,
    pack: u64,
    witness: u64,
) -> (u8, u64) {
    tell(alloc, world, Event::Deliver { pack, witness })
}

#[test]
fn outlines_and_short_summaries_have_numbers(rt: HostRuntime) -> Result<(), Fail> {
    let expected = [
        (7, 0),
        (7, 1),
        (2, 0),
        (2, 1),
        (3, 0),
        (3, 1),
        (4, 0),
        (4, 1),
    ];
    assert!(rt; replies_to_outlines::<PlainStore<Tally>>(rt.alloc())? == expected);
    assert!(rt; replies_to_outlines::<IndexedStore<Tally>>(rt.alloc())? == expected);
    Ok(())
}

/// What a witness with two statements of one number says of their node.
fn says_of_two_statements<S: Evidence<Tally>>(alloc: Global) -> Result<(u8, u64), Fail> {
    let mut nodes = make_nodes(alloc)?;
    let mut world: Box<World<Tally, S>> = make_world(alloc, &nodes.directory, 1)?;
    let one = nodes.one.statement(alloc, 5, Hash([7; 32]), 9)?;
    let other = nodes.one.statement(alloc, 5, Hash([8; 32]), 9)?;
    take(alloc, &Tally, &mut world, 0, one)?;
    take(alloc, &Tally, &mut world, 0, other)?;
    let event = Event::Ask {
        witness: 0,
        node: NodeId(1),
    };
    Ok(tell(alloc, &mut world, event))
}

#[test]
fn two_statements_expose(rt: HostRuntime) -> Result<(), Fail> {
    assert!(rt; says_of_two_statements::<PlainStore<Tally>>(rt.alloc())? == (5, 2));
    assert!(rt; says_of_two_statements::<IndexedStore<Tally>>(rt.alloc())? == (5, 2));
    Ok(())
}

/// What pack 0 brings to its own maker, twice.
fn delivered_at_home<S: Evidence<Tally>>(alloc: Global) -> Result<[(u8, u64); 2], Fail> {
    let mut nodes = make_nodes(alloc)?;
    let mut world: Box<World<Tally, S>> = make_world(alloc, &nodes.directory, 1)?;
    let item = nodes.one.statement(alloc, 5, Hash([7; 32]), 9)?;
    let world = &mut world;
    tell(alloc, world, Event::Summarise { witness: 0 });
    take(alloc, &Tally, world, 0, item)?;
    pack_against(alloc, world, 0, 0);
    Ok([deliver(alloc, world, 0, 0), deliver(alloc, world, 0, 0)])
}

#[test]
fn a_pack_at_its_maker_brings_nothing(rt: HostRuntime) -> Result<(), Fail> {
    assert!(rt; delivered_at_home::<PlainStore<Tally>>(rt.alloc())? == [(4, 0), (4, 0)]);
    assert!(rt; delivered_at_home::<IndexedStore<Tally>>(rt.alloc())? == [(4, 0), (4, 0)]);
    Ok(())
}

/// The refusals of events in a world of one witness that made one summary, after which it makes another one.
fn refusals_in_a_small_world<S: Evidence<Tally>>(alloc: Global) -> Result<[(u8, u64); 8], Fail> {
    let nodes = make_nodes(alloc)?;
    let mut world: Box<World<Tally, S>> = make_world(alloc, &nodes.directory, 1)?;
    let world = &mut world;
    let node = NodeId(3);
    tell(alloc, world, Event::Summarise { witness: 0 });
    Ok([
        pack_against(alloc, world, 1, 1),
        pack_against(alloc, world, 0, 1),
        deliver(alloc, world, 0, 0),
        tell(alloc, world, Event::Ask { witness: 1, node }),
        tell(alloc, world, Event::Ask { witness: 0, node }),
        short(alloc, world, 1, 0),
        short(alloc, world, 0, 0),
        tell(alloc, world, Event::Summarise { witness: 0 }),
    ])
}

#[test]
fn refusals_come_in_their_order(rt: HostRuntime) -> Result<(), Fail> {
    let expected = [
        (0, 80),
        (0, 81),
        (0, 81),
        (0, 80),
        (0, 82),
        (0, 80),
        (0, 81),
        (2, 1),
    ];
    assert!(rt; refusals_in_a_small_world::<PlainStore<Tally>>(rt.alloc())? == expected);
    assert!(rt; refusals_in_a_small_world::<IndexedStore<Tally>>(rt.alloc())? == expected);
    Ok(())
}

/// Of two summaries and a pack against a third: how many events are done, how many replies there are, and the refusal's number.
fn refused_pack<S: Evidence<Tally>>(alloc: Global) -> Result<(u64, u64, u8), Fail> {
    let nodes = make_nodes(alloc)?;
    let mut world: Box<World<Tally, S>> = make_world(alloc, &nodes.directory, 1)?;
    let events = [
        Event::Summarise { witness: 0 },
        Event::Summarise { witness: 0 },
        Event::Pack {
            witness: 0,
            summary: 2,
        },
        Event::Summarise { witness: 0 },
    ];
    match run(alloc, &mut world, &events) {
        Ok(_) => Ok((4, 4, 0)),
        Err(fault) => Ok((fault.done, fault.replies.len() as u64, fault.cause.number())),
    }
}

#[test]
fn a_refusal_comes_with_the_replies_before_it(rt: HostRuntime) -> Result<(), Fail> {
    assert!(rt; refused_pack::<PlainStore<Tally>>(rt.alloc())? == (2, 2, 81));
    assert!(rt; refused_pack::<IndexedStore<Tally>>(rt.alloc())? == (2, 2, 81));
    Ok(())
}

/// What is answered where nobody is a witness.
fn replies_without_witnesses<S: Evidence<Tally>>(alloc: Global) -> Result<[(u8, u64); 2], Fail> {
    let mut world: Box<World<Tally, S>> = make_world(alloc, &Directory::new(alloc), 0)?;
    let world = &mut world;
    Ok([
        tell(alloc, world, Event::Summarise { witness: 0 }),
        tell(alloc, world, Event::Export { witness: 0 }),
    ])
}

#[test]
fn nobody_is_a_witness(rt: HostRuntime) -> Result<(), Fail> {
    assert!(rt; replies_without_witnesses::<PlainStore<Tally>>(rt.alloc())? == [(0, 80), (0, 80)]);
    assert!(rt;
        replies_without_witnesses::<IndexedStore<Tally>>(rt.alloc())? == [(0, 80), (0, 80)]
    );
    Ok(())
}
