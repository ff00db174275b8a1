//! Scenes of a world of two witnesses.

ghost use Rattle.std.specs.Prelude.{◌≡◌, IfOk, map};
ghost use Rattle.std.specs.List.{All};
ghost use Rattle.evidence.specs.Contents.{Contents};
ghost use Rattle.witness_core.specs.Answering.{AreChecked, IsCheckedFor};
ghost use Rattle.witness_core.specs.Worlds.{World as TheWorld};

use crate::samples::{directory_of, receiver, sender, statement};
use crate::told::{Scene, Turn, digest, play, say_number, say_refusal, say_store};
use anyhow::{Result, bail};
use authenticators::{Directory, NodeId};
use evidence_item::{Item, check_item};
use evidence_store::Evidence;
use ref_programs::Tally;
use replay_verifier::Program;
use std::alloc::Global;
use witness_core::{Event, Reply, RunFault, World};

/// Creates so many stores without items, under copies of the directory.
fn make_stores<P: Program, S: Evidence<P>>(
    alloc: Global,
    directory: &Directory,
    count: u64,
) -> Result<Vec<S>>
    ensures { IfOk result (λ stores. All (λ (s : Contents). s.directory ≡ directory.now) (map S.contents stores.items)) }
{
    let mut stores = Vec::new(alloc);
    for _ in 0..count {
        let Ok(store) = S::new(alloc, directory.try_clone()?) else {
            bail!("memory ran out");
        };
        stores.push(store)?;
    }
    Ok(stores)
}

/// Makes the event happen in the world, and returns the reply to it.
fn tell<P: Program, S: Evidence<P>>(
    alloc: Global,
    world: &mut World<P, S>,
    event: Event<P>,
) -> Result<Reply>
    requires { IsCheckedFor P.means world.old event }
{
    let mut replies = witness_core::run(alloc, world, &[event])?;
    match replies.pop() {
        Some(reply) => Ok(reply),
        None => bail!("no reply"),
    }
}

/// Makes the witness take the item, which must be valid.
fn give<S: Evidence<Tally>>(
    alloc: Global,
    world: &mut World<Tally, S>,
    witness: u64,
    item: Box<Item>,
) -> Result<()> {
    let Some(store) = world.stores().get(witness as usize) else {
        bail!("there is no such witness");
    };
    let item = check_item(alloc, &Tally, store.directory(), Box::into_inner(item))?;
    tell(alloc, world, Event::Take { witness, item })?;
    Ok(())
}

/// Returns a world in which witness 0 took node 1's log, and both witnesses took a statement of node 2.
fn make_world<S: Evidence<Tally>>(
    alloc: Global,
    directory: &Directory,
) -> Result<Box<World<Tally, S>>> {
    let stores: Vec<S> = make_stores::<Tally, S>(alloc, directory, 2)?;
    let mut world = Box::new(alloc, World::new(alloc, stores))?;
    give::<S>(alloc, &mut world, 0, sender(alloc, directory)?)?;
    give::<S>(alloc, &mut world, 0, statement(alloc, 1)?)?;
    give::<S>(alloc, &mut world, 1, statement(alloc, 1)?)?;
    Ok(world)
}

/// Returns such a world, in which witness 1 took node 2's log too.
fn make_full_world<S: Evidence<Tally>>(
    alloc: Global,
    directory: &Directory,
) -> Result<Box<World<Tally, S>>> {
    let mut world: Box<World<Tally, S>> = make_world(alloc, directory)?;
    give::<S>(alloc, &mut world, 1, receiver(alloc, directory)?)?;
    Ok(world)
}

/// Writes what each witness has.
fn say_world<S: Evidence<Tally>>(
    rt: &HostRuntime,
    word: &str,
    world: &World<Tally, S>,
) -> Result<()> {
    for store in world.stores() {
        say_store::<S>(rt, word, store)?;
    }
    Ok(())
}

/// A world, and an item that witness 0 does not have.
#[derive(Drop)]
struct Taking<S: Evidence<Tally>> {
    world: Box<World<Tally, S>>,
    item: Box<Item>,
}

/// Writes the reply to the taking of an item. Returns whether it was refused.
fn say_taken(rt: &HostRuntime, turn: Turn, answer: &Result<Vec<Reply>, RunFault>) -> Result<bool> {
    match answer {
        Ok(replies) => match replies.as_slice() {
            [Reply::Took(new)] => say_number(rt, turn, u64::from(*new)),
            _ => bail!("another reply"),
        },
        Err(fault) => {
            if fault.done != 0 || !fault.replies.is_empty() {
                bail!("a refused event is done");
            }
            say_refusal(rt, turn, fault.cause.number(), fault.cause.name())
        }
    }
}

impl<S: Evidence<Tally>> Scene for Taking<S> {
    fn say(&self, rt: &HostRuntime, word: &str) -> Result<()> {
        say_world::<S>(rt, word, &self.world)
    }

    fn call(&mut self, rt: &HostRuntime, turn: Turn) -> Result<bool> {
        let item = self.item.try_clone(rt.alloc())?;
        let Some(store) = self.world.stores().first() else {
            bail!("there is no witness");
        };
        let item = check_item(rt.alloc(), &Tally, store.directory(), item)?;
        let event = Event::Take { witness: 0, item };
        turn.begin(rt.alloc())?;
        let answer = witness_core::run(rt.alloc(), &mut self.world, &[event]);
        turn.end(rt.alloc());
        say_taken(rt, turn, &answer)
    }
}

/// Plays `run` of the taking of an item.
pub fn take<S: Evidence<Tally>>(rt: &HostRuntime) -> Result<()> {
    let directory = directory_of(rt.alloc())?;
    let mut scene: Taking<S> = Taking {
        world: make_world(rt.alloc(), &directory)?,
        item: receiver(rt.alloc(), &directory)?,
    };
    play(rt, &mut scene)
}

/// How many events there are in the list.
const EVENTS: u64 = 7;

/// Makes the event with this number of the list, from 0, happen alone. Returns the reply to it.
fn step<S: Evidence<Tally>>(alloc: Global, world: &mut World<Tally, S>, n: u64) -> Result<Reply> {
    let witness = 0;
    match n {
        0 => tell(alloc, world, Event::Outline { witness }),
        1 => {
            tell(
                alloc,
                world,
                Event::Short {
                    witness: 1,
                    outline: 0,
                },
            )
        }
        2 => tell(alloc, world, Event::Summarise { witness }),
        3 => {
            tell(
                alloc,
                world,
                Event::Pack {
                    witness: 1,
                    summary: 1,
                },
            )
        }
        4 => tell(alloc, world, Event::Deliver { pack: 0, witness }),
        5 => {
            tell(
                alloc,
                world,
                Event::Ask {
                    witness,
                    node: NodeId(2),
                },
            )
        }
        _ => tell(alloc, world, Event::Export { witness }),
    }
}

/// Returns the whole list of events. No item is taken in it.
fn all_events<P: Program>() -> [Event<P>; 7]
    ensures { (W : TheWorld) → AreChecked P.means W result }
{
    let witness = 0;
    [
        Event::Outline { witness },
        Event::Short {
            witness: 1,
            outline: 0,
        },
        Event::Summarise { witness },
        Event::Pack {
            witness: 1,
            summary: 1,
        },
        Event::Deliver { pack: 0, witness },
        Event::Ask {
            witness,
            node: NodeId(2),
        },
        Event::Export { witness },
    ]
}

/// Writes a reply.
fn say_reply(rt: &HostRuntime, word: &str, reply: &Reply) -> Result<()> {
    match reply {
        Reply::Took(new) => println!(rt; "{word} took {new}")?,
        Reply::Outlined(number) => println!(rt; "{word} outlined {number}")?,
        Reply::Summary(number) => println!(rt; "{word} summary {number}")?,
        Reply::Packed(number) => println!(rt; "{word} packed {number}")?,
        Reply::Delivered(new) => println!(rt; "{word} delivered {new}")?,
        Reply::Says(said) => println!(rt; "{word} says {said}")?,
        Reply::Bytes(text) => {
            let digest = digest(text.as_slice());
            println!(rt; "{word} bytes {digest}")?;
        }
    }
    Ok(())
}

/// Makes the events happen from the one with this number on, each alone. Writes each reply, and the world after each event.
fn say_steps<S: Evidence<Tally>>(
    rt: &HostRuntime,
    words: (&str, &str),
    world: &mut World<Tally, S>,
    from: u64,
) -> Result<()> {
    let (reply_word, state_word) = words;
    for n in from..EVENTS {
        let reply = step::<S>(rt.alloc(), world, n)?;
        say_reply(rt, reply_word, &reply)?;
        say_world::<S>(rt, state_word, world)?;
    }
    Ok(())
}

/// Writes the replies, and returns how many events are done.
fn say_answer(rt: &HostRuntime, answer: &Result<Vec<Reply>, RunFault>) -> Result<u64> {
    let (replies, done) = match answer {
        Ok(replies) => {
            println!(rt; "answer ok")?;
            (replies, EVENTS)
        }
        Err(fault) => {
            let (number, name, done) = (fault.cause.number(), fault.cause.name(), fault.done);
            println!(rt; "answer refused {number} {name} {done}")?;
            (&fault.replies, fault.done)
        }
    };
    for reply in replies {
        say_reply(rt, "told", reply)?;
    }
    Ok(done)
}

/// Makes the call: it runs the whole list.
fn run_list<S: Evidence<Tally>>(
    alloc: Global,
    world: &mut World<Tally, S>,
) -> Result<Vec<Reply>, RunFault> {
    let events = all_events::<Tally>();
    witness_core::run(alloc, world, &events)
}

/// Makes the call, which runs the whole list. What is left of the list after a refusal happens event by event.
fn run_events<S: Evidence<Tally>>(rt: &HostRuntime, world: &mut World<Tally, S>) -> Result<()> {
    Turn::First.begin(rt.alloc())?;
    let answer = run_list::<S>(rt.alloc(), world);
    Turn::First.end(rt.alloc());
    let done = say_answer(rt, &answer)?;
    say_world::<S>(rt, "after", world)?;
    say_steps::<S>(rt, ("rest", "end"), world, done)
}

/// Plays `run` of a list of events. First each event happens alone in another world. This shows what each must reply, and what it must leave.
pub fn run<S: Evidence<Tally>>(rt: &HostRuntime) -> Result<()> {
    let directory = directory_of(rt.alloc())?;
    let mut other: Box<World<Tally, S>> = make_full_world(rt.alloc(), &directory)?;
    say_world::<S>(rt, "before", &other)?;
    say_steps::<S>(rt, ("step", "state"), &mut other, 0)?;
    let mut world: Box<World<Tally, S>> = make_full_world(rt.alloc(), &directory)?;
    run_events::<S>(rt, &mut world)
}
