//! Worlds of witnesses, in which one event happens after the other.

ghost use Rattle.std.specs.Prelude.{◌≡◌, IfOk, map};
ghost use Rattle.std.specs.List.{All};
ghost use Rattle.evidence.specs.Contents.{Contents};
ghost use Rattle.witness_core.specs.Answering.{IsCheckedFor};

use anyhow::{Result, bail};
use authenticators::Directory;
use evidence::Evidence;
use evidence_item::{Item, check_item};
use replay_verifier::Program;
use std::alloc::Global;
use witness_core::{Event, Reply, World, run};

/// Creates so many stores without items, under copies of the directory.
fn make_stores<P: Program, S: Evidence<P>>(
    alloc: Global,
    directory: &Directory,
    count: u64,
) -> Result<Vec<S>>
    ensures { IfOk result (λ stores. All (λ (s : Contents). s.directory ≡ directory.now) (map S.contents stores.items)) }
{
    let mut stores = Vec::new(alloc);
    for _ in 0..count {
        let Ok(store) = S::new(alloc, directory.try_clone()?) else {
            bail!("memory ran out");
        };
        stores.push(store)?;
    }
    Ok(stores)
}

/// Returns a world of so many witnesses, who have no items yet.
pub fn new_world<P: Program, S: Evidence<P>>(
    alloc: Global,
    directory: &Directory,
    count: u64,
) -> Result<Box<World<P, S>>> {
    let stores: Vec<S> = make_stores::<P, S>(alloc, directory, count)?;
    Ok(Box::new(alloc, World::new(alloc, stores))?)
}

/// Makes the event happen in the world, and returns the reply to it.
pub fn tell<P: Program, S: Evidence<P>>(
    alloc: Global,
    world: &mut World<P, S>,
    event: Event<P>,
) -> Result<Reply>
    requires { IsCheckedFor P.means world.old event }
{
    let mut replies = run(alloc, world, &[event])?;
    match replies.pop() {
        Some(reply) => Ok(reply),
        None => bail!("no reply"),
    }
}

/// Makes the witness with this number take a copy of the item. It fails if there is no such witness, or if the item is not valid.
pub fn take<P: Program, S: Evidence<P>>(
    alloc: Global,
    program: &P,
    world: &mut World<P, S>,
    witness: u64,
    item: &Item,
) -> Result<()> {
    let Some(store) = world.stores().get(witness as usize) else {
        bail!("there is no such witness");
    };
    let item = check_item(alloc, program, store.directory(), item.try_clone(alloc)?)?;
    tell(alloc, world, Event::Take { witness, item })?;
    Ok(())
}
