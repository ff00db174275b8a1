//! What the tests share: worlds of witnesses, and what their events are answered.

ghost use Rattle.std.specs.Prelude.{◌≡◌, IfOk, map};
ghost use Rattle.std.specs.List.{All};
ghost use Rattle.evidence.specs.Contents.{Contents};
ghost use Rattle.witness_core.specs.Answering.{IsCheckedFor};

use authenticators::Directory;
use evidence_item::{Item, check_item};
use evidence_set::Indication;
use evidence_store::Evidence;
use replay_verifier::Program;
use std::alloc::Global;
use std::test::Fail;
use witness_core::{Event, Reply, World, run};

/// A copy of the item.
pub(crate) fn copy_of(alloc: Global, item: &Item) -> Result<Box<Item>, Fail> {
    Ok(Box::new(alloc, item.try_clone(alloc)?)?)
}

/// So many stores without items, under copies of the directory.
fn make_stores<P: Program, S: Evidence<P>>(
    alloc: Global,
    directory: &Directory,
    count: u64,
) -> Result<Vec<S>, Fail>
    ensures { IfOk result (λ stores. All (λ (s : Contents). s.directory ≡ directory.now) (map S.contents stores.items)) }
{
    let mut stores = Vec::new(alloc);
    for _ in 0..count {
        let store: S = S::new(alloc, directory.try_clone()?)?;
        stores.push(store)?;
    }
    Ok(stores)
}

/// A world of so many witnesses without items, in which nothing happened.
pub(crate) fn make_world<P: Program, S: Evidence<P>>(
    alloc: Global,
    directory: &Directory,
    count: u64,
) -> Result<Box<World<P, S>>, Fail> {
    let stores: Vec<S> = make_stores(alloc, directory, count)?;
    Ok(Box::new(alloc, World::new(alloc, stores))?)
}

/// What the event answers, as a pair: which of the seven replies it is, and what it tells. Of a text that is how many bytes it has.
/// Where the event is refused, 0 and the refusal's number.
pub(crate) fn tell<P: Program, S: Evidence<P>>(
    alloc: Global,
    world: &mut World<P, S>,
    event: Event<P>,
) -> (u8, u64)
    requires { IsCheckedFor P.means world.old event }
{
    match run(alloc, world, &[event]) {
        Ok(replies) => match replies.as_slice() {
            [reply] => code_of(reply),
            _ => (9, 0),
        },
        Err(fault) => (0, fault.cause.number() as u64),
    }
}

fn code_of(reply: &Reply) -> (u8, u64) {
    match reply {
        Reply::Took(new) => (1, *new as u64),
        Reply::Summary(number) => (2, *number),
        Reply::Packed(number) => (3, *number),
        Reply::Delivered(new) => (4, *new),
        Reply::Says(Indication::Trusted) => (5, 0),
        Reply::Says(Indication::Suspected) => (5, 1),
        Reply::Says(Indication::Exposed) => (5, 2),
        Reply::Bytes(text) => (6, text.len() as u64),
        Reply::Outlined(number) => (7, *number),
    }
}

/// What the taking of an item answers, which is checked under the witness's directory.
pub(crate) fn take<P: Program, S: Evidence<P>>(
    alloc: Global,
    program: &P,
    world: &mut World<P, S>,
    witness: u64,
    item: Box<Item>,
) -> Result<(u8, u64), Fail> {
    let Some(store) = world.stores().get(witness as usize) else {
        return Ok((0, 80));
    };
    let item = check_item(alloc, program, store.directory(), Box::into_inner(item))?;
    Ok(tell(alloc, world, Event::Take { witness, item }))
}
