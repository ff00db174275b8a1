//! Three witnesses, to each of whom other evidence comes, and who pass it on to each other.

ghost use Rattle.std.specs.Prelude.{◌≡◌, IsTrue};

use crate::scenes::Pair;
use accuracy::exposes;
use anyhow::{Result, bail};
use authenticators::{Directory, NodeId};
use commitment::Node;
use evidence::Evidence;
use evidence_set::Indication;
use ref_programs::Tally;
use replay_verifier::Program;
use std::alloc::Global;
use tours::network::{last_statement, log_of};
use tours::worlds::{new_world, take, tell};
use witness_core::{Event, Reply, World};

/// The store that each witness fills.
type Store = tours::witness::Store<Tally>;

/// How many witnesses there are.
pub const WITNESSES: u64 = 3;

/// The witnesses, and two of the nodes whose evidence they have.
#[derive(Drop)]
pub struct Spreading {
    world: Box<World<Tally, Store>>,
    nodes: Pair,
}

/// Nodes 1 and 2 show their logs, node 1 to the witness 2, and node 2 to the witness 1.
fn take_logs(alloc: Global, nodes: &mut Pair, world: &mut World<Tally, Store>) -> Result<()> {
    let one = Box::new(alloc, log_of(alloc, &Tally, &mut nodes.one)?)?;
    take(alloc, &Tally, world, 2, &one)?;
    let two = Box::new(alloc, log_of(alloc, &Tally, &mut nodes.two)?)?;
    take(alloc, &Tally, world, 1, &two)
}

/// Node 2 sends node 3 a number, as if it had never sent another. Node 3 passes on to the witness 0 what node 2 signed.
fn take_other_history(
    alloc: Global,
    directory: &Directory,
    world: &mut World<Tally, Store>,
) -> Result<()> {
    let mut nodes = Pair::begin(alloc, directory, 2, 3)?;
    nodes.send(alloc, 7)?;
    let told = Box::new(alloc, last_statement(alloc, &nodes.one)?)?;
    take(alloc, &Tally, world, 0, &told)
}

/// Witness 0 makes an outline, against which witness 1 makes a short summary; the witnesses 2 and 0 make summaries. Packs 0 and 2 are what
/// witness 0 has for the witnesses 1 and 2, pack 1 what witness 1 has for the witness 2, and pack 3 what witness 2 has for the witness 0.
fn make_packs(alloc: Global, world: &mut World<Tally, Store>) -> Result<()> {
    tell(alloc, world, Event::Outline { witness: 0 })?;
    tell(
        alloc,
        world,
        Event::Short {
            witness: 1,
            outline: 0,
        },
    )?;
    tell(alloc, world, Event::Summarise { witness: 2 })?;
    tell(alloc, world, Event::Summarise { witness: 0 })?;
    for (witness, summary) in [(0, 0), (1, 1), (0, 1), (2, 2)] {
        tell(alloc, world, Event::Pack { witness, summary })?;
    }
    Ok(())
}

/// Pack 2 is lost. Each other one reaches another witness too, for whom it was not made, and pack 3 comes twice.
fn deliver(alloc: Global, world: &mut World<Tally, Store>) -> Result<()> {
    for (pack, witness) in [(0, 1), (0, 2), (1, 2), (1, 0), (3, 0), (3, 1), (3, 0)] {
        tell(alloc, world, Event::Deliver { pack, witness })?;
    }
    Ok(())
}

/// Whether all witnesses export the same text.
fn are_equal<P: Program, S: Evidence<P>>(world: &World<P, S>) -> Result<bool> {
    let Some(first) = world.stores().first() else {
        return Ok(true);
    };
    let text = first.export()?;
    for store in world.stores() {
        if store.export()? != text {
            return Ok(false);
        }
    }
    Ok(true)
}

/// Whether the store and the node have one directory.
fn share_directory<P: Program + Drop, S: Evidence<P>>(store: &S, node: &Node<P>) -> bool
    ensures { IsTrue result → (S.contents store.now).directory ≡ node.now.directory }
{
    *store.directory() == *node.directory()
}

/// Whether the first witness's store exposes the node, which runs here.
fn is_exposed<P: Program + Drop, S: Evidence<P>>(world: &World<P, S>, node: &Node<P>) -> bool {
    match world.stores().first() {
        Some(store) => share_directory(store, node) && exposes(store, node),
        None => false,
    }
}

impl Spreading {
    /// Node 1 sends node 2 a number, which tells its total; and node 2 has another history as well. Each witness gets a part of the
    /// evidence.
    pub fn begin(alloc: Global, directory: &Directory) -> Result<Spreading> {
        let mut world: Box<World<Tally, Store>> = new_world(alloc, directory, WITNESSES)?;
        take_other_history(alloc, directory, &mut world)?;
        let mut nodes = Pair::begin(alloc, directory, 1, 2)?;
        nodes.exchange(alloc, 5)?;
        take_logs(alloc, &mut nodes, &mut world)?;
        Ok(Spreading { world, nodes })
    }

    /// The witnesses pass on to each other what they have.
    pub fn spread(&mut self, alloc: Global) -> Result<()> {
        make_packs(alloc, &mut self.world)?;
        deliver(alloc, &mut self.world)
    }

    /// What the witness says of the node.
    pub fn said(&mut self, alloc: Global, witness: u64, node: NodeId) -> Result<Indication> {
        match tell(alloc, &mut *self.world, Event::Ask { witness, node })? {
            Reply::Says(said) => Ok(said),
            _ => bail!("another reply"),
        }
    }

    /// The text of what the witness has, in hexadecimal digits.
    pub fn export(&mut self, alloc: Global, witness: u64) -> Result<String> {
        match tell(alloc, &mut *self.world, Event::Export { witness })? {
            Reply::Bytes(text) => Ok(hex::encode(alloc, text.as_slice())?),
            _ => bail!("another reply"),
        }
    }

    /// Whether all witnesses have the same.
    pub fn agree(&self) -> Result<bool> {
        are_equal::<Tally, Store>(&self.world)
    }

    /// Of each node that runs here whether the witnesses' evidence exposes it. Each of them kept one log, followed its program and signed
    /// nothing else. So the contract of [`exposes`] says of one that is exposed that somebody made a statement of it which it did not
    /// sign, or that two texts have one SHA-256 value.
    pub fn exposed(&self) -> [(NodeId, bool); 2] {
        let one = &*self.nodes.one;
        let two = &*self.nodes.two;
        [
            (one.id(), is_exposed::<Tally, Store>(&self.world, one)),
            (two.id(), is_exposed::<Tally, Store>(&self.world, two)),
        ]
    }
}
