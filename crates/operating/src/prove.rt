//! The engine of `prove`, which writes a proof of what evidence shows of a node.

ghost use Rattle.std.specs.Prelude.{◌≡◌, ◌<◌, ◌≤◌, IfOk};
ghost use Rattle.operating.specs.Operating.{HasRoom, RanOnStores};
ghost use Rattle.parallel_checking.specs.declared.limits.TheConstants.{MOST_WORKERS};
ghost use Rattle.operating.specs.Questions.{Prove, told_of};

use crate::asking::{Answer, Ending, Gathered, Question, Reading, ask};
use crate::files::Opener;
use crate::refusal::Refusal;
use crate::watching::StoreWatcher;
use authenticators::NodeId;
use commands::Store;
use commands::device::Sink;
use commands::fault::Fault;
use evidence::Evidence;
use outcome::Memory;
use proofs::Proof;
use replay_verifier::Program;
use std::alloc::Global;
use std::thread::Threads;

/// The question of `prove`: the node against which a proof is wanted.
#[derive(Clone, Copy)]
pub struct Proving {
    /// The node.
    pub node: NodeId,
}

/// Returns the encoding of a proof, or that there is none.
fn answer_of(alloc: Global, found: Option<Proof>) -> Result<Answer, Memory>
    ensures { IfOk result (λ answer. (answer.text.items, answer.ending) ≡ told_of found) }
{
    match found {
        Some(proof) => {
            let text = proof.encode(alloc)?;
            Ok(Answer {
                text,
                ending: Ending::Done,
            })
        }
        None => Ok(Answer {
            text: Vec::new(alloc),
            ending: Ending::NoProof,
        }),
    }
}

impl<P: Program, S: Evidence<P>> Question<P, S> for Proving {
    ghost means = { λ q. Prove P.means q.node };

    fn answer(&self, alloc: Global, read: &Gathered<S>) -> Result<Answer, Fault> {
        let found = read.store.proof(self.node)?;
        let answer = answer_of(alloc, found)?;
        Ok(answer)
    }
}

/// Reads a directory and this many stores, and writes a proof that convicts the node. Whoever has the directory and knows the program can
/// check the proof. If the items do not expose the node, it writes nothing and returns [`NoProof`](Ending::NoProof).
///
/// If several proofs convict the node, it is left open which one is written. `UnknownNode` (44) if the directory does not list the node.
pub fn run<R: Threads + Sync, P: Program + Send + Sync, O: Opener, F: StoreWatcher, W: Sink>(
    reading: &Reading<'_, R, P>,
    node: NodeId,
    opener: &mut O,
    stores: usize,
    watcher: &mut F,
    writer: &mut W,
) -> Result<Ending, Refusal>
where
    P::State: Send,
    requires workers { (0 < reading.now.limits.workers) × (reading.now.limits.workers ≤ MOST_WORKERS) }
    requires room { HasRoom stores (O.seen opener.old) (W.seen writer.old) }
    ensures { RanOnStores (Prove P.means node) reading.now.limits.most_bytes stores result (O.seen opener.old) (O.seen opener.new) W.seen writer.old writer.new }
{
    ask::<R, P, Store<P>, Proving, O, F, W>(
        reading,
        &Proving { node },
        opener,
        stores,
        watcher,
        writer,
    )
}
