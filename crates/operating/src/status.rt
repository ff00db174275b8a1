//! The engine of `status`, which writes what evidence says of each node.

ghost use Rattle.std.specs.Prelude.{◌<◌, ◌≤◌, ◌↔◌, IsSome, IsTrue};
ghost use Rattle.authenticators.specs.Directory.{keys_at};
ghost use Rattle.evidence_set.specs.Indications.{IsExposed};
ghost use Rattle.operating.specs.Operating.{HasRoom, RanOnStores};
ghost use Rattle.parallel_checking.specs.declared.limits.TheConstants.{MOST_WORKERS};
ghost use Rattle.operating.specs.Questions.{ExposesSomebody, IsEnding, Status, is_asked};

use crate::asking::{Answer, Ending, Gathered, Question, Reading, ask};
use crate::files::Opener;
use crate::refusal::Refusal;
use crate::scope::Scope;
use crate::standings::standings_of;
use crate::watching::StoreWatcher;
use answers::{Style, standings_text};
use authenticators::NodeId;
use commands::Store;
use commands::device::Sink;
use commands::fault::Fault;
use evidence::Evidence;
use evidence_set::Indication;
use replay_verifier::Program;
use std::alloc::Global;
use std::thread::Threads;

/// The question of `status`: the nodes that are asked of, the style of the answer, and the name by which the program is written.
#[derive(Clone, Copy)]
pub struct Reporting<'a> {
    /// The style.
    pub style: Style,
    /// The nodes.
    pub scope: Scope,
    /// The name, with no character that JSON escapes.
    pub name: &'a [u8],
}

/// Returns whether the evidence exposes a listed node.
fn is_exposed<P: Program, S: Evidence<P>>(store: &S, node: NodeId) -> bool
    requires { IsSome (keys_at (S.contents store.now).directory node) }
    ensures { IsTrue result ↔ IsExposed (S.contents store.now).directory P.means (S.contents store.now).items node }
{
    let Ok(indication) = store.indication(node) else {
        unreachable!()
    };
    match indication {
        Indication::Exposed => true,
        Indication::Suspected => false,
        Indication::Trusted => false,
    }
}

/// Returns whether a listed node is asked of, and the evidence exposes it.
fn exposes<P: Program, S: Evidence<P>>(store: &S, scope: &Scope, node: NodeId) -> bool
    requires { IsSome (keys_at (S.contents store.now).directory node) }
    ensures { IsTrue result ↔ (IsTrue (is_asked scope.now node) × IsExposed (S.contents store.now).directory P.means (S.contents store.now).items node) }
{
    if !scope.asks(node) {
        return false;
    }
    is_exposed::<P, S>(store, node)
}

/// Returns whether the evidence exposes a node of its directory that is asked of.
fn exposes_somebody<P: Program, S: Evidence<P>>(store: &S, scope: &Scope) -> bool
    ensures { IsTrue result ↔ ExposesSomebody scope.now P.means (S.contents store.now) }
{
    for node in store.directory().nodes() {
        if exposes::<P, S>(store, scope, *node) {
            return true;
        }
    }
    false
}

/// Returns how an engine ends that reports what evidence says. It is `Exposed` if the evidence exposes a node that is asked of, and else
/// `Done`.
pub fn ending_of<P: Program, S: Evidence<P>>(store: &S, scope: &Scope) -> Ending
    ensures { IsEnding scope.now P.means (S.contents store.now) result }
{
    if exposes_somebody::<P, S>(store, scope) {
        Ending::Exposed
    } else {
        Ending::Done
    }
}

impl<'a, P: Program> Question<P, Store<P>> for Reporting<'a> {
    ghost means = { λ q. Status q.style q.name.now q.scope P.means };

    fn answer(&self, alloc: Global, read: &Gathered<Store<P>>) -> Result<Answer, Fault> {
        let mut standings = standings_of(alloc, &read.store)?;
        self.scope.keep(&mut standings);
        let text = standings_text(alloc, self.style, self.name, &read.directory, &standings)?;
        let ending = ending_of::<P, Store<P>>(&read.store, &self.scope);
        Ok(Answer { text, ending })
    }
}

/// Reads a directory and this many stores, and writes what the items of all stores say of each node of the directory that is asked of. It
/// writes in this style, under the program of this name. As JSON it also writes whether anything is known of each node. It writes nothing
/// else, and it writes once, after everything has been decided.
pub fn run<R: Threads + Sync, P: Program + Send + Sync, O: Opener, F: StoreWatcher, W: Sink>(
    reading: &Reading<'_, R, P>,
    reporting: &Reporting<'_>,
    opener: &mut O,
    stores: usize,
    watcher: &mut F,
    writer: &mut W,
) -> Result<Ending, Refusal>
where
    P::State: Send,
    requires workers { (0 < reading.now.limits.workers) × (reading.now.limits.workers ≤ MOST_WORKERS) }
    requires room { HasRoom stores (O.seen opener.old) (W.seen writer.old) }
    ensures { RanOnStores (Status reporting.now.style reporting.now.name.now reporting.now.scope P.means) reading.now.limits.most_bytes stores result (O.seen opener.old) (O.seen opener.new) W.seen writer.old writer.new }
{
    ask::<R, P, Store<P>, Reporting<'_>, O, F, W>(
        reading, reporting, opener, stores, watcher, writer,
    )
}
