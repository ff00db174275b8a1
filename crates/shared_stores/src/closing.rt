//! How a shared store is closed.

ghost use Rattle.std.specs.Prelude.{◌≡◌, IfErr, IfOk};
ghost use Rattle.shared_stores.specs.Closing.{AllAgree, IsFault};
ghost use Rattle.shared_stores.specs.Histories.{Replays};

use crate::comparing::{all_agree, all_known, one_each};
use crate::fault::CloseFault;
use crate::history::Recorded;
use crate::pass::Pass;
use crate::shared::SharedStore;
use evidence::Evidence;
use replay_verifier::Program;
use std::fmt;
use thiserror::Error;

/// A store that is no longer shared, the history of its calls, and the callers' passes.
#[derive(Drop)]
pub struct Closed<S> {
    /// The store.
    pub store: S,
    /// The calls that were answered, in the order in which they were done.
    pub history: Vec<Recorded>,
    /// The passes, as the caller gave them.
    pub passes: Vec<Pass>,
}

/// A shared store that was not closed. The store and the passes are given back.
#[derive(Drop, Error)]
#[error("the store is not closed: {fault}")]
pub struct CloseRefused<S> {
    /// Why it was not closed.
    pub fault: CloseFault,
    /// The store. The contract says nothing of what it has.
    pub store: S,
    /// The passes, as the caller gave them.
    pub passes: Vec<Pass>,
}

/// Shows the fault and the passes, and nothing of the store.
impl<S> fmt::Debug for CloseRefused<S> {
    fn fmt<W: fmt::Write>(&self, f: &mut fmt::Formatter<W>) -> fmt::Result {
        f.debug_struct("CloseRefused")
            .field("fault", &self.fault)
            .field("passes", &self.passes)
            .finish()
    }
}

impl<P: Program, S: Evidence<P>> SharedStore<P, S> {
    /// Takes the store out of its lock, and compares the passes with the history. It takes no memory, and waits for nobody.
    ///
    /// If it returns `Ok`, the history is that of a single thread, from the store that was opened to this one. What was taken and merged is
    /// valid. The nodes that were asked about are listed. Each reply is the one that is given there. The calls of each pass are just those
    /// of its number in the history, and the history has no others.
    ///
    /// Otherwise the call reports the first of these that applies:
    ///
    /// - `PassMissing` (91), if the passes are not those numbered from 0 on, each once;
    /// - `HistoryMismatch` (92), if a pass does not agree with the history, or if the history has a call of another number. The same is
    ///   reported if the directory or the opening set under the lock is not the one beside it.
    pub fn close(self, passes: Vec<Pass>) -> Result<Closed<S>, CloseRefused<S>>
        ensures replays { IfOk result (λ c. Replays self.directory P.means self.opening c.history.items (S.contents c.store).items) }
        ensures directory { IfOk result (λ c. (S.contents c.store).directory ≡ self.directory) }
        ensures agree { IfOk result (λ c. AllAgree self.callers c.history.items passes.items) }
        ensures passes { IfOk result (λ c. c.passes.items ≡ passes.items) }
        ensures given_back { IfErr result (λ refused. refused.passes.items ≡ passes.items) }
        ensures fault { IfErr result (λ refused. IsFault self.callers passes.items refused.fault) }
    {
        let SharedStore {
            directory,
            callers,
            opening,
            locked,
            ..
        } = self;
        let (locked_opening, store, history) = locked.into_inner().into_parts();
        if !one_each(passes.as_slice(), callers) {
            return Err(CloseRefused {
                fault: CloseFault::PassMissing,
                store,
                passes,
            });
        }
        let same = *store.directory() == directory && locked_opening.is(&opening);
        let agree = all_agree(history.as_slice(), passes.as_slice());
        let known = all_known(history.as_slice(), callers);
        if !same || !agree || !known {
            return Err(CloseRefused {
                fault: CloseFault::HistoryMismatch,
                store,
                passes,
            });
        }
        Ok(Closed {
            store,
            history,
            passes,
        })
    }
}
