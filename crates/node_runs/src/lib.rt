//! Runs of nodes: what a node becomes if it is given a list of inputs, one after the other (PeerReview, SOSP 2007: the
//! commitment protocol).
//!
//! `specs/Runs.antt` defines a run, and what two runs from one beginning have in common. `specs/Answering.antt` defines what an
//! answer to a challenge is in a run. Each function here does nothing: its contract is the law.
#![tactic(auto)]

ghost use Rattle.node_runs.specs.Answering.{AnswersAreReceipts};
ghost use Rattle.node_runs.specs.Runs.{RunsOnlyAdd};

use commitment::laws::calls_only_add;
use replay_verifier::Program;

/// If one of two runs from the same beginning was given the first inputs of the other, what its node keeps begins what the
/// other's node keeps. So if both nodes signed a k-th statement, it is the same statement.
pub fn runs_only_add<P: Program>()
    ensures { RunsOnlyAdd P.State }
{
    calls_only_add::<P>();
}

/// A node that answers a send challenge becomes what it becomes by receiving the message. A node that answers an audit
/// challenge stays as it was. A node that refuses to receive the message of a challenge stays as it was, in the run too.
pub fn answers_are_receipts<P: Program>()
    ensures { AnswersAreReceipts P.State }
{}
