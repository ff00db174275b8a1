//! Laws over the definitions. Each is a function that does nothing. Its contract is the law.

ghost use Rattle.witness_histories.specs.Runs.{HistoriesAreRuns, HistoriesHaveWorlds};

use evidence_set::laws::{joins_are_as_expected, sets_are_as_expected, sets_are_lists};
use replay_verifier::Program;
use replay_verifier::laws::lists_are_judged;

/// A history that is a single thread's is a run of the world with one witness. No event is refused, and the replies are those of the world.
/// The witness took what the store has after the history.
pub fn histories_are_runs<P, S>()
    ensures { HistoriesAreRuns P S }
{
    sets_are_as_expected();
    joins_are_as_expected();
}

/// Each such history has a world with one witness, which keeps the packs of the history's merges. The history's calls are events there.
/// What is in the packs, and what is taken, is checked under the directory and the program.
pub fn histories_have_worlds<P: Program>()
    ensures { HistoriesHaveWorlds P P.means }
{
    sets_are_lists();
    lists_are_judged::<P>();
}
