//! Laws over the definitions. Each law is the contract of a function that does nothing.

ghost use Rattle.durable_store.specs.Opening.{LeftJournalsAreOpened};
ghost use Rattle.durable_store.specs.Runs.{CrashesKeepWhatWasAcknowledged, FilesKeepOneSet};
ghost use Rattle.durable_store.specs.Witnesses.{WitnessesAnswerAlike, WitnessesKeepWhatTheyAcknowledged};

use evidence_set::laws::indications_are_one;
use item_forms::laws::items_have_one_text;
use journal::Device;

/// A crash at any moment of a run of calls leaves each item that was acknowledged before it, and none that nobody gave.
pub fn crashes_keep_what_was_acknowledged<D: Device>()
    ensures { CrashesKeepWhatWasAcknowledged D D.moment D.may_leave D.left_since }
{}

/// A file keeps one set of items.
pub fn files_keep_one_set()
    ensures { FilesKeepOneSet }
{
    items_have_one_text();
}

/// A file that a crash left is not refused for its texts when it is opened again.
pub fn left_journals_are_opened()
    ensures { LeftJournalsAreOpened }
{}

/// A witness has each item that it acknowledged, and none that nobody gave it, at whatever moments crashes came.
pub fn witnesses_keep_what_they_acknowledged<D: Device>()
    ensures { WitnessesKeepWhatTheyAcknowledged D D.moment D.may_leave D.left_since }
{
    files_keep_one_set();
}

/// Two witnesses that each acknowledged what either was given answer alike, at whatever moments crashes came.
pub fn witnesses_answer_alike<S, C: Device, D: Device>()
    ensures { WitnessesAnswerAlike S C D C.moment C.may_leave C.left_since D.moment D.may_leave D.left_since }
{
    witnesses_keep_what_they_acknowledged::<C>();
    witnesses_keep_what_they_acknowledged::<D>();
    indications_are_one::<S>();
}
