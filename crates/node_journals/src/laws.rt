//! Laws over the definitions. Each is a function that does nothing: its contract is the law.

ghost use Rattle.node_journals.specs.Beginnings.{BeginningsReadBack};
ghost use Rattle.node_journals.specs.Laws.{JournalsRebuild, LeavesSignOnce};
ghost use Rattle.node_journals.specs.Records.{RecordsReadBack};

use item_forms::laws::framed_items_read_back;
use lms_sign::laws::keys_have_one_text;
use node_runs::runs_only_add;
use replay_verifier::Program;

/// What is read as a record is the encoding of that record, and the encoding of a record is read as that record.
pub fn records_read_back()
    ensures { RecordsReadBack }
{
    keys_have_one_text();
    framed_items_read_back();
}

/// What is read as a beginning is the encoding of that beginning, and the encoding of a beginning is read as that beginning.
pub fn beginnings_read_back()
    ensures { BeginningsReadBack }
{
    keys_have_one_text();
}

/// If one journal begins another, is not empty, and the other can be rebuilt, the one can be rebuilt too. What its node keeps
/// begins what the other's node keeps. What a crash at any moment leaves of a growing journal is rebuilt to a node between the
/// two. A node's own journal can be rebuilt.
pub fn journals_rebuild<P: Program>()
    ensures { JournalsRebuild P.State }
{
    records_read_back();
    beginnings_read_back();
    runs_only_add::<P>();
}

/// Each leaf of a key signs one text, whatever crashes come between.
pub fn leaves_sign_once()
    ensures { LeavesSignOnce }
{}
