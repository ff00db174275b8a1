//! Laws over the definitions. Each is a function that computes nothing: its contract is the law.

ghost use Rattle.byte_calls.specs.JournalLaws.{JournalsFollow};

use authenticators::laws::the_test_is_signed;
use evidence_item::laws::valid_items_have_no_fault;
use item_forms::laws::items_are_read_as_spelled;
use node_journals::laws::journals_rebuild;
use node_runs::answers_are_receipts;
use replay_verifier::Program;

/// The node of a journal's bytes is the node that went on, if its host takes the steps that [`journals`](crate::journals) says: at each moment
/// before a record's gate is open, the node from before the record, and after that the node after the call.
pub fn journals_follow<P: Program>()
    ensures { JournalsFollow P.State }
{
    the_test_is_signed();
    valid_items_have_no_fault();
    items_are_read_as_spelled();
    journals_rebuild::<P>();
    answers_are_receipts::<P>();
}
