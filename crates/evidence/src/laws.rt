//! Laws over the definitions. Each is a function that does nothing: its contract is the law.

ghost use Rattle.evidence.specs.Exports.{SetsHaveOneText};
ghost use Rattle.evidence.specs.Importing.{ExportsComeBack, RefusedPiecesStay};

use containers::laws::items_have_one_container;
use evidence_item::laws::valid_items_have_no_fault;
use evidence_set::laws::{joins_are_least_upper_bounds, sets_are_as_expected};
use item_forms::laws::{items_have_one_text, spellings_are_short};

/// The encoding of a set of valid items is read as just these items. What is read is the encoding of a set. Sets with one
/// encoding are equal. This holds of stores, of packs, and of any other container, whichever eight bytes it begins with.
pub fn sets_have_one_text()
    ensures { SetsHaveOneText }
{
    items_have_one_container();
    items_have_one_text();
    spellings_are_short();
    valid_items_have_no_fault();
}

/// If the pieces so far show a fault, all bytes that begin with them are refused with the same fault.
pub fn refused_pieces_stay()
    ensures { RefusedPiecesStay }
{}

/// What a store exports is read as its items. A store without items, under the same directory, that imports the export has
/// equal contents.
pub fn exports_come_back()
    ensures { ExportsComeBack }
{
    sets_have_one_text();
    joins_are_least_upper_bounds();
    sets_are_as_expected();
}
