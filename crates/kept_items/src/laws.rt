//! What follows from the definitions. Each function does nothing. A call of it makes its contract known to the prover.

ghost use Rattle.kept_items.specs.Keeping.{CheckedItemsCanBeKept, DenialsAreWithinReach, FoundItemsCanBeKept};
ghost use Rattle.kept_items.specs.Links.{AnswersAreInherited};

/// An item can be kept if its findings are those that checking finds under some directory.
pub fn found_items_can_be_kept()
    ensures { FoundItemsCanBeKept }
{}

/// An item can be kept if its findings, if it has any, are its own under some directory, and if none are missing. Findings belong to a
/// segment, a send challenge and an acknowledgement.
pub fn checked_items_can_be_kept()
    ensures { CheckedItemsCanBeKept }
{}

/// A statement that contradicts a segment lies within its reach.
pub fn denials_are_within_reach()
    ensures { DenialsAreWithinReach }
{}

/// Suppose that a segment answers an audit challenge, and another segment of the same node agrees with it. Then the other one answers the
/// challenge too, if it has the later of the entries that the challenge names, with as much before it as the challenge asks for.
pub fn answers_are_inherited()
    ensures { AnswersAreInherited }
{}
