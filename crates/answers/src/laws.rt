//! Laws over the definitions. Each law is the contract of a function that does nothing.

ghost use Rattle.answers.specs.Texts.{StandingsAreTold};

/// What is written of a node, in lines or as JSON, differs for different indications. As JSON it also differs by whether anything is known
/// of the node.
pub fn standings_are_told()
    ensures { StandingsAreTold }
{}
