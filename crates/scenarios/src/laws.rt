//! Laws over the definitions. Each law is the contract of a function that does nothing.

ghost use Rattle.scenarios.specs.Spelling.{ScenariosAreRead};

/// What is read is a scenario, and each scenario is read from its text.
pub fn scenarios_are_read()
    ensures { ScenariosAreRead }
{}
