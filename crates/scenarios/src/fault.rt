//! The reasons why a text is no scenario.

ghost use Rattle.std.specs.Prelude.{◌≡◌};
ghost use Rattle.scenarios.specs.Refusals.{name_of, number_of};
ghost use Rattle.scenarios.specs.declared.fault.ScenarioFault.TheVariants.{Memory};

use std::alloc::{AllocError, AllocFailed};
use thiserror::Error;

/// The reason why a scenario is refused.
#[derive(Clone, Copy, Debug, PartialEq, Eq, Error)]
pub enum ScenarioFault {
    /// 105: the text is not that of a scenario.
    #[error("the text is no scenario")]
    BadScenario,
    /// 99: a growth of memory was refused.
    #[error("memory ran out")]
    Memory,
}

impl ScenarioFault {
    /// Returns the number of the refusal.
    pub fn number(&self) -> u8
        ensures { result ≡ number_of self.now }
    {
        match self {
            ScenarioFault::BadScenario => 105,
            ScenarioFault::Memory => 99,
        }
    }

    /// Returns the name of the refusal, which is that of its variant.
    pub fn name(&self) -> &'static str
        ensures { result.now ≡ name_of self.now }
    {
        match self {
            ScenarioFault::BadScenario => "BadScenario",
            ScenarioFault::Memory => "Memory",
        }
    }
}

impl From<AllocError> for ScenarioFault {
    ghost from_gives = { λ _ fault. fault ≡ Memory };

    fn from(_: AllocError) -> ScenarioFault {
        ScenarioFault::Memory
    }
}

impl<T: Drop> From<AllocFailed<T>> for ScenarioFault {
    ghost from_gives = { λ _ fault. fault ≡ Memory };

    fn from(_: AllocFailed<T>) -> ScenarioFault {
        ScenarioFault::Memory
    }
}
