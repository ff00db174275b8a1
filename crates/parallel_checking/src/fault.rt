//! The reasons why a list of items is not checked. Each refusal has a number and a name.

ghost use Rattle.std.specs.Prelude.{◌≡◌};
ghost use Rattle.parallel_checking.specs.Refusals.{name_of, number_of};

use thiserror::Error;

/// The reason why a list of items is not checked, or not checked again.
#[derive(Clone, Copy, Debug, PartialEq, Eq, Error)]
pub enum CheckAllFault {
    /// 90: there is no worker, or there are more than [`MOST_WORKERS`](crate::MOST_WORKERS).
    #[error("the number of workers is not allowed")]
    BadWorkers,
    /// 93: the results are not as many as the items. Only [`check_again`](crate::check_again) reports it.
    #[error("there are not as many results as items")]
    LengthMismatch,
    /// 99: a growth of memory was refused.
    #[error("memory ran out")]
    Memory,
}

impl CheckAllFault {
    /// Returns the number of the refusal.
    pub fn number(&self) -> u8
        ensures { result ≡ number_of self.now }
    {
        match self {
            CheckAllFault::BadWorkers => 90,
            CheckAllFault::LengthMismatch => 93,
            CheckAllFault::Memory => 99,
        }
    }

    /// Returns the name of the refusal, which is that of its variant.
    pub fn name(&self) -> &'static str
        ensures { result.now ≡ name_of self.now }
    {
        match self {
            CheckAllFault::BadWorkers => "BadWorkers",
            CheckAllFault::LengthMismatch => "LengthMismatch",
            CheckAllFault::Memory => "Memory",
        }
    }
}
