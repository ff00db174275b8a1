//! Why bytes are not read as a value.

ghost use Rattle.std.specs.Prelude.{◌≡◌};
ghost use Rattle.state_codec.specs.Codings.{of_field};

use log_chain::FieldFault;
use std::alloc::{AllocError, AllocFailed};

/// Why bytes are not read as a value.
#[derive(Clone, Copy, Debug, PartialEq, Eq)]
pub enum CodeFault {
    /// The bytes end within a part.
    Truncated,
    /// A length or a count is above its limit.
    TooLong,
    /// Bytes are left over after the value.
    Trailing,
    /// A growth of memory was refused.
    Memory,
}

impl From<FieldFault> for CodeFault {
    ghost from_gives = { λ f e. e ≡ of_field f };

    fn from(fault: FieldFault) -> CodeFault {
        match fault {
            FieldFault::Truncated => CodeFault::Truncated,
            FieldFault::TooLong => CodeFault::TooLong,
        }
    }
}

impl From<AllocError> for CodeFault {
    ghost use Rattle.state_codec.specs.declared.fault.CodeFault.TheVariants.{Memory};

    ghost from_gives = { λ _ e. e ≡ Memory };

    fn from(_: AllocError) -> CodeFault {
        CodeFault::Memory
    }
}

impl<T: Drop> From<AllocFailed<T>> for CodeFault {
    ghost use Rattle.state_codec.specs.declared.fault.CodeFault.TheVariants.{Memory};

    ghost from_gives = { λ _ e. e ≡ Memory };

    fn from(_: AllocFailed<T>) -> CodeFault {
        CodeFault::Memory
    }
}
