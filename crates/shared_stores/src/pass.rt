//! The passes of callers.

ghost use Rattle.std.specs.Prelude.{◌≡◌, []};

use crate::history::Recorded;
use std::alloc::Global;
use std::marker::Model;

/// The number of a caller of a shared store, with the caller's own calls and their replies. A contract sees both.
#[derive(Debug, Drop)]
pub struct Pass {
    pub(crate) number: usize,
    pub(crate) calls: Vec<Recorded>,
}

impl Model for Pass {
    ghost use Rattle.shared_stores.specs.Histories.{Notes, notes_code};

    ghost Value = { Notes };

    ghost coded = { notes_code };

    ghost view = { λ p. record { number = p.number; calls = p.calls.items } };
}

impl Pass {
    /// Makes a pass with no call. It takes no memory.
    pub(crate) fn new(alloc: Global, number: usize) -> Pass
        ensures { result ≡ record { number = number; calls = [] } }
    {
        Pass {
            number,
            calls: Vec::new(alloc),
        }
    }

    /// Returns the caller's number. It takes no memory.
    pub fn number(&self) -> usize
        ensures { result ≡ self.now.number }
    {
        self.number
    }

    /// Returns the caller's calls that were answered, in their order. It takes no memory.
    pub fn calls(&self) -> &[Recorded]
        ensures { result.now ≡ self.now.calls }
    {
        self.calls.as_slice()
    }
}
