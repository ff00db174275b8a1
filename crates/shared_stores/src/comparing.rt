//! Comparisons of passes with a history.

ghost use Rattle.std.specs.Prelude.{◌≡◌, ◌↔◌, ◌==◌, All, IsTrue, count_by};
ghost use Rattle.shared_stores.specs.Closing.{Agrees, IsOf, OneEach};

use crate::history::Recorded;
use crate::pass::Pass;

/// Returns how many passes have the number.
fn how_many(passes: &[Pass], number: usize) -> usize
    ensures { result ≡ count_by (λ p. p.number == number) passes.now }
{
    passes.iter().filter(|p| p.number() == number).count()
}

/// Returns whether the passes are those numbered from 0 on, each once.
pub(crate) fn one_each(passes: &[Pass], callers: usize) -> bool
    ensures { IsTrue result ↔ OneEach callers passes.now }
{
    if passes.len() != callers {
        return false;
    }
    for k in 0..callers {
        if how_many(passes, k) != 1 {
            return false;
        }
    }
    true
}

/// Returns whether the calls of the pass are just those of its number in the history, in their order.
fn agrees(history: &[Recorded], pass: &Pass) -> bool
    ensures { IsTrue result → Agrees history.now pass.now }
{
    let mut next = 0;
    let calls = pass.calls();
    for call in history {
        if call.caller == pass.number() {
            if next >= calls.len() || !call.is(&calls[next]) {
                return false;
            }
            next += 1;
        }
    }
    next == calls.len()
}

/// Returns whether each pass agrees with the history.
pub(crate) fn all_agree(history: &[Recorded], passes: &[Pass]) -> bool
    ensures { IsTrue result → All (Agrees history.now) passes.now }
{
    passes.iter().all(|p| agrees(history, p))
}

/// Returns whether each call of the history is of one of the callers.
pub(crate) fn all_known(history: &[Recorded], callers: usize) -> bool
    ensures { IsTrue result ↔ All (IsOf callers) history.now }
{
    history.iter().all(|call| call.caller < callers)
}
