//! Numbers in decimal digits.

ghost use Rattle.std.specs.Prelude.{◌≡◌, IfOk, ◌≤◌};
ghost use Rattle.scenarios.specs.Instructions.{number_to};

use crate::fault::ScenarioFault;
use plain_numbers::value_of;

/// Returns the number of which the word is the decimal text, without leading zeros. Refuses other words, and numbers above `most`.
pub(crate) fn number_to(most: u64, word: &[u8]) -> Result<u64, ScenarioFault>
    ensures read { result ≡ number_to most word.now }
    ensures within { IfOk result (λ number. number ≤ most) }
{
    match value_of(word) {
        Some(number) if number <= most => Ok(number),
        _ => Err(ScenarioFault::BadScenario),
    }
}
