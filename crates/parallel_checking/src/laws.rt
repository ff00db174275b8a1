//! Laws over the definitions. Each law is the contract of a function that does nothing.

ghost use Rattle.parallel_checking.specs.Again.{AgainAreAnswers};
ghost use Rattle.parallel_checking.specs.Checks.{AnswersAreOne};

use evidence_item::laws::{findings_are_one, verdicts_are_one};

/// Two checks of an item give one answer, unless memory ran out in one of them.
pub fn answers_are_one<S>()
    ensures { AnswersAreOne S }
{
    verdicts_are_one::<S>();
    findings_are_one();
}

/// If there was an answer for each item before, there is one after checking again.
pub fn again_are_answers<S>()
    ensures { AgainAreAnswers S }
{}
