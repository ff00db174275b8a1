//! Laws about the definitions. Each is a function that does nothing: its contract is the law.

ghost use Rattle.operating.specs.Questions.{ExtractsAreTold, StandingsAreReports};

use evidence_set::laws::indications_are_one;
use localities::laws::{extracts_indicate, known_as_expected};
use shards::laws::quotes_are_as_expected;

/// States that `status`, in the style of lines, writes the report that the commands on lines of digits write.
pub fn standings_are_reports<S>()
    ensures { StandingsAreReports S }
{
    known_as_expected();
}

/// States that `status` says of a shard's own nodes the same under a shard of extracts and under all evidence.
pub fn extracts_are_told<S>()
    ensures { ExtractsAreTold S }
{
    indications_are_one::<S>();
    extracts_indicate::<S>();
    known_as_expected();
    quotes_are_as_expected();
}
