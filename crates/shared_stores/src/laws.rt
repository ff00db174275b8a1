//! Laws over the definitions. Each law is the contract of a function that does nothing.

ghost use Rattle.shared_stores.specs.HistoryLaws.{HistoriesAsExpected, OwnCallsAreSeen, OwnSetsGrow, PassesShareHistories};

use evidence_set::laws::{indications_are_one, joins_are_least_upper_bounds, sets_are_as_expected};

/// A call has one reply at a set, a history leads to one set, and what is put in stays there.
pub fn histories_are_as_expected<S>()
    ensures { HistoriesAsExpected S }
{
    indications_are_one::<S>();
    sets_are_as_expected();
    joins_are_least_upper_bounds();
}

/// Each reply to a caller is given at one set. That set has all that the caller's own earlier calls put in or were shown.
pub fn own_calls_are_seen<S>()
    ensures { OwnCallsAreSeen S }
{
    histories_are_as_expected::<S>();
}

/// The set at which a caller's call is answered, and what the call put in, are within the set at which each later call of that caller is
/// answered.
pub fn own_sets_grow<S>()
    ensures { OwnSetsGrow S }
{
    histories_are_as_expected::<S>();
}

/// Passes begin in agreement with an empty history. If passes and history agree, the calls of the passes are the history's, and as many.
pub fn passes_share_histories()
    ensures { PassesShareHistories }
{}
