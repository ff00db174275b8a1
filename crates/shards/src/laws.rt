//! Laws over the definitions. Each is a function that does nothing. Its contract is the law.

ghost use Rattle.shards.specs.Extracts.{QuotesAsExpected, QuotesIndicate};

use authenticators::laws::keys_sign;
use evidence_set::laws::{
    held_statements_are_signed, joins_are_as_expected, joins_are_least_upper_bounds,
    sets_are_as_expected,
};
use localities::laws::{extracts_indicate, parts_are_as_expected};
use replay_verifier::laws::receipts_have_one_text;

/// Suppose that what segments quote of nodes of other shards stands beside them. Then the shards by the nodes that fields name are extracts
/// for their nodes. So are the shards of joins.
pub fn quotes_are_as_expected()
    ensures { QuotesAsExpected }
{
    parts_are_as_expected();
    sets_are_as_expected();
    joins_are_as_expected();
    joins_are_least_upper_bounds();
    held_statements_are_signed();
    receipts_have_one_text();
    keys_sign();
}

/// Each of these shards gives its nodes the indications that the whole set gives them.
pub fn quotes_indicate<S>()
    ensures { QuotesIndicate S }
{
    quotes_are_as_expected();
    extracts_indicate::<S>();
}
