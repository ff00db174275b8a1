//! Laws over the definitions. Each is a function that does nothing: its contract is the law.

ghost use Rattle.further_keys.specs.FurtherKeys.{FurtherKeysKeepStatements, KeysAreAddedBehind};
ghost use Rattle.further_keys.specs.Keeping.{FurtherKeysKeepExposures, FurtherKeysKeepItems, FurtherKeysKeepProofs, FurtherKeysKeepVerdicts};

use replay_verifier::laws::{
    conforming_lists_are_proper, conforming_lists_begin, conforming_lists_rise,
    deviating_lists_do_not_conform, prefixes_conform, the_test_is_genuine,
};

/// A key that is added to a directory comes after the other keys of its node, and changes no other key.
pub fn keys_are_added_behind()
    ensures { KeysAreAddedBehind }
{}

/// With further keys, the same nodes are listed, each key keeps its number, and what was signed is signed.
pub fn further_keys_keep_statements()
    ensures { FurtherKeysKeepStatements }
{}

/// An item that is valid stays valid with further keys.
pub fn further_keys_keep_items()
    ensures { FurtherKeysKeepItems }
{}

/// What conforms still conforms with further keys. What deviates still deviates, at the same entry and for the same reason,
/// with one exception. If the entry is a RECV entry whose quote was not genuine, it may be genuine with the further keys.
pub fn further_keys_keep_verdicts<S>()
    ensures { FurtherKeysKeepVerdicts S }
{
    the_test_is_genuine();
    conforming_lists_rise::<S>();
    conforming_lists_begin::<S>();
    conforming_lists_are_proper::<S>();
    prefixes_conform::<S>();
}

/// A proof of two statements, or of a statement and a segment, still convicts with further keys. So does a proof of a segment
/// that deviates, with the exception of an entry whose quote becomes genuine.
pub fn further_keys_keep_proofs<S>()
    ensures { FurtherKeysKeepProofs S }
{
    the_test_is_genuine();
    conforming_lists_rise::<S>();
    conforming_lists_begin::<S>();
    conforming_lists_are_proper::<S>();
    prefixes_conform::<S>();
    deviating_lists_do_not_conform::<S>();
}

/// If two statements expose a node, or a statement and a segment, they still expose it with further keys. A segment that does
/// not conform with further keys did not conform before.
pub fn further_keys_keep_exposures<S>()
    ensures { FurtherKeysKeepExposures S }
{}
