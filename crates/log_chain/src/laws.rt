//! Laws over the definitions. Each is a function that does nothing: its contract is the law.

ghost use Rattle.outcome.specs.Bytes.{IsBytes};
ghost use Rattle.outcome.specs.Equality.{TellsEqual};
ghost use Rattle.log_chain.specs.Fields.{IsBytesOf};
ghost use Rattle.log_chain.specs.FieldLaws.{FieldsReadBack, SpelledPartsFit, WritesAsExpected};
ghost use Rattle.std.specs.Prelude.{ℕ, List};
ghost use Rattle.log_chain.specs.declared.entry.Entry.{Entry as EntryValue};
ghost use Rattle.log_chain.specs.ChainLaws.{ChainsGoOn, ChainsGrow, EntryTextsHaveOneReading, EqualListsEndAlike, HashesAreWhole, PartsRise, RisesByPairs, RisingListsGrow};

use crate::byte_string::ByteString;
use crate::entry::Entry;
use crate::entry_list::EntryList;
use crate::hash::Hash;

/// If a list is cut in two, the chain of the second part goes on from the end of the first.
pub fn chains_go_on()
    ensures { ChainsGoOn }
{}

/// With one entry more, the end of the chain is that entry's hash after the end before.
pub fn chains_grow()
    ensures { ChainsGrow }
{}

/// An entry's hash has 32 bytes. So has the end of a chain, if the hash before its first entry has. Each entry has one hash.
pub fn hashes_are_whole()
    ensures { HashesAreWhole }
{}

/// The chains of equal lists after equal hashes have equal ends.
pub fn equal_lists_end_alike()
    ensures { EqualListsEndAlike }
{}

/// The numbers of a list rise exactly if each is below every later one.
pub fn rises_by_pairs()
    ensures { RisesByPairs }
{}

/// If a list whose numbers rise is cut in two, the numbers of both parts rise.
pub fn parts_rise()
    ensures { PartsRise }
{}

/// Numbers that rise still rise with one entry more, if its number is above the last one.
pub fn rising_lists_grow()
    ensures { RisingListsGrow }
{}

/// What is written as a field is read as that field.
pub fn fields_read_back()
    ensures { FieldsReadBack }
{}

/// If the texts that are hashed for two entries are equal, so are the entries' numbers, kinds and content digests, and the hashes
/// before them. This needs hashes of 32 bytes and numbers below 2^64.
pub fn entry_texts_have_one_reading()
    ensures { EntryTextsHaveOneReading }
{}

/// `Writes` says that what a call writes comes after the old text, and nothing else. After a refusal the old text stays.
pub fn writes_as_expected<A, E>()
    ensures { WritesAsExpected A E }
{}

/// `IsBytesOf`, `IsBytesUpTo` and `IsListUpTo` hold exactly if each element fits, and the count is as they say.
pub fn spelled_parts_fit()
    ensures { SpelledPartsFit }
{}

/// `==` of two hashes is true exactly if their bytes are the same.
pub fn hashes_are_equal_by_bytes()
    ensures { TellsEqual (List ℕ) ⟦<Hash as PartialEq>⟧.eq }
{}

/// `==` of two byte strings is true exactly if their bytes are the same.
pub fn byte_strings_are_equal_by_bytes()
    ensures { TellsEqual (List ℕ) ⟦<ByteString as PartialEq>⟧.eq }
{}

/// `==` of two entries is true exactly if their numbers, kinds and contents are the same.
pub fn entries_are_equal_by_fields()
    ensures { TellsEqual EntryValue ⟦<Entry as PartialEq>⟧.eq }
{}

/// `==` of two lists is true exactly if they have the same entries in the same order.
pub fn entry_lists_are_equal_by_entries()
    ensures { TellsEqual (List EntryValue) ⟦<EntryList as PartialEq>⟧.eq }
{}

/// A hash has 32 bytes, each below 256. A proof needs this range of the type if it knows only a value behind a reference.
pub fn hash_fits(hash: Hash)
    ensures { IsBytesOf 32 hash }
{
    let _bytes = hash.0;
}

/// The bytes of a slice are below 256. A proof needs this range of the type if it knows only the slice.
pub fn bytes_fit(bytes: &[u8])
    ensures { IsBytes bytes.now }
{}
