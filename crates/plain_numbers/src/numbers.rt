//! The number that a word spells.

ghost use Rattle.std.specs.Prelude.{◌≡◌};
ghost use Rattle.plain_numbers.specs.Decimals.{IsRead};
ghost use Rattle.plain_numbers.specs.within.Plain.{is_plain};

use std::str;

/// Returns whether the word begins as a number is written: with a digit, which is no zero unless it is the whole word.
fn is_plain(word: &[u8]) -> bool
    ensures { result ≡ is_plain word.now }
{
    match word {
        [] => false,
        [digit] => digit.is_ascii_digit(),
        [digit, ..] => digit.is_ascii_digit() && *digit != b'0',
    }
}

/// Returns the number that the word spells, if it is one of 64 bits. Returns `None` for any other bytes, such as an empty word, a word
/// with a sign, a zero in front of other digits, or a number above 2^64 - 1.
pub fn value_of(word: &[u8]) -> Option<u64>
    ensures { IsRead result word.now }
{
    if !is_plain(word) {
        return None;
    }
    match str::from_utf8(word) {
        Ok(text) => text.parse().ok(),
        Err(_) => None,
    }
}
