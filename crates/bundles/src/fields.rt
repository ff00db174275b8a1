//! What a line says. No call here takes memory.

ghost use Rattle.std.specs.Prelude.{◌≡◌, IsTrue, MatchOption, Some, None, nat_eq};
ghost use Rattle.std.specs.List.{list_all, starts_with};
ghost use Rattle.std.specs.Str.{bytes_eq};
ghost use Rattle.hex.specs.Hex.{decode_of};
ghost use Rattle.bundles.specs.Grammar.{bytes_in, is_digit, program_in};
ghost use Rattle.bundles.specs.Spelling.{ended, first_line, is_name, is_name_character, is_printed, is_sentence, older_line};

/// Returns whether the byte is a character from a blank to `~`.
fn is_printed(byte: u8) -> bool
    ensures { result ≡ is_printed byte }
{
    32 <= byte && byte <= 126
}

/// Returns whether each byte is a character from a blank to `~`.
fn are_printed(text: &[u8]) -> bool
    ensures { result ≡ list_all is_printed text.now }
{
    text.iter().all(|byte| is_printed(*byte))
}

/// Returns whether the line is a sentence.
pub(crate) fn is_sentence(line: &[u8]) -> bool
    ensures { result ≡ is_sentence line.now }
{
    match line {
        [] => false,
        [first, rest @ ..] => *first == b'#' && are_printed(rest),
    }
}

/// Returns whether the byte may be in a program's name.
fn is_name_character(byte: u8) -> bool
    ensures { result ≡ is_name_character byte }
{
    (97 <= byte && byte <= 122) || (48 <= byte && byte <= 57) || byte == 95
}

/// Returns whether each byte may be in a program's name.
fn are_name_characters(text: &[u8]) -> bool
    ensures { result ≡ list_all is_name_character text.now }
{
    text.iter().all(|byte| is_name_character(*byte))
}

/// Returns whether the word is a program's name.
pub(crate) fn is_name(word: &[u8]) -> bool
    ensures { result ≡ is_name word.now }
{
    1 <= word.len() && word.len() <= 32 && are_name_characters(word)
}

/// Returns whether the byte is a hexadecimal digit, in lower case.
fn is_digit(byte: u8) -> bool
    ensures { result ≡ is_digit byte }
{
    (48 <= byte && byte <= 57) || (97 <= byte && byte <= 102)
}

/// Returns whether each byte is a hexadecimal digit, in lower case.
fn are_digits(text: &[u8]) -> bool
    ensures { result ≡ list_all is_digit text.now }
{
    text.iter().all(|byte| is_digit(*byte))
}

/// Returns whether the line is the first one of a bundle.
pub(crate) fn is_first_line(line: &[u8]) -> bool
    ensures { result ≡ bytes_eq line.now first_line }
{
    line == b"bulwynef bundle 2".as_slice()
}

/// Returns whether the text begins with the first line of format 1.
pub(crate) fn is_older(text: &[u8]) -> bool
    ensures { result ≡ starts_with nat_eq text.now (ended older_line) }
{
    text.starts_with(b"bulwynef bundle 1\n")
}

/// Reads the name in a line `program NAME`.
#[tactic(auto, unfolding(crate::specs::Grammar::program_in))]
pub(crate) fn program_in(line: &[u8]) -> Option<&[u8]>
    ensures { MatchOption result (program_in line.now ≡ None) (λ name. program_in line.now ≡ Some name.now) }
{
    let name = line.strip_prefix(b"program ")?;
    if is_name(name) { Some(name) } else { None }
}

/// Returns whether the line is digits, two for each byte.
pub(crate) fn spells_bytes(line: &[u8]) -> bool
    ensures { MatchOption (bytes_in line.now) (IsTrue result → ⊥) (λ bytes. IsTrue result × (decode_of line.now ≡ Ok bytes)) }
{
    line.len() % 2 == 0 && are_digits(line)
}
