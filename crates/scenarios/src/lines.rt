//! Lines and words.

ghost use Rattle.std.specs.Prelude.{◌≡◌, ◌==◌, ◌<◌, [], ◌∷◌, length, position, IfNone, IfSome, MatchOption};
ghost use Rattle.std.specs.List.{slice_split};
ghost use Rattle.scenarios.specs.Scenarios.{is_skipped, lines_of};
ghost use Rattle.scenarios.specs.within.Words.{AreWords};

/// The byte that ends a line.
const LINE_FEED: u8 = b'\n';

/// The byte that separates words.
const BLANK: u8 = b' ';

/// Returns the first place of the byte.
fn place_of(text: &[u8], at: u8) -> Option<usize>
    ensures { result ≡ position (λ byte. byte == at) text.now }
{
    text.iter().position(|byte| *byte == at)
}

/// Returns what stands before the first such byte, and what stands behind it. If there is no such byte, returns all and `None`.
fn cut(text: &[u8], at: u8) -> (&[u8], Option<&[u8]>)
    ensures parts { MatchOption result.1 (slice_split (λ byte. byte == at) text.now ≡ result.0.now ∷ []) (λ rest. slice_split (λ byte. byte == at) text.now ≡ result.0.now ∷ slice_split (λ byte. byte == at) rest.now) }
    ensures whole { IfNone result.1 (result.0.now ≡ text.now) }
    ensures shorter { IfSome result.1 (λ rest. length rest.now < length text.now) }
{
    match place_of(text, at) {
        Some(end) => (&text[..end], Some(&text[end + 1..])),
        None => (text, None),
    }
}

/// Returns the first line without its end, and the bytes after it. Returns `None` if there are no bytes.
pub(crate) fn first_line(text: &[u8]) -> Option<(&[u8], &[u8])>
    ensures line { MatchOption result (lines_of text.now ≡ []) (λ p. lines_of text.now ≡ p.0.now ∷ lines_of p.1.now) }
    ensures shorter { IfSome result (λ p. length p.1.now < length text.now) }
{
    if text.is_empty() {
        return None;
    }
    let (line, rest) = cut(text, LINE_FEED);
    match rest {
        Some(rest) => Some((line, rest)),
        None => Some((line, &[])),
    }
}

/// Returns how many lines there are.
pub(crate) fn line_count(text: &[u8]) -> usize
    ensures { result ≡ length (lines_of text.now) }
{
    let mut count = 0;
    let mut rest = text;
    while let Some((_, more)) = first_line(rest) {
        count += 1;
        rest = more;
    }
    count
}

/// Returns whether the line says nothing: it is empty, or begins with `#`.
pub(crate) fn is_skipped(line: &[u8]) -> bool
    ensures { result ≡ is_skipped line.now }
{
    match line {
        [] => true,
        [first, ..] => *first == b'#',
    }
}

/// The words of a line that has two or three.
#[derive(Clone, Copy, Debug)]
pub(crate) enum Words<'a> {
    /// Two words.
    Two(&'a [u8], &'a [u8]),
    /// Three words.
    Three(&'a [u8], &'a [u8], &'a [u8]),
}

/// Returns the words of the line if they are two or three, and otherwise `None`.
pub(crate) fn words_of(line: &[u8]) -> Option<Words<'_>>
    ensures { AreWords result line.now }
{
    let (verb, rest) = cut(line, BLANK);
    let rest = rest?;
    let (first, more) = cut(rest, BLANK);
    let Some(more) = more else {
        return Some(Words::Two(verb, first));
    };
    match cut(more, BLANK) {
        (second, None) => Some(Words::Three(verb, first, second)),
        (_, Some(_)) => None,
    }
}
