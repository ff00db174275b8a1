//! Lines, one after the other.

ghost use Rattle.std.specs.Prelude.{◌≡◌, ◌<◌, ◌≤◌, ◌+◌, ◌++◌, ◌==◌, ℕ, [], ◌∷◌, length, position, IfSome, MatchOption};
ghost use Rattle.bundles.specs.Grammar.{Reached, beginning, lines_of, nothing_left, sentences_from};
ghost use Rattle.bundles.specs.within.Cursors.{IsBehindSentence, IsLine, IsNext};
ghost use Rattle.bundles.specs.declared.fault.BundleFault.TheVariants.{BadBundle};

use crate::fault::BundleFault;
use crate::fields::is_sentence;
use std::marker::Model;

/// The byte that ends a line.
const LINE_FEED: u8 = b'\n';

/// Returns the place of the first line feed.
fn place_of_end(text: &[u8]) -> Option<usize>
    ensures { result ≡ position (λ byte. byte == 10) text.now }
{
    text.iter().position(|byte| *byte == LINE_FEED)
}

/// Returns the first line, and what stands behind its end. Returns `None` if no line feed ends it.
fn first_line(text: &[u8]) -> Option<(&[u8], &[u8])>
    ensures line { MatchOption result (lines_of text.now ≡ text.now ∷ []) (λ p. IsLine text.now p.0.now p.1.now) }
    ensures shorter { IfSome result (λ p. length p.1.now < length text.now) }
{
    match place_of_end(text) {
        Some(end) => Some((&text[..end], &text[end + 1..])),
        None => None,
    }
}

/// Returns what stands behind the first line, if that is a sentence, and otherwise `None`.
fn behind_sentence(text: &[u8]) -> Option<&[u8]>
    ensures sentence { MatchOption result ((n : ℕ) → sentences_from n (lines_of text.now) ≡ ([], record { number = n; left = lines_of text.now })) (λ rest. IsBehindSentence text.now rest.now) }
    ensures shorter { IfSome result (λ rest. length rest.now < length text.now) }
{
    let Some((line, rest)) = first_line(text) else {
        return None;
    };
    if !is_sentence(line) {
        return None;
    }
    Some(rest)
}

/// Returns the sentences as they stand at the front, what stands behind them, and how many there are.
pub(crate) fn sentences_of(text: &[u8]) -> (&[u8], &[u8], usize)
    ensures sentences { (n : ℕ) → sentences_from n (lines_of text.now) ≡ (result.0.now, record { number = n + result.2; left = lines_of result.1.now }) }
    ensures whole { text.now ≡ result.0.now ++ result.1.now }
    ensures within { result.2 + length result.1.now ≤ length text.now }
{
    let mut count = 0;
    let mut rest = text;
    while let Some(more) = behind_sentence(rest) {
        count += 1;
        rest = more;
    }
    (&text[..text.len() - rest.len()], rest, count)
}

/// The lines that are left, and the number of the first of them. A contract sees the place.
#[derive(Debug, Drop)]
pub(crate) struct Lines<'a> {
    rest: &'a [u8],
    number: usize,
}

impl<'a> Model for Lines<'a> {
    ghost use Rattle.std.specs.Prelude.{◌+◌, ◌<◌, ◌^◌, length};
    ghost use Rattle.bundles.specs.Grammar.{Reached, lines_of};

    ghost Value = { Reached };

    ghost view = { λ l. record { number = l.number; left = lines_of l.rest.now } };

    ghost invariant = { λ l. l.number + length l.rest.now < 2 ^ 64 };
}

impl<'a> Lines<'a> {
    /// Returns all lines of a text.
    pub(crate) fn of(text: &'a [u8]) -> Lines<'a>
        ensures { result ≡ beginning text.now }
    {
        Lines {
            rest: text,
            number: 1,
        }
    }

    /// Returns the number of the next line.
    pub(crate) fn number(&self) -> usize
        ensures { result ≡ self.now.number }
    {
        self.number
    }

    /// Returns the refusal of the next line.
    pub(crate) fn refusal(&self) -> BundleFault
        ensures { result ≡ BadBundle self.now.number }
    {
        BundleFault::BadBundle(self.number)
    }

    /// Returns the next line, and the lines behind it. Returns `None` if no line feed ends it.
    pub(crate) fn next(&self) -> Option<(&'a [u8], Lines<'a>)>
        ensures { MatchOption result (length self.now.left ≤ 1) (λ p. IsNext self.now p.0.now p.1) }
    {
        match first_line(self.rest) {
            Some((line, rest)) => Some((
                line,
                Lines {
                    rest,
                    number: self.number + 1,
                },
            )),
            None => None,
        }
    }

    /// Returns the sentences as they stand, and the lines behind them.
    pub(crate) fn sentences(&self) -> (&'a [u8], Lines<'a>)
        ensures { sentences_from self.now.number self.now.left ≡ (result.0.now, result.1) }
    {
        let (sentences, rest, count) = sentences_of(self.rest);
        (
            sentences,
            Lines {
                rest,
                number: self.number + count,
            },
        )
    }

    /// Refuses what is left, if anything is.
    pub(crate) fn end(&self) -> Result<(), BundleFault>
        ensures { result ≡ nothing_left self.now.number self.now.left }
    {
        if self.rest.is_empty() {
            Ok(())
        } else {
            Err(self.refusal())
        }
    }
}
