//! Texts and sentences, joined one behind the other.

ghost use Rattle.std.specs.Prelude.{◌≡◌, ◌++◌, ◌∷◌, [], List, IfOk, string_bytes};
ghost use Rattle.sentences.specs.declared.explanation.Sentence.{Sentence as TheSentence};

use outcome::Memory;
use sentences::{Lines, Sentence};
use std::alloc::{AllocError, Global};

/// Returns a text with another one behind it.
pub(crate) fn joined(front: String, rest: &String) -> Result<String, AllocError>
    ensures { IfOk result (λ text. string_bytes text ≡ string_bytes front ++ string_bytes rest.now) }
{
    let mut text = front;
    text.push_str(rest.as_str())?;
    Ok(text)
}

/// Returns a list of two sentences.
pub(crate) fn two(alloc: Global, first: Sentence, second: Sentence) -> Result<Vec<Sentence>, Memory>
    ensures { IfOk result (λ all. all.items ≡ first ∷ second ∷ []) }
{
    let mut all = Vec::new(alloc);
    all.push(first)?;
    all.push(second)?;
    Ok(all)
}

/// Returns a list of three sentences.
pub(crate) fn three(
    alloc: Global,
    first: Sentence,
    second: Sentence,
    third: Sentence,
) -> Result<Vec<Sentence>, Memory>
    ensures { IfOk result (λ all. all.items ≡ first ∷ second ∷ third ∷ []) }
{
    let mut all = Vec::new(alloc);
    all.push(first)?;
    all.push(second)?;
    all.push(third)?;
    Ok(all)
}

/// Returns the sentences with more behind them.
pub(crate) fn followed_by(first: Vec<Sentence>, more: Lines) -> Result<Vec<Sentence>, Memory>
    ensures { IfOk result (λ all. (rest : List TheSentence) × (all.items ≡ first.items ++ rest)) }
{
    let mut all = first;
    let mut rest = more.into_sentences();
    all.append(&mut rest)?;
    Ok(all)
}
