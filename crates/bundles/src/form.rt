//! What the lines of a text say, before any memory is taken.

ghost use Rattle.std.specs.Prelude.{◌≡◌, is_ok, true, ℕ, List, Ok, Err, MatchResult};
ghost use Rattle.hex.specs.Hex.{decode_of};
ghost use Rattle.bundles.specs.Grammar.{bytes_in, greets, line_at, lines_say, program_in};
ghost use Rattle.bundles.specs.declared.fault.BundleFault.TheVariants.{Memory};

use crate::fault::BundleFault;
use crate::fields::{is_first_line, program_in, spells_bytes};
use crate::lines::Lines;
use std::alloc::Global;
use std::marker::Model;

/// What the lines of a text say, with the digits as they stand. A contract sees the bundle.
#[derive(Debug, Drop)]
pub(crate) struct Form<'a> {
    pub(crate) sentences: &'a [u8],
    pub(crate) program: &'a [u8],
    directory: &'a [u8],
    proof: &'a [u8],
}

impl<'a> Model for Form<'a> {
    ghost use Rattle.std.specs.Prelude.{◌≡◌, true, is_ok, []};
    ghost use Rattle.std.specs.Result.{result_unwrap_or};
    ghost use Rattle.hex.specs.Hex.{decode_of};
    ghost use Rattle.bundles.specs.Spelling.{Contents};

    ghost Value = { Contents };

    ghost view = { λ f. record { sentences = f.sentences.now; program = f.program.now; directory = result_unwrap_or (decode_of f.directory.now) []; proof = result_unwrap_or (decode_of f.proof.now) [] } };

    ghost invariant = { λ f. (is_ok (decode_of f.directory.now) ≡ true) × (is_ok (decode_of f.proof.now) ≡ true) };
}

/// Returns the bytes that the digits stand for.
fn bytes_of(alloc: Global, digits: &[u8]) -> Result<Vec<u8>, BundleFault>
    requires { is_ok (decode_of digits.now) ≡ true }
    ensures { MatchResult result (λ bytes. decode_of digits.now ≡ Ok bytes.items) (λ f. f ≡ Memory) }
{
    match hex::decode(alloc, digits) {
        Ok(bytes) => Ok(bytes),
        Err(hex::FromHexError::OutOfMemory) => Err(BundleFault::Memory),
        Err(_) => unreachable!(),
    }
}

impl<'a> Form<'a> {
    /// Returns the bytes of the directory.
    pub(crate) fn directory(&self, alloc: Global) -> Result<Vec<u8>, BundleFault>
        ensures { MatchResult result (λ bytes. bytes.items ≡ self.now.directory) (λ f. f ≡ Memory) }
    {
        bytes_of(alloc, self.directory)
    }

    /// Returns the bytes of the proof.
    pub(crate) fn proof(&self, alloc: Global) -> Result<Vec<u8>, BundleFault>
        ensures { MatchResult result (λ bytes. bytes.items ≡ self.now.proof) (λ f. f ≡ Memory) }
    {
        bytes_of(alloc, self.proof)
    }
}

/// Returns the lines behind the first one.
fn greeted<'a>(at: &Lines<'a>) -> Result<Lines<'a>, BundleFault>
    ensures { MatchResult result (λ behind. line_at greets at.now ≡ Ok (tt, behind)) (λ f. line_at greets at.now ≡ Err f) }
{
    let Some((line, behind)) = at.next() else {
        return Err(at.refusal());
    };
    if !is_first_line(line) {
        return Err(at.refusal());
    }
    Ok(behind)
}

/// Returns the program's name, and the lines behind it.
fn program_at<'a>(at: &Lines<'a>) -> Result<(&'a [u8], Lines<'a>), BundleFault>
    ensures { MatchResult result (λ p. line_at program_in at.now ≡ Ok (p.0.now, p.1)) (λ f. line_at program_in at.now ≡ Err f) }
{
    let Some((line, behind)) = at.next() else {
        return Err(at.refusal());
    };
    match program_in(line) {
        Some(name) => Ok((name, behind)),
        None => Err(at.refusal()),
    }
}

/// Returns the digits of the next line, and the lines behind it.
fn digits_at<'a>(at: &Lines<'a>) -> Result<(&'a [u8], Lines<'a>), BundleFault>
    ensures { MatchResult result (λ p. (bytes : List ℕ) × (decode_of p.0.now ≡ Ok bytes) × (line_at bytes_in at.now ≡ Ok (bytes, p.1))) (λ f. line_at bytes_in at.now ≡ Err f) }
{
    let Some((line, behind)) = at.next() else {
        return Err(at.refusal());
    };
    if !spells_bytes(line) {
        return Err(at.refusal());
    }
    Ok((line, behind))
}

/// Returns what the lines of a text say, if none of them is refused. It takes no memory.
#[tactic(auto, unfolding(crate::specs::Grammar::lines_say))]
pub(crate) fn form_of(text: &[u8]) -> Result<Form<'_>, BundleFault>
    ensures { MatchResult result (λ form. lines_say text.now ≡ Ok form) (λ f. lines_say text.now ≡ Err f) }
{
    let first = greeted(&Lines::of(text))?;
    let (sentences, at) = first.sentences();
    let (program, at) = program_at(&at)?;
    let (directory, at) = digits_at(&at)?;
    let (proof, at) = digits_at(&at)?;
    at.end()?;
    Ok(Form {
        sentences,
        program,
        directory,
        proof,
    })
}
