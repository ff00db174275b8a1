//! Explanations, as texts for a person to read. A text says what the verdict is based on, and what it is. Contracts say of the sentences only
//! how those of an exposed node begin.

ghost use Rattle.std.specs.Prelude.{◌≡◌, ◌⊎◌, ◌++◌, IfErr, IfOk, OnOk, Err};
ghost use Rattle.sentences.specs.Texts.{text_of};
ghost use Rattle.byte_calls.specs.declared.refusal.Refusal.TheVariants.{Memory};
ghost use Rattle.byte_calls.specs.Checks.{Check};
ghost use Rattle.byte_calls.specs.Explanations.{TellsOfAll, TellsOfProof, basis_text, sum_of};

use crate::checking::read_proof;
use crate::refusal::Refusal;
use evidence::Evidence;
use explanations::{Explanation, PlainVoice, explain_proof, explain_store, text_of};
use replay_verifier::Program;
use sha2::{Digest, Sha256};
use std::alloc::{AllocError, Global};

/// Returns the SHA-256 of the bytes, in 64 lower-case hexadecimal digits.
pub fn sum_of(text: &[u8]) -> [u8; 64]
    ensures { result ≡ sum_of text.now }
{
    let mut sum = [0u8; 64];
    let Ok(()) = hex::encode_to_slice(Sha256::digest(text), &mut sum) else {
        unreachable!();
    };
    sum
}

/// Writes what a verdict is based on: the program's name and the sum of the directory's encoding, in a line each.
fn put_basis(text: &mut Vec<u8>, name: &str, directory: &[u8; 64]) -> Result<(), AllocError>
    ensures { OnOk result (text.new.items ≡ text.old.items ++ basis_text name.now directory.now) }
{
    text.extend_from_slice(b"program ")?;
    text.extend_from_slice(name.as_bytes())?;
    text.extend_from_slice(b"\ndirectory ")?;
    text.extend_from_slice(directory)?;
    text.extend_from_slice(b"\n")
}

/// Returns these two lines, and the text of an explanation after them.
fn text_under_basis(
    alloc: Global,
    name: &str,
    directory: &[u8; 64],
    explanation: &Explanation,
) -> Result<Vec<u8>, AllocError>
    ensures { IfOk result (λ text. text.items ≡ basis_text name.now directory.now ++ text_of explanation.now) }
{
    let mut text = Vec::new(alloc);
    put_basis(&mut text, name, directory)?;
    let told = text_of(alloc, explanation)?;
    text.extend_from_slice(&told)?;
    Ok(text)
}

/// Returns a text that says what the items say of each node that the directory lists, and why. Two lines come first: `program NAME` and
/// `directory SUM`. The caller gives the program's name, and the sum of the directory's encoding in digits. It refuses with `Memory` (99) alone.
pub fn store<P: Program, S: Evidence<P>>(
    alloc: Global,
    program: &P,
    name: &str,
    directory: &[u8; 64],
    store: &S,
) -> Result<Vec<u8>, Refusal>
    ensures told { IfOk result (λ text. TellsOfAll P.means name.now directory.now (S.contents store.now) text.items) }
    ensures refused { IfErr result (λ f. f ≡ Memory) }
{
    let explanation = explain_store::<P, S, PlainVoice>(alloc, program, &PlainVoice, store)?;
    let text = text_under_basis(alloc, name, directory, &explanation)?;
    Ok(text)
}

/// Returns a text that says whom a proof convicts, and why. Two lines come first: `program NAME` and `directory SUM`. The caller gives the
/// program's name. The sum is the SHA-256 of the directory's encoding. The directory and the proof are given by their encodings. It refuses as
/// [`check_proof`](crate::check_proof) does.
pub fn proof<P: Program>(
    alloc: Global,
    program: &P,
    name: &str,
    directory: &[u8],
    proof: &[u8],
) -> Result<Vec<u8>, Refusal>
    ensures told { IfOk result (λ text. TellsOfProof P.means name.now directory.now proof.now text.items) }
    ensures refused { IfErr result (λ f. (f ≡ Memory) ⊎ Check P.means directory.now proof.now (Err f)) }
{
    let (read, parts) = read_proof(alloc, directory, proof)?;
    let conviction = explain_proof(alloc, program, &PlainVoice, &read, &parts)?;
    let text = text_under_basis(alloc, name, &sum_of(directory), &conviction.explanation)?;
    Ok(text)
}
