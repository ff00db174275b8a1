//! A basis says under what a verdict is given: the program, the directory and the evidence.

ghost use Rattle.std.specs.Prelude.{◌≡◌, ◌++◌, ◌∷◌, IfOk, OnOk, string_bytes};
ghost use Rattle.hex.specs.Hex.{encode_lower};
ghost use Rattle.sha2.specs.Sha256.{sha256};
ghost use Rattle.sentences.specs.Bases.{basis_text, digest_label, digest_line, groups, input_name, program_line};

use crate::site::Input;
use log_chain::Hash;
use sha2::{Digest, Sha256};
use std::alloc::{AllocError, Global};

/// What a verdict is given under. Under another program or another directory, the same bytes may have another verdict.
#[derive(Debug, Drop)]
pub struct Basis {
    /// The name of the program that the nodes must follow.
    pub program: String,
    /// The SHA-256 of the directory's encoding.
    pub directory: Hash,
    /// What was judged.
    pub input: Input,
    /// The SHA-256 of its encoding.
    pub evidence: Hash,
}

/// Returns the SHA-256 of a text.
fn digest_of(text: &[u8]) -> Hash
    ensures { result ≡ sha256 text.now }
{
    Hash(Sha256::digest(text))
}

impl Basis {
    /// Returns the basis of a verdict. `program` is the name of the program that the nodes must follow. `directory` and `evidence` are the
    /// encodings of the directory and of what was judged. The basis keeps only their SHA-256 values.
    pub fn of(
        alloc: Global,
        program: &str,
        directory: &[u8],
        input: Input,
        evidence: &[u8],
    ) -> Result<Basis, AllocError>
        ensures program { IfOk result (λ basis. string_bytes basis.program ≡ program.now) }
        ensures directory { IfOk result (λ basis. basis.directory ≡ sha256 directory.now) }
        ensures evidence { IfOk result (λ basis. basis.evidence ≡ sha256 evidence.now) }
        ensures input { IfOk result (λ basis. basis.input ≡ input) }
    {
        Ok(Basis {
            program: String::from_str(alloc, program)?,
            directory: digest_of(directory),
            input,
            evidence: digest_of(evidence),
        })
    }
}

/// Writes bytes in hexadecimal digits, after a blank.
fn put_group(alloc: Global, text: &mut Vec<u8>, bytes: &[u8]) -> Result<(), AllocError>
    ensures { OnOk result (text.new.items ≡ text.old.items ++ 32 ∷ encode_lower bytes.now) }
{
    let digits = hex::encode(alloc, bytes)?;
    text.extend_from_slice(b" ")?;
    text.extend_from_slice(digits.as_bytes())
}

/// Writes bytes in groups of four hexadecimal digits, each group after a blank. A byte that is left over is not written.
fn put_groups(alloc: Global, text: &mut Vec<u8>, bytes: &[u8]) -> Result<(), AllocError>
    ensures { OnOk result (text.new.items ≡ text.old.items ++ groups bytes.now) }
{
    let mut left = bytes;
    while left.len() >= 2 {
        let (pair, rest) = left.split_at(2);
        put_group(alloc, text, pair)?;
        left = rest;
    }
    Ok(())
}

/// Returns a hash as a person reads it out: sixteen groups of four hexadecimal digits, each after a blank, such as ` ec73 934f 8067 ..`.
pub fn groups_of(alloc: Global, hash: &Hash) -> Result<Vec<u8>, AllocError>
    ensures { IfOk result (λ text. text.items ≡ groups hash.now) }
{
    let mut text = Vec::new(alloc);
    put_groups(alloc, &mut text, &hash.0)?;
    Ok(text)
}

impl Input {
    /// Returns the name of the input: `store`, `union of the stores` or `proof`.
    pub(crate) fn name(self) -> &'static str
        ensures { result.now ≡ input_name self }
    {
        match self {
            Input::Store => "store",
            Input::Union => "union of the stores",
            Input::Proof => "proof",
        }
    }
}

/// Writes what stands before a digest: the name of what has the digest.
fn put_label(text: &mut Vec<u8>, name: &str) -> Result<(), AllocError>
    ensures { OnOk result (text.new.items ≡ text.old.items ++ digest_label name.now) }
{
    text.extend_from_slice(b"SHA-256 of the ")?;
    text.extend_from_slice(name.as_bytes())?;
    text.extend_from_slice(b":")
}

/// Writes the line of a digest, after the name of what has it.
pub(crate) fn put_digest(
    alloc: Global,
    text: &mut Vec<u8>,
    name: &str,
    hash: &Hash,
) -> Result<(), AllocError>
    ensures { OnOk result (text.new.items ≡ text.old.items ++ digest_line name.now hash.now) }
{
    put_label(text, name)?;
    put_groups(alloc, text, &hash.0)?;
    text.extend_from_slice(b"\n")?;
    Ok(())
}

/// Writes the line of the program.
fn put_program(text: &mut Vec<u8>, program: &str) -> Result<(), AllocError>
    ensures { OnOk result (text.new.items ≡ text.old.items ++ program_line program.now) }
{
    text.extend_from_slice(b"Program: ")?;
    text.extend_from_slice(program.as_bytes())?;
    text.extend_from_slice(b"\n")
}

/// Writes three lines: the program, and the SHA-256 of the directory and of what was judged.
pub(crate) fn put_basis(alloc: Global, text: &mut Vec<u8>, basis: &Basis) -> Result<(), AllocError>
    ensures { OnOk result (text.new.items ≡ text.old.items ++ basis_text basis.now) }
{
    put_program(text, basis.program.as_str())?;
    put_digest(alloc, text, "directory", &basis.directory)?;
    put_digest(alloc, text, basis.input.name(), &basis.evidence)?;
    Ok(())
}
