//! What a bundle says to people: who is exposed, why, under which directory, and how that is checked.

ghost use Rattle.std.specs.Prelude.{◌≡◌, ◌++◌, IfOk, decimal, string_bytes};
ghost use Rattle.hex.specs.Hex.{encode_lower};
ghost use Rattle.sha2.specs.Sha256.{sha256};
ghost use Rattle.bundling.specs.Handing.{advice, contradiction, heading, listing, no_log, reason, sentences_of, two_hashes};

use authenticators::NodeId;
use proofs::Parts;
use sha2::{Digest, Sha256};
use std::alloc::{AllocError, Global};

/// Returns a number in decimal digits.
pub(crate) fn decimal_of(alloc: Global, number: u64) -> Result<String, AllocError>
    ensures { IfOk result (λ word. string_bytes word ≡ decimal number) }
{
    format!(in alloc; "{number}")
}

/// Returns the sentence that says who is exposed, under which program.
fn heading_of(alloc: Global, node: NodeId, name: &[u8]) -> Result<Vec<u8>, AllocError>
    ensures { IfOk result (λ line. line.items ≡ heading node name.now) }
{
    let number = decimal_of(alloc, u64::from(node.0))?;
    let mut line = Vec::new(alloc);
    line.extend_from_slice(b"# Node ")?;
    line.extend_from_slice(number.as_bytes())?;
    line.extend_from_slice(b" is exposed, where it was to follow the program ")?;
    line.extend_from_slice(name)?;
    line.extend_from_slice(b".\n")?;
    Ok(line)
}

/// Returns the sentence that says that the node signed two hashes.
fn two_hashes_of(alloc: Global, seq: u64) -> Result<Vec<u8>, AllocError>
    ensures { IfOk result (λ line. line.items ≡ two_hashes seq) }
{
    let number = decimal_of(alloc, seq)?;
    let mut line = Vec::new(alloc);
    line.extend_from_slice(b"# It signed two hashes for entry ")?;
    line.extend_from_slice(number.as_bytes())?;
    line.extend_from_slice(b" of its log.\n")?;
    Ok(line)
}

/// Returns the sentence that says that the node signed a hash and a part of its log that contradict each other.
fn contradiction_of(alloc: Global, seq: u64) -> Result<Vec<u8>, AllocError>
    ensures { IfOk result (λ line. line.items ≡ contradiction seq) }
{
    let number = decimal_of(alloc, seq)?;
    let mut line = Vec::new(alloc);
    line.extend_from_slice(b"# The hash that it signed for entry ")?;
    line.extend_from_slice(number.as_bytes())?;
    line.extend_from_slice(b" of its log contradicts a part of the log that it signed too.\n")?;
    Ok(line)
}

/// Returns the sentence that says that the node signed a part of its log that no log of a node that follows the program has.
#[tactic(auto, unfolding(crate::specs::Handing::no_log))]
fn no_log_of(alloc: Global) -> Result<Vec<u8>, AllocError>
    ensures { IfOk result (λ line. line.items ≡ no_log) }
{
    let mut line = Vec::new(alloc);
    line.extend_from_slice(
        b"# It signed a part of its log that is of no log of a node which follows this program.\n",
    )?;
    Ok(line)
}

/// Returns why the node is exposed.
fn reason_of(alloc: Global, parts: &Parts) -> Result<Vec<u8>, AllocError>
    ensures { IfOk result (λ line. line.items ≡ reason parts.now) }
{
    match parts {
        Parts::TwoAuths(first, _) => two_hashes_of(alloc, first.seq),
        Parts::AuthSegment(auth, _) => contradiction_of(alloc, auth.seq),
        Parts::Nonconforming(_) => no_log_of(alloc),
    }
}

/// Returns the SHA-256 value of the bytes, in hexadecimal digits.
pub(crate) fn sum_of(bytes: &[u8]) -> [u8; 64]
    ensures { result ≡ encode_lower (sha256 bytes.now) }
{
    let mut sum = [0u8; 64];
    let Ok(()) = hex::encode_to_slice(Sha256::digest(bytes), &mut sum) else {
        unreachable!();
    };
    sum
}

/// Returns the sentence that has the SHA-256 value of the directory.
fn listing_of(alloc: Global, directory: &[u8]) -> Result<Vec<u8>, AllocError>
    ensures { IfOk result (λ line. line.items ≡ listing directory.now) }
{
    let sum = sum_of(directory);
    let mut line = Vec::new(alloc);
    line.extend_from_slice(b"# The directory of the nodes has the SHA-256 value ")?;
    line.extend_from_slice(&sum)?;
    line.extend_from_slice(b".\n")?;
    Ok(line)
}

/// Returns how the proof is checked.
#[tactic(auto, unfolding(crate::specs::Handing::advice))]
fn advice_of(alloc: Global) -> Result<Vec<u8>, AllocError>
    ensures { IfOk result (λ lines. lines.items ≡ advice) }
{
    let mut lines = Vec::new(alloc);
    lines.extend_from_slice(
        b"# Nothing in a line that begins with # is believed. Check the proof by one of these:\n#   bulwynef check FILE\n#   python3 check.py --why FILE\n# Each writes the node, the program and the directory. Compare the last two with what you got by another way than this file.\n",
    )?;
    Ok(lines)
}

/// Returns all sentences. Those of the caller stand last.
#[tactic(auto, unfolding(crate::specs::Handing::sentences_of))]
pub(crate) fn sentences(
    alloc: Global,
    node: NodeId,
    name: &[u8],
    directory: &[u8],
    parts: &Parts,
    more: &[u8],
) -> Result<Vec<u8>, AllocError>
    ensures { IfOk result (λ text. text.items ≡ sentences_of node name.now directory.now parts.now ++ more.now) }
{
    let heading = heading_of(alloc, node, name)?;
    let reason = reason_of(alloc, parts)?;
    let listing = listing_of(alloc, directory)?;
    let advice = advice_of(alloc)?;
    let mut text = Vec::new(alloc);
    text.extend_from_slice(&heading)?;
    text.extend_from_slice(&reason)?;
    text.extend_from_slice(&listing)?;
    text.extend_from_slice(&advice)?;
    text.extend_from_slice(more)?;
    Ok(text)
}
