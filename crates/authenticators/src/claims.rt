//! Many statements, whose signatures are verified together.

ghost use Rattle.std.specs.Prelude.{◌≡◌, ◌++◌, Bool, IfOk, List, length, map};
ghost use Rattle.std.specs.List.{flat_map};
ghost use Rattle.lms_sign.specs.SignedMessages.{is_signed as is_signed_message};
ghost use Rattle.authenticators.specs.Directory.{keys_at};
ghost use Rattle.authenticators.specs.SignatureText.{split_signature};
ghost use Rattle.authenticators.specs.Statement.{is_claim_signed, statement_text, verifies_as};
ghost use Rattle.authenticators.specs.within.Resolved.{signed_in, stands};

use crate::authenticator::statement_text;
use crate::directory::Directory;
use crate::node::NodeId;
use crate::signature::split_signature;
use lms_sign::{Signed, verify_all};
use log_chain::Hash;
use std::alloc::{AllocError, Global};

// Its fields are plain numbers and bytes: a struct that has a reference beside a struct with a `Model` is not moved into a list.
/// A claim that a node signed a number and a hash, with what is said to be the signature text. The text is borrowed.
#[derive(Clone, Copy)]
pub struct Claim<'a> {
    node: u32,
    seq: u64,
    hash: [u8; 32],
    sig: &'a [u8],
}

impl<'a> Claim<'a> {
    /// Makes the claim that the node signed the number and the hash with this signature text.
    pub fn new(node: NodeId, seq: u64, hash: Hash, sig: &'a [u8]) -> Claim<'a>
        ensures statement { (result.node ≡ node) × (result.seq ≡ seq) × (result.hash ≡ hash) }
        ensures signature { result.sig.now ≡ sig.now }
    {
        let hash = hash.0;
        Claim {
            node: node.0,
            seq,
            hash,
            sig,
        }
    }

    /// Returns the hash that is claimed to be signed.
    pub fn hash(&self) -> Hash
        ensures { result ≡ self.now.hash }
    {
        Hash(self.hash)
    }

    /// Returns whether the claim is signed, as [`Directory::verifies`] does.
    pub fn is_signed(&self, directory: &Directory) -> bool
        ensures { result ≡ is_claim_signed directory.now self.now }
    {
        directory.verifies(NodeId(self.node), self.seq, Hash(self.hash), self.sig)
    }
}

/// Returns the bytes that each claim says are signed.
fn texts_of(alloc: Global, claims: &[Claim]) -> Result<Vec<[u8; 40]>, AllocError>
    ensures { IfOk result (λ texts. texts.items ≡ map (λ c. statement_text c.seq c.hash) claims.now) }
{
    let mut texts = Vec::with_capacity(alloc, claims.len())?;
    for claim in claims {
        texts.push(statement_text(claim.seq, Hash(claim.hash)))?;
    }
    Ok(texts)
}

/// Returns the claim's bytes and signature, with the key that the signature text names, if there is such a key.
fn resolve<'a>(
    directory: &'a Directory,
    node: NodeId,
    text: &'a [u8; 40],
    sig: &'a [u8],
) -> Option<Signed<'a>>
    ensures { stands result ≡ verifies_as (keys_at directory.now node) text.now (split_signature sig.now) }
{
    let Some((number, signature)) = split_signature(sig) else {
        return None;
    };
    match directory.key(node, number) {
        None => None,
        Some(key) => Some(Signed {
            key,
            message: text,
            signature,
        }),
    }
}

/// Returns the same of each claim.
fn resolve_all<'a>(
    alloc: Global,
    directory: &'a Directory,
    claims: &'a [Claim],
    texts: &'a [[u8; 40]],
) -> Result<Vec<Option<Signed<'a>>>, AllocError>
    requires { texts.now ≡ map (λ c. statement_text c.seq c.hash) claims.now }
    ensures { IfOk result (λ all. map stands all.items ≡ map (is_claim_signed directory.now) claims.now) }
{
    let mut all = Vec::with_capacity(alloc, claims.len())?;
    for k in 0..claims.len() {
        let claim = &claims[k];
        all.push(resolve(directory, NodeId(claim.node), &texts[k], claim.sig))?;
    }
    Ok(all)
}

/// Returns those that are there, in order.
fn signed_in<'a>(alloc: Global, all: &[Option<Signed<'a>>]) -> Result<Vec<Signed<'a>>, AllocError>
    ensures { IfOk result (λ signed. signed.items ≡ flat_map signed_in all.now) }
{
    let mut signed = Vec::with_capacity(alloc, all.len())?;
    for one in all {
        if let Some(one) = one {
            signed.push(*one)?;
        }
    }
    Ok(signed)
}

/// Returns an answer for each: the next of `verified` for one that is there, and false for one that is not.
fn spread(alloc: Global, all: &[Option<Signed>], verified: &[bool]) -> Result<Vec<bool>, AllocError>
    requires { verified.now ≡ map is_signed_message (flat_map signed_in all.now) }
    ensures { IfOk result (λ answers. answers.items ≡ map stands all.now) }
{
    let mut answers = Vec::with_capacity(alloc, all.len())?;
    let mut at = 0;
    for k in 0..all.len() {
        if all[k].is_some() {
            answers.push(verified[at])?;
            at += 1;
        } else {
            answers.push(false)?;
        }
    }
    Ok(answers)
}

impl Directory {
    /// Returns whether each claim is signed, as [`Directory::verifies`] does, in the list's order. The error says that memory ran out.
    ///
    /// Claims next to each other are verified faster, eight at a time, if their keys have one type of one-time signature. It takes
    /// some 68 KB of memory, and some 200 bytes more for each claim.
    pub fn verifies_all(&self, alloc: Global, claims: &[Claim]) -> Result<Vec<bool>, AllocError>
        ensures { IfOk result (λ answers. answers.items ≡ map (is_claim_signed self.now) claims.now) }
    {
        let texts = texts_of(alloc, claims)?;
        let all = resolve_all(alloc, self, claims, &texts)?;
        let signed = signed_in(alloc, &all)?;
        let verified = verify_all(alloc, &signed)?;
        let answers = spread(alloc, &all, &verified)?;
        Ok(answers)
    }
}
