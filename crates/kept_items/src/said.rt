//! Statements, lent from where they lie.

ghost use Rattle.std.specs.Prelude.{◌≡◌};
ghost use Rattle.std.specs.Cmp.Lexicographic.{slice_cmp};
ghost use Rattle.std.specs.Ordering.{nat_cmp, ordering_then};
ghost use Rattle.authenticators.specs.StatementSet.{by_fields};
ghost use Rattle.kept_items.specs.Positions.{shown};

use authenticators::NodeId;
use log_chain::Hash;
use std::cmp::Ordering;

/// A statement whose signature is lent from the item in which it stands.
#[derive(Clone, Copy, Debug)]
pub struct Said<'a> {
    /// The node whose log the statement is about.
    pub node: NodeId,
    /// The entry's number.
    pub seq: u64,
    /// The entry's hash.
    pub hash: Hash,
    /// The node's signature on the number and the hash.
    pub sig: &'a [u8],
}

fn compare_hashes(a: Hash, b: Hash) -> Ordering
    ensures { result ≡ slice_cmp nat_cmp a b }
{
    a.0.as_slice().cmp(b.0.as_slice())
}

fn compare_texts(a: &[u8], b: &[u8]) -> Ordering
    ensures { result ≡ slice_cmp nat_cmp a.now b.now }
{
    a.cmp(b)
}

/// Compares by hash, and then by signature.
fn compare_ends(a: &Said<'_>, b: &Said<'_>) -> Ordering
    ensures { result ≡ ordering_then (slice_cmp nat_cmp a.now.hash b.now.hash) (slice_cmp nat_cmp a.now.sig.now b.now.sig.now) }
{
    compare_hashes(a.hash, b.hash).then_with(|| compare_texts(a.sig, b.sig))
}

/// Compares by number, and then by hash and signature.
fn compare_numbers(a: &Said<'_>, b: &Said<'_>) -> Ordering
    ensures { result ≡ ordering_then (nat_cmp a.now.seq b.now.seq) (ordering_then (slice_cmp nat_cmp a.now.hash b.now.hash) (slice_cmp nat_cmp a.now.sig.now b.now.sig.now)) }
{
    match a.seq.cmp(&b.seq) {
        Ordering::Less => Ordering::Less,
        Ordering::Equal => compare_ends(a, b),
        Ordering::Greater => Ordering::Greater,
    }
}

/// Compares two statements by node, number, hash and signature.
pub fn compare_said(a: &Said<'_>, b: &Said<'_>) -> Ordering
    ensures { result ≡ by_fields (shown a.now) (shown b.now) }
{
    match a.node.0.cmp(&b.node.0) {
        Ordering::Less => Ordering::Less,
        Ordering::Equal => compare_numbers(a, b),
        Ordering::Greater => Ordering::Greater,
    }
}
