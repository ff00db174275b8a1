//! The buckets of digests that ascend, and their digests.

ghost use Rattle.std.specs.Prelude.{◌≡◌, ◌≤◌, ◌==◌, [], IfOk, None, Some, drop, if◌then◌else◌, is_none, length, map, slice_index_or, take};
ghost use Rattle.sha2.specs.Sha256.{sha256};
ghost use Rattle.std.specs.Str.{bytes_eq};
ghost use Rattle.log_chain.specs.Fields.{IsBytesOf};
ghost use Rattle.transfer.specs.Digests.{AreDigests, IsOutline, buckets, first_byte, in_bucket, joined};
ghost use Rattle.transfer.specs.Summaries.{listed_beside};
ghost use Rattle.transfer.specs.SummaryTexts.{keeps_some};
ghost use Rattle.transfer.specs.within.Runs.{after_run, run_of};

use log_chain::Hash;
use log_chain::laws::hash_fits;
use outcome::Memory;
use sha2::{Digest, Sha256};
use std::alloc::Global;

/// Returns whether the digest stands in the bucket.
pub(crate) fn stands_in(digest: &Hash, bucket: u16) -> bool
    ensures { result ≡ (first_byte digest.now == bucket) }
{
    u16::from(digest.0[0]) == bucket
}

/// Returns how many digests in front stand in the bucket.
pub(crate) fn run_length(digests: &[Hash], bucket: u16) -> usize
    ensures inside { result ≤ length digests.now }
    ensures run { take result digests.now ≡ run_of bucket digests.now }
    ensures after { drop result digests.now ≡ after_run bucket digests.now }
{
    for (n, digest) in digests.iter().enumerate() {
        if !stands_in(digest, bucket) {
            return n;
        }
    }
    digests.len()
}

/// Returns the digest of the digests of a bucket, joined.
fn digest_of_run(digests: &[Hash]) -> Hash
    ensures digest { result ≡ sha256 (joined digests.now) }
    ensures fits { IsBytesOf 32 result }
{
    let mut hasher = Sha256::new();
    for digest in digests {
        hasher.update(&digest.0);
    }
    let digest = Hash(hasher.finalize());
    hash_fits(digest);
    digest
}

/// Returns the digest of each bucket. It takes one pass over digests that ascend, since each bucket is a run of them.
pub(crate) fn digests_of_buckets(alloc: Global, digests: &[Hash]) -> Result<Vec<Hash>, Memory>
    requires { AreDigests digests.now }
    ensures each { IfOk result (λ found. found.items ≡ map (λ b. sha256 (joined (in_bucket b digests.now))) buckets) }
    ensures outline { IfOk result (λ found. IsOutline found.items) }
{
    let mut found = Vec::new(alloc);
    let mut rest = digests;
    for bucket in 0..256u16 {
        let count = run_length(rest, bucket);
        let (run, after) = rest.split_at(count);
        found.push(digest_of_run(run))?;
        rest = after;
    }
    Ok(found)
}

/// Returns that nothing is kept of any bucket.
pub(crate) fn nothing_kept(alloc: Global) -> Result<Vec<Option<Hash>>, Memory>
    ensures { IfOk result (λ kept. kept.items ≡ map (λ b. None) buckets) }
{
    let mut kept = Vec::new(alloc);
    for _bucket in 0..256u16 {
        kept.push(None)?;
    }
    Ok(kept)
}

/// Returns whether the digest of some bucket is kept.
pub(crate) fn keeps_some(kept: &[Option<Hash>]) -> bool
    ensures { result ≡ keeps_some kept.now }
{
    kept.iter().any(|k| k.is_some())
}

/// Returns the digest, if the outline has the same.
fn kept_of(own: Hash, told: Hash) -> Option<Hash>
    ensures { result ≡ if bytes_eq told own then Some own else None }
{
    if told == own { Some(own) } else { None }
}

/// Returns the digest of each bucket, if the outline has the same.
pub(crate) fn kept_where_same(
    alloc: Global,
    own: &[Hash],
    told: &[Hash],
) -> Result<Vec<Option<Hash>>, Memory>
    requires own { length own.now ≡ 256 }
    requires told { length told.now ≡ 256 }
    ensures { IfOk result (λ kept. kept.items ≡ map (λ b. if bytes_eq (slice_index_or told.now b []) (slice_index_or own.now b []) then Some (slice_index_or own.now b []) else None) buckets) }
{
    let mut kept = Vec::new(alloc);
    for bucket in 0..256u16 {
        let place = usize::from(bucket);
        kept.push(kept_of(own[place], told[place]))?;
    }
    Ok(kept)
}

/// Returns whether the bucket of the digest is listed.
fn is_beside(kept: &[Option<Hash>], digest: &Hash) -> bool
    ensures { result ≡ is_none (slice_index_or kept.now (first_byte digest.now) None) }
{
    match kept.get(usize::from(digest.0[0])) {
        Some(Some(_)) => false,
        _ => true,
    }
}

/// Returns the digests whose buckets are not kept.
pub(crate) fn listed_beside(
    alloc: Global,
    kept: &[Option<Hash>],
    digests: &[Hash],
) -> Result<Vec<Hash>, Memory>
    ensures { IfOk result (λ listed. listed.items ≡ listed_beside kept.now digests.now) }
{
    let mut listed = Vec::new(alloc);
    for digest in digests {
        if is_beside(kept, digest) {
            listed.push(*digest)?;
        }
    }
    Ok(listed)
}
