//! Writing outlines and summaries.

ghost use Rattle.std.specs.Prelude.{◌≡◌, ◌+◌, ◌≤◌, ◌++◌, ◌∷◌, ℕ, List, Option, OnOk, IfOk, drop, length};
ghost use Rattle.std.specs.List.{flat_map};
ghost use Rattle.std.specs.Int.{w64, to_be_bytes};
ghost use Rattle.transfer.specs.Digests.{joined};
ghost use Rattle.transfer.specs.Summaries.{IsSummary};
ghost use Rattle.transfer.specs.SummaryTexts.{parts_text};
ghost use Rattle.transfer.specs.within.Runs.{after_run, run_of, runs_text};

use crate::bucketing::run_length;
use log_chain::{FieldWriter, Hash};
use outcome::Memory;

/// Writes each of the digests.
pub(crate) fn write_digests(writer: &mut FieldWriter, digests: &[Hash]) -> Result<(), Memory>
    ensures { OnOk result (writer.new ≡ writer.old ++ flat_map (λ d. d) digests.now) }
{
    for digest in digests {
        writer.hash(*digest)?;
    }
    Ok(())
}

/// Writes a bucket that is listed: the digests in front that stand in it. It returns how many these are.
fn write_listed(writer: &mut FieldWriter, bucket: u16, digests: &[Hash]) -> Result<usize, Memory>
    ensures inside { IfOk result (λ n. n ≤ length digests.now) }
    ensures after { IfOk result (λ n. drop n digests.now ≡ after_run bucket digests.now) }
    ensures written { OnOk result (writer.new ≡ writer.old ++ 0 ∷ to_be_bytes w64 (length (run_of bucket digests.now)) ++ joined (run_of bucket digests.now)) }
{
    let count = run_length(digests, bucket);
    let (run, _) = digests.split_at(count);
    writer.u8(0)?;
    writer.u64(run.len() as u64)?;
    write_digests(writer, run)?;
    Ok(count)
}

/// Writes a bucket that is kept.
fn write_kept(writer: &mut FieldWriter, digest: Hash) -> Result<(), Memory>
    ensures { OnOk result (writer.new ≡ writer.old ++ 1 ∷ digest) }
{
    writer.u8(1)?;
    writer.hash(digest)?;
    Ok(())
}

/// Writes a bucket. If its digest is kept, it writes that, and else the digests in front that stand in it. It returns how many these are.
fn write_part(
    writer: &mut FieldWriter,
    bucket: u16,
    kept: Option<Hash>,
    digests: &[Hash],
) -> Result<usize, Memory>
    ensures inside { IfOk result (λ n. n ≤ length digests.now) }
    ensures written { IfOk result (λ n. (others : List (Option (List ℕ))) → writer.new ++ runs_text (bucket + 1) (drop n digests.now) others ≡ writer.old ++ runs_text bucket digests.now (kept ∷ others)) }
{
    match kept {
        Some(digest) => {
            write_kept(writer, digest)?;
            Ok(0)
        }
        None => {
            let count = write_listed(writer, bucket, digests)?;
            Ok(count)
        }
    }
}

/// Writes the 256 buckets of a summary.
pub(crate) fn write_parts(
    writer: &mut FieldWriter,
    listed: &[Hash],
    kept: &[Option<Hash>],
) -> Result<(), Memory>
    requires { IsSummary (record { listed = listed.now; kept = kept.now }) }
    ensures { OnOk result (writer.new ≡ writer.old ++ parts_text (record { listed = listed.now; kept = kept.now })) }
{
    let mut rest = listed;
    for bucket in 0..256u16 {
        let count = write_part(writer, bucket, kept[usize::from(bucket)], rest)?;
        let (_, after) = rest.split_at(count);
        rest = after;
    }
    Ok(())
}
