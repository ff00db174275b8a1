//! What stores give one another: outlines, summaries and packs, as encodings.

ghost use Rattle.std.specs.Prelude.{◌≡◌, ◌+◌, IfErr, IfOk, OnErr, OnOk};
ghost use Rattle.outcome.specs.Outcome.{Fails, Gives, told_as};
ghost use Rattle.containers.specs.CheckedItems.{checked_of};
ghost use Rattle.containers.specs.Container.{import_of};
ghost use Rattle.evidence_set.specs.ItemSets.{Items, Join, count};
ghost use Rattle.evidence.specs.Contents.{with_items};
ghost use Rattle.transfer.specs.Digests.{outline_of};
ghost use Rattle.transfer.specs.Packs.{pack_magic, pack_text};
ghost use Rattle.transfer.specs.Summaries.{whole_summary};
ghost use Rattle.transfer.specs.SummaryTexts.{outline_text, summary_text};
ghost use Rattle.byte_calls.specs.declared.refusal.Refusal.TheVariants.{Memory};
ghost use Rattle.byte_calls.specs.Refusals.{of_import};
ghost use Rattle.byte_calls.specs.Transfers.{packed, shortened};

use crate::refusal::Refusal;
use evidence::Evidence;
use replay_verifier::Program;
use std::alloc::Global;
use transfer::{Outline, Pack, Summary};

/// Returns the encoding of the store's outline, 8,200 bytes.
pub fn outline<P: Program, S: Evidence<P>>(alloc: Global, store: &S) -> Result<Vec<u8>, Refusal>
    ensures text { IfOk result (λ text. text.items ≡ outline_text (outline_of (S.contents store.now).items)) }
    ensures refused { IfErr result (λ f. f ≡ Memory) }
{
    let outline = transfer::outline(alloc, store)?;
    let text = outline.to_bytes(alloc)?;
    Ok(text)
}

/// Returns the encoding of the summary that lists all of the store's items.
pub fn summary<P: Program, S: Evidence<P>>(alloc: Global, store: &S) -> Result<Vec<u8>, Refusal>
    ensures text { IfOk result (λ text. text.items ≡ summary_text (whole_summary (S.contents store.now).items)) }
    ensures refused { IfErr result (λ f. f ≡ Memory) }
{
    let summary = transfer::summary(alloc, store)?;
    let text = summary.to_bytes(alloc)?;
    Ok(text)
}

/// Returns the encoding of the store's summary against an outline. It refuses as the outline's encoding is refused (40, 43, 60).
#[tactic(auto, unfolding(crate::specs::Transfers::shortened))]
pub fn short_summary<P: Program, S: Evidence<P>>(
    alloc: Global,
    store: &S,
    outline: &[u8],
) -> Result<Vec<u8>, Refusal>
    ensures { Gives Memory (λ text. text.items) result (shortened (S.contents store.now).items outline.now) }
{
    let outline = Outline::from_bytes(alloc, outline)?;
    let summary = transfer::short_summary(alloc, store, &outline)?;
    let text = summary.to_bytes(alloc)?;
    Ok(text)
}

/// Returns the encoding of the pack of those items of the store that a summary does not name. It refuses as the summary's encoding is refused
/// (40, 41, 43, 60 to 62).
#[tactic(auto, unfolding(crate::specs::Transfers::packed))]
pub fn pack<P: Program, S: Evidence<P>>(
    alloc: Global,
    store: &S,
    summary: &[u8],
) -> Result<Vec<u8>, Refusal>
    ensures { Gives Memory (λ text. text.items) result (packed (S.contents store.now).items summary.now) }
{
    let summary = Summary::from_bytes(alloc, summary)?;
    let pack = transfer::pack(alloc, store, &summary)?;
    let text = pack.to_bytes(alloc)?;
    Ok(text)
}

/// Adds the items of a pack, all or none, and returns how many are new. It refuses as the pack's encoding is refused (40 to 49, 60, 61).
pub fn apply<P: Program, S: Evidence<P>>(
    alloc: Global,
    store: &mut S,
    program: &P,
    pack: &[u8],
) -> Result<u64, Refusal>
    ensures told { IfOk result (λ new. count (S.contents store.old).items + new ≡ count (S.contents store.new).items) }
    ensures joined { OnOk result ((added : Items) × (pack.now ≡ pack_text added) × (S.contents store.new ≡ with_items (S.contents store.old) (Join (S.contents store.old).items added))) }
    ensures refused { IfErr result (λ f. Fails Memory f (told_as of_import (import_of pack_magic (checked_of (S.contents store.old).directory) pack.now))) }
    ensures unchanged { OnErr result (S.contents store.new ≡ S.contents store.old) }
{
    let pack = Pack::from_bytes(alloc, program, store.directory(), pack)?;
    let new = transfer::apply(alloc, store, &pack)?;
    Ok(new)
}
