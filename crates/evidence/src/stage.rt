//! What an importer was fed so far.

ghost use Rattle.std.specs.Prelude.{◌≡◌, ◌<◌, ◌≤◌, ◌++◌, [], Err, IfErr, IfOk, IsOk, Ok, length, ℕ, List};
ghost use Rattle.std.specs.List.{All};
ghost use Rattle.std.specs.List.Sorted.{IsStrictlySortedBy};
ghost use Rattle.authenticators.specs.Directory.{Listing};
ghost use Rattle.item_forms.specs.Pieces.{by_bytes};
ghost use Rattle.evidence_item.specs.Checking.{IsChecked};
ghost use Rattle.containers.specs.declared.fault.Cause.TheVariants as cause;
ghost use Rattle.containers.specs.declared.fault.ImportFault.{ImportFault as TheFault};
ghost use Rattle.containers.specs.CheckedItems.{checked_of};
ghost use Rattle.containers.specs.Feeding.{Feeds};
ghost use Rattle.containers.specs.Refusals.{IsOfItems};
ghost use Rattle.evidence.specs.Exports.{magic_of, set_text};
ghost use Rattle.evidence_set.specs.ItemSets.{pieces, set_of};
ghost use Rattle.evidence.specs.Importing.{fed_by, imported_under};
ghost use Rattle.containers.specs.Rest.{ItemReader};
ghost use Rattle.evidence.specs.within.Stages.{GoesOn, IsBegun, IsOpen, IsShort, IsStage, fed_of};

use crate::laws::sets_have_one_text;
use crate::set_text::magic_of;
use arrayvec::ArrayVec;
use authenticators::Directory;
use containers::{Cause, ImportFault, Reading};
use evidence_item::Checked;
use replay_verifier::Program;
use std::alloc::Global;

/// The first bytes of a text, up to eight. They take no memory.
pub(crate) type Head = ArrayVec<u8, 8>;

/// What was fed so far.
#[derive(Drop)]
pub(crate) enum Stage<P> {
    /// Fewer than the eight bytes with which the encoding of a set begins.
    Head(Head),
    /// The eight bytes and what follows them.
    Items(Reading<P>),
    /// Eight other bytes.
    Refused(ImportFault),
}

/// Moves bytes from the front of the piece to the head, until the head has eight. Returns what is left of the piece.
fn fill<'a>(head: &mut Head, piece: &'a [u8]) -> &'a [u8]
    requires { length head.old.items < 8 }
    ensures moved { head.new.items ++ result.now ≡ head.old.items ++ piece.now }
    ensures all { length head.new.items < 8 → result.now ≡ [] }
{
    let n = (8 - head.len()).min(piece.len());
    let (front, rest) = piece.split_at(n);
    let _ = head.try_extend_from_slice(front);
    rest
}

/// Returns the stage after the first eight bytes. It takes no memory.
fn begun<P: Program>(alloc: Global, head: &[u8]) -> Stage<P>
    requires { length head.now ≡ 8 }
    ensures stage { (ds : Listing) → IsStage ds P.means result }
    ensures behind { IsBegun head.now result }
{
    let magic = magic_of(head);
    if head != magic.as_slice() {
        return Stage::Refused(ImportFault {
            item: 0,
            cause: Cause::BadMagic,
        });
    }
    Stage::Items(Reading::new(alloc, magic))
}

/// Takes bytes from the front of the piece, as many as the first eight still lack. Returns what is left of the piece.
fn take_head<'a, P: Program>(alloc: Global, stage: &mut Stage<P>, piece: &'a [u8]) -> &'a [u8]
    requires { IsOpen stage.old }
    ensures stage { (ds : Listing) → IsStage ds P.means stage.old → IsStage ds P.means stage.new }
    ensures alike { (ds : Listing) → IsStage ds P.means stage.old → (reads : ItemReader) → fed_by reads piece.now (fed_of stage.old) ≡ fed_by reads result.now (fed_of stage.new) }
    ensures all { (ds : Listing) → IsStage ds P.means stage.old → IsShort stage.new → result.now ≡ [] }
    ensures again { (f : TheFault) → fed_of stage.old ≡ Err f → fed_of stage.new ≡ Err f }
    ensures goes { IfOk (fed_of stage.old) (λ text. GoesOn stage.new) }
    ensures joined { IfOk (fed_of stage.old) (λ text. IfOk (fed_of stage.new) (λ more. more ++ result.now ≡ text ++ piece.now)) }
{
    let Stage::Head(head) = stage else {
        return piece;
    };
    let rest = fill(head, piece);
    if head.len() == 8 {
        *stage = begun(alloc, head.as_slice());
    }
    rest
}

/// Reads the next piece.
pub(crate) fn feed<P: Program>(
    alloc: Global,
    program: &P,
    directory: &Directory,
    stage: &mut Stage<P>,
    piece: &[u8],
) -> Result<(), ImportFault>
    requires { IsStage directory.now P.means stage.old }
    ensures stage { IsStage directory.now P.means stage.new }
    ensures fed { Feeds result (fed_by (checked_of directory.now) piece.now (fed_of stage.old)) (fed_of stage.new) }
    ensures again { (f : TheFault) → fed_of stage.old ≡ Err f → (result ≡ Err f) × (fed_of stage.new ≡ Err f) }
    ensures memory { IfOk (fed_of stage.old) (λ text. IfErr result (λ f. f.cause ≡ cause.Memory → IsOfItems (λ reads. fed_by reads piece.now (fed_of stage.old)))) }
    ensures header { IfOk (fed_of stage.old) (λ text. IfErr result (λ f. f.cause ≡ cause.Memory → 16 ≤ length (text ++ piece.now))) }
{
    let rest = take_head(alloc, stage, piece);
    match stage {
        Stage::Head(_) => Ok(()),
        Stage::Items(reading) => reading.feed(program, directory, rest),
        Stage::Refused(fault) => Err(*fault),
    }
}

/// Ends the reading and returns the items, each checked. It takes no memory.
pub(crate) fn finish<P: Program>(stage: Stage<P>) -> Result<Vec<Checked<P>>, ImportFault>
    ensures checked { (ds : Listing) → IsStage ds P.means stage → IfOk result (λ items. All (IsChecked ds P.means) items.items) }
    ensures ascending { (ds : Listing) → IsStage ds P.means stage → IfOk result (λ items. IsStrictlySortedBy by_bytes (pieces items.items)) }
    ensures text { (ds : Listing) → IsStage ds P.means stage → IfOk result (λ items. (text : List ℕ) × (fed_of stage ≡ Ok text) × (text ≡ set_text (magic_of text) (set_of items.items))) }
    ensures read { (ds : Listing) → IsStage ds P.means stage → IfOk result (λ items. IsOk (imported_under ds (fed_of stage))) }
    ensures fault { (ds : Listing) → IsStage ds P.means stage → IfErr result (λ f. imported_under ds (fed_of stage) ≡ Err f) }
{
    sets_have_one_text();
    match stage {
        Stage::Head(_) => Err(ImportFault {
            item: 0,
            cause: Cause::Truncated,
        }),
        Stage::Items(reading) => reading.finish(),
        Stage::Refused(fault) => Err(fault),
    }
}
