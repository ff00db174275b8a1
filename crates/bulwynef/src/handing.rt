//! The engine of `bundle`, which writes a proof to hand over, in one file with its directory.

ghost use Rattle.std.specs.Prelude.{◌≡◌, ◌⊎◌, ◌+◌, ◌<◌, ◌^◌, IfErr, IfOk, List, MatchResult, OnOk, Some, ℕ};
ghost use Rattle.std.specs.Io.KnownBytes.{Appends};
ghost use Rattle.commands.specs.declared.fault.Fault.TheVariants as fault;
ghost use Rattle.bundling.specs.Handing.{IsMade, RefusesMaking};
ghost use Rattle.operating.specs.Operating.{HasRoom};
ghost use Rattle.bulwynef.specs.Handed.{AreHanded, IsTold, RefusesHanding, engine_fault, fault_of};
ghost use Rattle.bulwynef.specs.Programs.{meaning_of, spelling_of};

use crate::programs::{ProgramName, with_program};
use crate::unbundled::{Refused, fault_of};
use bundling::{MakeFault, TextFault, make};
use commands::device::Sink;
use commands::fault::Fault;
use operating::asking::{Ending, write};
use operating::files::{Limits, Opener};
use operating::reading::read_said;
use operating::refusal::Refusal;
use std::alloc::Global;

/// What a bundle is made with, beside the directory and the proof.
#[derive(Clone, Copy)]
pub struct Handing<'a> {
    /// The program that the nodes were to follow.
    pub name: ProgramName,
    /// Sentences of the one who hands it over.
    pub more: &'a [u8],
}

/// Returns the bundle of a directory and a proof, of nodes that were to follow the program of this name.
fn made(
    alloc: Global,
    handing: &Handing<'_>,
    directory: &[u8],
    proof: &[u8],
) -> Result<Vec<u8>, MakeFault>
    ensures { MatchResult result (λ text. IsMade (meaning_of handing.now.name) (spelling_of handing.now.name) directory.now proof.now handing.now.more.now text.items) (λ f. RefusesMaking (meaning_of handing.now.name) (spelling_of handing.now.name) directory.now proof.now handing.now.more.now f) }
{
    let spelling = handing.name.word().as_bytes();
    with_program!(handing.name, followed => make(alloc, followed.program, spelling, directory, proof, handing.more))
}

/// Returns the refusal that says why no bundle is made.
fn refusal_of(directory: &[u8], proof: &[u8], fault: MakeFault) -> Refused
    ensures { IsTold fault result }
{
    match fault {
        MakeFault::BadBundle => Refused::Unspelled,
        MakeFault::Text(TextFault::Memory) => Refused::Engine(Refusal::of_none(Fault::Memory)),
        MakeFault::Text(TextFault::Directory(fault)) => {
            Refused::Engine(Refusal::of_text(0, directory, Fault::from(fault)))
        }
        MakeFault::Text(fault) => Refused::Engine(Refusal::of_text(1, proof, fault_of(fault))),
    }
}

/// Returns the bundle of the directory that file 0 says and of the proof that file 1 says.
fn bundle_of<O: Opener>(
    alloc: Global,
    handing: &Handing<'_>,
    opener: &mut O,
    limits: Limits,
) -> Result<Vec<u8>, Refused>
    requires room { (O.seen opener.old).failures + 1 < 2 ^ 63 }
    ensures made { IfOk result (λ text. AreHanded (meaning_of handing.now.name) (spelling_of handing.now.name) handing.now.more.now limits.most_bytes (O.seen opener.old).files text.items) }
    ensures refused { IfErr result (λ r. RefusesHanding (meaning_of handing.now.name) (spelling_of handing.now.name) handing.now.more.now limits.most_bytes (O.seen opener.old).files r) }
    ensures read_failed { IfErr result (λ r. engine_fault r ≡ Some fault.ReadFailed → (O.seen opener.old).failures < (O.seen opener.new).failures) }
    ensures not_written { IfErr result (λ r. engine_fault r ≡ Some fault.WriteFailed → ⊥) }
    ensures quiet { OnOk result ((O.seen opener.new).failures ≡ (O.seen opener.old).failures) }
{
    let directory = read_said(alloc, opener, 0, None, limits)?;
    let proof = read_said(alloc, opener, 1, None, limits)?;
    match made(alloc, handing, &directory, &proof) {
        Ok(text) => Ok(text),
        Err(fault) => Err(refusal_of(&directory, &proof, fault)),
    }
}

/// Reads a directory, which is file 0, and a proof, which is file 1. If the proof convicts a node, it writes the bundle of both. It writes
/// nothing else, and it writes once, after everything has been decided.
pub fn run<O: Opener, W: Sink>(
    alloc: Global,
    handing: &Handing<'_>,
    opener: &mut O,
    limits: Limits,
    writer: &mut W,
) -> Result<Ending, Refused>
    requires room { HasRoom 1 (O.seen opener.old) (W.seen writer.old) }
    ensures done { IfOk result (λ ending. (text : List ℕ) × AreHanded (meaning_of handing.now.name) (spelling_of handing.now.name) handing.now.more.now limits.most_bytes (O.seen opener.old).files text × Appends (W.seen writer.old).written (W.seen writer.new).written text × (ending ≡ Ending.Done)) }
    ensures refused { IfErr result (λ r. RefusesHanding (meaning_of handing.now.name) (spelling_of handing.now.name) handing.now.more.now limits.most_bytes (O.seen opener.old).files r ⊎ (engine_fault r ≡ Some fault.WriteFailed)) }
    ensures nothing_written { IfErr result (λ r. (writer.new ≡ writer.old) ⊎ (engine_fault r ≡ Some fault.WriteFailed)) }
    ensures read_failed { IfErr result (λ r. engine_fault r ≡ Some fault.ReadFailed → (O.seen opener.old).failures < (O.seen opener.new).failures) }
    ensures write_failed { IfErr result (λ r. engine_fault r ≡ Some fault.WriteFailed → (W.seen writer.old).failures < (W.seen writer.new).failures) }
    ensures quiet { OnOk result (((O.seen opener.new).failures ≡ (O.seen opener.old).failures) × ((W.seen writer.new).failures ≡ (W.seen writer.old).failures)) }
{
    let text = bundle_of(alloc, handing, opener, limits)?;
    write(writer, &text)?;
    Ok(Ending::Done)
}
