//! The engine of `check`, which writes whom a proof convicts, under which program and which directory.

ghost use Rattle.std.specs.Prelude.{◌≡◌, ◌+◌, ◌<◌, ◌^◌, IfErr, IfOk, MatchResult, OnOk};
ghost use Rattle.operating.specs.ConvictingFiles.{AreConvictingUnder, RefusesConviction, RefusesProofText, TextConvicts};
ghost use Rattle.commands.specs.within.OwnFaults.{IsOwn};
ghost use Rattle.operating.specs.FileTexts.{IsOfReading};
ghost use Rattle.operating.specs.Operating.{HasRoom, RanOnProof};

use crate::asking::{Ending, write};
use crate::files::{Limits, Opener};
use crate::reading::{ReadDirectory, read_directory_file, read_said};
use crate::refusal::Refusal;
use answers::{Style, conviction_text};
use authenticators::{Directory, NodeId};
use commands::device::Sink;
use commands::fault::Fault;
use proofs::{Proof, check_proof};
use replay_verifier::Program;
use std::alloc::Global;

/// Returns which node the proof that a text encodes convicts.
fn convicted_by<P: Program>(
    alloc: Global,
    program: &P,
    directory: &Directory,
    text: &[u8],
) -> Result<NodeId, Fault>
    ensures told { MatchResult result (λ node. TextConvicts P.means directory.now text.now node) (λ f. RefusesProofText P.means directory.now text.now f) }
    ensures own { IfErr result IsOwn }
{
    let proof = Proof::decode(alloc, text)?;
    let node = check_proof(alloc, program, directory, &proof)?;
    Ok(node)
}

/// The node that a proof convicts, and the encoding of the directory under which it does.
#[derive(Drop)]
struct Found {
    node: NodeId,
    directory: Vec<u8>,
}

/// Returns which node the proof in file 1 convicts under the directory in file 0.
fn convicted<P: Program, O: Opener>(
    alloc: Global,
    program: &P,
    opener: &mut O,
    limits: Limits,
) -> Result<Found, Refusal>
    requires room { (O.seen opener.old).failures + 1 < 2 ^ 63 }
    ensures convicted { IfOk result (λ found. AreConvictingUnder P.means limits.most_bytes (O.seen opener.old).files (found.node, found.directory.items)) }
    ensures refused { IfErr result (λ r. RefusesConviction P.means limits.most_bytes (O.seen opener.old).files r) }
    ensures blamed { IfErr result (λ r. IsOfReading (O.seen opener.old) (O.seen opener.new) r.fault) }
    ensures quiet { OnOk result ((O.seen opener.new).failures ≡ (O.seen opener.old).failures) }
{
    let read = read_directory_file(alloc, opener, limits)?;
    let text = read_said(alloc, opener, 1, None, limits)?;
    let ReadDirectory {
        text: directory_text,
        directory,
    } = read;
    match convicted_by(alloc, program, &directory, &text) {
        Ok(node) => Ok(Found {
            node,
            directory: directory_text,
        }),
        Err(fault) => Err(Refusal::of_text(1, &text, fault)),
    }
}

/// The style in which a conviction is written, and the name by which the program is written.
#[derive(Drop)]
pub struct Convicting<'a> {
    /// The style.
    pub style: Style,
    /// The name, with no character that JSON escapes.
    pub name: &'a [u8],
}

/// Reads a directory, which is file 0, and a proof, which is file 1. It writes which node the proof convicts, under the program of this
/// name and that directory. It writes nothing else, and it writes once, after everything has been decided.
pub fn run<P: Program, O: Opener, W: Sink>(
    alloc: Global,
    program: &P,
    convicting: &Convicting<'_>,
    opener: &mut O,
    limits: Limits,
    writer: &mut W,
) -> Result<Ending, Refusal>
    requires room { HasRoom 1 (O.seen opener.old) (W.seen writer.old) }
    ensures { RanOnProof convicting.now.style convicting.now.name.now P.means limits.most_bytes result (O.seen opener.old) (O.seen opener.new) W.seen writer.old writer.new }
{
    let found = convicted(alloc, program, opener, limits)?;
    let text = match conviction_text(
        alloc,
        convicting.style,
        found.node,
        convicting.name,
        &found.directory,
    ) {
        Ok(text) => text,
        Err(_) => return Err(Refusal::of_none(Fault::Memory)),
    };
    write(writer, &text)?;
    Ok(Ending::Done)
}
