//! What all questions to stores share. The evidence is gathered, the answer is made, and the answer is written.

ghost use Rattle.std.specs.Prelude.{◌≡◌, ◌⊎◌, ◌<◌, ◌≤◌, ◌^◌, List, ℕ, IfErr, MatchResult, None, OnOk, Result, Ok, Err};
ghost use Rattle.std.specs.Io.KnownBytes.{Appends};
ghost use Rattle.commands.specs.declared.fault.Fault.{Fault};
ghost use Rattle.commands.specs.declared.fault.Fault.TheVariants as fault;
ghost use Rattle.commands.specs.within.OwnFaults.{IsOwn};
ghost use Rattle.operating.specs.GatheredFiles.{Collected, under};
ghost use Rattle.operating.specs.Operating.{HasRoom, RanOnStores};
ghost use Rattle.operating.specs.declared.asking.Ending.{Ending};
ghost use Rattle.parallel_checking.specs.declared.limits.TheConstants.{MOST_WORKERS};

use crate::files::Opener;
use crate::gathering::gather;
pub use crate::gathering::{Gathered, Reading};
use crate::refusal::Refusal;
use crate::watching::StoreWatcher;
use commands::device::{Sink, Text, WriteFault};
use commands::fault::Fault;
use evidence::Evidence;
use replay_verifier::Program;
use std::alloc::Global;
use std::thread::Threads;

/// How an engine ends if it is not refused.
#[derive(Clone, Copy, Debug, PartialEq, Eq)]
pub enum Ending {
    /// The engine is done. `status` ends so only if no node that it was asked of is exposed.
    Done,
    /// `status` found that a node that it was asked of is exposed.
    Exposed,
    /// `prove` found no proof.
    NoProof,
}

/// A text, and how the engine ends.
#[derive(Drop)]
pub struct Answer {
    /// The text.
    pub text: Vec<u8>,
    /// How the engine ends.
    pub ending: Ending,
}

/// A question to stores of evidence of nodes that follow a program.
pub trait Question<P: Program, S: Evidence<P>> {
    /// Relates the evidence and the encoding of its directory to the text that answers and to how the engine ends, or to the fault if there
    /// is no answer.
    ghost means: { Self → Collected → Result (List ℕ × Ending) Fault → Type 0 };

    /// Returns the answer for the evidence that was read.
    fn answer(&self, alloc: Global, read: &Gathered<S>) -> Result<Answer, Fault>
        ensures told { MatchResult result (λ answer. means self.now (under read.now.directory.items (S.contents read.now.store)) (Ok (answer.text.items, answer.ending))) (λ f. (f ≡ fault.Memory) ⊎ means self.now (under read.now.directory.items (S.contents read.now.store)) (Err f)) }
        // If there is no answer, the fault is no device's.
        ensures own { IfErr result IsOwn };
}

/// Reads the directory, which is file 0, and this many stores, which are the files from 1 on, and writes the answer. It writes nothing
/// else, and it writes once, after everything has been decided. The watcher learns how far the stores are read.
pub fn ask<
    R: Threads + Sync,
    P: Program + Send + Sync,
    S: Evidence<P>,
    Q: Question<P, S>,
    O: Opener,
    F: StoreWatcher,
    W: Sink,
>(
    reading: &Reading<'_, R, P>,
    question: &Q,
    opener: &mut O,
    stores: usize,
    watcher: &mut F,
    writer: &mut W,
) -> Result<Ending, Refusal>
where
    P::State: Send,
    requires workers { (0 < reading.now.limits.workers) × (reading.now.limits.workers ≤ MOST_WORKERS) }
    requires room { HasRoom stores (O.seen opener.old) (W.seen writer.old) }
    ensures { RanOnStores (Q.means question.now) reading.now.limits.most_bytes stores result (O.seen opener.old) (O.seen opener.new) W.seen writer.old writer.new }
{
    let read = gather::<R, P, S, O, F>(reading, opener, stores, watcher)?;
    let answer = match question.answer(reading.alloc, &read) {
        Ok(answer) => answer,
        Err(fault) => return Err(Refusal::of_none(fault)),
    };
    write(writer, &answer.text)?;
    Ok(answer.ending)
}

/// Writes the text, in one write. `WriteFailed` (102) if the write fails.
pub fn write<W: Sink>(writer: &mut W, text: &[u8]) -> Result<(), Refusal>
    requires room { (W.seen writer.old).failures < 2 ^ 63 }
    ensures written { OnOk result (Appends (W.seen writer.old).written (W.seen writer.new).written text.now) }
    ensures quiet { OnOk result ((W.seen writer.new).failures ≡ (W.seen writer.old).failures) }
    ensures failed { IfErr result (λ r. (r.fault ≡ fault.WriteFailed) × (r.file ≡ None) × ((W.seen writer.old).failures < (W.seen writer.new).failures)) }
{
    match writer.write_all(text) {
        Ok(()) => Ok(()),
        Err(_) => Err(Refusal::of_none(Fault::WriteFailed)),
    }
}

/// Writes the text, in pieces or in one write. If memory runs out, nothing was written. `WriteFailed` (102) if a write fails.
pub(crate) fn write_text<T: Text, W: Sink>(writer: &mut W, text: &T) -> Result<(), Refusal>
    requires room { (W.seen writer.old).failures < 2 ^ 63 }
    ensures written { OnOk result (Appends (W.seen writer.old).written (W.seen writer.new).written (T.bytes text.now)) }
    ensures quiet { OnOk result ((W.seen writer.new).failures ≡ (W.seen writer.old).failures) }
    ensures place { IfErr result (λ r. r.file ≡ None) }
    ensures refused { IfErr result (λ r. ((r.fault ≡ fault.Memory) × (writer.new ≡ writer.old)) ⊎ ((r.fault ≡ fault.WriteFailed) × ((W.seen writer.old).failures < (W.seen writer.new).failures))) }
{
    match writer.write_text(text) {
        Ok(()) => Ok(()),
        Err(WriteFault::Memory) => Err(Refusal::of_none(Fault::Memory)),
        Err(WriteFault::WriteFailed) => Err(Refusal::of_writing()),
    }
}
