//! Making nodes from their journals.

ghost use Rattle.std.specs.Prelude.{◌≡◌, Err, IfErr, IfOk, Ok, OnOk};
ghost use Rattle.std.specs.Str.{bytes_eq};
ghost use Rattle.sha2.specs.Sha256.{sha256};
ghost use Rattle.outcome.specs.Outcome.{Fails, Gives, told_as};
ghost use Rattle.authenticators.specs.DirectoryText.{directory_text};
ghost use Rattle.commitment.specs.Calls.{Given, after_call};
ghost use Rattle.journal.specs.Journal.{texts_of};
ghost use Rattle.node_journals.specs.Records.{recorded_of};
ghost use Rattle.node_journals.specs.Refusals.{as_bad_record};
ghost use Rattle.node_journals.specs.Rebuilding.{begun_as, behind_first, first_of, input_of, rebuilt, replayed};
ghost use Rattle.node_journals.specs.declared.fault.RebuildFault.{RebuildFault as TheRebuildFault};
ghost use Rattle.node_journals.specs.declared.fault.RebuildFault.TheVariants as fault;
ghost use Rattle.node_journals.specs.within.Inputs.{given_by};

use crate::beginning::{Beginning, digest_of};
use crate::fault::{DraftFault, RebuildFault, RecordFault};
use crate::giving::{Input, apply, input_of};
use crate::journalled::Journalled;
use crate::keys::{Secret, key_for};
use crate::recorded::Recorded;
use authenticators::Directory;
use commitment::{NewFault, Node};
use log_chain::Hash;
use node_runs::runs_only_add;
use outcome::Memory;
use replay_verifier::Program;
use std::alloc::Global;

/// Returns the beginning that the first text is.
fn beginning_in(alloc: Global, texts: &[Vec<u8>]) -> Result<Beginning, RebuildFault>
    ensures gives { Gives fault.Memory (λ b. b) result (first_of (texts_of texts.now)) }
    ensures told { (e : TheRebuildFault) → first_of (texts_of texts.now) ≡ Err e → result ≡ Err e }
{
    let [first, ..] = texts else {
        return Err(RebuildFault::EmptyJournal);
    };
    match Beginning::from_bytes(alloc, first) {
        Ok(beginning) => Ok(beginning),
        Err(RecordFault::Memory) => Err(RebuildFault::Memory),
        Err(_) => Err(RebuildFault::NoBeginning),
    }
}

/// Returns the texts after the first.
fn behind_first(texts: &[Vec<u8>]) -> &[Vec<u8>]
    ensures { texts_of result.now ≡ behind_first (texts_of texts.now) }
{
    match texts {
        [] => texts,
        [_, further @ ..] => further,
    }
}

/// Returns whether this is the SHA-256 value of the directory's encoding.
fn is_digest_of(digest: &Hash, directory: &Directory) -> Result<bool, Memory>
    ensures { IfOk result (λ is. is ≡ bytes_eq digest.now (sha256 (directory_text directory.now))) }
{
    let made = digest_of(directory)?;
    Ok(*digest == made)
}

/// Returns the node that began so.
#[tactic(auto, unfolding(crate::specs::Rebuilding::begun_as))]
fn begun<P: Program + Drop>(
    alloc: Global,
    program: P,
    name: &[u8],
    directory: Directory,
    secrets: &[Secret],
    beginning: &Beginning,
) -> Result<Node<P>, RebuildFault>
    ensures { Gives fault.Memory (λ n. n) result (begun_as (record { program = P.means; name = name.now; directory = directory; secrets = secrets.now }) beginning.now) }
{
    if beginning.program.as_slice() != name {
        return Err(RebuildFault::OtherProgram);
    }
    if !is_digest_of(&beginning.directory, &directory)? {
        return Err(RebuildFault::OtherDirectory);
    }
    let Some(key) = key_for(alloc, secrets, &beginning.key)? else {
        return Err(RebuildFault::OtherKey);
    };
    match Node::new(
        alloc,
        program,
        directory,
        beginning.me,
        key,
        beginning.first_seq,
    ) {
        Ok(node) => Ok(node),
        Err(refused) => match refused.fault {
            NewFault::Memory => Err(RebuildFault::Memory),
            NewFault::UnknownNode => Err(RebuildFault::UnknownNode),
            NewFault::WrongKey => Err(RebuildFault::WrongKey),
        },
    }
}

fn recorded_in(alloc: Global, text: &[u8]) -> Result<Recorded, RebuildFault>
    ensures { Gives fault.Memory (λ r. r) result (told_as as_bad_record (recorded_of text.now)) }
{
    match Recorded::from_bytes(alloc, text) {
        Ok(recorded) => Ok(recorded),
        Err(RecordFault::Memory) => Err(RebuildFault::Memory),
        Err(_) => Err(RebuildFault::BadRecord),
    }
}

/// Returns what the record of a text gives a node.
#[tactic(auto, unfolding(crate::specs::Rebuilding::input_of))]
fn input_in(alloc: Global, secrets: &[Secret], text: &[u8]) -> Result<Input, RebuildFault>
    ensures { Gives fault.Memory given_by result (input_of secrets.now text.now) }
{
    let recorded = recorded_in(alloc, text)?;
    match input_of(alloc, secrets, recorded) {
        Ok(input) => Ok(input),
        Err(not) => match not.fault {
            DraftFault::Memory => Err(RebuildFault::Memory),
            DraftFault::OtherKey | DraftFault::TooLong => Err(RebuildFault::OtherKey),
        },
    }
}

/// Gives the node what the record of a text gives.
fn replay_one<P: Program + Drop>(
    alloc: Global,
    node: &mut Node<P>,
    secrets: &[Secret],
    text: &[u8],
) -> Result<(), RebuildFault>
    ensures given { OnOk result ((x : Given) × (input_of secrets.now text.now ≡ Ok x) × (node.new ≡ after_call P.means node.old x)) }
    ensures refused { IfErr result (λ e. Fails fault.Memory e (input_of secrets.now text.now)) }
{
    let input = input_in(alloc, secrets, text)?;
    apply(node, input)?;
    Ok(())
}

/// Gives the node what the records of the texts give, in order.
fn replay<P: Program + Drop>(
    alloc: Global,
    node: &mut Node<P>,
    secrets: &[Secret],
    texts: &[Vec<u8>],
) -> Result<(), RebuildFault>
    ensures given { OnOk result (replayed P.means secrets.now node.old (texts_of texts.now) ≡ Ok node.new) }
    ensures refused { IfErr result (λ e. Fails fault.Memory e (replayed P.means secrets.now node.old (texts_of texts.now))) }
{
    runs_only_add::<P>();
    for text in texts {
        replay_one(alloc, node, secrets, text)?;
    }
    Ok(())
}

/// Rebuilds the node of a journal from its texts, in order. It is the node that the first text began, after it was given what
/// the further texts record. The operator supplies the program, its name, the directory and the seeds again.
///
/// It reports the first of these refusals:
///
/// - `EmptyJournal` (126) or `NoBeginning` (127), if there is no first text, or it is no beginning. These are reported even if
///   memory runs out.
/// - `OtherProgram` (123), if the journal names another program.
/// - `OtherDirectory` (124), if the journal is of another directory.
/// - `OtherKey` (128), if none of the secrets makes the key.
/// - `UnknownNode` (30) or `WrongKey` (31), as of [`Node::new`].
/// - For each further text, in order: `BadRecord` (129) if it is no record, `OtherKey` if it names a key that none of the
///   secrets makes.
///
/// `Memory` (99) may come in place of any but the first two, or of the result. A journal that a node wrote of itself is refused
/// only if memory runs out: see [`journals_rebuild`](crate::laws::journals_rebuild).
///
/// If the node refused a recorded call before the crash, it refuses the call again. That is no refusal of this function.
///
/// **An old copy of a journal is a danger.** It does not have what the node did after its end. The node would sign other texts
/// with leaves that have signed, and then anybody could forge its signatures. Whoever restores a journal asks all witnesses
/// first: see [`is_safe_to_resume`](crate::is_safe_to_resume).
#[tactic(auto, unfolding(crate::specs::Rebuilding::rebuilt))]
pub fn rebuild<P: Program + Drop>(
    alloc: Global,
    program: P,
    name: &[u8],
    directory: Directory,
    secrets: &[Secret],
    texts: &[Vec<u8>],
) -> Result<Journalled<P>, RebuildFault>
    ensures exact { Gives fault.Memory (λ n. n) result (rebuilt (record { program = P.means; name = name.now; directory = directory; secrets = secrets.now }) (texts_of texts.now)) }
    ensures told { (e : TheRebuildFault) → first_of (texts_of texts.now) ≡ Err e → result ≡ Err e }
{
    let beginning = beginning_in(alloc, texts)?;
    let mut node = begun(alloc, program, name, directory, secrets, &beginning)?;
    replay(alloc, &mut node, secrets, behind_first(texts))?;
    Ok(Journalled { node })
}
