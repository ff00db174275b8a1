//! Questions to files. Each is answered under the program that was named.

ghost use Rattle.std.specs.Prelude.{◌≡◌, ◌⊎◌, ◌+◌, ◌<◌, ◌≤◌, MatchOption, None, Some, false, true};
ghost use Rattle.parallel_checking.specs.declared.limits.TheConstants.{MOST_WORKERS};
ghost use Rattle.operating.specs.Operating.{HasRoom};
ghost use Rattle.bulwynef.specs.Answered.{Answered, gives_verdict};
ghost use Rattle.bulwynef.specs.Programs.{meaning_of, title_of};

use crate::explaining_files::stores::Explaining;
use crate::explaining_files::{directory, proof, stores};
use crate::noting::{Noted, Noting};
use crate::programs::{ProgramName, with_program};
use crate::words::{Query, Subject};
use answers::Style;
use commands::device::Sink;
use explaining::{Followed, Voice};
use indexed_store::IndexedStore;
use operating::asking::{Ending, Reading, ask};
use operating::check::Convicting;
use operating::files::{Limits, Opener};
use operating::prove::Proving;
use operating::refusal::Refusal;
use operating::status::Reporting;
use operating::watching::StoreWatcher;
use operating::{check, merge, show, status};
use replay_verifier::Program;
use std::alloc::Global;
use std::thread::Threads;

/// What a question to files is answered with.
#[derive(Drop)]
pub struct Asking<'a, H> {
    /// The program that the nodes are to follow.
    pub name: ProgramName,
    /// How many files come after the first.
    pub others: usize,
    /// What makes threads.
    pub threads: &'a H,
    /// The allocator from which memory is taken.
    pub alloc: Global,
    /// How much is read, and by how many workers.
    pub limits: Limits,
    /// Where the directory is noted, for answers that do not report it.
    pub noted: &'a Noted,
}

/// Returns whether the answer is a verdict, which another program may change.
fn gives_verdict(query: &Query) -> bool
    ensures { result ≡ gives_verdict query.now }
{
    match query {
        Query::Status(_, _) | Query::Prove(_) | Query::Check(_) => true,
        Query::Explain(subject, _) => match subject {
            Subject::Stores | Subject::Proof => true,
            Subject::Directory => false,
        },
        Query::Merge | Query::Show(_) => false,
    }
}

/// Returns the program under which the question is answered: the one that was named. If none was named and a verdict is asked for, it returns
/// `None`. If no verdict is asked for, the answer is the same under any program, and it returns one of them.
pub fn program_for(query: &Query, named: Option<ProgramName>) -> Option<ProgramName>
    ensures { MatchOption result ((named ≡ None) × (gives_verdict query.now ≡ true)) (λ name. (named ≡ Some name) ⊎ ((named ≡ None) × (gives_verdict query.now ≡ false))) }
{
    match named {
        Some(name) => Some(name),
        None if gives_verdict(query) => None,
        None => Some(ProgramName::Tally),
    }
}

/// Answers a question about nodes that are to follow the program of this name. It writes the answer to what the files say, and nothing else.
/// Or it refuses, and has written nothing unless the write failed. A fault of the files is the first one in them.
pub fn answered<H: Threads + Sync, O: Opener, F: StoreWatcher, W: Sink>(
    asking: &Asking<'_, H>,
    query: Query,
    files: &mut O,
    watcher: &mut F,
    writer: &mut W,
) -> Result<Ending, Refusal>
    requires workers { (0 < asking.now.limits.workers) × (asking.now.limits.workers ≤ MOST_WORKERS) }
    requires room { HasRoom (asking.now.others + 1) (O.seen files.old) (W.seen writer.old) }
    ensures { Answered (meaning_of asking.now.name) asking.now.name query asking.now.limits.most_bytes asking.now.others result (O.seen files.old) (O.seen files.new) W.seen writer.old writer.new }
{
    with_program!(asking.name, followed => answered_under(asking, followed, query, files, watcher, writer))
}

/// Answers the same of nodes that are to follow this program, which has the name of `asking`.
fn answered_under<
    H: Threads + Sync,
    P: Program + Send + Sync,
    V: Voice,
    O: Opener,
    F: StoreWatcher,
    W: Sink,
>(
    asking: &Asking<'_, H>,
    followed: Followed<'_, P, V>,
    query: Query,
    files: &mut O,
    watcher: &mut F,
    writer: &mut W,
) -> Result<Ending, Refusal>
where
    P::State: Send,
    requires workers { (0 < asking.now.limits.workers) × (asking.now.limits.workers ≤ MOST_WORKERS) }
    requires room { HasRoom (asking.now.others + 1) (O.seen files.old) (W.seen writer.old) }
    requires title { followed.name.now ≡ title_of asking.now.name }
    ensures { Answered P.means asking.now.name query asking.now.limits.most_bytes asking.now.others result (O.seen files.old) (O.seen files.new) W.seen writer.old writer.new }
{
    let (alloc, limits, others) = (asking.alloc, asking.limits, asking.others);
    let name = asking.name.word().as_bytes();
    let reading = Reading {
        rt: asking.threads,
        alloc,
        program: followed.program,
        limits,
    };
    match query {
        Query::Status(scope, style) => {
            let reporting = Reporting { style, scope, name };
            let noting = Noting {
                question: &reporting,
                noted: asking.noted,
            };
            ask::<H, P, IndexedStore<P>, Noting<'_, Reporting<'_>>, O, F, W>(
                &reading, &noting, files, others, watcher, writer,
            )
        }
        Query::Merge => merge::run(&reading, files, others, watcher, writer),
        Query::Prove(node) => {
            let noting = Noting {
                question: &Proving { node },
                noted: asking.noted,
            };
            ask::<H, P, IndexedStore<P>, Noting<'_, Proving>, O, F, W>(
                &reading, &noting, files, others, watcher, writer,
            )
        }
        Query::Check(style) => {
            let convicting = Convicting { style, name };
            check::run(alloc, followed.program, &convicting, files, limits, writer)
        }
        Query::Explain(subject, is_page) => {
            let explaining = Explaining { followed, is_page };
            match subject {
                Subject::Stores => {
                    stores::run(&reading, &explaining, files, others, watcher, writer)
                }
                Subject::Proof => proof::run(alloc, &explaining, files, limits, writer),
                Subject::Directory => directory::run(alloc, is_page, files, limits, writer),
            }
        }
        Query::Show(style) => show::run(alloc, style, files, limits, writer),
    }
}
