//! How commands run: the engine that was asked for, and what it reads, writes and reports.

ghost use Rattle.std.specs.Prelude.{◌≡◌, ◌<◌, ◌≤◌, ◌^◌, IfErr, IfOk, OnOk};
ghost use Rattle.parallel_checking.specs.declared.limits.TheConstants.{MOST_WORKERS};
ghost use Rattle.operating.specs.FileTexts.{IsOfReading};
ghost use Rattle.operating.specs.Plays.{Leaves, RefusesPlay};
ghost use Rattle.bulwynef.specs.Programs.{meaning_of};

use crate::answering::{Asking, answered, program_for};
use crate::noting::Noted;
use crate::opening::{Begun, NamedFiles};
use crate::programs::{ProgramName, with_program};
use crate::progress::Progress;
use crate::splitting::NamedParts;
use crate::unbundled::Refused;
use crate::words::{Query, Request};
use crate::writing::Output;
use answers::Style;
use operating::asking::Ending;
use operating::files::{Limits, Opener};
use operating::play::Played;
use operating::refusal::Refusal;
use operating::split::Splitting;
use operating::{play, split};
use parallel_checking::MOST_WORKERS;
use shards::Dealing;
use std::alloc::Global;
use std::io::{IsTerminal, Stderr};
use std::sync::Wait;
use std::thread;
use std::thread::Threads;

/// Returns how many workers there are: as many as were asked for, else as many as there are processors. It is never more than [`MOST_WORKERS`].
fn workers_of<H: Threads>(threads: &H, request: &Request) -> usize
    ensures { (0 < result) × (result ≤ MOST_WORKERS) }
{
    let wanted = match request.workers {
        Some(workers) => workers as usize,
        None => processors(threads),
    };
    within_limits(wanted)
}

fn processors<H: Threads>(threads: &H) -> usize {
    match thread::available_parallelism(threads) {
        Ok(count) => count.get(),
        Err(_) => 1,
    }
}

fn within_limits(workers: usize) -> usize
    ensures { (0 < result) × (result ≤ MOST_WORKERS) }
{
    if workers == 0 {
        return 1;
    }
    if workers > MOST_WORKERS {
        return MOST_WORKERS;
    }
    workers
}

/// Returns how much is read, and by how many workers.
fn limits_of<H: Threads>(threads: &H, request: &Request) -> Limits
    ensures { (0 < result.workers) × (result.workers ≤ MOST_WORKERS) }
{
    Limits {
        most_bytes: request.most_bytes as usize,
        workers: workers_of(threads, request),
    }
}

/// Returns where the answer goes.
pub fn output_of<'a>(rt: &'a HostRuntime, request: &Request<'a>) -> Output<'a>
    ensures { result.failures ≡ 0 }
{
    let name = match request.output {
        Some("-" | "/dev/stdout") => None,
        other => other,
    };
    Output {
        rt,
        name,
        failures: 0,
    }
}

/// Returns how many files come after the first.
fn others_of(paths: &[&str]) -> usize
    ensures { result < 2 ^ 62 }
{
    paths.len().saturating_sub(1)
}

/// Returns standard error, if it is a terminal.
fn terminal(rt: &HostRuntime) -> Option<Stderr> {
    let stderr = rt.stderr();
    if stderr.is_terminal() {
        Some(stderr)
    } else {
        None
    }
}

/// Returns whether the program and the directory are reported beside the answer, since it is a verdict and does not have them itself.
fn is_told_beside(query: &Query) -> bool {
    match query {
        Query::Status(_, Style::Lines) | Query::Prove(_) => true,
        Query::Status(_, Style::Json) | Query::Check(_) | Query::Explain(_, _) => false,
        Query::Merge | Query::Show(_) => false,
    }
}

/// Answers a question to the files that were named, and notes the directory. The first bytes of the last file may have been read already.
fn noted_answer<'a, H: Threads + Sync>(
    asking: &Asking<'_, H>,
    query: Query,
    rt: &'a HostRuntime,
    request: &'a Request<'a>,
    begun: Option<Begun<'a>>,
) -> Result<Ending, Refusal>
    requires workers { (0 < asking.now.limits.workers) × (asking.now.limits.workers ≤ MOST_WORKERS) }
    requires files { asking.now.others < 2 ^ 62 }
{
    let mut files = NamedFiles::new(rt, &request.paths, begun);
    let mut output = output_of(rt, request);
    let mut progress = Progress::new(rt.alloc(), rt, terminal(rt), &request.paths);
    answered(asking, query, &mut files, &mut progress, &mut output)
}

/// Answers the same. If a verdict is asked for, a program must be named.
fn answer_under<'a, 'n, H: Threads + Sync>(
    rt: &'a HostRuntime,
    threads: &'n H,
    request: &'a Request<'a>,
    query: Query,
    begun: Option<Begun<'a>>,
    noted: &'n Noted,
) -> Result<Ending, Refused> {
    let Some(name) = program_for(&query, request.program) else {
        return Err(Refused::NoProgram);
    };
    let asking = Asking {
        name,
        others: others_of(&request.paths),
        threads,
        alloc: rt.alloc(),
        limits: limits_of(threads, request),
        noted,
    };
    let ending = noted_answer(&asking, query, rt, request, begun)?;
    Ok(ending)
}

/// Answers a question to the files that were named. The first bytes of the last file may have been read already. If the answer does not have the
/// program and the directory, they are reported beside it.
pub fn ask<'a, H: Threads + Sync>(
    rt: &'a HostRuntime,
    threads: &H,
    request: &'a Request<'a>,
    query: Query,
    begun: Option<Begun<'a>>,
) -> Result<Ending, Refused> {
    let noted = Noted::new();
    let is_told = is_told_beside(&query);
    let ending = answer_under(rt, threads, request, query, begun, &noted)?;
    if let Some(name) = request.program
        && is_told
    {
        noted.tell(rt, name);
    }
    Ok(ending)
}

/// Writes each part of the items of stores to a file of its own. For extracts, the first of the files is the directory.
pub fn split<'a, H: Threads>(
    rt: &'a HostRuntime,
    threads: &H,
    request: &'a Request<'a>,
    dealing: Dealing,
) -> Result<Ending, Refused> {
    let limits = limits_of(threads, request);
    let stores = match dealing {
        Dealing::ByNode(_) => request.paths.len(),
        Dealing::Extracts(_) => others_of(&request.paths),
    };
    let mut files = NamedFiles::new(rt, &request.paths, None);
    let mut parts = NamedParts::new(rt, request.output.unwrap_or(""), dealing.parts());
    let mut lines = Output::standard(rt);
    let splitting = Splitting { dealing, stores };
    let ending = split::run(
        rt.alloc(),
        &splitting,
        &mut files,
        limits,
        &mut parts,
        &mut lines,
    )?;
    Ok(ending)
}

/// Plays the scenario that file 0 says, of nodes that run the program of this name. Returns what it leaves.
fn played<H: Threads + Wait + Sync, O: Opener>(
    threads: &H,
    alloc: Global,
    name: ProgramName,
    files: &mut O,
    limits: Limits,
) -> Result<Played, Refusal>
    requires room { (O.seen files.old).failures < 2 ^ 63 }
    ensures left { IfOk result (Leaves (meaning_of name) limits.most_bytes limits.workers ((O.seen files.old).files 0)) }
    ensures refused { IfErr result (RefusesPlay limits.most_bytes limits.workers ((O.seen files.old).files 0)) }
    ensures blamed { IfErr result (λ r. IsOfReading (O.seen files.old) (O.seen files.new) r.fault) }
    ensures quiet { OnOk result ((O.seen files.new).failures ≡ (O.seen files.old).failures) }
{
    with_program!(name, followed => play::run(threads, alloc, followed.program, files, limits))
}

/// Plays a scenario of nodes that run the program of the request's name, and writes what it leaves into a folder.
pub fn play<'a, H: Threads + Wait + Sync>(
    rt: &'a HostRuntime,
    threads: &H,
    request: &'a Request<'a>,
) -> Result<Ending, Refused> {
    let Some(name) = request.program else {
        return Err(Refused::NoProgram);
    };
    let (alloc, limits) = (rt.alloc(), limits_of(threads, request));
    let mut files = NamedFiles::new(rt, &request.paths, None);
    let played = played(threads, alloc, name, &mut files, limits)?;
    let ending = output_of(rt, request).write_folder(&played)?;
    Ok(ending)
}
