//! Bundles: what `bundle` makes of files, and what `check` says of a file that is a bundle.

ghost use Rattle.std.specs.Prelude.{◌≡◌, ◌≢◌, MatchOption, MatchResult, None, option_copied, unwrap_or};
ghost use Rattle.bundling.specs.Convicting.{RefusesTexts};
ghost use Rattle.bulwynef.specs.Judged.{IsNamed, Judged, done_of};
ghost use Rattle.bulwynef.specs.Programs.{meaning_of, spelling_of};
ghost use Rattle.bulwynef.specs.declared.programs.ProgramName.{ProgramName};

use crate::ending::Done;
use crate::handing;
use crate::handing::Handing;
use crate::opening::{Begun, NamedFiles, open};
use crate::programs::{ProgramName, with_program};
use crate::running::{ask, output_of};
use crate::unbundled::Refused;
use crate::words::{Query, Request};
use answers::Style;
use bundles::{OpenBundle, read};
use bundling::{Judgement, TextFault, judge, judge_in_json};
use commands::device::{CountedReader, Sink};
use commands::fault::Fault;
use commands::input::read_input;
use operating::asking::Ending;
use operating::files::{Limits, MOST_READS};
use operating::reading::read_said;
use operating::refusal::Refusal;
use sha2::{Digest, Sha256};
use std::alloc::{AllocError, Global};
use std::io::{self, Read};
use std::sync::Wait;
use std::thread::Threads;

/// The bytes with which a bundle begins.
const FRONT: &[u8] = b"bulwynef";

/// Returns how much is read of a file. Nothing here is done by workers.
fn limits_of(request: &Request) -> Limits {
    Limits {
        most_bytes: request.most_bytes as usize,
        workers: 1,
    }
}

/// Writes the text, in one write.
fn written(rt: &HostRuntime, request: &Request, text: &[u8]) -> Result<(), Refused> {
    match output_of(rt, request).write_all(text) {
        Ok(()) => Ok(()),
        Err(_) => Err(Refusal::of_none(Fault::WriteFailed).into()),
    }
}

// ---- making

/// Returns the bytes of the file of this very program.
fn own_bytes(rt: &HostRuntime) -> io::Result<Vec<u8>> {
    let path = std::env::current_exe(rt)?;
    std::fs::read(rt, path.as_str())
}

/// Returns the sentence that says which program made the bundle, by the SHA-256 value of its file. It is empty if that file cannot be read.
fn own_sentence(rt: &HostRuntime) -> Result<String, AllocError> {
    let Ok(bytes) = own_bytes(rt) else {
        return Ok(String::new(rt.alloc()));
    };
    let sum = hex::encode(rt.alloc(), Sha256::digest(&bytes))?;
    format!(in rt.alloc(); "# Made by the bulwynef whose file has the SHA-256 value {sum}\n")
}

/// Makes a bundle of a directory and a proof in files, if the proof convicts a node, and writes it.
pub fn bundle<'a>(rt: &'a HostRuntime, request: &'a Request<'a>) -> Result<Ending, Refused> {
    let Some(name) = request.program else {
        return Err(Refused::NoProgram);
    };
    let Ok(own) = own_sentence(rt) else {
        return Err(Refusal::of_none(Fault::Memory).into());
    };
    let given = Handing {
        name,
        more: own.as_bytes(),
    };
    let mut files = NamedFiles::new(rt, &request.paths, None);
    let mut output = output_of(rt, request);
    let ending = handing::run(
        rt.alloc(),
        &given,
        &mut files,
        limits_of(request),
        &mut output,
    )?;
    Ok(ending)
}

// ---- judging

/// Returns what is said of a bundle under a directory and the program of this name, in the style that was asked for.
fn judged(
    alloc: Global,
    style: Style,
    name: ProgramName,
    directory: &[u8],
    bundle: &OpenBundle,
) -> Result<Judgement, TextFault>
    ensures { MatchResult result (λ said. Judged style (meaning_of name) (spelling_of name) directory.now bundle.now said.text.items said.agrees) (λ f. RefusesTexts (meaning_of name) directory.now bundle.now.proof f) }
{
    let spelling = name.word().as_bytes();
    match style {
        Style::Lines => {
            with_program!(name, followed => judge(alloc, followed.program, spelling, directory, bundle))
        }
        Style::Json => {
            with_program!(name, followed => judge_in_json(alloc, followed.program, spelling, directory, bundle))
        }
    }
}

/// Returns the program that was named, or else the one that the bundle names. It returns `None` if none was named and the bundle's is not known.
fn program_of(named: Option<ProgramName>, bundle: &OpenBundle) -> Option<ProgramName>
    ensures { MatchOption result ((named ≡ None) × ((name : ProgramName) → spelling_of name ≢ bundle.now.program)) (IsNamed named bundle.now.program) }
{
    match named {
        Some(name) => Some(name),
        None => ProgramName::of(bundle.program),
    }
}

/// Returns what is said of a bundle under the directory that is given, or else under its own.
fn judged_under(
    alloc: Global,
    style: Style,
    name: ProgramName,
    given: Option<&[u8]>,
    bundle: &OpenBundle,
) -> Result<Judgement, TextFault>
    ensures { MatchResult result (λ said. Judged style (meaning_of name) (spelling_of name) (unwrap_or (option_copied given.entry) bundle.now.directory) bundle.now said.text.items said.agrees) (λ f. RefusesTexts (meaning_of name) (unwrap_or (option_copied given.entry) bundle.now.directory) bundle.now.proof f) }
{
    match given {
        Some(directory) => judged(alloc, style, name, directory, bundle),
        None => judged(alloc, style, name, &bundle.directory, bundle),
    }
}

/// Returns what is said of a bundle under the directory that the request names, or else under its own.
fn judgement_of<'a>(
    rt: &'a HostRuntime,
    request: &'a Request<'a>,
    style: Style,
    bundle: &OpenBundle,
) -> Result<Judgement, Refused> {
    let Some(name) = program_of(request.program, bundle) else {
        return Err(Refused::UnknownProgram);
    };
    let alloc = rt.alloc();
    if request.paths.len() < 2 {
        return match judged_under(alloc, style, name, None, bundle) {
            Ok(said) => Ok(said),
            Err(fault) => Err(Refused::Inside(fault)),
        };
    }
    let mut files = NamedFiles::new(rt, &request.paths, None);
    let directory = read_said(alloc, &mut files, 0, None, limits_of(request))?;
    match judged_under(alloc, style, name, Some(&directory), bundle) {
        Ok(said) => Ok(said),
        Err(TextFault::Directory(fault)) => {
            Err(Refusal::of_text(0, &directory, Fault::from(fault)).into())
        }
        Err(fault) => Err(Refused::Inside(fault)),
    }
}

/// Returns how `check` ends: with 5 if the bundle has another program or directory than the ones by which it was judged.
fn done_of(said: &Judgement) -> Done
    ensures { result ≡ done_of said.now.agrees }
{
    if said.agrees {
        Done::Engine(Ending::Done)
    } else {
        Done::Disagreed
    }
}

/// Writes what is said of the bundle that a file is.
fn check_bundle(
    rt: &HostRuntime,
    request: &Request,
    style: Style,
    begun: Begun<'_>,
) -> Result<Done, Refused> {
    let last = request.paths.len().saturating_sub(1);
    let mut reader = CountedReader::new(begun.front.chain(begun.rest));
    let most = limits_of(request).most_bytes;
    let text = match read_input(rt.alloc(), &mut reader, most, MOST_READS) {
        Ok(text) => text,
        Err(fault) => return Err(Refusal::of_text(last, &[], fault).into()),
    };
    let bundle = match read(rt.alloc(), &text) {
        Ok(bundle) => bundle,
        Err(fault) => return Err(Refused::Bundle(fault)),
    };
    let said = judgement_of(rt, request, style, &bundle)?;
    written(rt, request, &said.text)?;
    Ok(done_of(&said))
}

/// Writes whom the proof in one file convicts under the directory in another.
fn check_proof<H: Threads + Sync>(
    rt: &HostRuntime,
    threads: &H,
    request: &Request,
    style: Style,
    begun: Option<Begun<'_>>,
) -> Result<Done, Refused> {
    let ending = ask(rt, threads, request, Query::Check(style), begun)?;
    Ok(Done::Engine(ending))
}

/// Writes whom a proof convicts. The first bytes of the file show whether it is a proof or a bundle. A file that cannot be opened is no
/// bundle. If the file is no bundle, a directory and a program must be named.
pub fn check<H: Threads + Wait + Sync>(
    rt: &HostRuntime,
    threads: &H,
    request: &Request,
    style: Style,
) -> Result<Done, Refused> {
    let is_one = request.paths.len() < 2;
    let last = request.paths.len().saturating_sub(1);
    let name = request.paths.last().unwrap_or(&"-");
    let Ok(rest) = open(rt, name) else {
        return if is_one || request.program.is_none() {
            Err(Refusal::of_text(last, &[], Fault::ReadFailed).into())
        } else {
            check_proof(rt, threads, request, style, None)
        };
    };
    let mut front = Vec::new(rt.alloc());
    let is_read = (&rest).take(8).read_to_end(&mut front).is_ok();
    let begun = Begun {
        front: &front,
        rest,
    };
    if begun.front == FRONT {
        return check_bundle(rt, request, style, begun);
    }
    if !is_read && (is_one || request.program.is_none()) {
        return Err(Refusal::of_text(last, &[], Fault::ReadFailed).into());
    }
    if is_one {
        return Err(Refused::NoDirectory);
    }
    check_proof(rt, threads, request, style, Some(begun))
}
