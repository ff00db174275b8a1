//! The words of the command line, which `clap` reads.

use crate::command_line::command;
use crate::programs::ProgramName;
use answers::Style;
use authenticators::NodeId;
use clap::error::ErrorKind;
use clap::{ArgMatches, Error};
use operating::scope::Scope;
use shards::{Dealing, Shards};
use std::alloc::{AllocError, Global};
use std::io;
use std::process::ExitCode;

/// A command, and what it asks for.
#[derive(Clone, Copy)]
pub enum Task {
    /// A question to files.
    Ask(Query),
    /// `check`: whom a proof convicts, in a file of its own or in a bundle.
    Check(Style),
    /// `bundle`: a proof to hand over, in one file with its directory.
    Bundle,
    /// `split`: the parts of stores, each as a store.
    Split(Dealing),
    /// `play`: what a scenario leaves.
    Play,
}

/// A question to files, which one text answers. If the answer may be in lines or in JSON, the question says in which style.
#[derive(Clone, Copy)]
pub enum Query {
    /// `status`: what stores say of each of these nodes.
    Status(Scope, Style),
    /// `merge`: the union of stores.
    Merge,
    /// `prove`: a proof that exposes the node.
    Prove(NodeId),
    /// `check`: whom a proof convicts.
    Check(Style),
    /// `explain`: what evidence says, for a person to read. The flag asks for a page, else there are sentences.
    Explain(Subject, bool),
    /// `show`: what a file is.
    Show(Style),
}

/// What is explained.
#[derive(Clone, Copy)]
pub enum Subject {
    /// Stores.
    Stores,
    /// A proof.
    Proof,
    /// A directory.
    Directory,
}

/// What was asked for. The words are lent.
#[derive(Drop)]
pub struct Request<'a> {
    /// The command.
    pub task: Task,
    /// The program that the nodes were to follow, if it was named.
    pub program: Option<ProgramName>,
    /// How many workers check, if the words say so.
    pub workers: Option<u32>,
    /// The most bytes of a file.
    pub most_bytes: u64,
    /// The names of the files. That of the directory comes first, if one is read.
    pub paths: Vec<&'a str>,
    /// The name of the file that is written. `None` or `-` is standard output. For `split` it is what the names of the files begin with.
    pub output: Option<&'a str>,
}

/// What the words ask for.
pub enum Asked<'a> {
    /// A command.
    Run(Request<'a>),
    /// Memory ran out while the words were read.
    Refused,
    /// The words have a fault, or ask for help. The text about it is on standard error.
    Other,
}

/// Returns the words of the command line. If they cannot be had, it returns how the program ends.
pub fn words_of(rt: &HostRuntime) -> Result<Vec<String>, ExitCode> {
    match all_words(rt) {
        Ok(words) => Ok(words),
        Err(error) => {
            let _ = eprintln!(rt; "error: the words of the command line: {error}");
            Err(ExitCode::from(2))
        }
    }
}

fn all_words(rt: &HostRuntime) -> io::Result<Vec<String>> {
    let words = std::env::args(rt)?.collect(rt.alloc())?;
    Ok(words)
}

/// Reads the words. It writes on standard error what is wrong with them.
pub fn read_words<'a>(rt: &HostRuntime, words: &'a [String]) -> Asked<'a> {
    match parsed(rt.alloc(), words) {
        Ok(Some(request)) => Asked::Run(request),
        Ok(None) => {
            let _ = eprintln!(rt;
                "error: --part must be k/K, where K is 1 to 1024, and k is less than K"
            );
            Asked::Other
        }
        Err(error) if error.kind() == ErrorKind::OutOfMemory => Asked::Refused,
        Err(error) => {
            let _ = eprint!(rt; "{error}");
            Asked::Other
        }
    }
}

/// Returns the shard of the words `k/K`.
fn shard_of(words: &str) -> Option<Scope> {
    let (number, count) = words.split_once('/')?;
    let number = number.parse::<u32>().ok()?;
    let shards = Shards::new(count.parse::<u32>().ok()?)?;
    if number >= shards.count() {
        return None;
    }
    Some(Scope::Shard(shards, number))
}

/// Returns the nodes that are asked of, or `None` if the words name no shard.
fn scope_of(options: &ArgMatches<'_>) -> Option<Scope> {
    match options.get_str("part") {
        Some(words) => shard_of(words),
        None => Some(Scope::All),
    }
}

/// Returns how items are dealt to parts. It returns `None` if the number of parts is missing, which clap refuses before.
fn dealing_of(options: &ArgMatches<'_>) -> Option<Dealing> {
    let shards = Shards::new(options.get_one::<u32>("parts")?)?;
    if options.get_flag("extract") {
        Some(Dealing::Extracts(shards))
    } else {
        Some(Dealing::ByNode(shards))
    }
}

/// Returns the command with this name. It returns `None` if `--part` names no shard. It does so too if the name is unknown or a number is missing,
/// which clap refuses before.
fn task_of(name: &str, options: &ArgMatches<'_>) -> Option<Task> {
    match name {
        "check" => Some(Task::Check(style_of(options))),
        "bundle" => Some(Task::Bundle),
        "split" => Some(Task::Split(dealing_of(options)?)),
        "play" => Some(Task::Play),
        _ => Some(Task::Ask(query_of(name, options)?)),
    }
}

fn query_of(name: &str, options: &ArgMatches<'_>) -> Option<Query> {
    match name {
        "status" => Some(Query::Status(scope_of(options)?, style_of(options))),
        "merge" => Some(Query::Merge),
        "prove" => match options.get_one::<u32>("NODE") {
            Some(node) => Some(Query::Prove(NodeId(node))),
            None => None,
        },
        "explain" => {
            let is_page = options.get_str("html").is_some();
            Some(Query::Explain(subject_of(options), is_page))
        }
        "show" => Some(Query::Show(style_of(options))),
        _ => None,
    }
}

/// Returns the program that was named. Clap takes no other word than a name.
fn program_of(options: &ArgMatches<'_>) -> Option<ProgramName> {
    let name = options.get_str("program")?;
    ProgramName::of(name.as_bytes())
}

/// Returns what is explained: a proof or stores if they are named, else a directory.
fn subject_of(options: &ArgMatches<'_>) -> Subject {
    if options.get_str("proof").is_some() {
        Subject::Proof
    } else if options.get_strs("STORE").is_some() {
        Subject::Stores
    } else {
        Subject::Directory
    }
}

fn style_of(options: &ArgMatches<'_>) -> Style {
    if options.get_flag("json") {
        Style::Json
    } else {
        Style::Lines
    }
}

/// Returns the names of a command's files, the directory's first.
fn paths_of<'a>(alloc: Global, options: &ArgMatches<'a>) -> Result<Vec<&'a str>, AllocError> {
    let mut paths = Vec::new(alloc);
    for name in ["directory", "STORE", "PROOF", "proof", "FILE", "SCENARIO"] {
        add_paths(&mut paths, options, name)?;
    }
    Ok(paths)
}

fn add_paths<'a>(
    paths: &mut Vec<&'a str>,
    options: &ArgMatches<'a>,
    name: &str,
) -> Result<(), AllocError> {
    let Some(values) = options.get_strs(name) else {
        return Ok(());
    };
    for value in values {
        paths.push(*value)?;
    }
    Ok(())
}

/// Returns what the words ask for, if clap takes them. It returns `None` if `task_of` does.
fn parsed<'a>(alloc: Global, words: &'a [String]) -> Result<Option<Request<'a>>, Error> {
    let matches = command(alloc)?.try_get_matches_from(words)?;
    let Some((name, options)) = matches.subcommand() else {
        return Ok(None);
    };
    let Some(task) = task_of(name, options) else {
        return Ok(None);
    };
    Ok(Some(Request {
        task,
        program: program_of(options),
        workers: options.get_one::<u32>("workers"),
        most_bytes: options.get_one::<u64>("most").unwrap_or(u64::MAX),
        paths: paths_of(alloc, options)?,
        output: options.get_str("html").or(options.get_str("output")),
    }))
}
