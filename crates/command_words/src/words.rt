//! The words of the command line. `clap` reads them.

ghost use Rattle.std.specs.Prelude.{◌≡◌, ◌≢◌, codes, false, true, IfOk, IfSome, None, Some, map};
ghost use Rattle.std.specs.String.{string_bytes};
ghost use Rattle.clap.specs.Words.{FailsBy, app_of, found_of, is_simple_and_free, rows_of, rule_of};
ghost use Rattle.command_words.specs.CommandLine.{AsksFor, Names, alone, flag_in, flag_name, flag_of, flag_rule, node, plain, program_of, prove, run, with_flag, word_faults, workers};
ghost use Rattle.commands.specs.declared.fault.Fault.{Fault};
ghost use Rattle.commands.specs.declared.fault.Fault.TheVariants.{Memory};
ghost use Rattle.command_words.specs.declared.words.Asked.TheVariants.{Refused};

use authenticators::NodeId;
use clap::error::ErrorKind;
use clap::{Arg, ArgAction, ArgMatches, Command, Error, value_parser};
use commands::fault::Fault;
use commands::task::Task;
use parallel_checking::MOST_WORKERS;
use std::alloc::{AllocError, Global};
use std::io;

/// A flag of a program's own, which each of its commands takes. With it, the nodes run another program.
#[derive(Clone, Copy, Debug)]
pub struct Flag<'a> {
    /// Its name, without the dashes.
    pub name: &'a str,
    /// What the help says of it.
    pub help: &'a str,
}

/// A command, and whether it was asked for with the flag.
#[derive(Clone, Copy, Debug)]
pub struct Request {
    /// The command.
    pub task: Task,
    /// Whether the flag is among its words.
    pub flagged: bool,
}

/// What the words ask for.
pub enum Asked {
    /// A command.
    Run(Request),
    /// Memory ran out while the words were read.
    Refused(Fault),
    /// The words have a fault, or they ask for help. Clap's text, or the error of reading the words, went to standard error.
    Other,
}

/// Reads the words of the command line of the program with this name, which has this flag or none.
pub fn read_words(rt: &HostRuntime, program: &str, flag: Option<Flag>) -> Asked
    requires simple { is_simple_and_free (program_of program.now (flag_name flag)) ≡ true }
    ensures { (f : Fault) → result ≡ Refused f → f ≡ Memory }
{
    let alloc = rt.alloc();
    let words = match words_of(rt) {
        Ok(words) => words,
        Err(error) if error.kind() == io::ErrorKind::OutOfMemory => {
            return Asked::Refused(Fault::Memory);
        }
        Err(error) => {
            let _ = eprintln!(rt; "error: the words of the command line: {error}");
            return Asked::Other;
        }
    };
    match parsed(alloc, program, flag, words.as_slice()) {
        Ok(Some(request)) => Asked::Run(request),
        Ok(None) => Asked::Other,
        Err(error) if error.kind() == ErrorKind::OutOfMemory => Asked::Refused(Fault::Memory),
        Err(error) => {
            let _ = eprint!(rt; "{error}");
            Asked::Other
        }
    }
}

fn words_of(rt: &HostRuntime) -> io::Result<Vec<String>> {
    let words = std::env::args(rt)?.collect(rt.alloc())?;
    Ok(words)
}

/// Returns the flag, as an argument.
fn flag_arg<'a>(alloc: Global, flag: Flag<'a>) -> Arg<'a>
    ensures rule { rule_of result ≡ flag_rule flag.entry.name.now }
    ensures local { result.global ≡ false }
{
    Arg::new(alloc, flag.name)
        .long(flag.name)
        .action(ArgAction::SetTrue)
        .help(flag.help)
}

/// Returns the command with the flag, if there is one.
fn with_flag<'a>(
    alloc: Global,
    command: Command<'a>,
    flag: Option<Flag<'a>>,
) -> Result<Command<'a>, AllocError>
    ensures { IfOk result (λ c. app_of c ≡ with_flag (flag_name flag.entry) (app_of command.entry)) }
{
    match flag {
        Some(flag) => command.arg(flag_arg(alloc, flag)),
        None => Ok(command),
    }
}

/// Returns the argument with the number of a node.
fn node<'a>(alloc: Global) -> Arg<'a>
    ensures rule { rule_of result ≡ node }
    ensures local { result.global ≡ false }
{
    Arg::new(alloc, "NODE")
        .required(true)
        .value_parser(value_parser!(u32))
        .help("The number of the node, in decimal digits")
}

/// The help of the option names this number.
const _: () = prove!(MOST_WORKERS == 8);

/// Returns the option that says how many workers check.
fn workers<'a>(alloc: Global) -> Arg<'a>
    ensures rule { rule_of result ≡ workers }
    ensures local { result.global ≡ false }
{
    Arg::new(alloc, "workers")
        .long("workers")
        .value_name("N")
        .value_parser(value_parser!(u32).range(1..=MOST_WORKERS as i64))
        .default_value("1")
        .help("How many workers check the items: 1 to 8")
}

/// Returns the program's command, without those beneath it.
fn alone<'a>(alloc: Global, program: &'a str) -> Command<'a>
    ensures { app_of result ≡ alone program.entry.now }
{
    Command::new(alloc, program)
        .about(
            "Tells what signed evidence says of nodes. Reads lines from standard input: of a scenario for run, of hexadecimal digits for the others",
        )
        .subcommand_required(true)
        .arg_required_else_help(true)
}

/// Returns a command with the flag alone.
fn plain<'a>(
    alloc: Global,
    flag: Option<Flag<'a>>,
    name: &'a str,
    about: &'a str,
) -> Result<Command<'a>, AllocError>
    ensures { IfOk result (λ c. app_of c ≡ plain (flag_name flag.entry) name.entry.now) }
{
    with_flag(alloc, Command::new(alloc, name).about(about), flag)
}

/// Returns the command `prove`.
fn prove<'a>(alloc: Global, flag: Option<Flag<'a>>) -> Result<Command<'a>, AllocError>
    ensures { IfOk result (λ c. app_of c ≡ prove (flag_name flag.entry)) }
{
    let command = Command::new(alloc, "prove")
        .about("Writes a proof that the node misbehaved, or none. Two lines: a directory, a store")
        .arg(node(alloc))?;
    with_flag(alloc, command, flag)
}

/// Returns the command `run`.
fn run<'a>(alloc: Global, flag: Option<Flag<'a>>) -> Result<Command<'a>, AllocError>
    ensures { IfOk result (λ c. app_of c ≡ run (flag_name flag.entry)) }
{
    let command = Command::new(alloc, "run")
        .about(
            "Plays a scenario before its witnesses, and writes what each of them tells of each node. Lines: those of a scenario",
        )
        .arg(workers(alloc))?;
    with_flag(alloc, command, flag)
}

/// Returns the program's command.
fn command<'a>(
    alloc: Global,
    program: &'a str,
    flag: Option<Flag<'a>>,
) -> Result<Command<'a>, AllocError>
    ensures { IfOk result (λ c. app_of c ≡ program_of program.entry.now (flag_name flag.entry)) }
{
    let status = plain(
        alloc,
        flag,
        "status",
        "Writes what each node is: trusted, suspected or exposed. Two lines: a directory, a store",
    )?;
    let merge = plain(
        alloc,
        flag,
        "merge",
        "Writes the store of all items of stores. A line for the directory, and one for each store",
    )?;
    let check = plain(
        alloc,
        flag,
        "check",
        "Writes which node a proof exposes. Two lines: a directory, a proof",
    )?;
    alone(alloc, program)
        .subcommand(status)?
        .subcommand(merge)?
        .subcommand(prove(alloc, flag)?)?
        .subcommand(check)?
        .subcommand(run(alloc, flag)?)
}

/// Returns the task of a command's name. Returns `None` if the name is unknown or its number is missing. Clap has refused both before.
fn task_of(name: &str, options: &ArgMatches<'_>) -> Option<Task>
    ensures named { IfSome result (Names name.now (rows_of (found_of options.now))) }
    ensures only { (t : Task) → Names name.now (rows_of (found_of options.now)) t → result ≡ Some t }
{
    match name {
        "status" => Some(Task::Status),
        "merge" => Some(Task::Merge),
        "prove" => match options.get_one::<u32>("NODE") {
            Some(node) => Some(Task::Prove(NodeId(node))),
            None => None,
        },
        "check" => Some(Task::Check),
        "run" => match options.get_one::<u32>("workers") {
            Some(workers) => Some(Task::Run(workers)),
            None => None,
        },
        _ => None,
    }
}

/// Returns whether the flag is among the command's words.
fn is_flagged(options: &ArgMatches<'_>, flag: Option<Flag>) -> bool
    ensures on { flag_of (flag_name flag.entry) (rows_of (found_of options.now)) ≡ Some (codes "true") → result ≡ true }
    ensures off { flag_of (flag_name flag.entry) (rows_of (found_of options.now)) ≡ Some (codes "false") → result ≡ false }
{
    match flag {
        Some(flag) => options.get_flag(flag.name),
        None => false,
    }
}

/// Returns what the words ask for, if clap takes them. Returns `None` if they name no command, which clap has refused before.
fn parsed(
    alloc: Global,
    program: &str,
    flag: Option<Flag>,
    words: &[String],
) -> Result<Option<Request>, Error>
    requires simple { is_simple_and_free (program_of program.now (flag_name flag)) ≡ true }
    ensures faults { FailsBy (word_faults program.now (flag_name flag.entry) (map string_bytes words.now)) result }
    // The task is the one that clap finds, and the flag is taken if clap finds it.
    ensures task { IfOk result (λ r. IfSome r (λ q. AsksFor program.now (flag_name flag.entry) (map string_bytes words.now) q.task)) }
    ensures flagged { IfOk result (λ r. IfSome r (λ q. flag_in program.now (flag_name flag.entry) (map string_bytes words.now) ≡ Some (codes "true") → q.flagged ≡ true)) }
    ensures plain { IfOk result (λ r. IfSome r (λ q. flag_in program.now (flag_name flag.entry) (map string_bytes words.now) ≡ Some (codes "false") → q.flagged ≡ false)) }
    // What clap finds is not passed over.
    ensures found { (t : Task) → AsksFor program.now (flag_name flag.entry) (map string_bytes words.now) t → IfOk result (λ r. r ≢ None) }
{
    let matches = command(alloc, program, flag)?.try_get_matches_from(words)?;
    let Some((name, options)) = matches.subcommand() else {
        return Ok(None);
    };
    let Some(task) = task_of(name, options) else {
        return Ok(None);
    };
    let flagged = is_flagged(options, flag);
    Ok(Some(Request { task, flagged }))
}
