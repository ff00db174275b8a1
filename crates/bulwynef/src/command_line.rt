//! The commands and their options, with their help texts, as `clap` reads them.

use crate::programs::NAMES;
use clap::{Arg, ArgAction, Command, value_parser};
use parallel_checking::MOST_WORKERS;
use shards::MOST_SHARDS;
use std::alloc::{AllocError, Global};

/// Returns the option that names the directory's file.
fn directory<'a>(alloc: Global) -> Arg<'a> {
    Arg::new(alloc, "directory")
        .long("directory")
        .value_name("FILE")
        .help("The directory of the nodes and their keys")
}

/// Returns the words that name the stores' files.
fn stores<'a>(alloc: Global) -> Arg<'a> {
    Arg::new(alloc, "STORE")
        .action(ArgAction::Append)
        .num_args(1..)
        .required(true)
        .help("A store of evidence, as a witness exports it")
}

/// Returns the word that names one file.
fn file<'a>(alloc: Global, name: &'a str, help: &'a str) -> Arg<'a> {
    Arg::new(alloc, name).required(true).help(help)
}

/// Returns the word that is the number of a node.
fn node<'a>(alloc: Global) -> Arg<'a> {
    Arg::new(alloc, "NODE")
        .required(true)
        .value_parser(value_parser!(u32))
        .help("The number of the node, in decimal digits")
}

/// Returns the option that says where the answer is written.
fn output<'a>(alloc: Global) -> Arg<'a> {
    Arg::new(alloc, "output")
        .long("output")
        .value_name("FILE")
        .default_value("-")
        .help(
            "The file to write. It takes its name once it is whole. A pipe or a device is written to, and - is standard output",
        )
}

/// Returns the option that names the program that the nodes were to follow.
fn program<'a>(alloc: Global, help: &'a str) -> Arg<'a> {
    Arg::new(alloc, "program")
        .long("program")
        .value_name("NAME")
        .value_parser(NAMES.as_slice())
        .help(help)
}

/// The help of the program's option, for commands that give a verdict.
const JUDGED_BY: &str = "The program that the nodes were to follow. It must be named";

/// The help of the options states these two limits.
const _: () = prove!(MOST_WORKERS == 8);

const _: () = prove!(MOST_SHARDS == 1024);

/// Returns the option that asks for JSON.
fn json<'a>(alloc: Global) -> Arg<'a> {
    Arg::new(alloc, "json")
        .long("json")
        .action(ArgAction::SetTrue)
        .help("Writes the answer as one document of JSON, for programs")
}

/// Returns the option that says how many workers check.
fn workers<'a>(alloc: Global) -> Arg<'a> {
    Arg::new(alloc, "workers")
        .long("workers")
        .value_name("N")
        .value_parser(value_parser!(u32).range(1..=MOST_WORKERS as i64))
        .help(
            "The number of workers that check the items: 1 to 8. Without it there are as many as processors, and at most 8",
        )
}

/// Returns the option that says how many bytes a file may have.
fn most<'a>(alloc: Global) -> Arg<'a> {
    Arg::new(alloc, "most")
        .long("most")
        .value_name("BYTES")
        .value_parser(value_parser!(u64))
        .default_value("1099511627776")
        .help("The greatest number of bytes that a file may have. A longer one is refused")
}

/// What the help says of a command that reads a directory.
#[derive(Clone, Copy)]
struct Texts<'a> {
    about: &'a str,
    example: &'a str,
    program: &'a str,
}

/// Returns a command that reads a directory.
fn reading<'a>(alloc: Global, name: &'a str, texts: Texts<'a>) -> Result<Command<'a>, AllocError> {
    Command::new(alloc, name)
        .about(texts.about)
        .after_help(texts.example)
        .arg(directory(alloc).required(name != "check"))?
        .arg(program(alloc, texts.program))?
        .arg(most(alloc))
}

fn status<'a>(alloc: Global) -> Result<Command<'a>, AllocError> {
    reading(
        alloc,
        "status",
        Texts {
            about: "Writes what each node is: trusted, suspected or exposed. Ends with 3 if somebody is exposed. Writes the program and the SHA-256 value of the directory to standard error",
            example: "Example: bulwynef status --program tally --directory nodes.dir first.store second.store",
            program: JUDGED_BY,
        },
    )?
    .override_usage("bulwynef status [OPTIONS] --program <NAME> --directory <FILE> <STORE>...")
    .arg(json(alloc))?
    .arg(part(alloc))?
    .arg(workers(alloc))?
    .arg(stores(alloc))
}

/// Returns the option that names the shard whose nodes are asked of.
fn part<'a>(alloc: Global) -> Arg<'a> {
    Arg::new(alloc, "part").long("part").value_name("k/K").help(
        "Writes only the nodes of shard k of K, as split deals them. Of other nodes a shard's store may say something else than all evidence does",
    )
}

/// Returns the option that says how many parts there are.
fn parts<'a>(alloc: Global) -> Arg<'a> {
    Arg::new(alloc, "parts")
        .long("parts")
        .value_name("K")
        .required(true)
        .value_parser(value_parser!(u32).range(1..=MOST_SHARDS as i64))
        .help(
            "The number of shards, K: 1 to 1024. Shard k has the nodes whose numbers leave the rest k when they are divided by K. Its part has the items that name such a node",
        )
}

/// Returns the option that says with what the names of the files begin that are written.
fn prefix<'a>(alloc: Global) -> Arg<'a> {
    Arg::new(alloc, "output")
        .long("output")
        .value_name("PREFIX")
        .required(true)
        .help(
            "What the names of the files begin with. The part of shard k is written to PREFIX.k-of-K",
        )
}

/// Returns the option that sends quotes to shards in place of the segments that quote.
fn extract<'a>(alloc: Global) -> Result<Arg<'a>, AllocError> {
    Arg::new(alloc, "extract")
        .long("extract")
        .action(ArgAction::SetTrue)
        .help(
            "Gives a segment to the shard of its own node alone. What it quotes of nodes of other shards goes to those shards, as statements, if it verifies under the directory",
        )
        .requires_arg("directory")
}

fn split<'a>(alloc: Global) -> Result<Command<'a>, AllocError> {
    Command::new(alloc, "split")
        .about(
            "Deals the items of stores to shards. Writes the part of each shard as a store, and a line `k/K ITEMS` for each. Checks no item",
        )
        .after_help("Example: bulwynef split --parts 64 --output first first.store")
        .arg(parts(alloc))?
        .arg(extract(alloc)?)?
        .arg(directory(alloc).requires_arg("extract")?)?
        .arg(prefix(alloc))?
        .arg(most(alloc))?
        .arg(stores(alloc))
}

fn merge<'a>(alloc: Global) -> Result<Command<'a>, AllocError> {
    reading(
        alloc,
        "merge",
        Texts {
            about: "Writes one store with the items of all stores. It is the same under any program",
            example: "Example: bulwynef merge --directory nodes.dir --output all.store first.store second.store",
            program: "The program that the nodes were to follow. It makes no difference here",
        },
    )?
    .arg(workers(alloc))?
    .arg(output(alloc))?
    .arg(stores(alloc))
}

fn prove<'a>(alloc: Global) -> Result<Command<'a>, AllocError> {
    reading(
        alloc,
        "prove",
        Texts {
            about: "Writes a proof that exposes the node. Ends with 4 if there is none. Writes the program and the SHA-256 value of the directory to standard error",
            example: "Example: bulwynef prove --program tally --directory nodes.dir 2 --output two.proof all.store",
            program: JUDGED_BY,
        },
    )?
    .override_usage(
        "bulwynef prove [OPTIONS] --program <NAME> --directory <FILE> <NODE> <STORE>...",
    )
    .arg(workers(alloc))?
    .arg(output(alloc))?
    .arg(node(alloc))?
    .arg(stores(alloc))
}

fn check<'a>(alloc: Global) -> Result<Command<'a>, AllocError> {
    reading(
        alloc,
        "check",
        Texts {
            about: "Writes which node a proof exposes, and under which program and directory. Ends with 5 if a bundle has another program or directory than those named",
            example: "Example: bulwynef check --program tally --directory nodes.dir two.proof",
            program: "The program that the nodes were to follow. It must be named, unless the file is a bundle, which names one",
        },
    )?
    .arg(json(alloc))?
    .arg(file(
        alloc,
        "PROOF",
        "A proof, as prove writes it, or a bundle. The directory and the program of a bundle are its own, unless others are named",
    ))
}

/// Returns the option that names a proof that is explained.
fn explained_proof<'a>(alloc: Global) -> Result<Arg<'a>, AllocError> {
    Arg::new(alloc, "proof")
        .long("proof")
        .value_name("PROOF")
        .help("A proof, as prove writes it, in place of stores")
        .conflicts_with("STORE")
}

/// Returns the option that says where a page is written.
fn page<'a>(alloc: Global) -> Result<Arg<'a>, AllocError> {
    Arg::new(alloc, "html")
        .long("html")
        .value_name("FILE")
        .help(
            "Writes a page with a picture to this file, in place of the text. The page needs no other file",
        )
        .conflicts_with("output")
}

fn explain<'a>(alloc: Global) -> Result<Command<'a>, AllocError> {
    reading(
        alloc,
        "explain",
        Texts {
            about: "Writes for a person what stores or a proof say of nodes, and why. If neither is named, it writes which keys the directory lists. Ends with 3 if somebody is exposed",
            example: "Example: bulwynef explain --program tally --directory nodes.dir --html all.html first.store second.store",
            program: "The program that the nodes were to follow. It must be named, unless a directory alone is explained",
        },
    )?
    .arg(workers(alloc))?
    .arg(explained_proof(alloc)?)?
    .arg(page(alloc)?)?
    .arg(output(alloc))?
    .arg(stores(alloc).required(false))
}

fn bundle<'a>(alloc: Global) -> Result<Command<'a>, AllocError> {
    reading(
        alloc,
        "bundle",
        Texts {
            about: "Writes a bundle: a proof to hand over, in one file with its directory",
            example: "Example: bulwynef bundle --program tally --directory nodes.dir two.proof --output two.bundle",
            program: JUDGED_BY,
        },
    )?
    .override_usage("bulwynef bundle [OPTIONS] --program <NAME> --directory <FILE> <PROOF>")
    .arg(output(alloc))?
    .arg(file(alloc, "PROOF", "A proof, as prove writes it"))
}

fn show<'a>(alloc: Global) -> Result<Command<'a>, AllocError> {
    Command::new(alloc, "show")
        .about("Writes what a file is and what is in it, and checks nothing")
        .after_help("Example: bulwynef show all.store")
        .arg(json(alloc))?
        .arg(most(alloc))?
        .arg(file(
            alloc,
            "FILE",
            "A directory, a store, a summary, an outline, a pack, a proof or an item",
        ))
}

fn play<'a>(alloc: Global) -> Result<Command<'a>, AllocError> {
    Command::new(alloc, "play")
        .about(
            "Plays a scenario, and writes the directory of its nodes and the store of each witness",
        )
        .after_help("Example: bulwynef play scenario.txt --output played")
        .arg(
            Arg::new(alloc, "output")
                .long("output")
                .value_name("FOLDER")
                .required(true)
                .help(
                    "The folder to make, with nodes.dir, witness.0.store and so on. It takes its name once it is whole",
                ),
        )?
        .arg(program(alloc, "The program that the nodes run").default_value(NAMES[0]))?
        .arg(workers(alloc))?
        .arg(most(alloc))?
        .arg(file(
            alloc,
            "SCENARIO",
            "What nodes and witnesses do, in lines of words",
        ))
}

/// Returns the command of the whole program, with all its subcommands.
pub fn command<'a>(alloc: Global) -> Result<Command<'a>, AllocError> {
    Command::new(alloc, "bulwynef")
        .about(
            "Reports what signed evidence in files says of nodes. A file is bytes, or lines of hexadecimal digits. - is standard input",
        )
        .subcommand_required(true)
        .arg_required_else_help(true)
        .subcommand(status(alloc)?)?
        .subcommand(merge(alloc)?)?
        .subcommand(prove(alloc)?)?
        .subcommand(check(alloc)?)?
        .subcommand(explain(alloc)?)?
        .subcommand(bundle(alloc)?)?
        .subcommand(split(alloc)?)?
        .subcommand(show(alloc)?)?
        .subcommand(play(alloc)?)
}
