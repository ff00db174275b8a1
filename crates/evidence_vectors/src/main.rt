//! Compares what the library makes of items and of stores of evidence with what other code makes of the same bytes.
//!
//! Standard input has lines `directory HEX`. After each of them come lines of four kinds. Each line is answered anew, and a line about stores is
//! answered by each kind of store.
//! - `tally ITEM ANSWER` and `relay ITEM ANSWER`: an item is decoded, and checked under the program of that name. The item is in hexadecimal
//!   digits, or `-` if it has no bytes. The answer is `refused NUMBER NAME`, `valid` (for an item that is no segment), `conforms`, or
//!   `deviates PLACE NUMBER NAME`.
//! - `store ITEMS ITEMS ANSWER`: the items that two witnesses took, in this order. Each is in hexadecimal digits, and commas stand between them.
//!   A witness that took none has `-`. The first store merges the second, and the second imports the export of the first. Then each of them
//!   gives the answer: `COUNT`, for each node of the directory `NODE INDICATION OPEN CONVICTED`, and the SHA-256 of its export. `OPEN` is how
//!   many challenges against the node are open. `CONVICTED` is the node that the store's proof convicts, or `-`.
//! - `cuts ITEMS TEXT PLACE`: the items that a store has, and the encoding of two items, of which the first ends at this place. The store
//!   refuses each beginning of the encoding, the encoding with a byte more, and the encoding with its items in the other order. It stays as it
//!   was.
#![tactic(auto)]

ghost use Rattle.std.specs.Prelude.{◌≡◌, ◌+◌, ◌-◌, ◌^◌, if◌then◌else◌, min};

mod answers;
mod cuts;
mod filling;
mod items;

use anyhow::{Result, bail};
use authenticators::Directory;
use evidence_store::{Evidence, IndexedStore, PlainStore};
use ref_programs::{Relay, Tally};
use std::alloc::Global;
use std::io::{self, BufRead, BufReader};

/// Returns whether a store answers a line about stores as the line says.
fn store_agrees<S: Evidence<Tally>>(
    alloc: Global,
    directory: &Directory,
    word: &str,
    rest: &str,
) -> Result<bool> {
    match word {
        "store" => answers::agrees::<S>(alloc, directory, rest),
        "cuts" => cuts::agrees::<S>(alloc, directory, rest),
        _ => bail!("no such line"),
    }
}

/// Returns whether each kind of store does. It fails if one kind does and another does not.
fn stores_agree(alloc: Global, directory: &Directory, word: &str, rest: &str) -> Result<bool> {
    let plain = store_agrees::<PlainStore<Tally>>(alloc, directory, word, rest)?;
    let indexed = store_agrees::<IndexedStore<Tally>>(alloc, directory, word, rest)?;
    if plain != indexed {
        bail!("two kinds of stores differ");
    }
    Ok(plain)
}

/// Returns whether the line is answered as it says.
fn agrees(alloc: Global, directory: &Directory, word: &str, rest: &str) -> Result<bool> {
    match word {
        "tally" => items::agrees(alloc, &Tally, directory, rest),
        "relay" => items::agrees(alloc, &Relay, directory, rest),
        _ => stores_agree(alloc, directory, word, rest),
    }
}

/// Returns the directory that the digits spell.
fn directory_of(alloc: Global, digits: &str) -> Result<Directory> {
    let bytes = hex::decode(alloc, digits)?;
    Ok(Directory::from_bytes(alloc, &bytes)?)
}

/// How many lines are answered as they say, and how many otherwise.
#[derive(Clone, Copy)]
struct Counts {
    agreed: u32,
    differed: u32,
}

impl Counts {
    /// Returns the counts with one answer more.
    fn with(self, agrees: bool) -> Counts
        ensures agreed { result.agreed ≡ (if agrees then min (self.agreed + 1) (2 ^ 32 - 1) else self.agreed) }
        ensures differed { result.differed ≡ (if agrees then self.differed else min (self.differed + 1) (2 ^ 32 - 1)) }
    {
        let (agreed, differed) = if agrees { (1, 0) } else { (0, 1) };
        Counts {
            agreed: self.agreed.saturating_add(agreed),
            differed: self.differed.saturating_add(differed),
        }
    }
}

/// Answers the lines in order, and counts how many are answered as they say. It leaves out lines without a blank, and those that begin with `#
/// `.
fn answer_lines(rt: &HostRuntime) -> Result<Counts> {
    let alloc = rt.alloc();
    let mut directory = Directory::new(alloc);
    let mut counts = Counts {
        agreed: 0,
        differed: 0,
    };
    for line in BufReader::new(alloc, rt.reader())?.lines(alloc) {
        let line = line?;
        let Some((word, rest)) = line.as_str().split_once(' ') else {
            continue;
        };
        match word {
            "#" => {}
            "directory" => directory = directory_of(alloc, rest)?,
            word => counts = counts.with(agrees(alloc, &directory, word, rest)?),
        }
    }
    Ok(counts)
}

fn main(rt: HostRuntime) -> Result<()> {
    let Counts { agreed, differed } = answer_lines(&rt)?;
    println!(rt; "{agreed} lines are answered as told, {differed} otherwise")?;
    Ok(())
}
