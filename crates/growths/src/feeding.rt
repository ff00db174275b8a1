//! The scene of an export that comes in pieces.
//!
//! After a refusal the importer returns the same refusal to every call. So the call is not made again. The line `then` has what it returns for
//! an empty piece, `finish` what it returns at the end, and `after` what the store has.

use crate::samples::{directory_of, first_store, second_store};
use crate::told::{Turn, say_store};
use anyhow::{Result, bail};
use containers::ImportFault;
use evidence_store::{Evidence, Importer};
use ref_programs::Tally;

/// How many bytes of the text are fed before the call: those of its head, of its first item, and of a part of the second one.
const FRONT: usize = 9_000;

/// Writes what the importer returned for a piece.
fn say_fed(rt: &HostRuntime, word: &str, fed: Result<(), ImportFault>) -> Result<()> {
    match fed {
        Ok(()) => println!(rt; "{word} ok")?,
        Err(ImportFault { item, cause }) => {
            let (number, name) = (cause.number(), cause.name());
            println!(rt; "{word} refused {number} {name} {item}")?;
        }
    }
    Ok(())
}

/// Writes what the importer returned at the end of the text.
fn say_finished(rt: &HostRuntime, finished: Result<u64, ImportFault>) -> Result<()> {
    match finished {
        Ok(new) => {
            println!(rt; "finish ok {new}")?;
            Ok(())
        }
        Err(fault) => say_fed(rt, "finish", Err(fault)),
    }
}

/// Feeds the text in two pieces. The call is the feeding of the second piece.
fn feed_text<S: Evidence<Tally>>(rt: &HostRuntime, store: &mut S, text: &[u8]) -> Result<()> {
    let Ok(mut importer) = Importer::new(rt.alloc(), store.directory().try_clone()?) else {
        bail!("memory ran out");
    };
    let (front, rest) = text.split_at(text.len().min(FRONT));
    importer.feed(&Tally, front)?;
    Turn::First.begin(rt.alloc())?;
    let fed = importer.feed(&Tally, rest);
    Turn::First.end(rt.alloc());
    say_fed(rt, "answer", fed)?;
    say_fed(rt, "then", importer.feed(&Tally, &[]))?;
    let finished = importer.finish(&Tally, store);
    say_finished(rt, finished)
}

/// Plays `feed` of the rest of a text. The piece before ended within the second item.
pub fn feed<S: Evidence<Tally>>(rt: &HostRuntime) -> Result<()> {
    let directory = directory_of(rt.alloc())?;
    let other: Box<S> = second_store(rt.alloc(), &directory)?;
    let mut store: Box<S> = first_store(rt.alloc(), &directory)?;
    let text = other.export()?;
    say_store::<S>(rt, "before", &store)?;
    feed_text::<S>(rt, &mut store, &text)?;
    say_store::<S>(rt, "after", &store)
}
