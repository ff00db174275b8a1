//! The engine of `show`, which writes what a file is and what is in it. It checks nothing.

ghost use Rattle.std.specs.Prelude.{IfOk, Ok};
ghost use Rattle.operating.specs.declared.asking.Ending.TheVariants as ending;
ghost use Rattle.operating.specs.Operating.{HasRoom, RanOnFile};
ghost use Rattle.operating.specs.Questions.{Show};

use crate::asking::{Ending, write};
use crate::files::{Limits, Opener};
use crate::reading::read_said;
use crate::refusal::Refusal;
use answers::{Style, shown_of};
use commands::device::Sink;
use commands::fault::Fault;
use std::alloc::{AllocError, Global};

/// Returns what a text is and what is in it, written in this style.
fn shown_text(alloc: Global, style: Style, text: &[u8]) -> Result<Vec<u8>, AllocError>
    ensures { IfOk result (λ shown. Show style text.now (Ok (shown.items, ending.Done))) }
{
    let shown = shown_of(alloc, text)?;
    let written = shown.write(alloc, style)?;
    Ok(written)
}

/// Reads file 0, and writes in this style what it is and what is in it. It checks nothing of it. It writes nothing else, and it writes
/// once, after everything has been decided.
pub fn run<O: Opener, W: Sink>(
    alloc: Global,
    style: Style,
    opener: &mut O,
    limits: Limits,
    writer: &mut W,
) -> Result<Ending, Refusal>
    requires room { HasRoom 0 (O.seen opener.old) (W.seen writer.old) }
    ensures { RanOnFile style limits.most_bytes result (O.seen opener.old) (O.seen opener.new) W.seen writer.old writer.new }
{
    let text = read_said(alloc, opener, 0, None, limits)?;
    let shown = match shown_text(alloc, style, &text) {
        Ok(shown) => shown,
        Err(_) => return Err(Refusal::of_none(Fault::Memory)),
    };
    write(writer, &shown)?;
    Ok(Ending::Done)
}
