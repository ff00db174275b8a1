//! The explanation of a directory: what it lists.

ghost use Rattle.std.specs.Prelude.{◌≡◌, IfOk, true};
ghost use Rattle.page_text.specs.Pages.{IsPage};
ghost use Rattle.operating.specs.FileTexts.{SaysDirectory};
ghost use Rattle.operating.specs.GatheredFiles.{IsOfFile, RefusesDirectory};
ghost use Rattle.operating.specs.Operating.{HasRoom, Ran};
ghost use Rattle.bulwynef.specs.Explained.{ExplainDirectory};

use commands::device::Sink;
use commands::fault::Fault;
use explaining::listing_text;
use operating::asking::{Ending, write};
use operating::files::{Limits, Opener};
use operating::reading::{ReadDirectory, read_directory_file};
use operating::refusal::Refusal;
use sentences::Listing;
use std::alloc::{AllocError, Global};

/// Returns the text or the page about a directory.
fn text_of_listing(
    alloc: Global,
    is_page: bool,
    read: &ReadDirectory,
) -> Result<Vec<u8>, AllocError>
    ensures { IfOk result (λ text. is_page ≡ true → IsPage text.items) }
{
    let listing = Listing::of(alloc, &read.directory, &read.text)?;
    listing_text(alloc, is_page, &listing)
}

/// Reads a directory, and writes which nodes it lists, with the SHA-256 of each key. It writes nothing else, and it writes once, after
/// everything has been decided. No contract says what the text lists.
pub fn run<O: Opener, W: Sink>(
    alloc: Global,
    is_page: bool,
    opener: &mut O,
    limits: Limits,
    writer: &mut W,
) -> Result<Ending, Refusal>
    requires room { HasRoom 0 (O.seen opener.old) (W.seen writer.old) }
    ensures { Ran (SaysDirectory limits.most_bytes ((O.seen opener.old).files 0)) (λ r. IsOfFile 0 r × RefusesDirectory limits.most_bytes ((O.seen opener.old).files 0) r.fault) (ExplainDirectory is_page) result (O.seen opener.old) (O.seen opener.new) W.seen writer.old writer.new }
{
    let read = read_directory_file(alloc, opener, limits)?;
    let text = match text_of_listing(alloc, is_page, &read) {
        Ok(text) => text,
        Err(_) => return Err(Refusal::of_none(Fault::Memory)),
    };
    write(writer, &text)?;
    Ok(Ending::Done)
}
