//! The reading of one file, and of what it says.

ghost use Rattle.std.specs.Prelude.{◌≡◌, ◌+◌, ◌<◌, ◌≤◌, ◌^◌, IfErr, IfOk, None, Ok, OnOk, Some, option_copied, option_map, option_to_list, vec_len};
ghost use Rattle.outcome.specs.Outcome.{Fails, told_as};
ghost use Rattle.authenticators.specs.DirectoryText.{directory_of};
ghost use Rattle.commands.specs.declared.fault.Fault.TheVariants as fault;
ghost use Rattle.commands.specs.Devices.{IsAllOf, IsReadFault};
ghost use Rattle.commands.specs.Refusals.{of_directory};
ghost use Rattle.commands.specs.within.OwnFaults.{IsOwn};
ghost use Rattle.operating.specs.GatheredFiles.{IsOfFile, RefusesDirectory, RefusesFront};
ghost use Rattle.operating.specs.FileTexts.{IsOfReading, IsUnsaid, IsUnsaidBy, Says, SaysBy, SaysDirectory, Texts, directory_in, evidence_in, texts_of};

use crate::files::{Limits, MOST_READS, Opener};
use crate::refusal::Refusal;
use crate::said::{FileTexts, read_under, texts_of};
use authenticators::Directory;
use commands::fault::Fault;
use commands::input::read_input;
use std::alloc::Global;

/// Returns all bytes of the file with this number.
fn read_file<O: Opener>(
    alloc: Global,
    opener: &mut O,
    file: usize,
    limits: Limits,
) -> Result<Vec<u8>, Fault>
    requires room { (O.seen opener.old).failures < 2 ^ 63 }
    ensures all { IfOk result (λ v. IsAllOf ((O.seen opener.old).files file) v.items) }
    ensures within { IfOk result (λ v. vec_len v ≤ limits.most_bytes) }
    ensures refused { IfErr result (λ f. IsReadFault f limits.most_bytes ((O.seen opener.old).files file)) }
    ensures blamed { IfErr result (IsOfReading (O.seen opener.old) (O.seen opener.new)) }
    ensures files { (O.seen opener.new).files ≡ (O.seen opener.old).files }
    ensures quiet { OnOk result ((O.seen opener.new).failures ≡ (O.seen opener.old).failures) }
    ensures few { (O.seen opener.new).failures ≤ (O.seen opener.old).failures + 1 }
{
    let Ok(mut reader) = opener.open(file) else {
        return Err(Fault::ReadFailed);
    };
    let bytes = read_input(alloc, &mut reader, limits.most_bytes, MOST_READS);
    opener.close(reader);
    bytes
}

/// Returns what the file with this number says: a text, and perhaps a directory's encoding above it.
fn read_texts<O: Opener>(
    alloc: Global,
    opener: &mut O,
    file: usize,
    limits: Limits,
) -> Result<FileTexts, Refusal>
    requires room { (O.seen opener.old).failures < 2 ^ 63 }
    ensures said { IfOk result (λ t. SaysBy limits.most_bytes texts_of ((O.seen opener.old).files file) (record { above = option_map (λ v. v.items) t.above; text = t.text.items })) }
    ensures refused { IfErr result (λ r. IsOfFile file r × IsUnsaidBy limits.most_bytes texts_of ((O.seen opener.old).files file) r.fault) }
    ensures blamed { IfErr result (λ r. IsOfReading (O.seen opener.old) (O.seen opener.new) r.fault) }
    ensures files { (O.seen opener.new).files ≡ (O.seen opener.old).files }
    ensures quiet { OnOk result ((O.seen opener.new).failures ≡ (O.seen opener.old).failures) }
    ensures few { (O.seen opener.new).failures ≤ (O.seen opener.old).failures + 1 }
{
    let bytes = match read_file(alloc, opener, file, limits) {
        Ok(bytes) => bytes,
        Err(fault) => return Err(Refusal::of_file(file, fault)),
    };
    match texts_of(alloc, bytes) {
        Ok(texts) => Ok(texts),
        Err(fault) => Err(Refusal::of_file(file, fault)),
    }
}

/// Returns the text that the file with this number says. The text stands alone in the file. If a directory's encoding is given, the text
/// may stand under that directory too.
///
/// - `ReadFailed` (100) if the file could not be opened or read, or did not end within [`MOST_READS`] reads.
/// - `InputTooLong` (101) if it has more bytes than [`Limits::most_bytes`](crate::files::Limits).
/// - `BadHex` (103) if a line has a character that is no hexadecimal digit, or an odd number of digits.
/// - `LineCount` (104) if there are more than two lines, or if the second one is empty. It comes too if another directory stands above the
///   text, or if one does and none is given.
/// - `Memory` (99) if a growth is refused.
pub fn read_said<O: Opener>(
    alloc: Global,
    opener: &mut O,
    file: usize,
    given: Option<&[u8]>,
    limits: Limits,
) -> Result<Vec<u8>, Refusal>
    requires room { (O.seen opener.old).failures < 2 ^ 63 }
    ensures said { IfOk result (λ text. Says limits.most_bytes (option_copied given.entry) ((O.seen opener.old).files file) text.items) }
    ensures refused { IfErr result (λ r. IsOfFile file r × IsUnsaid limits.most_bytes (option_copied given.entry) ((O.seen opener.old).files file) r.fault) }
    ensures blamed { IfErr result (λ r. IsOfReading (O.seen opener.old) (O.seen opener.new) r.fault) }
    ensures files { (O.seen opener.new).files ≡ (O.seen opener.old).files }
    ensures quiet { OnOk result ((O.seen opener.new).failures ≡ (O.seen opener.old).failures) }
    ensures few { (O.seen opener.new).failures ≤ (O.seen opener.old).failures + 1 }
{
    let texts = read_texts(alloc, opener, file, limits)?;
    match read_under(given, texts) {
        Ok(text) => Ok(text),
        Err(fault) => Err(Refusal::of_file(file, fault)),
    }
}

/// Returns the directory that a text encodes.
fn directory_from(alloc: Global, text: &[u8]) -> Result<Directory, Refusal>
    ensures read { IfOk result (λ d. directory_of text.now ≡ Ok d) }
    ensures refused { IfErr result (λ r. IsOfFile 0 r × Fails fault.Memory r.fault (told_as of_directory (directory_of text.now))) }
    ensures own { IfErr result (λ r. IsOwn r.fault) }
{
    match Directory::from_bytes(alloc, text) {
        Ok(directory) => Ok(directory),
        Err(fault) => Err(Refusal::of_text(0, text, Fault::from(fault))),
    }
}

/// A directory that was read.
#[derive(Debug, Drop)]
pub struct ReadDirectory {
    /// Its encoding. A directory has two encodings if each node has one key.
    pub text: Vec<u8>,
    /// The directory.
    pub directory: Directory,
}

/// Returns the directory that file 0 says, with its encoding. File 0 must have nothing else. The errors are those of [`read_said`] and of
/// reading a directory.
pub fn read_directory_file<O: Opener>(
    alloc: Global,
    opener: &mut O,
    limits: Limits,
) -> Result<ReadDirectory, Refusal>
    requires room { (O.seen opener.old).failures < 2 ^ 63 }
    ensures said { IfOk result (λ read. SaysDirectory limits.most_bytes ((O.seen opener.old).files 0) read.directory) }
    ensures text { IfOk result (λ read. Says limits.most_bytes None ((O.seen opener.old).files 0) read.text.items × (directory_of read.text.items ≡ Ok read.directory)) }
    ensures refused { IfErr result (λ r. IsOfFile 0 r × RefusesDirectory limits.most_bytes ((O.seen opener.old).files 0) r.fault) }
    ensures blamed { IfErr result (λ r. IsOfReading (O.seen opener.old) (O.seen opener.new) r.fault) }
    ensures files { (O.seen opener.new).files ≡ (O.seen opener.old).files }
    ensures quiet { OnOk result ((O.seen opener.new).failures ≡ (O.seen opener.old).failures) }
    ensures few { (O.seen opener.new).failures ≤ (O.seen opener.old).failures + 1 }
{
    let text = read_said(alloc, opener, 0, None, limits)?;
    let directory = directory_from(alloc, &text)?;
    Ok(ReadDirectory { text, directory })
}

/// Returns the directory that file 0 says. File 0 must have nothing else.
pub(crate) fn read_directory<O: Opener>(
    alloc: Global,
    opener: &mut O,
    limits: Limits,
) -> Result<Directory, Refusal>
    requires room { (O.seen opener.old).failures < 2 ^ 63 }
    ensures said { IfOk result (λ d. SaysDirectory limits.most_bytes ((O.seen opener.old).files 0) d) }
    ensures refused { IfErr result (λ r. IsOfFile 0 r × RefusesDirectory limits.most_bytes ((O.seen opener.old).files 0) r.fault) }
    ensures blamed { IfErr result (λ r. IsOfReading (O.seen opener.old) (O.seen opener.new) r.fault) }
    ensures files { (O.seen opener.new).files ≡ (O.seen opener.old).files }
    ensures quiet { OnOk result ((O.seen opener.new).failures ≡ (O.seen opener.old).failures) }
    ensures few { (O.seen opener.new).failures ≤ (O.seen opener.old).failures + 1 }
{
    let read = read_directory_file(alloc, opener, limits)?;
    Ok(read.directory)
}

/// A directory that was read, and what stands under it in its file.
#[derive(Debug, Drop)]
pub(crate) struct Front {
    /// The directory's encoding.
    pub text: Vec<u8>,
    /// The directory.
    pub directory: Directory,
    /// The encoding of evidence under it, if there is any.
    pub under: Option<Vec<u8>>,
}

/// Separates the directory's encoding from what stands under it.
fn parted(texts: FileTexts) -> (Vec<u8>, Option<Vec<u8>>)
    ensures directory { result.0.items ≡ directory_in (record { above = option_map (λ v. v.items) texts.above; text = texts.text.items }) }
    ensures under { option_to_list (option_map (λ v. v.items) result.1) ≡ evidence_in (record { above = option_map (λ v. v.items) texts.above; text = texts.text.items }) }
{
    let FileTexts { above, text } = texts;
    match above {
        None => (text, None),
        Some(directory) => (directory, Some(text)),
    }
}

/// Returns the directory that file 0 says, with what stands under it there.
pub(crate) fn read_front<O: Opener>(
    alloc: Global,
    opener: &mut O,
    limits: Limits,
) -> Result<Front, Refusal>
    requires room { (O.seen opener.old).failures < 2 ^ 63 }
    ensures said { IfOk result (λ front. (t : Texts) × SaysBy limits.most_bytes texts_of ((O.seen opener.old).files 0) t × (front.text.items ≡ directory_in t) × (option_to_list (option_map (λ v. v.items) front.under) ≡ evidence_in t)) }
    ensures read { IfOk result (λ front. directory_of front.text.items ≡ Ok front.directory) }
    ensures refused { IfErr result (λ r. (r.file ≡ Some 0) × RefusesFront limits.most_bytes ((O.seen opener.old).files 0) r) }
    ensures blamed { IfErr result (λ r. IsOfReading (O.seen opener.old) (O.seen opener.new) r.fault) }
    ensures files { (O.seen opener.new).files ≡ (O.seen opener.old).files }
    ensures quiet { OnOk result ((O.seen opener.new).failures ≡ (O.seen opener.old).failures) }
{
    let texts = read_texts(alloc, opener, 0, limits)?;
    let (text, under) = parted(texts);
    let directory = directory_from(alloc, &text)?;
    Ok(Front {
        text,
        directory,
        under,
    })
}
