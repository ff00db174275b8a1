//! Where the answer is written: to standard output, or to a new file that takes its name once it is whole.

ghost use Rattle.std.specs.Prelude.{◌≡◌};

use crate::placing::{Place, is_there, place_of};
use commands::device::{Sink, Text, WriteFailed, WriteFault};
use std::alloc::AllocError;
use std::fs::{File, Metadata, OpenOptions, Permissions};
use std::io::{ErrorKind, Write};
use std::os::unix::fs::{MetadataExt, OpenOptionsExt, PermissionsExt, fchown};
use std::{fs, io};

/// Writes to standard output, or to a new file.
#[derive(Drop)]
pub struct Output<'a> {
    pub rt: &'a HostRuntime,
    /// The name that the file gets. `None` is standard output.
    pub name: Option<&'a str>,
    pub failures: u64,
}

impl<'a> Output<'a> {
    /// Returns standard output.
    pub fn standard(rt: &'a HostRuntime) -> Output<'a>
        ensures { result.failures ≡ 0 }
    {
        Output {
            rt,
            name: None,
            failures: 0,
        }
    }
}

// ---- a name beside another one

/// The greatest number of names that are tried for a new file or folder. Runs that were killed may have left theirs.
const MOST_NAMES: u32 = 1_000;

/// Returns a name for the new file, beside the name that it is to get: `NAME.new.N`, where N is the number of this process, or, at a further
/// try, `NAME.new.N.TRY`.
fn name_of_try(rt: &HostRuntime, name: &str, number: u32) -> Result<String, AllocError> {
    let process = std::process::id(rt.process());
    match number {
        0 => format!(in rt.alloc(); "{name}.new.{process}"),
        _ => format!(in rt.alloc(); "{name}.new.{process}.{number}"),
    }
}

/// Returns the first such name under which there is nothing. It reports on standard error what stands under the names before it, and leaves it.
/// On this host the process with this number that wrote it is no more. But such a process may run on another host, or in another container.
pub(crate) fn name_beside(rt: &HostRuntime, name: &str) -> io::Result<String> {
    for number in 0..MOST_NAMES {
        let beside = name_of_try(rt, name, number)?;
        if !is_there(rt, beside.as_str()) {
            return Ok(beside);
        }
        let _ = eprintln!(rt;
            "{beside} is left of a run that was killed, or is being written by another one"
        );
    }
    Err(io::Error::from(ErrorKind::AlreadyExists))
}

// ---- a file

/// Creates a new file, which its owner alone may read and write.
fn create_private(rt: &HostRuntime, name: &str) -> io::Result<File> {
    let mut options = OpenOptions::new();
    options.write(true).create_new(true).mode(0o600);
    options.open(rt, name)
}

/// Writes the bytes to the file, and waits until they are on the disk.
fn fill(file: &mut File, bytes: &[u8]) -> io::Result<()> {
    file.write_all(bytes)?;
    file.sync_all()
}

/// Writes the bytes to a new file, and waits until they are on the disk.
pub(crate) fn write_new(rt: &HostRuntime, name: &str, bytes: &[u8]) -> io::Result<()> {
    let mut file = create_private(rt, name)?;
    fill(&mut file, bytes)
}

/// Returns who may read, write and run what takes the place of this file. No other bit is kept, so the new file never runs in its owner's name.
/// If the new file has another group, nobody gets what the old group might do.
pub(crate) fn mode_of(old: &Metadata, is_of_its_group: bool) -> Permissions {
    let kept = if is_of_its_group { 0o777 } else { 0o707 };
    Permissions::from_mode(old.mode() & kept)
}

/// Gives the file the owner and the group of the one whose place it takes, or the group alone, if that is allowed. Gives it the mode too.
fn keep(file: &File, old: &Metadata) -> io::Result<()> {
    let is_of_its_group = fchown(file, Some(old.uid()), Some(old.gid())).is_ok()
        || fchown(file, None, Some(old.gid())).is_ok();
    file.set_permissions(mode_of(old, is_of_its_group))
}

/// A new file beside the one that is to be.
#[derive(Drop)]
struct NewFile {
    file: File,
    name: String,
}

/// Makes a new file beside the one that is to be.
fn new_file(rt: &HostRuntime, name: &str) -> io::Result<NewFile> {
    let beside = name_beside(rt, name)?;
    let file = create_private(rt, beside.as_str())?;
    Ok(NewFile { file, name: beside })
}

/// Has the new file on the disk, with the owner and mode of what has the name. Then the new file takes the name.
fn take_name(rt: &HostRuntime, new: &NewFile, name: &str) -> io::Result<()> {
    if let Ok(old) = fs::metadata(rt, name) {
        keep(&new.file, &old)?;
    }
    new.file.sync_all()?;
    fs::rename(rt, new.name.as_str(), name)
}

/// Ends a new file. It takes the name if all was written to it. Else it is removed, and a file that has the name stays as it is.
fn end(
    rt: &HostRuntime,
    new: &NewFile,
    name: &str,
    written: Result<(), WriteFault>,
) -> Result<(), WriteFault> {
    let ended = match written {
        Ok(()) => take_name(rt, new, name).map_err(WriteFault::from),
        Err(fault) => Err(fault),
    };
    if ended.is_err() {
        let _ = fs::remove_file(rt, new.name.as_str());
    }
    ended
}

/// Writes the bytes to a new file, which takes the name once it is whole, with the owner and mode of what was there.
fn write_whole(rt: &HostRuntime, name: &str, bytes: &[u8]) -> Result<(), WriteFault> {
    let mut new = new_file(rt, name)?;
    let written = new.file.write_all(bytes).map_err(WriteFault::from);
    end(rt, &new, name, written)
}

/// Writes the text in pieces to a new file, which takes the name once it is whole, with the owner and mode of what was there.
fn write_pieces<T: Text>(rt: &HostRuntime, name: &str, text: &T) -> Result<(), WriteFault> {
    let mut new = new_file(rt, name)?;
    let written = text.write_to(&mut new.file);
    end(rt, &new, name, written)
}

/// Writes the bytes to what is there and is no file. If it keeps what it was given, the bytes come after that.
fn write_on(rt: &HostRuntime, name: &str, bytes: &[u8]) -> io::Result<()> {
    let mut options = OpenOptions::new();
    options.append(true);
    let mut file = options.open(rt, name)?;
    file.write_all(bytes)
}

// ---- where the bytes are to go

/// Writes the bytes to what the name stands for.
fn write_named(rt: &HostRuntime, name: &str, bytes: &[u8]) -> Result<(), WriteFault> {
    match place_of(rt, name)? {
        Place::File(path) => write_whole(rt, path.as_str(), bytes),
        Place::Open(path) => {
            write_on(rt, path.as_str(), bytes)?;
            Ok(())
        }
    }
}

/// Writes the text to what the name stands for: in pieces to a new file, and else whole.
fn write_text_named<T: Text>(rt: &HostRuntime, name: &str, text: &T) -> Result<(), WriteFault> {
    match place_of(rt, name)? {
        Place::File(path) => write_pieces(rt, path.as_str(), text),
        Place::Open(path) => {
            let bytes = text.to_bytes()?;
            write_on(rt, path.as_str(), &bytes)?;
            Ok(())
        }
    }
}

/// Writes the bytes where they are to go. If there are no bytes, it makes no file.
fn write_to(rt: &HostRuntime, name: Option<&str>, bytes: &[u8]) -> Result<(), WriteFault> {
    if bytes.is_empty() {
        return Ok(());
    }
    match name {
        Some(name) => write_named(rt, name, bytes),
        None => {
            io::writer(rt).write_all(bytes)?;
            Ok(())
        }
    }
}

/// Writes the text where it is to go. Unlike [`write_to`] it makes a file also of a text without bytes.
fn write_text_to<T: Text>(
    rt: &HostRuntime,
    name: Option<&str>,
    text: &T,
) -> Result<(), WriteFault> {
    match name {
        Some(name) => write_text_named(rt, name, text),
        None => {
            let bytes = text.to_bytes()?;
            io::writer(rt).write_all(&bytes)?;
            Ok(())
        }
    }
}

impl<'a> Sink for Output<'a> {
    ghost use Rattle.std.specs.Prelude.{None};

    ghost seen = { λ o. record { written = None; failures = o.failures } };

    fn write_all(&mut self, bytes: &[u8]) -> Result<(), WriteFailed> {
        match write_to(self.rt, self.name, bytes) {
            Ok(()) => Ok(()),
            Err(_) => {
                self.failures += 1;
                Err(WriteFailed)
            }
        }
    }

    /// Writes the text in pieces if it goes to a new file. Standard output and what is no regular file get it whole.
    fn write_text<T: Text>(&mut self, text: &T) -> Result<(), WriteFault> {
        match write_text_to(self.rt, self.name, text) {
            Ok(()) => Ok(()),
            Err(WriteFault::Memory) => Err(WriteFault::Memory),
            Err(WriteFault::WriteFailed) => {
                self.failures += 1;
                Err(WriteFault::WriteFailed)
            }
        }
    }
}
