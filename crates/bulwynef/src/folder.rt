//! A folder of new files, which takes its name once all of them are whole.

use crate::placing::{Place, place_of};
use crate::writing::{Output, mode_of, name_beside, write_new};
use operating::asking::Ending;
use operating::play::Played;
use operating::refusal::Refusal;
use std::fs::{DirBuilder, Metadata};
use std::os::unix::fs::{DirBuilderExt, MetadataExt, chown};
use std::{fs, io};

/// Writes a new file of this name into the folder.
fn write_in(rt: &HostRuntime, folder: &str, name: &str, bytes: &[u8]) -> io::Result<()> {
    let path = format!(in rt.alloc(); "{folder}/{name}")?;
    write_new(rt, path.as_str(), bytes)
}

/// Writes the directory, and each witness's store, into the folder.
fn write_all(rt: &HostRuntime, folder: &str, played: &Played) -> io::Result<()> {
    write_in(rt, folder, "nodes.dir", &played.directory)?;
    for (place, store) in played.stores.iter().enumerate() {
        let name = format!(in rt.alloc(); "witness.{place}.store")?;
        write_in(rt, folder, name.as_str(), store)?;
    }
    Ok(())
}

/// Makes a new folder, into which its owner alone may look.
fn create_private(rt: &HostRuntime, name: &str) -> io::Result<()> {
    let mut builder = DirBuilder::new();
    builder.mode(0o700);
    builder.create(rt, name)
}

/// Gives the folder the owner and the group of an empty one whose place it took, or the group alone, if that is allowed. Gives it the mode too.
fn keep(rt: &HostRuntime, name: &str, old: &Metadata) {
    let is_of_its_group = chown(rt, name, Some(old.uid()), Some(old.gid())).is_ok()
        || chown(rt, name, None, Some(old.gid())).is_ok();
    let _ = fs::set_permissions(rt, name, mode_of(old, is_of_its_group));
}

/// Fills the new folder, and then gives it the name.
fn fill(rt: &HostRuntime, beside: &str, name: &str, played: &Played) -> io::Result<()> {
    write_all(rt, beside, played)?;
    let old = fs::metadata(rt, name);
    fs::rename(rt, beside, name)?;
    if let Ok(old) = old {
        keep(rt, name, &old);
    }
    Ok(())
}

/// Returns the path of the folder with this name, behind all links.
fn path_of(rt: &HostRuntime, name: &str) -> io::Result<String> {
    match place_of(rt, name)? {
        Place::File(path) | Place::Open(path) => Ok(path),
    }
}

/// Writes what a scenario left into a new folder, which takes the name once it is whole. If that fails, no new folder is left. If a folder with
/// the name has anything in it, it stays as it was.
fn write_folder(rt: &HostRuntime, name: &str, played: &Played) -> io::Result<()> {
    let path = path_of(rt, name)?;
    let beside = name_beside(rt, path.as_str())?;
    create_private(rt, beside.as_str())?;
    let written = fill(rt, beside.as_str(), path.as_str(), played);
    if written.is_err() {
        let _ = fs::remove_dir_all(rt, beside.as_str());
    }
    written
}

impl Output<'_> {
    /// Writes what a scenario left into the folder.
    pub fn write_folder(&self, played: &Played) -> Result<Ending, Refusal> {
        let Some(name) = self.name else {
            return Err(Refusal::of_writing());
        };
        match write_folder(self.rt, name, played) {
            Ok(()) => Ok(Ending::Done),
            Err(_) => Err(Refusal::of_writing()),
        }
    }
}
