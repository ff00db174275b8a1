//! Where an answer is to go: what stands behind a name and the links that lead there.

use std::fs::Metadata;
use std::io::ErrorKind;
use std::os::unix::fs::MetadataExt;
use std::{fs, io};

/// The greatest number of steps from a name to what it stands for. Each link is a step, and so is what stands behind the last one.
const MOST_LINKS: u32 = 40;

/// What a name stands for.
#[derive(Debug, Drop)]
pub enum Place {
    /// A regular file with this path, which is no link; or nothing yet. A new file is to take the name.
    File(String),
    /// A device, a pipe, or what a process has opened. It is written to as it stands.
    Open(String),
}

/// A step on the way from a name to what it stands for.
#[derive(Debug, Drop)]
enum Step {
    At(Place),
    On(String),
}

/// Returns whether something with this name is there. A link that leads nowhere counts too.
pub fn is_there(rt: &HostRuntime, name: &str) -> bool {
    fs::symlink_metadata(rt, name).is_ok()
}

/// Returns whether a regular file stands behind the name.
pub fn is_file(rt: &HostRuntime, name: &str) -> bool {
    match fs::metadata(rt, name) {
        Ok(found) => found.is_file(),
        Err(_) => false,
    }
}

/// Returns whether the link is one by which `/proc` shows what a process has opened. The text of such a link is no path.
fn shows_what_is_open(rt: &HostRuntime, link: &Metadata) -> bool {
    match fs::metadata(rt, "/proc") {
        Ok(found) => found.dev() == link.dev(),
        Err(_) => false,
    }
}

/// Returns the path to which a link leads. A relative path is taken from the folder in which the link stands.
fn path_behind(rt: &HostRuntime, link: &str) -> io::Result<String> {
    let text = fs::read_link(rt, link)?;
    let text = text.as_str();
    match link.rsplit_once('/') {
        Some((folder, _)) if !text.starts_with('/') => {
            let path = format!(in rt.alloc(); "{folder}/{text}")?;
            Ok(path)
        }
        _ => {
            let path = String::from_str(rt.alloc(), text)?;
            Ok(path)
        }
    }
}

fn next(rt: &HostRuntime, path: String) -> io::Result<Step> {
    let found = match fs::symlink_metadata(rt, path.as_str()) {
        Ok(found) => found,
        Err(error) if error.kind() == ErrorKind::NotFound => return Ok(Step::At(Place::File(path))),
        Err(error) => return Err(error),
    };
    if found.is_file() {
        return Ok(Step::At(Place::File(path)));
    }
    if !found.is_symlink() || shows_what_is_open(rt, &found) {
        return Ok(Step::At(Place::Open(path)));
    }
    Ok(Step::On(path_behind(rt, path.as_str())?))
}

/// Returns what the name stands for, behind all links. If there are 40 links or more, it returns an error.
pub fn place_of(rt: &HostRuntime, name: &str) -> io::Result<Place> {
    let mut path = String::from_str(rt.alloc(), name)?;
    for _ in 0..MOST_LINKS {
        match next(rt, path)? {
            Step::At(place) => return Ok(place),
            Step::On(next) => path = next,
        }
    }
    Err(io::Error::from(ErrorKind::InvalidInput))
}
