//! The line that reports a refusal.

use crate::words::Request;
use commands::fault::{Fault, RefusalLine};
use operating::refusal::{Refusal, TextForm};
use std::fmt;

/// A refusal, with the name of its file.
#[derive(Clone, Copy, Debug)]
pub struct Told<'a> {
    pub refusal: Refusal,
    pub name: Option<&'a str>,
}

/// Writes one line: `refused NUMBER NAME`, the file, the item, the byte at which the item's length stands, and a sentence.
impl<'a> fmt::Display for Told<'a> {
    fn fmt<W: fmt::Write>(&self, f: &mut fmt::Formatter<W>) -> fmt::Result {
        let line = RefusalLine {
            fault: self.refusal.fault,
        };
        write!(f, "{line}")?;
        if let Some(name) = self.name {
            write!(f, ": {name}")?;
        }
        if let Some(item) = self.refusal.item {
            write!(f, ", item {item}")?;
        }
        if let Some(byte) = self.refusal.byte {
            write!(f, ", byte {byte}")?;
        }
        match self.refusal.fault {
            Fault::ReadFailed => f.write_str(": it can't be opened, or can't be read to its end")?,
            sentence => write!(f, ": {sentence}")?,
        }
        match (self.refusal.fault, self.refusal.form) {
            (_, TextForm::Unknown) => Ok(()),
            (Fault::DirectoryMagic | Fault::BadMagic | Fault::BadTag, form) => {
                write!(f, "; the file is {form}")
            }
            _ => Ok(()),
        }
    }
}

/// Returns the refusal with the name of its file.
pub fn named<'a>(request: &Request<'a>, refusal: Refusal) -> Told<'a> {
    let name = match refusal.file {
        Some(file) => name_of(request, file),
        None => None,
    };
    Told { refusal, name }
}

fn name_of<'a>(request: &Request<'a>, file: usize) -> Option<&'a str> {
    match request.paths.get(file) {
        Some(name) => Some(*name),
        None => None,
    }
}
