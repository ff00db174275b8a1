//! The files that are named in the command line.

ghost use Rattle.std.specs.Prelude.{◌≡◌};

use commands::device::CountedReader;
use operating::files::{MOST_READS, OpenFailed, Opener};
use std::fs;
use std::fs::File;
use std::io::{Chain, Read};

/// A file whose first bytes were read already.
#[derive(Drop)]
pub struct Begun<'a> {
    pub front: &'a [u8],
    pub rest: File,
}

/// Files by their names. The name `-` is standard input.
#[derive(Drop)]
pub struct NamedFiles<'a> {
    pub rt: &'a HostRuntime,
    pub paths: &'a [&'a str],
    /// The last file, if its first bytes were read already.
    pub begun: Option<Begun<'a>>,
    pub failures: u64,
}

impl<'a> NamedFiles<'a> {
    /// Returns the files with these names. The first bytes of the last one may have been read already.
    pub fn new(
        rt: &'a HostRuntime,
        paths: &'a [&'a str],
        begun: Option<Begun<'a>>,
    ) -> NamedFiles<'a>
        ensures { result.failures ≡ 0 }
    {
        NamedFiles {
            rt,
            paths,
            begun,
            failures: 0,
        }
    }

    /// Returns whether the file with this number is the last.
    fn is_last(&self, file: usize) -> bool {
        match self.paths.len() {
            0 => false,
            count => file == count - 1,
        }
    }

    /// Returns the file with this number, at its first byte.
    fn take(&mut self, file: usize) -> Result<Begun<'a>, OpenFailed>
        ensures { self.new.failures ≡ self.old.failures }
    {
        if self.is_last(file) {
            if let Some(begun) = self.begun.take() {
                return Ok(begun);
            }
        }
        let Some(name) = self.paths.get(file) else {
            return Err(OpenFailed);
        };
        let rest = open(self.rt, name)?;
        Ok(Begun { front: &[], rest })
    }
}

/// Returns the path of a name.
fn path_of(name: &str) -> &str {
    match name {
        "-" => "/dev/stdin",
        _ => name,
    }
}

/// Opens the file with this name.
pub fn open(rt: &HostRuntime, name: &str) -> Result<File, OpenFailed> {
    match fs::open(rt, path_of(name)) {
        Ok(file) => Ok(file),
        Err(_) => Err(OpenFailed),
    }
}

impl<'a> Opener for NamedFiles<'a> {
    type Reader = CountedReader<Chain<&'a [u8], File>>;

    ghost use Rattle.std.specs.Prelude.{None};

    ghost seen = { λ o. record { files = λ n. None; failures = o.failures } };

    fn open(&mut self, file: usize) -> Result<CountedReader<Chain<&'a [u8], File>>, OpenFailed> {
        match self.take(file) {
            Ok(begun) => Ok(CountedReader::new(begun.front.chain(begun.rest))),
            Err(failed) => {
                self.failures += 1;
                Err(failed)
            }
        }
    }

    fn close(&mut self, reader: CountedReader<Chain<&'a [u8], File>>) {
        if reader.failures > 0 || (reader.ends == 0 && reader.reads >= MOST_READS as u64) {
            self.failures += 1;
        }
    }
}
