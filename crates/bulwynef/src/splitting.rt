//! Where `split` writes: to a new file for each part.

ghost use Rattle.std.specs.Prelude.{◌≡◌};

use crate::writing::Output;
use commands::device::{Sink, WriteFailed};
use operating::split::PartFiles;
use std::alloc::AllocError;

/// New files, one for each part, by the numbers of the parts.
#[derive(Drop)]
pub struct NamedParts<'a> {
    pub rt: &'a HostRuntime,
    /// What the files' names begin with.
    pub prefix: &'a str,
    /// How many parts there are.
    pub count: u32,
    pub failures: u64,
}

impl<'a> NamedParts<'a> {
    /// Returns so many files, whose names begin with the prefix. It makes none of them yet.
    pub fn new(rt: &'a HostRuntime, prefix: &'a str, count: u32) -> NamedParts<'a>
        ensures { result.failures ≡ 0 }
    {
        NamedParts {
            rt,
            prefix,
            count,
            failures: 0,
        }
    }

    /// Returns the name of the file of part `k`.
    fn name_of(&self, k: u32) -> Result<String, AllocError> {
        let (prefix, count) = (self.prefix, self.count);
        format!(in self.rt.alloc(); "{prefix}.{k}-of-{count}")
    }

    /// Writes the file of part `k`.
    fn write_file(&self, k: u32, text: &[u8]) -> Result<(), WriteFailed> {
        let Ok(name) = self.name_of(k) else {
            return Err(WriteFailed);
        };
        write_named(self.rt, name.as_str(), text)
    }
}

/// Writes the file with this name.
fn write_named<'a>(rt: &'a HostRuntime, name: &'a str, text: &[u8]) -> Result<(), WriteFailed> {
    let named = Some(name);
    let mut output = Output {
        rt,
        name: named,
        failures: 0,
    };
    output.write_all(text)
}

impl<'a> PartFiles for NamedParts<'a> {
    ghost use Rattle.std.specs.Prelude.{None};

    ghost seen = { λ p. record { files = λ n. None; failures = p.failures } };

    fn write(&mut self, k: u32, text: &[u8]) -> Result<(), WriteFailed> {
        let written = self.write_file(k, text);
        if written.is_err() {
            self.failures += 1;
        }
        written
    }
}
