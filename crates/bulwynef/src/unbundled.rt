//! Refusals of commands, also those of bundles, and the lines that report them.

ghost use Rattle.std.specs.Prelude.{◌≡◌};
ghost use Rattle.bulwynef.specs.Handed.{fault_of};
ghost use Rattle.bulwynef.specs.declared.unbundled.Refused.TheVariants as refused;

use crate::telling::named;
use crate::words::Request;
use bundles::BundleFault;
use bundling::TextFault;
use commands::fault::{Fault, RefusalLine};
use operating::refusal::Refusal;
use std::fmt;

/// Why nothing was written.
#[derive(Clone, Copy, Debug)]
pub enum Refused {
    /// The refusal of an engine.
    Engine(Refusal),
    /// The file is no bundle.
    Bundle(BundleFault),
    /// The directory or the proof in the bundle convicts nobody.
    Inside(TextFault),
    /// The bundle names a program that is not known.
    UnknownProgram,
    /// A part of the bundle that was to be made is not spelled as bundles have it.
    Unspelled,
    /// No directory was given, and the file is no bundle.
    NoDirectory,
    /// No program was named, and a verdict is asked for.
    NoProgram,
}

impl From<Refusal> for Refused {
    ghost from_gives = { λ low r. r ≡ refused.Engine low };

    fn from(refusal: Refusal) -> Refused {
        Refused::Engine(refusal)
    }
}

/// Returns the fault that the commands report for it.
pub fn fault_of(fault: TextFault) -> Fault
    ensures { result ≡ fault_of fault }
{
    match fault {
        TextFault::Directory(fault) => Fault::from(fault),
        TextFault::Spelling(fault) => Fault::from(fault),
        TextFault::Proof(fault) => Fault::from(fault),
        TextFault::Memory => Fault::Memory,
    }
}

/// Returns the part of a bundle in which a fault stands.
fn part_of(fault: TextFault) -> &'static str {
    match fault {
        TextFault::Directory(_) => ", directory",
        TextFault::Spelling(_) | TextFault::Proof(_) => ", proof",
        TextFault::Memory => "",
    }
}

/// A refusal, with the name of the last file.
#[derive(Clone, Copy, Debug)]
pub struct ToldOfBundle<'a> {
    pub refused: Refused,
    pub name: &'a str,
}

/// Writes one line: `refused NUMBER NAME`, the file, the place in it, and a sentence.
impl<'a> fmt::Display for ToldOfBundle<'a> {
    fn fmt<W: fmt::Write>(&self, f: &mut fmt::Formatter<W>) -> fmt::Result {
        let file = self.name;
        match self.refused {
            Refused::Engine(refusal) => write!(
                f,
                "{}",
                RefusalLine {
                    fault: refusal.fault
                }
            ),
            Refused::Bundle(fault) => {
                let (number, name) = (fault.number(), fault.name());
                write!(f, "refused {number} {name}: {file}")?;
                if let Some(line) = fault.line() {
                    write!(f, ", line {line}")?;
                }
                write!(f, ": {fault}")
            }
            Refused::Inside(inner) => {
                let fault = fault_of(inner);
                let (line, part) = (RefusalLine { fault }, part_of(inner));
                write!(f, "{line}: {file}{part}: {fault}")
            }
            Refused::UnknownProgram => write!(
                f,
                "refused 109 UnknownProgram: {file}: the bundle names a program that is not known"
            ),
            Refused::Unspelled => f.write_str(
                "refused 106 BadBundle: a part of the bundle is not as bundles have it",
            ),
            Refused::NoDirectory => write!(
                f,
                "error: {file} is no bundle: give its directory by --directory, and by --program the program that the nodes were to follow"
            ),
            Refused::NoProgram => f.write_str(
                "error: no verdict without a program: --program NAME says which one the nodes were to follow: tally, relay, mailbox",
            ),
        }
    }
}

/// Reports a refusal on standard error.
pub fn tell(rt: &HostRuntime, request: &Request, refused: Refused) {
    if let Refused::Engine(refusal) = refused {
        let line = named(request, refusal);
        let _ = eprintln!(rt; "{line}");
        return;
    }
    let name = request.paths.last().unwrap_or(&"");
    let line = ToldOfBundle { refused, name };
    let _ = eprintln!(rt; "{line}");
}
