//! How the program ends.

use crate::placing::is_file;
use crate::running::output_of;
use crate::unbundled::{Refused, tell};
use crate::words::Request;
use commands::fault::{Fault, RefusalLine};
use operating::asking::Ending;
use std::process::ExitCode;

/// How a command ends if it is not refused.
#[derive(Clone, Copy, Debug)]
pub enum Done {
    /// It ends as its engine does.
    Engine(Ending),
    /// A bundle has another program or directory than those named.
    Disagreed,
}

/// Reports that there is no proof. If one was to be written to a file that is there, it adds that the file stays as it was.
fn tell_no_proof(rt: &HostRuntime, request: &Request) {
    let none = "no proof: the evidence does not expose the node";
    match output_of(rt, request).name {
        Some(name) if is_file(rt, name) => {
            let _ = eprintln!(rt; "{none}; {name} stays as it was before");
        }
        _ => {
            let _ = eprintln!(rt; "{none}");
        }
    }
}

/// Reports a refusal on standard error, and returns how the program ends. If the line cannot be written, the exit status alone reports it.
pub fn ended(rt: &HostRuntime, request: &Request, done: Result<Done, Refused>) -> ExitCode {
    match done {
        Ok(Done::Engine(Ending::Done)) => ExitCode::SUCCESS,
        Ok(Done::Engine(Ending::Exposed)) => ExitCode::from(3),
        Ok(Done::Engine(Ending::NoProof)) => {
            tell_no_proof(rt, request);
            ExitCode::from(4)
        }
        Ok(Done::Disagreed) => ExitCode::from(5),
        Err(refused) => {
            tell(rt, request, refused);
            match refused {
                Refused::NoDirectory | Refused::NoProgram => ExitCode::from(2),
                _ => ExitCode::FAILURE,
            }
        }
    }
}

/// Reports that memory ran out while the words were read, and returns how the program ends.
pub fn out_of_memory(rt: &HostRuntime) -> ExitCode {
    let line = RefusalLine {
        fault: Fault::Memory,
    };
    let _ = eprintln!(rt; "{line}");
    ExitCode::FAILURE
}
