//! How a program with the five commands ends.

ghost use Rattle.std.specs.Prelude.{◌≡◌, OnErr, OnOk};
ghost use Rattle.std.specs.Process.{exit_status};

use commands::fault::{Fault, RefusalLine};
use std::process::ExitCode;

/// Returns the exit status of a program, and writes a refusal to standard error in one line. The status is 0 if the command is done, and 1
/// if it was refused. If standard error cannot be written, only the status reports the refusal.
pub fn ended(rt: &HostRuntime, done: Result<(), Fault>) -> ExitCode
    ensures done { OnOk done (exit_status result ≡ 0) }
    ensures refused { OnErr done (exit_status result ≡ 1) }
{
    match done {
        Ok(()) => ExitCode::SUCCESS,
        Err(fault) => {
            let line = RefusalLine { fault };
            let _ = eprintln!(rt; "{line}");
            ExitCode::FAILURE
        }
    }
}
