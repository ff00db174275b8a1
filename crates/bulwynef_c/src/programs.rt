//! The programs that nodes follow, by their numbers and their names.

ghost use Rattle.std.specs.Prelude.{◌≡◌, IfErr, IfOk};
ghost use Rattle.byte_calls.specs.declared.refusal.Refusal.TheVariants.{BadProgram};
ghost use Rattle.bulwynef_c.specs.Programs.{IsNoProgram, IsNumberOf, program_name};

use byte_calls::Refusal;

/// A program that nodes follow.
#[derive(Clone, Copy, Debug, PartialEq, Eq)]
pub enum Followed {
    /// Tally, with the number 1.
    Tally,
    /// Relay, with the number 2.
    Relay,
    /// Mailbox, with the number 3.
    Mailbox,
}

/// Returns the program with this number, or `BadProgram` if none has it.
pub(crate) fn program_of(number: u8) -> Result<Followed, Refusal>
    ensures program { IfOk result (λ p. IsNumberOf number p) }
    ensures none { IfErr result (λ f. (f ≡ BadProgram) × IsNoProgram number) }
{
    match number {
        1 => Ok(Followed::Tally),
        2 => Ok(Followed::Relay),
        3 => Ok(Followed::Mailbox),
        0 | 4..=255 => Err(Refusal::BadProgram),
    }
}

/// Returns the program's name.
pub(crate) fn name_of(program: Followed) -> &'static str
    ensures { result.now ≡ program_name program }
{
    match program {
        Followed::Tally => "tally",
        Followed::Relay => "relay",
        Followed::Mailbox => "mailbox",
    }
}
