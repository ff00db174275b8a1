//! The programs that nodes may run, in one table. A user's own program is one row more: a case of [`ProgramName`], and a crate.

ghost use Rattle.std.specs.Prelude.{◌≡◌, ◌≢◌, MatchOption};
ghost use Rattle.bulwynef.specs.Programs.{spelling_of};
ghost use Rattle.bulwynef.specs.declared.programs.ProgramName.{ProgramName};

/// The name of a program that nodes may run.
#[derive(Clone, Copy, Debug)]
pub enum ProgramName {
    /// The program Tally, which adds up what it is told.
    Tally,
    /// The program Relay, which passes on what it gets.
    Relay,
    /// The program Mailbox, which holds mail.
    Mailbox,
}

/// The spellings of the names on the command line.
pub const NAMES: [&str; 3] = ["tally", "relay", "mailbox"];

impl ProgramName {
    /// Returns the spelling of the name. It has `a` to `z`, `0` to `9` and `_`, as bundles want it.
    pub fn word(self) -> &'static str
        ensures { result.now ≡ spelling_of self }
    {
        match self {
            ProgramName::Tally => "tally",
            ProgramName::Relay => "relay",
            ProgramName::Mailbox => "mailbox",
        }
    }

    /// Returns the name with this spelling, or `None` if the table has no such name.
    pub fn of(spelling: &[u8]) -> Option<ProgramName>
        ensures { MatchOption result ((name : ProgramName) → spelling_of name ≢ spelling.now) (λ name. spelling_of name ≡ spelling.now) }
    {
        if spelling == b"tally".as_slice() {
            return Some(ProgramName::Tally);
        }
        if spelling == b"relay".as_slice() {
            return Some(ProgramName::Relay);
        }
        if spelling == b"mailbox".as_slice() {
            return Some(ProgramName::Mailbox);
        }
        None
    }
}

/// Does the same with what nodes are to follow, whichever program is named. Each row has a name, its program, how people call it, and its
/// voice. No row stands for another. The contracts of the functions that use it say so. In them a name's meaning is `meaning_of`, and its
/// spelling is `spelling_of`.
macro_rules! with_program {
    ($name:expr, $followed:ident => $done:expr) => {
        match $name {
            $crate::programs::ProgramName::Tally => {
                let $followed = explaining::Followed {
                    program: &ref_programs::Tally,
                    name: "Tally",
                    voice: &explaining::PlainVoice,
                };
                $done
            }
            $crate::programs::ProgramName::Relay => {
                let $followed = explaining::Followed {
                    program: &ref_programs::Relay,
                    name: "Relay",
                    voice: &explaining::PlainVoice,
                };
                $done
            }
            $crate::programs::ProgramName::Mailbox => {
                let $followed = explaining::Followed {
                    program: &mailbox::Mailbox,
                    name: "Mailbox",
                    voice: &mailbox_voice::MailVoice,
                };
                $done
            }
        }
    };
}

pub(crate) use with_program;
