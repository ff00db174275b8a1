//! The programs that nodes may follow, in one table: the name of each, and the program.

ghost use Rattle.std.specs.Prelude.{◌≡◌, ◌≢◌, MatchOption, MatchResult};
ghost use Rattle.judge.specs.Judging.{Exposes, Refuses};
ghost use Rattle.judge.specs.Programs.{meaning_of, spelling_of};
ghost use Rattle.judge.specs.declared.programs.Followed.{Followed};

use crate::judging::judge;
use crate::refusal::Refusal;
use authenticators::NodeId;
use mailbox::Mailbox;
use ref_programs::{Relay, Tally};
use std::alloc::Global;

/// A program that nodes may follow.
#[derive(Clone, Copy, Debug)]
pub enum Followed {
    /// Tally, which adds up what it is told.
    Tally,
    /// Relay, which passes on what it gets.
    Relay,
    /// Mailbox, which holds mail.
    Mailbox,
}

impl Followed {
    /// Returns the program with this name, or `None` if none has it.
    pub fn of(name: &[u8]) -> Option<Followed>
        ensures { MatchOption result ((p : Followed) → spelling_of p ≢ name.now) (λ p. spelling_of p ≡ name.now) }
    {
        if name == b"tally".as_slice() {
            return Some(Followed::Tally);
        }
        if name == b"relay".as_slice() {
            return Some(Followed::Relay);
        }
        if name == b"mailbox".as_slice() {
            return Some(Followed::Mailbox);
        }
        None
    }
}

/// Returns the node that the proof convicts before nodes that follow the program, or why the bytes convict none.
pub fn judge_by(
    alloc: Global,
    followed: Followed,
    directory: &[u8],
    proof: &[u8],
) -> Result<NodeId, Refusal>
    ensures { MatchResult result (Exposes (meaning_of followed) directory.now proof.now) (Refuses (meaning_of followed) directory.now proof.now) }
{
    match followed {
        Followed::Tally => judge(alloc, &Tally, directory, proof),
        Followed::Relay => judge(alloc, &Relay, directory, proof),
        Followed::Mailbox => judge(alloc, &Mailbox, directory, proof),
    }
}
