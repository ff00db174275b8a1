//! Questions that note the directory under which they were answered.

use crate::programs::ProgramName;
use commands::fault::Fault;
use evidence::Evidence;
use operating::asking::{Answer, Gathered, Question};
use replay_verifier::Program;
use sha2::{Digest, Sha256};
use std::alloc::Global;
use std::cell::Cell;

/// The SHA-256 value of the encoding of the directory under which the last question was answered.
#[derive(Drop)]
pub struct Noted {
    sum: Cell<Option<[u8; 32]>>,
}

impl Noted {
    /// Returns a note in which nothing is noted yet.
    pub fn new() -> Noted {
        Noted {
            sum: Cell::new(None),
        }
    }

    fn note(&self, directory: &[u8]) {
        self.sum.set(Some(Sha256::digest(directory)));
    }

    /// Reports on standard error under which program and which directory a verdict was given, in the lines that `check` writes too. It writes
    /// nothing if no directory was noted.
    pub fn tell(&self, rt: &HostRuntime, name: ProgramName) {
        let Some(sum) = self.sum.get() else {
            return;
        };
        let Ok(sum) = hex::encode(rt.alloc(), sum.as_slice()) else {
            return;
        };
        let name = name.word();
        let _ = eprintln!(rt; "program {name}\ndirectory {sum}");
    }
}

/// A question, and where to note the directory under which it is answered.
#[derive(Drop)]
pub struct Noting<'a, Q> {
    pub question: &'a Q,
    pub noted: &'a Noted,
}

impl<'a, P: Program, S: Evidence<P>, Q: Question<P, S>> Question<P, S> for Noting<'a, Q> {
    ghost means = { λ q. Q.means q.question.now };

    fn answer(&self, alloc: Global, read: &Gathered<S>) -> Result<Answer, Fault> {
        let answer = self.question.answer(alloc, read)?;
        self.noted.note(&read.directory);
        Ok(answer)
    }
}
