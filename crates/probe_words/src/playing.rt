//! How a script is played: line by line, and each answer is compared with the one that must come.

ghost use Rattle.std.specs.String.{string_bytes};
ghost use Rattle.std.specs.Prelude.{◌≡◌, IfOk, IsTrue, MatchOption, None, false, ⊤};

use crate::answer::Answer;
use crate::loops::{Loop, filled, loop_of};
use crate::mistake::Mistake;
use crate::words::Words;
use std::alloc::{AllocError, Global};

/// How many growths of a call are tried.
const MOST_GROWTHS: u32 = 100_000;

/// What has verbs.
pub trait Answers {
    /// Makes the call, and names what it gives.
    fn answer(&mut self, words: &Words) -> Result<Answer, Mistake>;

    /// Returns what the call could change, as far as it is seen. A refused call leaves it as it was.
    fn seen(&self, words: &Words) -> Result<Vec<u8>, Mistake>;

    /// Has the growth with this number refused in each call from now on, if the library that refuses growths is loaded.
    fn refuse(&mut self, growth: u32);
}

/// A line that went otherwise than it says.
#[derive(Drop)]
pub struct Fault {
    /// The line's number, counted from 1.
    pub line: usize,
    /// The line, what it wants and what came, or why it is no call.
    pub text: String,
}

/// How far a script went.
#[derive(Drop)]
pub struct Played {
    /// How many calls went as the script says.
    pub calls: u64,
    /// How many answers of these the script has.
    pub compared: u64,
    /// How many growths were refused in them.
    pub growths: u64,
    /// The line at which the script ended, if one went otherwise.
    pub fault: Option<Fault>,
}

/// Plays a script, with growths refused or not.
#[derive(Drop)]
struct Player<'a, A: Answers> {
    alloc: Global,
    probe: &'a mut A,
    refuses: bool,
    why: Option<String>,
    played: Played,
}

/// Returns whether the answer is as the line says: it has the wanted text, or none is wanted and it is no refusal. A refusal that changed
/// something is never as the line says.
fn is_wanted(wanted: Option<&str>, answer: &Answer) -> bool
    ensures kept { IsTrue result → (answer.now.has_changed ≡ false) }
    ensures wanted { MatchOption wanted.entry (IsTrue result → (answer.now.why ≡ None)) (λ w. IsTrue result → (w.now ≡ string_bytes answer.now.text)) }
{
    if answer.has_changed {
        return false;
    }
    match wanted {
        Some(wanted) => wanted == answer.text.as_str(),
        None => answer.why.is_none(),
    }
}

/// Returns what was wanted and what came.
fn told_of(alloc: Global, wanted: Option<&str>, answer: &Answer) -> Result<String, AllocError> {
    let wanted = wanted.unwrap_or("no refusal");
    let came = answer.text.as_str();
    let more = if answer.has_changed {
        ", and it changed something"
    } else {
        ""
    };
    format!(in alloc; "wanted: {wanted}\n  came:   {came}{more}")
}

impl<'a, A: Answers> Player<'a, A> {
    /// Returns the answer of the call. If it is a refusal, the answer says whether something changed.
    fn called(&mut self, words: &Words, before: &[u8]) -> Result<Answer, Mistake> {
        let mut answer = self.probe.answer(words)?;
        if answer.why.is_some() {
            answer.has_changed = self.probe.seen(words)?.as_slice() != before;
        }
        Ok(answer)
    }

    /// Returns the answer of the call once each of its growths was refused in turn.
    fn tried(&mut self, words: &Words, before: &[u8]) -> Result<Answer, Mistake> {
        for growth in 1..MOST_GROWTHS {
            self.probe.refuse(growth);
            let answer = self.called(words, before)?;
            if !answer.is_memory || answer.has_changed {
                return Ok(answer);
            }
            self.played.growths = self.played.growths.saturating_add(1);
        }
        Err(Mistake::Growths)
    }

    /// Returns the text of the last refusal.
    fn last_refusal(&self) -> Result<Answer, Mistake> {
        match &self.why {
            Some(why) => Ok(Answer::of(self.alloc, why.as_str())?),
            None => Err(Mistake::Why),
        }
    }

    /// Returns the answer of the line's call.
    fn answer(&mut self, words: &Words) -> Result<Answer, Mistake> {
        if words.verb() == "why" {
            words.take(0, 0)?;
            return self.last_refusal();
        }
        let before = self.probe.seen(words)?;
        if self.refuses {
            self.tried(words, &before)
        } else {
            self.called(words, &before)
        }
    }

    /// Counts an answer that is as the line says. Of another one it returns what was wanted and what came.
    fn compare(
        &mut self,
        wanted: Option<&str>,
        answer: Answer,
    ) -> Result<Option<String>, AllocError>
        ensures kept { IfOk result (λ told. MatchOption told (answer.has_changed ≡ false) (λ _. ⊤)) }
        ensures wanted { IfOk result (λ told. MatchOption told (MatchOption wanted.entry (answer.why ≡ None) (λ w. w.now ≡ string_bytes answer.text)) (λ _. ⊤)) }
    {
        let is_right = is_wanted(wanted, &answer);
        if !is_right {
            return Ok(Some(told_of(self.alloc, wanted, &answer)?));
        }
        self.played.calls = self.played.calls.saturating_add(1);
        if wanted.is_some() {
            self.played.compared = self.played.compared.saturating_add(1);
        }
        if answer.why.is_some() {
            self.why = answer.why;
        }
        Ok(None)
    }

    /// Makes the call of a line. Returns what is told if it goes otherwise than the line says.
    fn play_line(&mut self, line: &str) -> Result<Option<String>, Mistake> {
        let words = Words::of(self.alloc, line)?;
        if words.verb().is_empty() || words.verb().starts_with("#") {
            return Ok(None);
        }
        let answer = self.answer(&words)?;
        let told = self.compare(words.wanted(), answer)?;
        Ok(told)
    }

    /// Keeps the line at which the script ends, with what is told of it.
    fn end_at(&mut self, line: usize, text: &str, told: &str) -> Result<(), AllocError> {
        let text = text.trim();
        let text = format!(in self.alloc; "{text}\n  {told}")?;
        self.played.fault = Some(Fault { line, text });
        Ok(())
    }

    /// Keeps the line at which the script ends, which is no call.
    fn end_by(&mut self, line: usize, text: &str, mistake: Mistake) -> Result<(), AllocError> {
        let told = format!(in self.alloc; "{mistake}")?;
        self.end_at(line, text, told.as_str())
    }

    /// Makes the call of a line. Returns whether it went as the line says. If it did not, the script ends there.
    fn is_played(&mut self, number: usize, line: &str) -> Result<bool, AllocError> {
        match self.play_line(line) {
            Ok(None) => return Ok(true),
            Ok(Some(told)) => self.end_at(number, line, told.as_str())?,
            Err(mistake) => self.end_by(number, line, mistake)?,
        }
        Ok(false)
    }

    /// Does the same with a line of a loop, in which the number is filled in.
    fn is_filled_played(
        &mut self,
        number: usize,
        line: &str,
        name: &str,
        value: u64,
    ) -> Result<bool, AllocError> {
        match filled(self.alloc, line, name, value) {
            Ok(line) => self.is_played(number, line.as_str()),
            Err(mistake) => {
                self.end_by(number, line, mistake)?;
                Ok(false)
            }
        }
    }

    /// Plays the lines of a loop once, with the number filled in. Returns whether all went as they say.
    fn is_round_played(
        &mut self,
        lines: &[&str],
        first: usize,
        name: &str,
        value: u64,
    ) -> Result<bool, AllocError> {
        for (place, line) in lines.iter().enumerate() {
            if !self.is_filled_played(first.saturating_add(place), line, name, value)? {
                return Ok(false);
            }
        }
        Ok(true)
    }

    /// Plays the lines of a loop, from its first number up or down to its last. Returns whether all went as they say.
    fn is_loop_played(
        &mut self,
        lines: &[&str],
        first: usize,
        of: Loop,
    ) -> Result<bool, AllocError> {
        let count = of.from.abs_diff(of.to);
        for step in 0..=count {
            let value = if of.from <= of.to {
                of.from.wrapping_add(step)
            } else {
                of.from.wrapping_sub(step)
            };
            if !self.is_round_played(lines, first, of.name, value)? {
                return Ok(false);
            }
        }
        Ok(true)
    }
}

/// A loop whose `end` has not come, with its first line and the number of this line.
#[derive(Clone, Copy)]
struct Begun<'a> {
    line: usize,
    text: &'a str,
    of: Loop<'a>,
}

fn begun_at<'a>(line: usize, text: &'a str, of: Loop<'a>) -> Begun<'a> {
    Begun { line, text, of }
}

impl<'a, A: Answers> Player<'a, A> {
    /// Plays a line that is in no loop. Returns the loop that it begins. `None` says that the script ends there.
    fn play_plain<'b>(
        &mut self,
        number: usize,
        line: &'b str,
    ) -> Result<Option<Option<Begun<'b>>>, AllocError> {
        match loop_of(self.alloc, line) {
            Ok(Some(of)) => return Ok(Some(Some(begun_at(number, line, of)))),
            Ok(None) if self.is_played(number, line)? => return Ok(Some(None)),
            Ok(None) => {}
            Err(mistake) => self.end_by(number, line, mistake)?,
        }
        Ok(None)
    }

    /// Plays the lines up to the first that goes otherwise.
    fn play_lines(&mut self, lines: &[&str]) -> Result<(), AllocError> {
        let mut begun: Option<Begun> = None;
        for (place, line) in lines.iter().enumerate() {
            let number = place.saturating_add(1);
            begun = match begun {
                None => match self.play_plain(number, line)? {
                    Some(begun) => begun,
                    None => return Ok(()),
                },
                Some(
                    Begun {
                        line: first,
                        of,
                        ..
                    },
                ) if line.trim() == "end" => {
                    let inside = lines.get(first..place).unwrap_or(&[]);
                    if !self.is_loop_played(inside, first.saturating_add(1), of)? {
                        return Ok(());
                    }
                    None
                }
                Some(begun) => Some(begun),
            };
        }
        match begun {
            Some(Begun { line, text, .. }) => self.end_by(line, text, Mistake::Loop),
            None => Ok(()),
        }
    }
}

/// Plays the script up to the first line that goes otherwise. If `refuses`, each growth of each call is refused in turn.
pub fn play<A: Answers>(
    alloc: Global,
    probe: &mut A,
    script: &str,
    refuses: bool,
) -> Result<Played, AllocError> {
    let lines: Vec<&str> = script.lines().collect(alloc)?;
    let mut player = Player {
        alloc,
        probe,
        refuses,
        why: None,
        played: Played {
            calls: 0,
            compared: 0,
            growths: 0,
            fault: None,
        },
    };
    player.play_lines(&lines)?;
    Ok(player.played)
}
