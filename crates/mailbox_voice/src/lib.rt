//! What the payloads of the mail relay say, for explanations.
#![tactic(auto)]

use mailbox::letters::{DELIVER, FETCH, FULL, MAIL, STORED, TOO_LONG, UNCLEAR};
use sentences::{Shown, Voice};
use std::fmt;

/// The voice that says what a mail, a request or a receipt says. Of other payloads it shows the bytes.
pub struct MailVoice;

/// Returns what a payload of one letter says: a request to fetch, or a receipt. Returns `None` for another letter.
fn receipt(letter: u8) -> Option<&'static str> {
    match letter {
        FETCH => Some("a fetch"),
        STORED => Some("a receipt: held"),
        TOO_LONG => Some("a receipt: too long"),
        FULL => Some("a receipt: full"),
        UNCLEAR => Some("a receipt: unclear"),
        _ => None,
    }
}

/// Writes what a payload of more letters says.
fn say_mail<W: fmt::Write>(payload: Shown<'_>, f: &mut fmt::Formatter<W>) -> fmt::Result {
    let (Some(text), [letter, a, b, c, d, ..]) = (payload.behind(5), payload.bytes) else {
        return write!(f, "{payload}");
    };
    let node = u32::from_be_bytes([*a, *b, *c, *d]);
    match *letter {
        DELIVER => write!(f, "a mail for node {node}, {text}"),
        MAIL => write!(f, "a mail from node {node}, {text}"),
        _ => write!(f, "{payload}"),
    }
}

impl Voice for MailVoice {
    fn say<W: fmt::Write>(&self, payload: Shown<'_>, f: &mut fmt::Formatter<W>) -> fmt::Result {
        if let [letter] = payload.bytes
            && let Some(words) = receipt(*letter)
        {
            return f.write_str(words);
        }
        say_mail(payload, f)
    }
}
