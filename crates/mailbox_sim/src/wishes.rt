//! Wishes of users in words, in the lines of a scenario.
//!
//! - `write NODE TEXT`: the node's user writes the text, which goes on to the end of the line.
//! - `leave NODE RECEIVER`: the node leaves for the receiver what was written.
//! - `fetch NODE`: the node fetches.

use authenticators::NodeId;
use mailbox::wishes;
use outcome::Memory;
use std::alloc::Global;
use std::str;

/// The moments of a wish, and the digits of the node whose user has it.
#[derive(Drop)]
struct Wish<'a> {
    node: &'a str,
    moments: Vec<u64>,
}

/// Returns whether the word begins as a number does: with a digit from 1 to 9, or it is `0`.
fn is_plain(word: &str) -> bool {
    matches!(word.as_bytes(), [b'0'] | [b'1'..=b'9', ..])
}

/// Returns the wish that the line has in words, or `None` if it has none.
fn wish_of<'a>(alloc: Global, line: &'a str) -> Result<Option<Wish<'a>>, Memory> {
    let Some((verb, rest)) = line.split_once(' ') else {
        return Ok(None);
    };
    let (node, moments) = match (verb, rest.split_once(' ')) {
        ("fetch", None) => (rest, vec![in alloc; wishes::fetch()]?),
        ("write", Some((node, text))) => (node, wishes::write(alloc, text.as_bytes())?),
        ("leave", Some((node, receiver))) => match receiver.parse() {
            Ok(number) if is_plain(receiver) => (
                node,
                vec![in alloc; wishes::leave(NodeId(number))]?,
            ),
            _ => return Ok(None),
        },
        _ => return Ok(None),
    };
    Ok(Some(Wish { node, moments }))
}

/// Writes a line of a scenario. If the line has a wish in words, it writes a line `timer NODE MOMENT` for each of its moments. It writes any
/// other line as it is.
fn put_line(alloc: Global, line: &str, scenario: &mut String) -> Result<(), Memory> {
    let Some(wish) = wish_of(alloc, line)? else {
        scenario.push_str(line)?;
        scenario.push('\n')?;
        return Ok(());
    };
    for moment in wish.moments {
        let spelled = format!(in alloc; "timer {} {moment}\n", wish.node)?;
        scenario.push_str(&spelled)?;
    }
    Ok(())
}

/// Returns the scenario with moments in place of the wishes that it has in words. A text that is not UTF-8 stays as it is.
pub(crate) fn in_moments(alloc: Global, text: &[u8]) -> Result<Vec<u8>, Memory> {
    let Ok(text) = str::from_utf8(text) else {
        let mut same = Vec::new(alloc);
        same.extend_from_slice(text)?;
        return Ok(same);
    };
    let mut scenario = String::new(alloc);
    for line in text.strip_suffix('\n').unwrap_or(text).split('\n') {
        put_line(alloc, line, &mut scenario)?;
    }
    Ok(scenario.into_bytes())
}
