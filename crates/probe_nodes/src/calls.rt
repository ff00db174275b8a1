//! Verbs that change nodes.

use crate::arena::Arena;
use crate::{acks, sending};
use authenticators::NodeId;
use commitment::Node;
use messages::Message;
use probe_words::{Answer, Mistake, Words};
use ref_programs::Tally;

/// How many names a call may have that gives messages, before it is known how many messages it gives.
const MOST_NAMES: usize = 100;

/// `node DIRECTORY ID KEY FIRST_NUMBER as NODE`: makes a node. It takes the key, unless it refuses it.
pub fn begin(on: &mut Arena, words: &Words) -> Result<Answer, Mistake> {
    words.take(4, 1)?;
    let id = NodeId(words.short(2)?);
    let first = words.number(4)?;
    let directory = on.below.directories.get(1, words.word(1))?.try_clone()?;
    let Some(key) = on.below.keys.take(words.word(3)) else {
        return Err(Mistake::Name(3));
    };
    on.below.growths.begin();
    let begun = Node::new(on.below.alloc, Tally, directory, id, key, first);
    on.below.growths.end();
    match begun {
        Ok(node) => {
            on.nodes.put(words.name(0)?, node)?;
            on.below.done()
        }
        Err(refused) => {
            let answer = on
                .below
                .refused(refused.fault.number(), refused.fault.name(), &refused)?;
            on.below.keys.put(words.word(3), refused.key)?;
            Ok(answer)
        }
    }
}

/// `next_key NODE KEY`: has the node sign with this key from now on. It takes the key, unless it refuses it.
pub fn next_key(on: &mut Arena, words: &Words) -> Result<Answer, Mistake> {
    words.take(2, 0)?;
    let node = on.nodes.get_mut(1, words.word(1))?;
    let Some(key) = on.below.keys.take(words.word(2)) else {
        return Err(Mistake::Name(2));
    };
    on.below.growths.begin();
    let taken = node.next_key(key);
    on.below.growths.end();
    match taken {
        Ok(()) => on.below.done(),
        Err(refused) => {
            let answer = on
                .below
                .refused(refused.fault.number(), refused.fault.name(), &refused)?;
            on.below.keys.put(words.word(2), refused.key)?;
            Ok(answer)
        }
    }
}

/// Writes the messages, and gives them the names from this place on. It refuses the line if there are more names than messages.
fn tell_sent(
    on: &mut Arena,
    words: &Words,
    from: usize,
    given: Vec<Message>,
    text: &mut String,
) -> Result<(), Mistake> {
    words.take(3, from.saturating_add(given.len()))?;
    let mut place = from;
    for message in given {
        let told = sending::told(on.below.alloc, &message)?;
        write!(text, ", sent {told}")?;
        if let Ok(name) = words.name(place) {
            on.messages.put(name, message)?;
        }
        place = place.saturating_add(1);
    }
    Ok(())
}

/// `receive NODE MESSAGE ENTROPY as ACK MESSAGE..`: has the node receive the message. Answers the acknowledgement and the messages that it gives.
pub fn receive(on: &mut Arena, words: &Words) -> Result<Answer, Mistake> {
    words.take(3, MOST_NAMES)?;
    let entropy = words.array(&on.below.bytes, 3)?;
    let node = on.nodes.get_mut(1, words.word(1))?;
    let message = on.messages.get(2, words.word(2))?;
    on.below.growths.begin();
    let received = node.receive(message, entropy);
    on.below.growths.end();
    match received {
        Ok((ack, given)) => {
            let mut text = acks::told(on.below.alloc, &ack)?;
            if let Ok(name) = words.name(0) {
                on.acks.put(name, ack)?;
            }
            tell_sent(on, words, 1, given, &mut text)?;
            Ok(Answer::told(text))
        }
        Err(fault) => on.below.refused(fault.number(), fault.name(), &fault),
    }
}

/// `timer NODE MOMENT ENTROPY as MESSAGE..`: has the node's timer tick. Answers the messages that it gives.
pub fn timer(on: &mut Arena, words: &Words) -> Result<Answer, Mistake> {
    words.take(3, MOST_NAMES)?;
    let moment = words.number(2)?;
    let entropy = words.array(&on.below.bytes, 3)?;
    let node = on.nodes.get_mut(1, words.word(1))?;
    on.below.growths.begin();
    let ticked = node.timer(moment, entropy);
    on.below.growths.end();
    match ticked {
        Ok(given) => {
            let mut text = String::from_str(on.below.alloc, "ok")?;
            tell_sent(on, words, 0, given, &mut text)?;
            Ok(Answer::told(text))
        }
        Err(fault) => on.below.refused(fault.number(), fault.name(), &fault),
    }
}

/// `checkpoint NODE`: has the node make a checkpoint. Answers its number.
pub fn checkpoint(on: &mut Arena, words: &Words) -> Result<Answer, Mistake> {
    words.take(1, 0)?;
    let node = on.nodes.get_mut(1, words.word(1))?;
    on.below.growths.begin();
    let made = node.checkpoint();
    on.below.growths.end();
    match made {
        Ok(seq) => Ok(Answer::told(format!(in on.below.alloc; "{seq}")?)),
        Err(fault) => on.below.refused(fault.number(), fault.name(), &fault),
    }
}

/// `accept NODE ACK`: has the node accept the acknowledgement.
pub fn accept(on: &mut Arena, words: &Words) -> Result<Answer, Mistake> {
    words.take(2, 0)?;
    let node = on.nodes.get_mut(1, words.word(1))?;
    let ack = on.acks.get(2, words.word(2))?;
    on.below.growths.begin();
    let accepted = node.accept_ack(ack);
    on.below.growths.end();
    match accepted {
        Ok(()) => on.below.done(),
        Err(fault) => on.below.refused(fault.number(), fault.name(), &fault),
    }
}
