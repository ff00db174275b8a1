//! What happens: a mail that arrives, two relays that lie, and one that keeps silent and then answers.

use crate::faulty::{Changing, Forgetful};
use anyhow::{Result, bail};
use authenticators::{Directory, NodeId};
use challenges::send_challenge;
use commitment::{Message, Node};
use evidence_item::Item;
use mailbox::{Mailbox, wishes};
use replay_verifier::Program;
use std::alloc::Global;
use tours::network::{ENTROPY, answer_of, begin, exchange};

/// A witness of nodes that are to follow Mailbox.
pub type Witness = tours::witness::Witness<Mailbox>;

/// The text that node 2 leaves for node 3.
const TEXT: &[u8] = b"meet at 6";

/// A scene of the tour.
#[derive(Clone, Copy)]
pub enum Scene {
    /// All nodes follow Mailbox, and the mail arrives.
    Delivery,
    /// The relay says that it holds the mail, and forgets it.
    DroppedMail,
    /// The relay sends the mail on with another text.
    ChangedMail,
    /// The relay does not acknowledge a text, and node 2 asks it to.
    Silence,
    /// The relay was asked to acknowledge a text, and has done it.
    Answer,
}

impl Scene {
    /// All scenes, in their order.
    pub const ALL: [Scene; 5] = [
        Scene::Delivery,
        Scene::DroppedMail,
        Scene::ChangedMail,
        Scene::Silence,
        Scene::Answer,
    ];

    /// The scene's name.
    pub fn name(self) -> &'static str {
        match self {
            Scene::Delivery => "delivery",
            Scene::DroppedMail => "dropped_mail",
            Scene::ChangedMail => "changed_mail",
            Scene::Silence => "silence",
            Scene::Answer => "answer",
        }
    }

    /// Plays the scene before the witness.
    pub fn play(self, alloc: Global, directory: &Directory, witness: &mut Witness) -> Result<()> {
        match self {
            Scene::Delivery => mail(alloc, directory, Mailbox, witness),
            Scene::DroppedMail => mail(alloc, directory, Forgetful, witness),
            Scene::ChangedMail => mail(alloc, directory, Changing, witness),
            Scene::Silence => silence(alloc, directory, witness),
            Scene::Answer => acknowledge(alloc, directory, witness),
        }
    }
}

/// The node's user writes the text, piece by piece, and leaves it for node 3. The request to the relay.
fn leave(alloc: Global, node: &mut Node<Mailbox>) -> Result<Vec<Message>> {
    for moment in wishes::write(alloc, TEXT)? {
        node.timer(moment, ENTROPY)?;
    }
    Ok(node.timer(wishes::leave(NodeId(3)), ENTROPY)?)
}

/// The relay, which runs this program, and the two nodes whose users leave and fetch texts there.
#[derive(Drop)]
struct Post<P: Program + Drop> {
    program: P,
    relay: Box<Node<P>>,
    sender: Box<Node<Mailbox>>,
    receiver: Box<Node<Mailbox>>,
}

impl<P: Program + Drop + Copy> Post<P> {
    /// Node 1 is the relay; node 2 leaves texts, and node 3 fetches them.
    fn begin(alloc: Global, directory: &Directory, program: P) -> Result<Post<P>> {
        Ok(Post {
            program,
            relay: begin(alloc, program, directory, 1)?,
            sender: begin(alloc, Mailbox, directory, 2)?,
            receiver: begin(alloc, Mailbox, directory, 3)?,
        })
    }

    /// Node 2 leaves the text for node 3, and the relay gives it a receipt.
    fn leave(&mut self, alloc: Global) -> Result<()> {
        let requests = leave(alloc, &mut self.sender)?;
        exchange(alloc, &mut self.sender, &mut self.relay, &requests)
    }

    /// Node 3 fetches what the relay holds for it.
    fn fetch(&mut self, alloc: Global) -> Result<()> {
        let requests = self.receiver.timer(wishes::fetch(), ENTROPY)?;
        exchange(alloc, &mut self.receiver, &mut self.relay, &requests)
    }

    /// All show their logs.
    fn show(&mut self, alloc: Global, witness: &mut Witness) -> Result<()> {
        witness.take_log(alloc, &self.program, &mut self.relay)?;
        witness.take_log(alloc, &Mailbox, &mut self.sender)?;
        witness.take_log(alloc, &Mailbox, &mut self.receiver)
    }
}

/// Node 2 leaves a text for node 3, which fetches twice. All show their logs. A log that ends where a message is still to be sent is in
/// order; what stands behind the second request shows whether the first was answered.
fn mail<P: Program + Drop + Copy>(
    alloc: Global,
    directory: &Directory,
    relay: P,
    witness: &mut Witness,
) -> Result<()> {
    let mut post = Post::begin(alloc, directory, relay)?;
    post.leave(alloc)?;
    post.fetch(alloc)?;
    post.fetch(alloc)?;
    post.show(alloc, witness)
}

/// The first message of the node that is not acknowledged.
fn unacknowledged(alloc: Global, node: &Node<Mailbox>) -> Result<Message> {
    if let Some(seq) = node.unacknowledged().first()
        && let Some(message) = node.message(*seq)
    {
        return Ok(message.try_clone(alloc)?);
    }
    bail!("all is acknowledged")
}

/// Node 2 leaves a text, which the relay does not acknowledge. The challenge to do it, which the witness takes.
fn ask(alloc: Global, directory: &Directory, witness: &mut Witness) -> Result<Item> {
    let mut two = begin(alloc, Mailbox, directory, 2)?;
    leave(alloc, &mut two)?;
    let asked = send_challenge(unacknowledged(alloc, &two)?)?;
    witness.take(alloc, asked.try_clone(alloc)?)?;
    Ok(asked)
}

/// The relay is asked to acknowledge a text and does not answer.
fn silence(alloc: Global, directory: &Directory, witness: &mut Witness) -> Result<()> {
    ask(alloc, directory, witness)?;
    Ok(())
}

/// The relay is asked to acknowledge a text and does it.
fn acknowledge(alloc: Global, directory: &Directory, witness: &mut Witness) -> Result<()> {
    let mut relay = begin(alloc, Mailbox, directory, 1)?;
    let asked = ask(alloc, directory, witness)?;
    let answer = answer_of(alloc, &Mailbox, &mut relay, asked)?;
    witness.take(alloc, answer)
}
