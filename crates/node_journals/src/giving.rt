//! Giving a node what is recorded.

ghost use Rattle.std.specs.Prelude.{◌≡◌, ◌⊎◌, IfErr, IfOk, None, OnErr, OnOk, Some};
ghost use Rattle.commitment.specs.Calls.{Given, after_call};
ghost use Rattle.node_journals.specs.Giving.{answer_to, given_of, said};
ghost use Rattle.node_journals.specs.declared.fault.DraftFault.TheVariants as fault;
ghost use Rattle.node_journals.specs.within.Inputs.{given_by};

use crate::fault::DraftFault;
use crate::keys::{Secret, key_for};
use crate::recorded::Recorded;
use commitment::{Ack, Message, NewFault, Node, NodeFault, SecretKey};
use outcome::Memory;
use replay_verifier::Program;
use std::alloc::{AllocError, Global};

/// What a node's call answers.
#[derive(Debug, Drop)]
pub enum Reply {
    /// The answer to a message: its acknowledgement, and the messages that are sent.
    Received(Ack, Vec<Message>),
    /// The answer to a tick: the messages that are sent.
    Ticked(Vec<Message>),
    /// The answer to a checkpoint: the number of its entry.
    Checkpointed(u64),
    /// The acknowledgement was accepted.
    Acknowledged,
    /// The node signs with the key from now on.
    Rekeyed,
    /// The call was refused, and the node is as it was.
    Refused(NodeFault),
    /// The key was refused, and the node is as it was.
    KeyRefused(NewFault),
}

/// What a node is given by one call. A key is made already.
#[derive(Drop)]
pub(crate) enum Input {
    Receive(Message, [u8; 32]),
    Tick(u64, [u8; 32]),
    Checkpoint,
    Acknowledge(Ack),
    Rekey(SecretKey),
}

/// A record that gives a node nothing, and the reason.
#[derive(Drop)]
pub(crate) struct NotGiven {
    pub fault: DraftFault,
    pub recorded: Recorded,
}

/// Returns what a record gives a node.
pub(crate) fn input_of(
    alloc: Global,
    secrets: &[Secret],
    recorded: Recorded,
) -> Result<Input, NotGiven>
    ensures given { IfOk result (λ input. given_of secrets.now recorded ≡ Some (given_by input)) }
    ensures refused { IfErr result (λ r. (r.fault ≡ fault.Memory) ⊎ ((r.fault ≡ fault.OtherKey) × (given_of secrets.now recorded ≡ None))) }
    ensures given_back { IfErr result (λ r. r.recorded ≡ recorded) }
{
    match recorded {
        Recorded::Received(message, entropy) => Ok(Input::Receive(message, entropy)),
        Recorded::Ticked(moment, entropy) => Ok(Input::Tick(moment, entropy)),
        Recorded::Checkpointed => Ok(Input::Checkpoint),
        Recorded::Acknowledged(ack) => Ok(Input::Acknowledge(ack)),
        Recorded::Rekeyed(key) => match key_for(alloc, secrets, &key) {
            Ok(Some(made)) => Ok(Input::Rekey(made)),
            Ok(None) => Err(NotGiven {
                fault: DraftFault::OtherKey,
                recorded: Recorded::Rekeyed(key),
            }),
            Err(_) => Err(NotGiven {
                fault: DraftFault::Memory,
                recorded: Recorded::Rekeyed(key),
            }),
        },
    }
}

fn give_message<P: Program + Drop>(
    node: &mut Node<P>,
    message: &Message,
    entropy: [u8; 32],
) -> Result<Reply, Memory>
    ensures given { OnOk result (node.new ≡ after_call P.means node.old (Given.Receive message.now entropy)) }
    ensures answer { IfOk result (λ reply. said reply ≡ answer_to P.means node.old (Given.Receive message.now entropy)) }
    ensures unchanged { OnErr result (node.new ≡ node.old) }
{
    match node.receive(message, entropy) {
        Ok((ack, messages)) => Ok(Reply::Received(ack, messages)),
        Err(NodeFault::Memory) => Err(AllocError),
        Err(fault) => Ok(Reply::Refused(fault)),
    }
}

fn give_tick<P: Program + Drop>(
    node: &mut Node<P>,
    moment: u64,
    entropy: [u8; 32],
) -> Result<Reply, Memory>
    ensures given { OnOk result (node.new ≡ after_call P.means node.old (Given.Tick moment entropy)) }
    ensures answer { IfOk result (λ reply. said reply ≡ answer_to P.means node.old (Given.Tick moment entropy)) }
    ensures unchanged { OnErr result (node.new ≡ node.old) }
{
    match node.timer(moment, entropy) {
        Ok(messages) => Ok(Reply::Ticked(messages)),
        Err(NodeFault::Memory) => Err(AllocError),
        Err(fault) => Ok(Reply::Refused(fault)),
    }
}

fn give_checkpoint<P: Program + Drop>(node: &mut Node<P>) -> Result<Reply, Memory>
    ensures given { OnOk result (node.new ≡ after_call P.means node.old Given.Checkpoint) }
    ensures answer { IfOk result (λ reply. said reply ≡ answer_to P.means node.old Given.Checkpoint) }
    ensures unchanged { OnErr result (node.new ≡ node.old) }
{
    match node.checkpoint() {
        Ok(seq) => Ok(Reply::Checkpointed(seq)),
        Err(NodeFault::Memory) => Err(AllocError),
        Err(fault) => Ok(Reply::Refused(fault)),
    }
}

fn give_ack<P: Program + Drop>(node: &mut Node<P>, ack: &Ack) -> Reply
    ensures given { node.new ≡ after_call P.means node.old (Given.Acknowledge ack.now) }
    ensures answer { said result ≡ answer_to P.means node.old (Given.Acknowledge ack.now) }
{
    match node.accept_ack(ack) {
        Ok(()) => Reply::Acknowledged,
        Err(fault) => Reply::Refused(fault),
    }
}

fn give_key<P: Program + Drop>(node: &mut Node<P>, key: SecretKey) -> Reply
    ensures given { node.new ≡ after_call P.means node.old (Given.Rekey key) }
    ensures answer { said result ≡ answer_to P.means node.old (Given.Rekey key) }
{
    match node.next_key(key) {
        Ok(()) => Reply::Rekeyed,
        Err(refused) => Reply::KeyRefused(refused.fault),
    }
}

/// Gives the node the input. The node becomes what its call makes of it, and the reply is the call's own answer. A refusal is
/// an answer too, and leaves the node as it was. If memory runs out, there is no answer, and the node is as it was.
pub(crate) fn apply<P: Program + Drop>(node: &mut Node<P>, input: Input) -> Result<Reply, Memory>
    ensures given { OnOk result (node.new ≡ after_call P.means node.old (given_by input)) }
    ensures answer { IfOk result (λ reply. said reply ≡ answer_to P.means node.old (given_by input)) }
    ensures unchanged { OnErr result (node.new ≡ node.old) }
{
    match input {
        Input::Receive(message, entropy) => give_message(node, &message, entropy),
        Input::Tick(moment, entropy) => give_tick(node, moment, entropy),
        Input::Checkpoint => give_checkpoint(node),
        Input::Acknowledge(ack) => Ok(give_ack(node, &ack)),
        Input::Rekey(key) => Ok(give_key(node, key)),
    }
}
