//! Nodes that are given only what is written in their journals.

ghost use Rattle.std.specs.Prelude.{◌≡◌, IfOk};
ghost use Rattle.commitment.specs.Calls.{after_call};
ghost use Rattle.node_journals.specs.Giving.{answer_to, said};

use crate::drafts::Draft;
use crate::fault::GiveFault;
use crate::giving::{Reply, apply};
use commitment::Node;
use replay_verifier::Program;
use std::marker::Model;

/// A node that is given only what was drafted for its journal. [`rebuild`](crate::rebuild) makes it, also the first time.
///
/// # What a caller must do
///
/// - Write the text of a draft to the journal and sync it before the draft is given. Give drafts in the order of their texts,
///   each once, and give all whose texts were written. Send the replies only then. `append` of `journal` writes a group of
///   texts and syncs them. After `Ok`, give all drafts of the group. After `InDoubt`, open the journal again and rebuild the
///   node from it. After any other error, give none of them.
/// - Have only one process at a time on a journal.
/// - Keep the journal secret. It has the entropy of each signature, though no seed.
///
/// A contract sees the node.
#[derive(Drop)]
pub struct Journalled<P: Program + Drop> {
    pub(crate) node: Node<P>,
}

impl<P: Program + Drop> Model for Journalled<P> {
    ghost use Rattle.commitment.specs.Nodes.{NodeState};

    ghost Value = { NodeState P.State };

    ghost view = { λ j. j.node };
}

impl<P: Program + Drop> Journalled<P> {
    /// Returns the node, to read from.
    pub fn node(&self) -> &Node<P>
        ensures { result.now ≡ self.now }
    {
        &self.node
    }

    /// Returns the node itself, for a library whose host writes the journal. From then on no type keeps the order of the steps: the host
    /// keeps it, as [`Journalled`] says what a caller must do.
    pub fn into_node(self) -> Node<P>
        ensures { result ≡ self }
    {
        let Journalled { node } = self;
        node
    }

    /// Gives the node what was drafted. The node becomes what its own call makes of it, and the reply is the call's own answer.
    /// If the node refuses the call, the reply is [`Reply::Refused`] or [`Reply::KeyRefused`], and the node is as it was.
    ///
    /// Reports `Ended` (130) if memory runs out. Then there is no node any more, and [`rebuild`](crate::rebuild) makes it from
    /// the journal. The reason: the record is written, so a node that went on without it would sign other texts than the
    /// rebuilt one.
    pub fn give(self, draft: Draft) -> Result<(Journalled<P>, Reply), GiveFault>
        ensures given { IfOk result (λ x. x.0 ≡ after_call P.means self draft) }
        ensures answer { IfOk result (λ x. said x.1 ≡ answer_to P.means self draft) }
    {
        let Journalled { node } = self;
        let mut node = node;
        match apply(&mut node, draft.input) {
            Ok(reply) => Ok((Journalled { node }, reply)),
            Err(_) => Err(GiveFault::Ended),
        }
    }
}
