//! Kept items.

ghost use Rattle.std.specs.Prelude.{◌≡◌, IfErr, IfNone, IfOk, IfSome, false, option_copied, true};
ghost use Rattle.std.specs.Option.{option_map};
ghost use Rattle.evidence_item.specs.Checking.{is_segment};
ghost use Rattle.evidence_set.specs.Challenges.{answers_audit, is_against};
ghost use Rattle.item_digests.specs.Digests.{digest_of};
ghost use Rattle.kept_evidence.specs.Telling.{denies, told_answers, told_send};
ghost use Rattle.item_forms.specs.Forms.{shown as shown_form};
ghost use Rattle.kept_items.specs.Keeping.{is_challenge, reach, subject};
ghost use Rattle.kept_items.specs.Links.{link_in};
ghost use Rattle.kept_items.specs.Positions.{positions, shown, stated};
ghost use Rattle.kept_items.specs.within.Items.{IsApart, checked_in};

use crate::hashing::{digest_of_segment, digest_of_statement};
use crate::keeping::KeepRefused;
use crate::link::Link;
use crate::reach::Reach;
use crate::said::Said;
use crate::segment::KeptSegment;
use crate::single::{challenge_of, positions_of, statement_of, subject_of};
use crate::statement::{KeptStatement, is_bare};
use authenticators::NodeId;
use evidence_item::{AuditChallenge, Checked, Form, Item, Message};
use item_digests::digest_of;
use kept_entries::EntryPool;
use kept_evidence::{answers_send, is_against};
use log_chain::Hash;
use outcome::Memory;
use replay_verifier::Verdict;
use std::alloc::Global;
use std::marker::Model;

/// How an item is kept. Statements, of which there are most, stand in place. What is wider has a box.
#[derive(Drop)]
pub(crate) enum Body<P> {
    /// A statement that has no verdict and no findings, by its fields.
    Statement(KeptStatement),
    /// Any other item that is no segment, as it is.
    Single(Box<Checked<P>>),
    /// A segment, by its shared entries.
    Segment(Box<KeptSegment>),
}

/// A checked item as it is kept. A contract sees the checked item.
///
/// It is 80 bytes wide. Beside it a statement has the bytes of its signature. Any other item has a box with what it is made of.
#[derive(Drop)]
pub struct KeptItem<P> {
    pub(crate) body: Body<P>,
}

const _: () = prove!(size_of::<KeptItem<()>>() == 80);

impl<P> Model for KeptItem<P> {
    ghost use Rattle.evidence_item.specs.Checking.{Checked};
    ghost use Rattle.std.specs.Coded.{codes};
    ghost use Rattle.item_forms.specs.Pieces.{fits_code};
    ghost use Rattle.kept_items.specs.within.Items.{IsApart, checked_in};

    ghost Value = { Checked };

    ghost coded = { Prim.hlevel (codes, fits_code) };

    ghost view = { λ k. checked_in k.body };

    ghost invariant = { λ k. IsApart k.body };
}

/// Returns a copy of what is kept. The pool shares its entries.
fn shared_body<P>(alloc: Global, pool: &mut EntryPool, body: &Body<P>) -> Result<Body<P>, Memory>
    requires { IsApart body.now }
    ensures same { IfOk result (λ b. checked_in b ≡ checked_in body.now) }
    ensures apart { IfOk result (λ b. IsApart b) }
{
    match body {
        Body::Statement(statement) => {
            let copy = statement.try_clone(alloc)?;
            Ok(Body::Statement(copy))
        }
        Body::Single(checked) => {
            let copy = checked.try_clone(alloc)?;
            let copy = Box::new(alloc, copy)?;
            Ok(Body::Single(copy))
        }
        Body::Segment(segment) => {
            let copy = segment.share(alloc, pool)?;
            let copy = Box::new(alloc, copy)?;
            Ok(Body::Segment(copy))
        }
    }
}

impl<P> KeptItem<P> {
    /// Keeps an item that is no segment. If there is no memory for a box, it gives the item back.
    pub(crate) fn single(alloc: Global, checked: Checked<P>) -> Result<KeptItem<P>, KeepRefused<P>>
        requires { is_segment checked.item.fields ≡ false }
        ensures kept { IfOk result (λ k. k ≡ checked) }
        ensures given_back { IfErr result (λ r. r.0 ≡ checked) }
    {
        if is_bare(&checked) {
            let statement = KeptStatement::from_checked(checked);
            return Ok(KeptItem {
                body: Body::Statement(statement),
            });
        }
        match Box::new(alloc, checked) {
            Ok(checked) => Ok(KeptItem {
                body: Body::Single(checked),
            }),
            Err(refused) => Err(KeepRefused(refused.value)),
        }
    }

    /// Keeps a segment.
    pub(crate) fn segment(segment: Box<KeptSegment>) -> KeptItem<P>
        requires { is_segment segment.value.item.fields ≡ true }
        ensures { result ≡ segment.value }
    {
        KeptItem {
            body: Body::Segment(segment),
        }
    }

    /// Returns an item that is no segment, as it was.
    pub(crate) fn into_single(self) -> Checked<P>
        requires { is_segment self.item.fields ≡ false }
        ensures { result ≡ self }
    {
        match self.body {
            Body::Statement(statement) => statement.into_checked(),
            Body::Single(checked) => Box::into_inner(checked),
            Body::Segment(_) => unreachable!(),
        }
    }

    /// Returns the form of the item, with its fields lent. Returns `None` if the item is a segment.
    pub fn form(&self) -> Option<Form<'_>>
        ensures none { IfNone result (is_segment self.now.item.fields ≡ true) }
        ensures some { IfSome result (λ f. (shown_form f ≡ self.now.item.fields) × (is_segment self.now.item.fields ≡ false)) }
    {
        match &self.body {
            Body::Statement(statement) => Some(Form::Auth(statement.auth())),
            Body::Single(checked) => Some(checked.item().form()),
            Body::Segment(_) => None,
        }
    }

    /// Returns the item if it is a challenge, and `None` if it is not.
    pub fn as_challenge(&self) -> Option<&Item>
        ensures none { IfNone result (is_challenge self.now.item.fields ≡ false) }
        ensures some { IfSome result (λ i. (i.now ≡ self.now.item) × (is_challenge self.now.item.fields ≡ true)) }
    {
        match &self.body {
            Body::Statement(_) => None,
            Body::Single(checked) => challenge_of(checked.item()),
            Body::Segment(_) => None,
        }
    }

    /// Returns the SHA-256 value of the item's encoding. Each field is hashed where it lies, and no memory is taken.
    pub fn digest(&self) -> Hash
        ensures { result ≡ digest_of self.now.item }
    {
        match &self.body {
            Body::Statement(statement) => digest_of_statement(statement),
            Body::Single(checked) => digest_of(checked.item()),
            Body::Segment(segment) => digest_of_segment(segment),
        }
    }

    /// Returns the verdict of replay, if the item has one. Checking gives one to each segment, and to no other item.
    pub fn verdict(&self) -> Option<&Verdict>
        ensures { option_copied result ≡ self.now.verdict }
    {
        match &self.body {
            Body::Statement(statement) => statement.verdict(),
            Body::Single(checked) => checked.verdict(),
            Body::Segment(segment) => segment.verdict(),
        }
    }

    /// Returns how many positions the item has: 2 for an audit challenge and for an acknowledgement, 1 for a statement and for a send
    /// challenge, and one more than its entries for a segment.
    pub fn positions(&self) -> u32
        ensures { result ≡ positions self.now.item.fields }
    {
        match &self.body {
            Body::Statement(_) => 1,
            Body::Single(checked) => positions_of(checked.item()),
            Body::Segment(segment) => segment.positions(),
        }
    }

    /// Returns the statement at a position, if one stands there. Its signature is lent from where it lies.
    ///
    /// - In a segment the signed end stands at 0, and what entry `k` quotes, counted from 0, at `k + 1`.
    /// - In an audit challenge the last statement that it names stands at 0, and the first one, if it names one, at 1.
    /// - In an acknowledgement the sender's statement stands at 0, and the receiver's at 1.
    /// - Of a statement and of a send challenge the only statement stands at 0.
    ///
    /// Without its findings a send challenge or an acknowledgement has no statement.
    pub fn statement(&self, position: u32) -> Option<Said<'_>>
        ensures { option_map shown result ≡ stated self.now position }
    {
        match &self.body {
            Body::Statement(statement) => statement.statement(position),
            Body::Single(checked) => statement_of(checked, position),
            Body::Segment(segment) => segment.statement(position),
        }
    }

    /// Returns the node that the item is about beside its statements. This is the node of a segment, the node that a challenge is against,
    /// or the node that sent an acknowledgement. Returns `None` for a statement.
    pub fn subject(&self) -> Option<NodeId>
        ensures { result ≡ subject self.now.item.fields }
    {
        match &self.body {
            Body::Statement(_) => None,
            Body::Single(checked) => subject_of(checked.item()),
            Body::Segment(segment) => Some(segment.node()),
        }
    }

    /// Returns where a segment begins and ends. Returns `None` if the item is no segment.
    pub fn reach(&self) -> Option<Reach>
        ensures { result ≡ reach self.now.item.fields }
    {
        match &self.body {
            Body::Statement(_) => None,
            Body::Single(_) => None,
            Body::Segment(segment) => Some(segment.reach()),
        }
    }

    /// Returns the entry at a position of a segment, counted from 0, as the chain of its log has it. Returns `None` behind the last entry,
    /// and if the item is no segment. Nothing is hashed.
    pub fn link(&self, position: u32) -> Option<Link>
        ensures { result ≡ link_in self.now.item.fields position }
    {
        match &self.body {
            Body::Statement(_) => None,
            Body::Single(_) => None,
            Body::Segment(segment) => segment.link(position),
        }
    }

    /// Returns whether the item is a segment that the statement contradicts. It looks at the statement's number and hash alone, and not at
    /// its node. It takes no pass over the segment.
    pub fn is_denied(&self, said: &Said<'_>) -> bool
        ensures { result ≡ denies (shown said.now) self.now.item.fields }
    {
        match &self.body {
            Body::Statement(_) => false,
            Body::Single(_) => false,
            Body::Segment(segment) => segment.is_denied(said),
        }
    }

    /// Returns whether the item answers the audit challenge.
    fn answers_audit(&self, challenge: &AuditChallenge) -> bool
        ensures { result ≡ answers_audit challenge.now self.now.item.fields }
    {
        match &self.body {
            Body::Statement(_) => false,
            Body::Single(_) => false,
            Body::Segment(segment) => segment.answers_audit(challenge),
        }
    }

    /// Returns whether the item answers the challenge to acknowledge the message.
    fn answers_send(&self, message: &Message) -> bool
        ensures { result ≡ told_send message.now self.now.item.fields self.now.findings }
    {
        match &self.body {
            Body::Statement(_) => false,
            Body::Single(checked) => answers_send(message, checked),
            Body::Segment(segment) => segment.answers_send(message),
        }
    }

    /// Returns whether the item answers `challenge`. Returns `false` if `challenge` is no challenge. It verifies no signature and hashes
    /// nothing.
    pub fn answers(&self, challenge: &KeptItem<P>) -> bool
        ensures { result ≡ told_answers challenge.now.item.fields self.now }
    {
        let Some(form) = challenge.form() else {
            return false;
        };
        match form {
            Form::Audit(audit) => self.answers_audit(audit),
            Form::Send(message) => self.answers_send(message),
            Form::Auth(_) | Form::Segment(_) | Form::Ack(_) => false,
        }
    }

    /// Returns whether the item is a challenge against the node.
    pub fn is_against(&self, node: NodeId) -> bool
        ensures { result ≡ is_against node self.now.item.fields }
    {
        match &self.body {
            Body::Statement(_) => false,
            Body::Single(checked) => is_against(node, checked.item()),
            Body::Segment(_) => false,
        }
    }

    /// Returns a copy for another store, whose pool shares its entries. The error `Memory` comes if a growth is refused.
    pub fn share(&self, alloc: Global, pool: &mut EntryPool) -> Result<KeptItem<P>, Memory>
        ensures { IfOk result (λ k. k ≡ self.now) }
    {
        let body = shared_body(alloc, pool, &self.body)?;
        Ok(KeptItem { body })
    }
}
