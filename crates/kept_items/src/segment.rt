//! Segments whose entries are shared.

ghost use Rattle.std.specs.Prelude.{◌≡◌, IfOk, Some, false, option_copied};
ghost use Rattle.std.specs.Option.{option_map};
ghost use Rattle.log_chain.specs.Chain.{hashes};
ghost use Rattle.item_forms.specs.Pieces.{fits_prop};
ghost use Rattle.item_forms.specs.Spelling.{Fits, FitsSegment};
ghost use Rattle.item_forms.specs.declared.forms.Fields.TheVariants as form;
ghost use Rattle.evidence_set.specs.Challenges.{answers_audit};
ghost use Rattle.kept_entries.specs.Shared.{entries_of, hashes_of};
ghost use Rattle.kept_evidence.specs.Telling.{denies, told_send};
ghost use Rattle.kept_items.specs.Keeping.{reach, subject};
ghost use Rattle.kept_items.specs.Links.{link_in};
ghost use Rattle.kept_items.specs.Positions.{positions, shown, stated};
ghost use Rattle.kept_items.specs.within.Parts.{fields_of, findings_in};
ghost use Rattle.kept_items.specs.within.Lent.{whole};
ghost use Rattle.kept_items.specs.within.Pairing.{ArePairs};
ghost use Rattle.proofs.specs.Contradictions.{is_rising};

use crate::answering::have_receipt_of;
use crate::handle::{Handle, share_again};
use crate::link::{Link, link_at};
use crate::lookup::{cover, finds_pair};
use crate::numbers::{are_rising, first_seq, last_seq};
use crate::pair::Pair;
use crate::quoting::{end_of, quote_at};
use crate::reach::{Reach, low_number};
use crate::said::Said;
use authenticators::NodeId;
use evidence_item::{AuditChallenge, ByteString, Hash, Message};
use kept_entries::EntryPool;
use log_chain::base_hash;
use outcome::Memory;
use replay_verifier::Verdict;
use std::alloc::Global;
use std::marker::Model;

/// A checked segment whose entries are shared with others. A contract sees the checked item.
#[derive(Drop)]
pub(crate) struct KeptSegment {
    node: NodeId,
    prev: Hash,
    handles: Vec<Handle>,
    sig: ByteString,
    verdict: Option<Verdict>,
    rises: bool,
    pairs: Vec<Pair>,
    ghost fits: { Fits (fields_of node prev handles.items sig) } by { fits_prop (fields_of node prev handles.items sig) },
}

/// What a segment has, lent from where it lies.
#[derive(Clone, Copy)]
pub(crate) struct Parts<'a> {
    pub(crate) node: NodeId,
    pub(crate) prev: Hash,
    pub(crate) handles: &'a [Handle],
    pub(crate) sig: &'a ByteString,
}

impl Model for KeptSegment {
    ghost use Rattle.evidence_item.specs.Checking.{Checked};
    ghost use Rattle.std.specs.Coded.{codes};
    ghost use Rattle.item_forms.specs.Pieces.{fits_code};
    ghost use Rattle.kept_items.specs.within.Parts.{IsHashed, checked_of};

    ghost Value = { Checked };

    ghost coded = { Prim.hlevel (codes, fits_code) };

    ghost view = { λ k. checked_of k.node k.prev k.handles.items k.sig k.fits k.verdict };

    ghost invariant = { λ k. IsHashed k.prev k.handles.items k.rises k.pairs.items };
}

impl KeptSegment {
    /// Returns a segment of these parts. The entries have their hashes. If the numbers do not rise, the pairs are those of the entries.
    pub(crate) fn from_parts(
        node: NodeId,
        prev: Hash,
        handles: Vec<Handle>,
        pairs: Vec<Pair>,
        sig: ByteString,
        verdict: Option<Verdict>,
    ) -> KeptSegment
        requires fits { Fits (fields_of node prev handles.items sig) }
        requires hashed { hashes_of handles.items ≡ hashes prev (entries_of handles.items) }
        requires paired { is_rising (entries_of handles.items) ≡ false → ArePairs handles.items pairs.items }
        ensures fields { result.item.fields ≡ fields_of node prev handles.items sig }
        ensures verdict { result.verdict ≡ verdict }
        ensures findings { result.findings ≡ findings_in handles.items }
    {
        let rises = are_rising(handles.as_slice());
        KeptSegment {
            node,
            prev,
            handles,
            sig,
            verdict,
            rises,
            pairs,
        }
    }

    /// Returns the verdict of replay.
    pub(crate) fn verdict(&self) -> Option<&Verdict>
        ensures { option_copied result ≡ self.now.verdict }
    {
        self.verdict.as_ref()
    }

    /// Returns its parts.
    pub(crate) fn parts(&self) -> Parts<'_>
        ensures fields { self.now.item.fields ≡ form.Segment (whole result) }
        ensures fits { FitsSegment (whole result) }
        ensures findings { self.now.findings ≡ findings_in result.handles.now }
    {
        Parts {
            node: self.node,
            prev: self.prev,
            handles: self.handles.as_slice(),
            sig: &self.sig,
        }
    }

    /// Returns the node of whose log it is.
    pub(crate) fn node(&self) -> NodeId
        ensures { Some result ≡ subject self.now.item.fields }
    {
        self.node
    }

    /// Returns how many positions it has.
    pub(crate) fn positions(&self) -> u32
        ensures { result ≡ positions self.now.item.fields }
    {
        self.handles.len() as u32 + 1
    }

    /// Returns the statement at a position, if one stands there.
    pub(crate) fn statement(&self, position: u32) -> Option<Said<'_>>
        ensures { option_map shown result ≡ stated self.now position }
    {
        let handles = self.handles.as_slice();
        if position == 0 {
            return Some(end_of(self.node, self.prev, handles, self.sig.as_slice()));
        }
        quote_at(handles, position as usize - 1)
    }

    /// Returns where it begins and ends.
    pub(crate) fn reach(&self) -> Reach
        ensures { Some result ≡ reach self.now.item.fields }
    {
        if !self.rises {
            return Reach {
                low: u64::MAX,
                last: 0,
            };
        }
        let handles = self.handles.as_slice();
        Reach {
            low: low_number(self.prev, first_seq(handles)),
            last: last_seq(handles),
        }
    }

    /// Returns the entry at a position.
    pub(crate) fn link(&self, position: u32) -> Option<Link>
        ensures { result ≡ link_in self.now.item.fields position }
    {
        link_at(self.prev, self.handles.as_slice(), position as usize)
    }

    /// Returns whether the statement contradicts it. It takes no pass over the numbers.
    #[tactic(auto, unfolding(proofs::specs::Contradictions::contradicts))]
    pub(crate) fn is_denied(&self, said: &Said<'_>) -> bool
        ensures { result ≡ denies (shown said.now) self.now.item.fields }
    {
        let handles = self.handles.as_slice();
        if handles.is_empty() || !self.rises {
            return false;
        }
        let first = first_seq(handles);
        if said.seq < first {
            return (said.seq + 1 == first && said.hash != self.prev) || self.prev == base_hash();
        }
        said.seq <= last_seq(handles) && !finds_pair(self.prev, handles, said.seq, said.hash)
    }

    /// Returns whether it answers the audit challenge.
    pub(crate) fn answers_audit(&self, challenge: &AuditChallenge) -> bool
        ensures { result ≡ answers_audit challenge.now self.now.item.fields }
    {
        self.node == challenge.node
            && cover(
                challenge,
                self.prev,
                self.handles.as_slice(),
                self.rises,
                self.pairs.as_slice(),
            )
    }

    /// Returns whether it answers the challenge to acknowledge the message.
    pub(crate) fn answers_send(&self, message: &Message) -> bool
        ensures { result ≡ told_send message.now self.now.item.fields self.now.findings }
    {
        self.node == message.to && have_receipt_of(message, self.handles.as_slice())
    }

    /// Returns a copy whose entries the pool shares.
    pub(crate) fn share(&self, alloc: Global, pool: &mut EntryPool) -> Result<KeptSegment, Memory>
        ensures { IfOk result (λ k. k ≡ self.now) }
    {
        let handles = share_again(alloc, pool, self.handles.as_slice())?;
        let pairs = self.pairs.as_slice().to_vec(alloc)?;
        let sig = self.sig.try_clone(alloc)?;
        Ok(KeptSegment {
            node: self.node,
            prev: self.prev,
            handles,
            sig,
            verdict: self.verdict,
            rises: self.rises,
            pairs,
        })
    }
}
