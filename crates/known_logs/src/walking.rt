//! A walk over an item goes over the statements that stand in it, and the entries that it shows.

use crate::detail::Detail;
use crate::rows::Place;
use authenticators::{Authenticator, NodeId};
use evidence_item::{Checked, Findings};
use item_forms::{AckItem, AuditChallenge, Form, Message, Segment, Statement};
use log_chain::kind::{RECV, SEND};
use log_chain::{Entry, Hash};
use outcome::Memory;
use replay_verifier::Receipt;
use sentences::Role;

/// Takes the statements, the entries and the quotes of an item.
pub trait Walker {
    /// Returns whether the walker wants what the entries of this node say. If not, the walk gives it no entry of the node, and no detail
    /// with a statement of the node. It gives the quotes all the same.
    fn wants(&self, node: NodeId) -> bool;

    /// Takes a statement that stands in the item, in this role. What its entry says comes with it if that is wanted and the item says it.
    fn statement(
        &mut self,
        place: &Place,
        role: Role,
        detail: Option<&Detail>,
    ) -> Result<(), Memory>;

    /// Takes an entry of the item, which is a segment.
    fn entry(&mut self, place: &Place, detail: &Detail) -> Result<(), Memory>;

    /// Takes the quote of an entry: `entry` quotes `quoted` genuinely.
    fn quote(&mut self, entry: &Place, quoted: &Place) -> Result<(), Memory>;
}

/// Returns the place that a statement names.
fn stated(node: NodeId, seq: u64, hash: Hash) -> Place {
    Place { node, seq, hash }
}

/// Goes over a statement that stands alone.
pub(crate) fn walk_auth<W: Walker>(walker: &mut W, auth: &Authenticator) -> Result<(), Memory> {
    let place = stated(auth.node, auth.seq, auth.hash);
    walker.statement(&place, Role::Statement, None)
}

/// Goes over the statements that an audit challenge names.
fn walk_audit<W: Walker>(walker: &mut W, challenge: &AuditChallenge) -> Result<(), Memory> {
    if let Some(Statement { seq, hash, .. }) = &challenge.first {
        let place = stated(challenge.node, *seq, *hash);
        walker.statement(&place, Role::Named, None)?;
    }
    let last = &challenge.last;
    let place = stated(challenge.node, last.seq, last.hash);
    walker.statement(&place, Role::Named, None)
}

/// Gives the walker the statement of the SEND entry at this place, which follows the hash `prev`.
fn say_sent<W: Walker>(
    walker: &mut W,
    place: &Place,
    role: Role,
    prev: Hash,
    to: NodeId,
    payload: &[u8],
) -> Result<(), Memory> {
    if !walker.wants(place.node) {
        return walker.statement(place, role, None);
    }
    let detail = Detail::of_send(prev, to, payload);
    walker.statement(place, role, Some(&detail))
}

/// Goes over the sender's statement of a message, whose SEND entry has this hash.
fn walk_sent<W: Walker>(
    walker: &mut W,
    message: &Message,
    hash: Hash,
    role: Role,
) -> Result<(), Memory> {
    let place = stated(message.from, message.seq, hash);
    let payload = message.payload.as_slice();
    say_sent(walker, &place, role, message.prev, message.to, payload)
}

/// Goes over the two statements of an acknowledgement. Its SEND entry has the hash `sent`, and its RECV entry the hash `received`.
fn walk_ack<W: Walker>(
    walker: &mut W,
    ack: &AckItem,
    sent: Hash,
    received: Hash,
) -> Result<(), Memory> {
    let message = &ack.message;
    walk_sent(walker, message, sent, Role::Acknowledged)?;
    let place = stated(message.to, ack.seq, received);
    let quoted = stated(message.from, message.seq, sent);
    walker.quote(&place, &quoted)?;
    if !walker.wants(place.node) {
        return walker.statement(&place, Role::Acknowledging, None);
    }
    let detail = Detail::of_recv(ack.prev, &quoted, message.payload.as_slice());
    walker.statement(&place, Role::Acknowledging, Some(&detail))
}

/// Goes over the SEND entry, with this hash, that an entry at this place quotes.
fn walk_quoted<W: Walker>(
    walker: &mut W,
    place: &Place,
    entry: &Entry,
    hash: Hash,
) -> Result<(), Memory> {
    let Some(receipt) = Receipt::read(entry.content.as_slice()) else {
        return Ok(());
    };
    let sent = stated(receipt.from, receipt.seq, hash);
    walker.quote(place, &sent)?;
    let by = place.node;
    let role = Role::Quoted {
        by,
        entry: entry.seq,
    };
    say_sent(walker, &sent, role, receipt.prev, by, receipt.payload)
}

/// Goes over what the entries of a segment quote. The entries have these hashes, and what they quote has the hashes in `quotes`.
fn walk_quotes<W: Walker>(
    walker: &mut W,
    segment: &Segment,
    hashes: &[Hash],
    quotes: &[Option<Hash>],
) -> Result<(), Memory> {
    let entries = segment.entries.as_slice();
    for ((entry, hash), quoted) in entries.iter().zip(hashes).zip(quotes) {
        if let Some(sent) = quoted {
            let place = stated(segment.node, entry.seq, *hash);
            walk_quoted(walker, &place, entry, *sent)?;
        }
    }
    Ok(())
}

/// Goes over the entries of a segment, which have these hashes, and what they say.
fn walk_entries<W: Walker>(
    walker: &mut W,
    segment: &Segment,
    hashes: &[Hash],
) -> Result<(), Memory> {
    let entries = segment.entries.as_slice();
    let mut prev = segment.prev;
    for (entry, hash) in entries.iter().zip(hashes) {
        let place = stated(segment.node, entry.seq, *hash);
        walker.entry(&place, &Detail::of_entry(prev, entry))?;
        prev = *hash;
    }
    Ok(())
}

/// Goes over the entries of a segment, and the statement that it ends with. The entries have these hashes, and what they quote has the
/// hashes in `quotes`.
pub(crate) fn walk_segment<W: Walker>(
    walker: &mut W,
    segment: &Segment,
    hashes: &[Hash],
    quotes: &[Option<Hash>],
) -> Result<(), Memory> {
    walk_quotes(walker, segment, hashes, quotes)?;
    if walker.wants(segment.node) {
        walk_entries(walker, segment, hashes)?;
    }
    let end = hashes.last().copied().unwrap_or(segment.prev);
    match segment.last_seq() {
        Some(seq) => walker.statement(&stated(segment.node, seq, end), Role::End, None),
        None => Ok(()),
    }
}

/// Gives the walker the statements, the entries and the quotes of an item of which everything was found. It verifies and hashes nothing. A
/// segment, a send challenge or an acknowledgement without findings gives nothing.
pub fn walk<P, W: Walker>(walker: &mut W, checked: &Checked<P>) -> Result<(), Memory> {
    match (checked.item().form(), checked.findings()) {
        (Form::Auth(auth), _) => walk_auth(walker, auth),
        (Form::Audit(challenge), _) => walk_audit(walker, challenge),
        (Form::Segment(segment), Some(Findings::Segment(found))) => {
            let hashes = found.hashes.as_slice();
            walk_segment(walker, segment, hashes, found.quotes.as_slice())
        }
        (Form::Send(message), Some(Findings::Send(hash))) => {
            walk_sent(walker, message, *hash, Role::Sent)
        }
        (Form::Ack(ack), Some(Findings::Ack { sent, received })) => {
            walk_ack(walker, ack, *sent, *received)
        }
        _ => Ok(()),
    }
}
