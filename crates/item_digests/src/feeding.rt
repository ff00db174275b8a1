//! Hashing of items: each field in turn, as the encoding has it.

ghost use Rattle.std.specs.Prelude.{[], ◌∷◌, ◌<◌, ◌^◌, IfSome, length};
ghost use Rattle.std.specs.Int.{to_be_bytes, w32, w64};
ghost use Rattle.std.specs.List.{All, flat_map};
ghost use Rattle.log_chain.specs.declared.limits.TheConstants.{MOST_ENTRIES};
ghost use Rattle.log_chain.specs.Fields.{IsListUpTo, bytes_text, counted_text};
ghost use Rattle.item_forms.specs.Forms.{shown};
ghost use Rattle.item_forms.specs.Spelling.{Fits, FitsAck, FitsAudit, FitsAuth, FitsEntry, FitsMessage, FitsSegment, FitsStatement, ack_spelling, audit_spelling, auth_spelling, entry_spelling, message_spelling, optional_spelling, segment_spelling, spelling, statement_spelling};
ghost use Rattle.item_digests.specs.Feeding.{Feeds};

use item_forms::{AckItem, AuditChallenge, Authenticator, Entry, Form, Hash, Segment, Statement};
use messages::Message;
use sha2::{Digest, Sha256};

/// Feeds the hasher one byte.
pub fn feed_u8(hasher: &mut Sha256, value: u8)
    ensures { Feeds hasher.old hasher.new (value ∷ []) }
{
    hasher.update([value]);
}

/// Feeds the hasher a number in four bytes, with its highest byte first.
pub fn feed_u32(hasher: &mut Sha256, value: u32)
    ensures { Feeds hasher.old hasher.new (to_be_bytes w32 value) }
{
    hasher.update(value.to_be_bytes());
}

fn feed_u64(hasher: &mut Sha256, value: u64)
    ensures { Feeds hasher.old hasher.new (to_be_bytes w64 value) }
{
    hasher.update(value.to_be_bytes());
}

/// Feeds the hasher the 32 bytes of a hash.
pub fn feed_hash(hasher: &mut Sha256, hash: Hash)
    ensures { Feeds hasher.old hasher.new hash }
{
    hasher.update(hash.0);
}

/// Feeds the hasher the length of the bytes, in four bytes, and then the bytes.
pub fn feed_bytes(hasher: &mut Sha256, bytes: &[u8])
    requires { length bytes.now < 2 ^ 32 }
    ensures { Feeds hasher.old hasher.new (bytes_text bytes.now) }
{
    feed_u32(hasher, bytes.len() as u32);
    hasher.update(bytes);
}

fn feed_statement(hasher: &mut Sha256, statement: &Statement)
    requires { FitsStatement statement.now }
    ensures { Feeds hasher.old hasher.new (statement_spelling statement.now) }
{
    feed_u64(hasher, statement.seq);
    feed_hash(hasher, statement.hash);
    feed_bytes(hasher, statement.sig.as_slice());
}

/// Feeds the hasher an entry, as a segment's encoding has it.
pub fn feed_entry(hasher: &mut Sha256, entry: &Entry)
    requires { FitsEntry entry.now }
    ensures { Feeds hasher.old hasher.new (entry_spelling entry.now) }
{
    feed_u64(hasher, entry.seq);
    feed_u8(hasher, entry.kind);
    feed_bytes(hasher, entry.content.as_slice());
}

fn feed_each(hasher: &mut Sha256, entries: &[Entry])
    requires { All FitsEntry entries.now }
    ensures { Feeds hasher.old hasher.new (flat_map entry_spelling entries.now) }
{
    for entry in entries {
        feed_entry(hasher, entry);
    }
}

fn feed_entries(hasher: &mut Sha256, entries: &[Entry])
    requires { IsListUpTo MOST_ENTRIES FitsEntry entries.now }
    ensures { Feeds hasher.old hasher.new (counted_text entry_spelling entries.now) }
{
    feed_u32(hasher, entries.len() as u32);
    feed_each(hasher, entries);
}

fn feed_optional(hasher: &mut Sha256, statement: &Option<Statement>)
    requires { IfSome statement.now FitsStatement }
    ensures { Feeds hasher.old hasher.new (optional_spelling statement.now) }
{
    match statement {
        None => feed_u8(hasher, 0),
        Some(statement) => {
            feed_u8(hasher, 1);
            feed_statement(hasher, statement);
        }
    }
}

fn feed_auth(hasher: &mut Sha256, auth: &Authenticator)
    requires { FitsAuth auth.now }
    ensures { Feeds hasher.old hasher.new (auth_spelling auth.now) }
{
    feed_u32(hasher, auth.node.0);
    feed_u64(hasher, auth.seq);
    feed_hash(hasher, auth.hash);
    feed_bytes(hasher, auth.sig.as_slice());
}

fn feed_segment(hasher: &mut Sha256, segment: &Segment)
    requires { FitsSegment segment.now }
    ensures { Feeds hasher.old hasher.new (segment_spelling segment.now) }
{
    feed_u32(hasher, segment.node.0);
    feed_hash(hasher, segment.prev);
    feed_entries(hasher, segment.entries.as_slice());
    feed_bytes(hasher, segment.sig.as_slice());
}

fn feed_audit(hasher: &mut Sha256, challenge: &AuditChallenge)
    requires { FitsAudit challenge.now }
    ensures { Feeds hasher.old hasher.new (audit_spelling challenge.now) }
{
    feed_u32(hasher, challenge.node.0);
    feed_optional(hasher, &challenge.first);
    feed_statement(hasher, &challenge.last);
}

fn feed_message(hasher: &mut Sha256, message: &Message)
    requires { FitsMessage message.now }
    ensures { Feeds hasher.old hasher.new (message_spelling message.now) }
{
    feed_u32(hasher, message.from.0);
    feed_u32(hasher, message.to.0);
    feed_u64(hasher, message.seq);
    feed_hash(hasher, message.prev);
    feed_bytes(hasher, message.sig.as_slice());
    feed_bytes(hasher, message.payload.as_slice());
}

fn feed_ack(hasher: &mut Sha256, ack: &AckItem)
    requires { FitsAck ack.now }
    ensures { Feeds hasher.old hasher.new (ack_spelling ack.now) }
{
    feed_message(hasher, &ack.message);
    feed_u64(hasher, ack.seq);
    feed_hash(hasher, ack.prev);
    feed_bytes(hasher, ack.sig.as_slice());
}

/// Feeds the hasher the encoding of an item of this form: its tag, and then its fields.
pub(crate) fn feed_tagged(hasher: &mut Sha256, form: Form<'_>)
    requires { Fits (shown form) }
    ensures { Feeds hasher.old hasher.new (spelling (shown form.entry)) }
{
    match form {
        Form::Auth(auth) => {
            feed_u8(hasher, 1);
            feed_auth(hasher, auth);
        }
        Form::Segment(segment) => {
            feed_u8(hasher, 2);
            feed_segment(hasher, segment);
        }
        Form::Audit(challenge) => {
            feed_u8(hasher, 3);
            feed_audit(hasher, challenge);
        }
        Form::Send(message) => {
            feed_u8(hasher, 4);
            feed_message(hasher, message);
        }
        Form::Ack(ack) => {
            feed_u8(hasher, 5);
            feed_ack(hasher, ack);
        }
    }
}
