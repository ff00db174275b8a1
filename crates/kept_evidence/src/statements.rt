//! The statements that a checked item holds, made from its fields and from what checking found.

ghost use Rattle.std.specs.Prelude.{◌≡◌, ◌++◌, [], IfOk, OnOk};
ghost use Rattle.evidence_item.specs.Statements.{says};
ghost use Rattle.kept_evidence.specs.Telling.{last_or, told_quote, told_quotes, told_segment, told_statements};

use authenticators::{Authenticator, NodeId};
use evidence_item::{ByteString, Checked, Entry, Findings, Form, Hash, Segment, SegmentFindings};
use outcome::Memory;
use replay_verifier::Receipt;
use std::alloc::Global;

fn statement(
    alloc: Global,
    node: NodeId,
    seq: u64,
    hash: Hash,
    sig: &ByteString,
) -> Result<Authenticator, Memory>
    ensures { IfOk result (λ a. a ≡ says node seq hash sig.now) }
{
    let sig = sig.try_clone(alloc)?;
    Ok(Authenticator {
        node,
        seq,
        hash,
        sig,
    })
}

/// Returns the statement that the entry quotes, if its hash was found.
fn quote(alloc: Global, entry: &Entry, hash: Option<Hash>) -> Result<Option<Authenticator>, Memory>
    ensures { IfOk result (λ a. a ≡ told_quote entry.now hash) }
{
    let Some(hash) = hash else {
        return Ok(None);
    };
    let Some(receipt) = Receipt::read(entry.content.as_slice()) else {
        return Ok(None);
    };
    let sig = ByteString::from_slice(alloc, receipt.sig)?;
    Ok(Some(Authenticator {
        node: receipt.from,
        seq: receipt.seq,
        hash,
        sig,
    }))
}

/// Writes the statements that the entries quote. `hashes` are those that were found of the quotes.
fn write_quotes(
    alloc: Global,
    statements: &mut Vec<Authenticator>,
    entries: &[Entry],
    hashes: &[Option<Hash>],
) -> Result<(), Memory>
    ensures { OnOk result (statements.new.items ≡ statements.old.items ++ told_quotes entries.now hashes.now) }
{
    let mut rest = hashes;
    for entry in entries {
        let [hash, others @ ..] = rest else {
            return Ok(());
        };
        if let Some(quoted) = quote(alloc, entry, *hash)? {
            statements.push(quoted)?;
        }
        rest = others;
    }
    Ok(())
}

/// Returns the last of the hashes, or `prev` if there is none.
fn last_or(prev: Hash, hashes: &[Hash]) -> Hash
    ensures { result ≡ last_or prev hashes.now }
{
    match hashes {
        [] => prev,
        [.., last] => *last,
    }
}

fn write_segment(
    alloc: Global,
    statements: &mut Vec<Authenticator>,
    segment: &Segment,
    found: &SegmentFindings,
) -> Result<(), Memory>
    ensures { OnOk result (statements.new.items ≡ statements.old.items ++ told_segment segment.now found.now) }
{
    let seq = segment.last_seq().unwrap_or(0);
    let hash = last_or(segment.prev, found.hashes.as_slice());
    statements.push(statement(alloc, segment.node, seq, hash, &segment.sig)?)?;
    write_quotes(
        alloc,
        statements,
        segment.entries.as_slice(),
        found.quotes.as_slice(),
    )
}

/// Adds the statements that the item holds to the end of `statements`. It needs what checking finds of the item: without it, a
/// segment, a send challenge or an acknowledgement adds none. If memory runs out, some of them may have been added.
pub fn write_statements<P>(
    alloc: Global,
    statements: &mut Vec<Authenticator>,
    checked: &Checked<P>,
) -> Result<(), Memory>
    ensures { OnOk result (statements.new.items ≡ statements.old.items ++ told_statements checked.now.item.fields checked.now.findings) }
{
    match (checked.item().form(), checked.findings()) {
        (Form::Auth(a), _) => {
            statements.push(statement(alloc, a.node, a.seq, a.hash, &a.sig)?)?;
        }
        (Form::Segment(segment), Some(Findings::Segment(found))) => {
            write_segment(alloc, statements, segment, found)?;
        }
        (Form::Audit(challenge), _) => {
            if let Some(first) = &challenge.first {
                statements.push(statement(
                    alloc,
                    challenge.node,
                    first.seq,
                    first.hash,
                    &first.sig,
                )?)?;
            }
            let last = &challenge.last;
            statements.push(statement(alloc, challenge.node, last.seq, last.hash, &last.sig)?)?;
        }
        (Form::Send(m), Some(Findings::Send(sent))) => {
            statements.push(statement(alloc, m.from, m.seq, *sent, &m.sig)?)?;
        }
        (Form::Ack(a), Some(Findings::Ack { sent, received })) => {
            let m = &a.message;
            statements.push(statement(alloc, m.from, m.seq, *sent, &m.sig)?)?;
            statements.push(statement(alloc, m.to, a.seq, *received, &a.sig)?)?;
        }
        _ => {}
    }
    Ok(())
}
