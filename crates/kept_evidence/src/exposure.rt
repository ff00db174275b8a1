//! What exposes a node, among its statements and segments.

ghost use Rattle.std.specs.Prelude.{◌≡◌, MatchOption, option_copied, true, false};
ghost use Rattle.std.specs.List.{list_any, Contains};
ghost use Rattle.proofs.specs.Contradictions.{contradicts};
ghost use Rattle.evidence_item.specs.Checking.{Checked as TheChecked};
ghost use Rattle.kept_evidence.specs.Kept.{HasHashes};
ghost use Rattle.kept_evidence.specs.Telling.{denies, deviates, is_denied};

use crate::findings::found_hashes;
use authenticators::Authenticator;
use evidence_item::{Checked, Form};
use proofs::RangedSegment;
use replay_verifier::Verdict;

/// Returns the first of the statements that contradicts the segment.
fn denier<'a>(held: &'a [Authenticator], segment: &RangedSegment<'_>) -> Option<&'a Authenticator>
    ensures { MatchOption result (list_any (λ a. contradicts a.seq a.hash segment.now) held.now ≡ false) (λ a. Contains held.now a.now × (contradicts a.now.seq a.now.hash segment.now ≡ true)) }
{
    for a in held {
        if segment.contradicts(a.seq, a.hash) {
            return Some(a);
        }
    }
    None
}

/// Returns the first of the statements that contradicts the item, if the item is a segment.
fn denier_of<'a, P>(held: &'a [Authenticator], checked: &Checked<P>) -> Option<&'a Authenticator>
    requires { HasHashes checked.now }
    ensures { MatchOption result (is_denied held.now checked.now.item.fields ≡ false) (λ a. Contains held.now a.now × (denies a.now checked.now.item.fields ≡ true)) }
{
    match checked.item().form() {
        Form::Segment(segment) => {
            let hashes = found_hashes(checked)?;
            denier(held, &RangedSegment::new(segment, hashes))
        }
        Form::Auth(_) | Form::Audit(_) | Form::Send(_) | Form::Ack(_) => None,
    }
}

/// A statement, and the segment that it contradicts.
#[derive_where(Clone, Copy)]
pub struct Denial<'a, P> {
    /// The statement.
    pub statement: &'a Authenticator,
    /// The segment.
    pub segment: &'a Checked<P>,
}

/// Returns the first of the segments that one of the statements contradicts, with the first such statement. Returns `None` if
/// there is no such segment.
pub fn first_denial<'a, P>(
    held: &'a [Authenticator],
    segments: &'a [Checked<P>],
) -> Option<Denial<'a, P>>
    requires { (c : TheChecked) → Contains segments.now c → HasHashes c }
    ensures { MatchOption result (list_any (λ (c : TheChecked). is_denied held.now c.item.fields) segments.now ≡ false) (λ d. Contains held.now d.statement.now × Contains segments.now d.segment.now × (denies d.statement.now d.segment.now.item.fields ≡ true)) }
{
    for segment in segments {
        if let Some(statement) = denier_of(held, segment) {
            return Some(Denial { statement, segment });
        }
    }
    None
}

/// Returns whether the verdict is that the entries deviate.
fn deviates(verdict: Option<&Verdict>) -> bool
    ensures { result ≡ deviates (option_copied verdict.entry) }
{
    match verdict {
        Some(Verdict::Deviates { .. }) => true,
        Some(Verdict::Conforms) => false,
        None => false,
    }
}

/// Returns the first of the items whose verdict is that the entries deviate, or `None` if there is none.
pub fn deviating<P>(segments: &[Checked<P>]) -> Option<&Checked<P>>
    ensures { MatchOption result (list_any (λ (c : TheChecked). deviates c.verdict) segments.now ≡ false) (λ c. Contains segments.now c.now × (deviates c.now.verdict ≡ true)) }
{
    for segment in segments {
        if deviates(segment.verdict()) {
            return Some(segment);
        }
    }
    None
}

/// What exposes a node, borrowed from the store that keeps it.
#[derive_where(Clone, Copy)]
pub enum Exposure<'a, P> {
    /// Two statements with the same number and two hashes.
    TwoHashes(&'a Authenticator, &'a Authenticator),
    /// A statement, and the segment that it contradicts.
    Denied(Denial<'a, P>),
    /// A segment that deviates.
    Deviates(&'a Checked<P>),
}
