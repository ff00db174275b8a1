//! Whether a new audit challenge is answered.
//!
//! A new challenge costs a search among the holders for each hash that it names. Since hashes chain, a holder of an entry has each entry up
//! to it that any segment has. So if any segment answers the challenge, a holder does.

ghost use Rattle.std.specs.Prelude.{◌≡◌, ◌<◌, ℕ, List, Some, false, length, slice_get, slice_index_or, true};
ghost use Rattle.std.specs.List.{Contains, list_any};
ghost use Rattle.evidence_set.specs.Challenges.{is_against};
ghost use Rattle.kept_items.specs.Links.{Names};
ghost use Rattle.node_tables.specs.declared.mark.Mark.{Mark as TheMark};
ghost use Rattle.node_tables.specs.declared.span.Span.{Span as TheSpan};
ghost use Rattle.node_tables.specs.Hashed.{AreAsked, DoNotFall, front_of};
ghost use Rattle.node_tables.specs.within.Placing.{AreOthers, answers_at};

use crate::answering::{answers_at, one_answers};
use crate::mark::{Mark, front_of, near};
use crate::table::Table;
use evidence_item::{AuditChallenge, Form, Hash};
use kept_items::KeptItem;
use kept_items::laws::answers_are_inherited;
use tiered_vec::TieredVec;

/// Whether the holder that stands somewhere among others answers the challenge at a place.
fn holder_answers<P>(
    items: &[KeptItem<P>],
    holders: &TieredVec<Mark>,
    at: usize,
    challenge: u32,
) -> bool
    ensures { (d : TheMark) → at < length holders.now.items → result ≡ answers_at items.now challenge (slice_index_or holders.now.items at d).item }
{
    match holders.get(at) {
        None => false,
        Some(mark) => answers_at(items, challenge, mark.item),
    }
}

/// Whether a holder of the hash answers the challenge at a place.
fn one_near_answers<P>(
    items: &[KeptItem<P>],
    holders: &TieredVec<Mark>,
    hash: Hash,
    challenge: u32,
) -> bool
    requires { DoNotFall holders.now.items }
    ensures answers { result ≡ true → (m : TheMark) × Contains holders.now.items m × (answers_at items.now challenge m.item ≡ true) }
    ensures none { result ≡ false → (m : TheMark) → Contains holders.now.items m → m.front ≡ front_of hash → answers_at items.now challenge m.item ≡ false }
{
    let near = near(holders, front_of(hash));
    for at in near.start..near.end {
        if holder_answers(items, holders, at, challenge) {
            return true;
        }
    }
    false
}

/// Whether a holder of a hash that the challenge at a place names answers it.
fn one_holder_answers<P>(
    items: &[KeptItem<P>],
    holders: &TieredVec<Mark>,
    audit: &AuditChallenge,
    place: u32,
) -> bool
    requires { DoNotFall holders.now.items }
    ensures answers { result ≡ true → (m : TheMark) × Contains holders.now.items m × (answers_at items.now place m.item ≡ true) }
    ensures none { result ≡ false → (m : TheMark) (h : List ℕ) → Contains holders.now.items m → Names audit.now h → m.front ≡ front_of h → answers_at items.now place m.item ≡ false }
{
    if one_near_answers(items, holders, audit.last.hash, place) {
        return true;
    }
    match &audit.first {
        None => false,
        Some(first) => one_near_answers(items, holders, first.hash, place),
    }
}

/// Whether one of the segments answers the challenge at a place. An audit challenge is looked up.
pub(crate) fn one_segment_answers<P>(
    items: &[KeptItem<P>],
    table: &Table,
    challenge: &KeptItem<P>,
    place: u32,
) -> bool
    requires here { slice_get items.now place ≡ Some challenge.now }
    requires against { is_against table.now.node challenge.now.item.fields ≡ true }
    requires others { AreOthers items.now table.now.node place table.now.spans.items }
    requires asked { AreAsked items.now place table.now }
    ensures { result ≡ list_any (λ (p : TheSpan). answers_at items.now place p.item) table.now.spans.items }
{
    answers_are_inherited();
    if table.hashes.whole {
        if let Some(Form::Audit(audit)) = challenge.form() {
            return one_holder_answers(items, &table.hashes.holders, audit, place);
        }
    }
    one_answers(items, table.spans.as_slice(), place)
}
