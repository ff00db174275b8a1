//! Where kept items stand in the order of items. No encoding is made, and no memory is taken.

ghost use Rattle.std.specs.Prelude.{◌≡◌, false};
ghost use Rattle.std.specs.Cmp.Lexicographic.{slice_cmp};
ghost use Rattle.std.specs.Ordering.{ordering_then};
ghost use Rattle.evidence_item.specs.Checking.{is_segment};
ghost use Rattle.item_forms.specs.Groups.{block_order, group_cmp, shown_group, text_order};
ghost use Rattle.item_forms.specs.Pieces.{by_bytes};
ghost use Rattle.item_forms.specs.SegmentOrders.{counted_order, entry_order, segment_order};
ghost use Rattle.kept_entries.specs.Shared.{entries_of};
ghost use Rattle.kept_items.specs.within.Bare.{statement_order};
ghost use Rattle.kept_items.specs.within.Lent.{whole};

use crate::handle::Handle;
use crate::item::{Body, KeptItem};
use crate::segment::{KeptSegment, Parts};
use crate::statement::KeptStatement;
use authenticators::Authenticator;
use evidence_item::{Entry, Form, Hash, Item, Segment};
use item_forms::laws::segments_are_ordered_by_fields;
use item_forms::{Group, compare_texts};
use kept_entries::SharedEntry;
use std::cmp::Ordering;

fn compare_hashes(a: Hash, b: Hash) -> Ordering
    ensures { result ≡ block_order a b }
{
    a.0.as_slice().cmp(b.0.as_slice())
}

/// Compares bytes that follow their length: the shorter come first.
fn compare_contents(a: &[u8], b: &[u8]) -> Ordering
    ensures { result ≡ text_order a.now b.now }
{
    a.len().cmp(&b.len()).then_with(|| a.cmp(b))
}

/// Compares by number, kind and content.
fn compare_to_entry(a: &SharedEntry, b: &Entry) -> Ordering
    ensures { result ≡ entry_order a.now.entry b.now }
{
    a.seq()
        .cmp(&b.seq)
        .then_with(|| a.kind().cmp(&b.kind))
        .then_with(|| compare_contents(a.content(), b.content.as_slice()))
}

/// Compares two shared entries in the same way.
fn compare_shared(a: &SharedEntry, b: &SharedEntry) -> Ordering
    ensures { result ≡ entry_order a.now.entry b.now.entry }
{
    a.seq()
        .cmp(&b.seq())
        .then_with(|| a.kind().cmp(&b.kind()))
        .then_with(|| compare_contents(a.content(), b.content()))
}

fn compare_each(a: &[Handle], b: &[Entry]) -> Ordering
    ensures { result ≡ slice_cmp entry_order (entries_of a.now) b.now }
{
    let mut rest = b;
    for handle in a {
        let [other, others @ ..] = rest else {
            return Ordering::Greater;
        };
        let order = compare_to_entry(handle.get(), other);
        if order.is_ne() {
            return order;
        }
        rest = others;
    }
    if rest.is_empty() {
        Ordering::Equal
    } else {
        Ordering::Less
    }
}

fn compare_each_shared(a: &[Handle], b: &[Handle]) -> Ordering
    ensures { result ≡ slice_cmp entry_order (entries_of a.now) (entries_of b.now) }
{
    let mut rest = b;
    for handle in a {
        let [other, others @ ..] = rest else {
            return Ordering::Greater;
        };
        let order = compare_shared(handle.get(), other.get());
        if order.is_ne() {
            return order;
        }
        rest = others;
    }
    if rest.is_empty() {
        Ordering::Equal
    } else {
        Ordering::Less
    }
}

/// Compares entries that follow their count: the fewer come first.
fn compare_lists(a: &[Handle], b: &[Entry]) -> Ordering
    ensures { result ≡ counted_order entry_order (entries_of a.now) b.now }
{
    a.len().cmp(&b.len()).then_with(|| compare_each(a, b))
}

/// Compares two lists of shared entries in the same way.
fn compare_shared_lists(a: &[Handle], b: &[Handle]) -> Ordering
    ensures { result ≡ counted_order entry_order (entries_of a.now) (entries_of b.now) }
{
    a.len()
        .cmp(&b.len())
        .then_with(|| compare_each_shared(a, b))
}

/// Compares by entries, and then by signature.
fn compare_ends(a: &Parts<'_>, b: &Segment) -> Ordering
    ensures { result ≡ ordering_then (counted_order entry_order (entries_of a.now.handles.now) b.now.entries) (text_order a.now.sig.now b.now.sig) }
{
    compare_lists(a.handles, b.entries.as_slice()).then_with(|| compare_texts(a.sig, &b.sig))
}

/// Compares by the hash before the first entry, and then by the rest.
fn compare_within(a: &Parts<'_>, b: &Segment) -> Ordering
    ensures { result ≡ ordering_then (block_order a.now.prev b.now.prev) (ordering_then (counted_order entry_order (entries_of a.now.handles.now) b.now.entries) (text_order a.now.sig.now b.now.sig)) }
{
    match compare_hashes(a.prev, b.prev) {
        Ordering::Less => Ordering::Less,
        Ordering::Equal => compare_ends(a, b),
        Ordering::Greater => Ordering::Greater,
    }
}

/// Compares a segment of shared entries with another one.
fn compare_parts(a: &Parts<'_>, b: &Segment) -> Ordering
    ensures { result ≡ segment_order (whole a.now) b.now }
{
    match a.node.0.cmp(&b.node.0) {
        Ordering::Less => Ordering::Less,
        Ordering::Equal => compare_within(a, b),
        Ordering::Greater => Ordering::Greater,
    }
}

/// Compares two segments of shared entries by these, and then by signature.
fn compare_shared_ends(a: &Parts<'_>, b: &Parts<'_>) -> Ordering
    ensures { result ≡ ordering_then (counted_order entry_order (entries_of a.now.handles.now) (entries_of b.now.handles.now)) (text_order a.now.sig.now b.now.sig.now) }
{
    compare_shared_lists(a.handles, b.handles).then_with(|| compare_texts(a.sig, b.sig))
}

/// Compares by the hash before the first entry, and then by the rest.
fn compare_shared_within(a: &Parts<'_>, b: &Parts<'_>) -> Ordering
    ensures { result ≡ ordering_then (block_order a.now.prev b.now.prev) (ordering_then (counted_order entry_order (entries_of a.now.handles.now) (entries_of b.now.handles.now)) (text_order a.now.sig.now b.now.sig.now)) }
{
    match compare_hashes(a.prev, b.prev) {
        Ordering::Less => Ordering::Less,
        Ordering::Equal => compare_shared_ends(a, b),
        Ordering::Greater => Ordering::Greater,
    }
}

/// Compares two segments of shared entries.
fn compare_shared_parts(a: &Parts<'_>, b: &Parts<'_>) -> Ordering
    ensures { result ≡ segment_order (whole a.now) (whole b.now) }
{
    match a.node.0.cmp(&b.node.0) {
        Ordering::Less => Ordering::Less,
        Ordering::Equal => compare_shared_within(a, b),
        Ordering::Greater => Ordering::Greater,
    }
}

/// Compares a segment of shared entries with any item.
fn compare_to_item(segment: &KeptSegment, item: &Item) -> Ordering
    ensures { result ≡ by_bytes segment.now.item item.now }
{
    segments_are_ordered_by_fields();
    let parts = segment.parts();
    match item.form() {
        Form::Auth(_) => Ordering::Greater,
        Form::Segment(other) => compare_parts(&parts, other),
        Form::Audit(_) => Ordering::Less,
        Form::Send(_) => Ordering::Less,
        Form::Ack(_) => Ordering::Less,
    }
}

/// Compares two segments of shared entries, as items.
fn compare_segments(a: &KeptSegment, b: &KeptSegment) -> Ordering
    ensures { result ≡ by_bytes a.now.item b.now.item }
{
    segments_are_ordered_by_fields();
    compare_shared_parts(&a.parts(), &b.parts())
}

/// Compares an item that is no segment with a segment of shared entries.
fn compare_to_segment(item: &Item, segment: &KeptSegment) -> Ordering
    requires { is_segment item.now.fields ≡ false }
    ensures { result ≡ by_bytes item.now segment.now.item }
{
    segments_are_ordered_by_fields();
    let _parts = segment.parts();
    match item.form() {
        Form::Auth(_) => Ordering::Less,
        Form::Segment(_) => Ordering::Equal,
        Form::Audit(_) => Ordering::Greater,
        Form::Send(_) => Ordering::Greater,
        Form::Ack(_) => Ordering::Greater,
    }
}

/// Compares by node, number, hash and signature.
fn compare_fields(a: &Authenticator, b: &Authenticator) -> Ordering
    ensures { result ≡ statement_order a.now b.now }
{
    a.node
        .0
        .cmp(&b.node.0)
        .then_with(|| a.seq.cmp(&b.seq))
        .then_with(|| compare_hashes(a.hash, b.hash))
        .then_with(|| compare_texts(&a.sig, &b.sig))
}

/// Compares a statement with any item.
fn compare_statement_to_item(statement: &KeptStatement, item: &Item) -> Ordering
    ensures { result ≡ by_bytes statement.now.item item.now }
{
    segments_are_ordered_by_fields();
    let auth = statement.auth();
    match item.form() {
        Form::Auth(other) => compare_fields(auth, other),
        Form::Segment(_) => Ordering::Less,
        Form::Audit(_) => Ordering::Less,
        Form::Send(_) => Ordering::Less,
        Form::Ack(_) => Ordering::Less,
    }
}

/// Compares any item with a statement.
fn compare_to_statement(item: &Item, statement: &KeptStatement) -> Ordering
    ensures { result ≡ by_bytes item.now statement.now.item }
{
    segments_are_ordered_by_fields();
    let auth = statement.auth();
    match item.form() {
        Form::Auth(other) => compare_fields(other, auth),
        Form::Segment(_) => Ordering::Greater,
        Form::Audit(_) => Ordering::Greater,
        Form::Send(_) => Ordering::Greater,
        Form::Ack(_) => Ordering::Greater,
    }
}

/// Compares two statements, as items.
fn compare_statements(a: &KeptStatement, b: &KeptStatement) -> Ordering
    ensures { result ≡ by_bytes a.now.item b.now.item }
{
    compare_fields(a.auth(), b.auth())
}

/// Compares a statement with a segment of shared entries.
fn compare_statement_to_segment(statement: &KeptStatement, segment: &KeptSegment) -> Ordering
    ensures { result ≡ by_bytes statement.now.item segment.now.item }
{
    segments_are_ordered_by_fields();
    let _auth = statement.auth();
    let _parts = segment.parts();
    Ordering::Less
}

/// Compares a segment of shared entries with a statement.
fn compare_segment_to_statement(segment: &KeptSegment, statement: &KeptStatement) -> Ordering
    ensures { result ≡ by_bytes segment.now.item statement.now.item }
{
    segments_are_ordered_by_fields();
    let _auth = statement.auth();
    let _parts = segment.parts();
    Ordering::Greater
}

/// Compares a segment of shared entries with a group.
fn compare_to_group(segment: &KeptSegment, group: &Group<'_>) -> Ordering
    ensures { result ≡ group_cmp (shown_group group.now) segment.now.item.fields }
{
    let parts = segment.parts();
    match group {
        Group::Segments(node) => parts.node.0.cmp(&node.0),
        Group::AuditChallenges(_) => Ordering::Less,
        Group::SendChallenges => Ordering::Less,
        Group::Acknowledgements(_) => Ordering::Less,
    }
}

impl<P> KeptItem<P> {
    /// Returns whether the item stands before `item` (`Less`), is equal to it (`Equal`) or stands behind it (`Greater`) in the order of
    /// items.
    pub fn compare(&self, item: &Item) -> Ordering
        ensures { result ≡ by_bytes self.now.item item.now }
    {
        match &self.body {
            Body::Statement(statement) => compare_statement_to_item(statement, item),
            Body::Single(checked) => checked.item().cmp(item),
            Body::Segment(segment) => compare_to_item(segment, item),
        }
    }

    /// Returns the same as [`KeptItem::compare`], for another item that is kept.
    pub fn compare_kept(&self, other: &KeptItem<P>) -> Ordering
        ensures { result ≡ by_bytes self.now.item other.now.item }
    {
        match (&self.body, &other.body) {
            (_, Body::Single(b)) => self.compare(b.item()),
            (Body::Statement(a), Body::Statement(b)) => compare_statements(a, b),
            (Body::Statement(a), Body::Segment(b)) => compare_statement_to_segment(a, b),
            (Body::Single(a), Body::Statement(b)) => compare_to_statement(a.item(), b),
            (Body::Single(a), Body::Segment(b)) => compare_to_segment(a.item(), b),
            (Body::Segment(a), Body::Statement(b)) => compare_segment_to_statement(a, b),
            (Body::Segment(a), Body::Segment(b)) => compare_segments(a, b),
        }
    }

    /// Returns whether the item stands before the group (`Less`), in it (`Equal`) or behind it (`Greater`).
    pub fn compare_group(&self, group: &Group<'_>) -> Ordering
        ensures { result ≡ group_cmp (shown_group group.now) self.now.item.fields }
    {
        match &self.body {
            Body::Statement(_) => Ordering::Less,
            Body::Single(checked) => checked.item().cmp_group(group),
            Body::Segment(segment) => compare_to_group(segment, group),
        }
    }
}
