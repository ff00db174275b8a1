//! How an item, beside its statements, comes into the table of its node.

ghost use Rattle.std.specs.Prelude.{◌≡◌, ◌↔◌, ◌⊎◌, ◌+◌, ◌<◌, ◌≤◌, ℕ, List, Contains, Some, false, length, slice_get, true};
ghost use Rattle.std.specs.List.Sorted.{IsBinarySearchResult, IsSearchInRange};
ghost use Rattle.evidence_set.specs.Challenges.{is_against};
ghost use Rattle.evidence_item.specs.Checking.{is_segment};
ghost use Rattle.item_forms.specs.Forms.{shown};
ghost use Rattle.item_forms.specs.declared.forms.AuditChallenge.{AuditChallenge as TheAudit};
ghost use Rattle.item_forms.specs.declared.forms.Fields.TheVariants as form;
ghost use Rattle.kept_items.specs.Links.{NamesBeside};
ghost use Rattle.node_tables.specs.Hashed.{HasNaming, StandByPairs};
ghost use Rattle.node_tables.specs.Places.{AscendBySpelling, item_order_by};
ghost use Rattle.node_tables.specs.within.Named.{KeepNamings};
ghost use Rattle.node_tables.specs.Steps.{AllTables, EachBecomes};
ghost use Rattle.node_tables.specs.Tables.{IsSegmentAt};
ghost use Rattle.node_tables.specs.within.Coming.{BodyCame, BodyPut, IsBodyDue, IsKept, IsToPut};
ghost use Rattle.node_tables.specs.within.Placing.{AreStanding, IsAckAt, IsNewAmong};

use crate::answering::{close_acknowledged, is_answered_at};
use crate::closing::close_by_segment;
use crate::hashes::Hashes;
use crate::mark::front_of;
use crate::naming::{Naming, put_where_room};
use crate::order::KeptProbe;
use crate::releasing::entries_of;
use crate::segments::put_segment;
use crate::table::Table;
use crate::tables::place_of;
use evidence_item::{AuditChallenge, Form};
use kept_items::KeptItem;
use log_chain::base_hash;
use tiered_vec::TieredVec;

/// Puts a segment: it may expose the node, and answers challenges.
fn put_whole_segment<P>(items: &[KeptItem<P>], table: &mut Table, place: u32)
    requires kept { IsKept items.now place table.old }
    requires segment { IsSegmentAt items.now table.old.node place }
    requires room { 1 ≤ table.old.spans.room }
    ensures { BodyPut items.now place table.old table.new }
{
    put_segment(items, table, place);
    close_by_segment(
        items,
        table.node,
        &mut table.unanswered,
        &mut table.hashes,
        place,
    );
}

/// Puts an acknowledgement: it answers challenges.
fn put_acknowledgement<P>(items: &[KeptItem<P>], table: &mut Table, place: u32)
    requires kept { IsKept items.now place table.old }
    requires here { IsAckAt items.now place }
    ensures { BodyPut items.now place table.old table.new }
{
    close_acknowledged(items, &mut table.unanswered, place);
}

/// Returns where the item at a place, which is a new one, would stand among places that ascend by encoding.
pub(crate) fn gap_among<P>(
    items: &[KeptItem<P>],
    places: &TieredVec<u32>,
    kept: &KeptItem<P>,
) -> Result<usize, usize>
    ensures bound { IsSearchInRange result (length places.now.items) }
    ensures position { IsBinarySearchResult (λ i. item_order_by (slice_get items.now i) kept.now.item) places.now.items result }
{
    places.search(&KeptProbe { items, kept })
}

/// Puts the place of a new item among others, by its encoding. There is room for it.
fn put_by_spelling<P>(
    items: &[KeptItem<P>],
    places: &mut TieredVec<u32>,
    place: u32,
    kept: &KeptItem<P>,
)
    requires ascending { AscendBySpelling items.now places.old.items }
    requires here { slice_get items.now place ≡ Some kept.now }
    requires new { IsNewAmong items.now place places.old.items }
    requires room { 1 ≤ places.old.room }
    ensures ascending { AscendBySpelling items.now places.new.items }
    ensures members { (i : ℕ) → Contains places.new.items i ↔ (Contains places.old.items i ⊎ (i ≡ place)) }
    ensures room { places.old.room ≤ places.new.room + 1 }
{
    let Err(gap) = gap_among(items, places, kept) else {
        return;
    };
    places.insert(gap, place);
}

/// Keeps an open audit challenge by the hashes that it names. Returns `false` if there is no memory for it.
fn put_namings(hashes: &mut Hashes, place: u32, audit: &AuditChallenge) -> bool
    requires lasts { StandByPairs hashes.old.lasts.items }
    requires firsts { StandByPairs hashes.old.firsts.items }
    ensures holders { hashes.new.holders.items ≡ hashes.old.holders.items }
    ensures keeps { KeepNamings hashes.old hashes.new }
    ensures named { result ≡ true → (g h : List ℕ) → NamesBeside audit.now g h → HasNaming hashes.new.lasts.items place g h ⊎ HasNaming hashes.new.firsts.items place g h }
{
    let last = front_of(audit.last.hash);
    let Some(first) = &audit.first else {
        let naming = Naming {
            front: last,
            other: front_of(base_hash()),
            item: place,
        };
        return put_where_room(&mut hashes.lasts, naming);
    };
    let first = front_of(first.hash);
    let naming = Naming {
        front: last,
        other: first,
        item: place,
    };
    if !put_where_room(&mut hashes.lasts, naming) {
        return false;
    }
    let turned = Naming {
        front: first,
        other: last,
        item: place,
    };
    put_where_room(&mut hashes.firsts, turned)
}

/// Keeps an open challenge by the hashes that it names, if it is an audit challenge.
fn put_by_hashes<P>(hashes: &mut Hashes, place: u32, kept: &KeptItem<P>)
    requires lasts { hashes.old.whole ≡ true → StandByPairs hashes.old.lasts.items }
    requires firsts { hashes.old.whole ≡ true → StandByPairs hashes.old.firsts.items }
    ensures whole { hashes.new.whole ≡ true → hashes.old.whole ≡ true }
    ensures holders { hashes.new.holders.items ≡ hashes.old.holders.items }
    ensures keeps { hashes.new.whole ≡ true → KeepNamings hashes.old hashes.new }
    ensures named { hashes.new.whole ≡ true → (c : TheAudit) (g h : List ℕ) → kept.now.item.fields ≡ form.Audit c → NamesBeside c g h → HasNaming hashes.new.lasts.items place g h ⊎ HasNaming hashes.new.firsts.items place g h }
{
    if !hashes.whole {
        return;
    }
    if let Some(Form::Audit(audit)) = kept.form() {
        if !put_namings(hashes, place, audit) {
            hashes.whole = false;
        }
    }
}

/// Puts a challenge, which is open unless something answers it.
fn put_challenge<P>(
    items: &[KeptItem<P>],
    table: &mut Table,
    place: u32,
    kept: &KeptItem<P>,
    answered: bool,
)
    requires to_put { IsToPut items.now place kept.now answered table.old }
    requires against { is_against table.old.node kept.now.item.fields ≡ true }
    ensures { BodyPut items.now place table.old table.new }
{
    if answered {
        return;
    }
    put_by_spelling(items, &mut table.unanswered, place, kept);
    put_by_hashes(&mut table.hashes, place, kept);
}

/// Puts what an item that is no segment is, beside its statements, into the table of its node.
fn put_other<P>(
    items: &[KeptItem<P>],
    table: &mut Table,
    place: u32,
    kept: &KeptItem<P>,
    form: Form<'_>,
    answered: bool,
)
    requires to_put { IsToPut items.now place kept.now answered table.old }
    requires form { shown form ≡ kept.now.item.fields }
    requires other { is_segment kept.now.item.fields ≡ false }
    ensures { BodyPut items.now place table.old table.new }
{
    match form {
        Form::Auth(_) | Form::Segment(_) => {}
        Form::Ack(_) => put_acknowledgement(items, table, place),
        Form::Audit(_) | Form::Send(_) => put_challenge(items, table, place, kept, answered),
    }
}

/// Puts what the item at a place is, beside its statements, into the table of its node.
fn put_form<P>(
    items: &[KeptItem<P>],
    table: &mut Table,
    place: u32,
    kept: &KeptItem<P>,
    answered: bool,
)
    requires { IsToPut items.now place kept.now answered table.old }
    ensures { BodyPut items.now place table.old table.new }
{
    match kept.form() {
        None => put_whole_segment(items, table, place),
        Some(form) => put_other(items, table, place, kept, form, answered),
    }
}

/// Puts what the item at a place is, beside its statements, into the table of its node, and takes back that it was promised.
fn put_in<P>(
    items: &[KeptItem<P>],
    table: &mut Table,
    place: u32,
    kept: &KeptItem<P>,
    answered: bool,
)
    requires { IsToPut items.now place kept.now answered table.old }
    ensures { BodyCame items.now place table.old table.new }
{
    put_form(items, table, place, kept, answered);
    table.bodies = table.bodies.saturating_sub(1);
    table.hashes.release(entries_of(kept));
}

/// Puts what the item at a place is, beside its statements, into the table of its node. There is room for it.
pub(crate) fn put_body<P>(
    items: &[KeptItem<P>],
    order: &TieredVec<u32>,
    tables: &mut [Table],
    place: u32,
)
    requires standing { AreStanding items.now order.now.items tables.old }
    requires there { place < length items.now }
    requires due { AllTables (IsBodyDue items.now place) tables.old }
    ensures { EachBecomes (BodyCame items.now place) tables.old tables.new }
{
    let kept = &items[place as usize];
    let Some(node) = kept.subject() else {
        return;
    };
    if let Some(i) = place_of(tables, node) {
        let answered = is_answered_at(items, order, tables, i, kept, place);
        put_in(items, &mut tables[i], place, kept, answered);
    }
}
