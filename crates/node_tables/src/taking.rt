//! Taking away open audit challenges that a segment answers, by their namings.

ghost use Rattle.std.specs.Prelude.{◌≡◌, ◌<◌, ◌≤◌, ◌+◌, ℕ, IfNone, IfSome, Some, false, length, not, slice_get, slice_index_or, true};
ghost use Rattle.std.specs.List.{Contains, filter};
ghost use Rattle.kept_items.specs.declared.link.Link.{Link as TheLink};
ghost use Rattle.node_tables.specs.declared.naming.Naming.{Naming as TheNaming};
ghost use Rattle.node_tables.specs.Hashed.{StandByPairs, front_of, link_at};
ghost use Rattle.node_tables.specs.Places.{AscendBySpelling};
ghost use Rattle.node_tables.specs.within.Named.{AreAnswered, AreBothAnswered, AreLookedAt, AreNamingsOf, AreStruck, AreTaken, beside, is_like};
ghost use Rattle.node_tables.specs.within.Sendings.{audited_by, told_audit};

use crate::bodies::gap_among;
use crate::hashes::Hashes;
use crate::holding::link_at;
use crate::mark::{Mark, front_of};
use crate::naming::{Fronts, Naming, places_of, take_away, unname};
use evidence_item::Form;
use kept_items::KeptItem;
use tiered_vec::TieredVec;

/// Whether the item is an audit challenge, and the other one answers it.
fn answers_audit<P>(challenge: &KeptItem<P>, answer: &KeptItem<P>) -> bool
    ensures { result ≡ told_audit challenge.now.item.fields answer.now.item.fields }
{
    let Some(form) = challenge.form() else {
        return false;
    };
    match form {
        Form::Auth(_) | Form::Segment(_) | Form::Send(_) | Form::Ack(_) => false,
        Form::Audit(_) => answer.answers(challenge),
    }
}

/// The same of the items at two places.
pub(crate) fn answers_audit_at<P>(items: &[KeptItem<P>], challenge: u32, answer: u32) -> bool
    ensures { result ≡ audited_by (slice_get items.now challenge) (slice_get items.now answer) }
{
    let Some(challenge) = items.get(challenge as usize) else {
        return false;
    };
    match items.get(answer as usize) {
        None => false,
        Some(answer) => answers_audit(challenge, answer),
    }
}

/// Takes away the challenge at a place. It is looked up by binary search.
fn take_one<P>(items: &[KeptItem<P>], places: &mut TieredVec<u32>, place: u32)
    requires { AscendBySpelling items.now places.old.items }
    ensures items { places.new.items ≡ filter (λ i. not (is_like (slice_get items.now i) (slice_get items.now place))) places.old.items }
    ensures room { places.old.room ≤ places.new.room }
{
    let Some(kept) = items.get(place as usize) else {
        return;
    };
    match gap_among(items, places, kept) {
        Ok(at) => places.remove(at),
        Err(_) => {}
    }
}

/// Takes away the challenge of a naming, which the segment at a place answers, and its other naming.
fn take_named<P>(
    items: &[KeptItem<P>],
    places: &mut TieredVec<u32>,
    others: &mut TieredVec<Naming>,
    naming: Naming,
    answer: u32,
)
    requires spelled { AscendBySpelling items.now places.old.items }
    requires order { StandByPairs others.old.items }
    requires answered { audited_by (slice_get items.now naming.item) (slice_get items.now answer) ≡ true }
    ensures places { AreTaken items.now answer places.old.items places.new.items }
    ensures gone { Contains places.new.items naming.item → ⊥ }
    ensures room { places.old.room ≤ places.new.room }
    ensures others { AreNamingsOf places.new.items others.old.items others.new.items }
{
    take_one(items, places, naming.item);
    let turned = Naming {
        front: naming.other,
        other: naming.front,
        item: naming.item,
    };
    unname(others, turned);
}

/// The naming that stands somewhere among others, if the segment at a place answers its challenge.
fn answered_at<P>(
    items: &[KeptItem<P>],
    namings: &TieredVec<Naming>,
    at: usize,
    answer: u32,
) -> Option<Naming>
    ensures none { IfNone result ((d : TheNaming) → at < length namings.now.items → audited_by (slice_get items.now (slice_index_or namings.now.items at d).item) (slice_get items.now answer) ≡ false) }
    ensures some { IfSome result (λ m. (audited_by (slice_get items.now m.item) (slice_get items.now answer) ≡ true) × ((d : TheNaming) → at < length namings.now.items → m ≡ slice_index_or namings.now.items at d)) }
{
    match namings.get(at) {
        None => None,
        Some(naming) => {
            if answers_audit_at(items, naming.item, answer) {
                return Some(*naming);
            }
            None
        }
    }
}

/// Takes away the challenges of the namings that are looked for, as far as the segment at a place answers them, and their other namings.
fn take_near<P>(
    items: &[KeptItem<P>],
    places: &mut TieredVec<u32>,
    own: &mut TieredVec<Naming>,
    others: &mut TieredVec<Naming>,
    fronts: Fronts,
    answer: u32,
)
    requires spelled { AscendBySpelling items.now places.old.items }
    requires own { StandByPairs own.old.items }
    requires others { StandByPairs others.old.items }
    ensures places { AreTaken items.now answer places.old.items places.new.items }
    ensures room { places.old.room ≤ places.new.room }
    ensures own { AreNamingsOf places.new.items own.old.items own.new.items }
    ensures others { AreNamingsOf places.new.items others.old.items others.new.items }
    ensures done { AreAnswered items.now answer fronts own.new.items }
{
    let near = places_of(own, fronts);
    let mut at = near.start;
    let mut end = near.end;
    while at < end {
        match answered_at(items, own, at, answer) {
            None => at += 1,
            Some(naming) => {
                take_named(items, places, others, naming, answer);
                take_away(own, at);
                end -= 1;
            }
        }
    }
}

/// The same by both hashes of a challenge.
fn take_both<P>(
    items: &[KeptItem<P>],
    places: &mut TieredVec<u32>,
    hashes: &mut Hashes,
    fronts: Fronts,
    answer: u32,
)
    requires spelled { AscendBySpelling items.now places.old.items }
    requires lasts { StandByPairs hashes.old.lasts.items }
    requires firsts { StandByPairs hashes.old.firsts.items }
    ensures struck { AreStruck items.now answer places.old.items places.new.items hashes.old hashes.new }
    ensures room { places.old.room ≤ places.new.room }
    ensures done { AreBothAnswered items.now answer fronts hashes.new }
{
    take_near(
        items,
        places,
        &mut hashes.lasts,
        &mut hashes.firsts,
        fronts,
        answer,
    );
    take_near(
        items,
        places,
        &mut hashes.firsts,
        &mut hashes.lasts,
        fronts,
        answer,
    );
}

/// The same of what names the entry at a mark beside the hash before the first entry of its segment.
fn take_begun<P>(
    items: &[KeptItem<P>],
    places: &mut TieredVec<u32>,
    hashes: &mut Hashes,
    mark: Mark,
)
    requires spelled { AscendBySpelling items.now places.old.items }
    requires lasts { StandByPairs hashes.old.lasts.items }
    requires firsts { StandByPairs hashes.old.firsts.items }
    ensures struck { AreStruck items.now mark.item places.old.items places.new.items hashes.old hashes.new }
    ensures room { places.old.room ≤ places.new.room }
    ensures done { (b : TheLink) → link_at items.now mark.item 0 ≡ Some b → AreBothAnswered items.now mark.item (beside mark.front (front_of b.prev)) hashes.new }
{
    let first = Mark {
        front: 0,
        item: mark.item,
        position: 0,
    };
    if let Some(link) = link_at(items, first) {
        let fronts = Fronts {
            front: mark.front,
            other: Some(front_of(link.prev)),
        };
        take_both(items, places, hashes, fronts, mark.item);
    }
}

/// The same of what names it beside the entry at a position of its segment.
fn take_beside<P>(
    items: &[KeptItem<P>],
    places: &mut TieredVec<u32>,
    hashes: &mut Hashes,
    mark: Mark,
    position: u32,
)
    requires spelled { AscendBySpelling items.now places.old.items }
    requires lasts { StandByPairs hashes.old.lasts.items }
    requires firsts { StandByPairs hashes.old.firsts.items }
    ensures struck { AreStruck items.now mark.item places.old.items places.new.items hashes.old hashes.new }
    ensures room { places.old.room ≤ places.new.room }
    ensures done { (b : TheLink) → link_at items.now mark.item position ≡ Some b → AreBothAnswered items.now mark.item (beside mark.front (front_of b.hash)) hashes.new }
{
    let at = Mark {
        front: 0,
        item: mark.item,
        position,
    };
    if let Some(link) = link_at(items, at) {
        let fronts = Fronts {
            front: mark.front,
            other: Some(front_of(link.hash)),
        };
        take_both(items, places, hashes, fronts, mark.item);
    }
}

/// The same of what names it beside one of so many first entries of its segment, or beside the hash before them.
fn take_by_entries<P>(
    items: &[KeptItem<P>],
    places: &mut TieredVec<u32>,
    hashes: &mut Hashes,
    mark: Mark,
    entries: u32,
)
    requires spelled { AscendBySpelling items.now places.old.items }
    requires lasts { StandByPairs hashes.old.lasts.items }
    requires firsts { StandByPairs hashes.old.firsts.items }
    ensures struck { AreStruck items.now mark.item places.old.items places.new.items hashes.old hashes.new }
    ensures room { places.old.room ≤ places.new.room }
    ensures looked { AreLookedAt items.now mark.item mark.front entries hashes.new }
{
    take_begun(items, places, hashes, mark);
    for position in 0..entries {
        take_beside(items, places, hashes, mark, position);
    }
}

/// How many namings there are of a hash, by its first eight bytes.
fn count_namings(hashes: &Hashes, front: u64) -> usize
    requires lasts { StandByPairs hashes.now.lasts.items }
    requires firsts { StandByPairs hashes.now.firsts.items }
{
    let fronts = Fronts { front, other: None };
    let lasts = places_of(&hashes.lasts, fronts);
    let firsts = places_of(&hashes.firsts, fronts);
    let last_count = lasts.end.saturating_sub(lasts.start);
    last_count.saturating_add(firsts.end.saturating_sub(firsts.start))
}

/// Of the challenges that name the entry at a mark beside one of so many first entries of its segment, or beside the hash before them, it
/// takes away those that the segment answers. It looks either at all that name the entry, or, for each of the other entries, at those that
/// name both: at the fewer.
pub(crate) fn take_new<P>(
    items: &[KeptItem<P>],
    places: &mut TieredVec<u32>,
    hashes: &mut Hashes,
    mark: Mark,
    entries: u32,
)
    requires spelled { AscendBySpelling items.now places.old.items }
    requires lasts { StandByPairs hashes.old.lasts.items }
    requires firsts { StandByPairs hashes.old.firsts.items }
    ensures struck { AreStruck items.now mark.item places.old.items places.new.items hashes.old hashes.new }
    ensures room { places.old.room ≤ places.new.room }
    ensures looked { AreLookedAt items.now mark.item mark.front entries hashes.new }
{
    if count_namings(hashes, mark.front) > entries as usize {
        take_by_entries(items, places, hashes, mark, entries);
        return;
    }
    let fronts = Fronts {
        front: mark.front,
        other: None,
    };
    take_both(items, places, hashes, fronts, mark.item);
}
