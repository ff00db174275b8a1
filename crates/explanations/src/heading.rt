//! The line about the whole of a store.

ghost use Rattle.std.specs.Prelude.{◌≡◌, ◌==◌, ◌++◌, ℕ, List, IfOk, codes, count_by, if◌then◌else◌, length, string_bytes};
ghost use Rattle.evidence_set.specs.declared.indication.Indication.TheVariants.{Trusted, Suspected, Exposed};
ghost use Rattle.explanations.specs.Headings.{counted, heading_words, indications_words, is_same};
ghost use Rattle.explanations.specs.within.Telling.{is_row};

use crate::joining::joined;
use crate::why::NodeWhy;
use evidence_set::Indication;
use sentences::FormCounts;
use std::alloc::{AllocError, Global};

/// Returns whether two indications are the same one.
fn is_same(one: Indication, other: Indication) -> bool
    ensures { result ≡ is_same one other }
{
    match (one, other) {
        (Indication::Trusted, Indication::Trusted) => true,
        (Indication::Suspected, Indication::Suspected) => true,
        (Indication::Exposed, Indication::Exposed) => true,
        _ => false,
    }
}

/// Returns whether a node is of the indication.
fn is_row(indication: Indication, row: &NodeWhy<'_>) -> bool
    ensures { result ≡ is_row indication row.now }
{
    is_same(indication, row.why.indication())
}

/// Returns how many nodes are of the indication.
fn count_of(whys: &[NodeWhy<'_>], indication: Indication) -> usize
    ensures { result ≡ count_by (is_row indication) whys.now }
{
    whys.iter().filter(|row| is_row(indication, row)).count()
}

/// Returns the word for one, or the word for any other number.
fn word_of(count: u64, one: &'static str, more: &'static str) -> &'static str
    ensures { result.now ≡ (if count == 1 then one.now else more.now) }
{
    if count == 1 { one } else { more }
}

/// Returns a number of things in words, with the word for one and the word for any other number.
fn counted(
    alloc: Global,
    count: u64,
    one: &'static str,
    more: &'static str,
) -> Result<String, AllocError>
    ensures { IfOk result (λ text. string_bytes text ≡ counted count one.now more.now) }
{
    let mut text = format!(in alloc; "{count} ")?;
    text.push_str(word_of(count, one, more))?;
    Ok(text)
}

/// Returns the words that say how many nodes are trusted, suspected and exposed.
fn indications_of(
    alloc: Global,
    trusted: usize,
    suspected: usize,
    exposed: usize,
) -> Result<String, AllocError>
    ensures { IfOk result (λ text. string_bytes text ≡ indications_words trusted suspected exposed) }
{
    let first = format!(in alloc; ": {trusted} trusted, ")?;
    let second = format!(in alloc; "{suspected} suspected, ")?;
    let third = format!(in alloc; "{exposed} exposed; ")?;
    let rest = joined(second, &third)?;
    let text = joined(first, &rest)?;
    Ok(text)
}

/// Returns the words that say how many nodes there are, by indication, and how many items.
fn words_of(
    alloc: Global,
    nodes: usize,
    indications: String,
    items: u64,
) -> Result<String, AllocError>
    ensures { IfOk result (λ text. string_bytes text ≡ counted nodes (codes "node") (codes "nodes") ++ (string_bytes indications ++ counted items (codes "item") (codes "items"))) }
{
    let nodes = counted(alloc, nodes as u64, "node", "nodes")?;
    let items = counted(alloc, items, "item", "items")?;
    let rest = joined(indications, &items)?;
    let text = joined(nodes, &rest)?;
    Ok(text)
}

/// Returns the words for the nodes by indication, and for the number of items.
fn front_of(alloc: Global, whys: &[NodeWhy<'_>], items: u64) -> Result<String, AllocError>
    ensures { IfOk result (λ text. string_bytes text ≡ heading_words (length whys.now) (count_by (is_row Trusted) whys.now) (count_by (is_row Suspected) whys.now) (count_by (is_row Exposed) whys.now) items) }
{
    let trusted = count_of(whys, Indication::Trusted);
    let suspected = count_of(whys, Indication::Suspected);
    let exposed = count_of(whys, Indication::Exposed);
    let indications = indications_of(alloc, trusted, suspected, exposed)?;
    let text = words_of(alloc, whys.len(), indications, items)?;
    Ok(text)
}

/// Returns the line about a store: its nodes by indication, and its items by form.
pub(crate) fn heading_of(
    alloc: Global,
    whys: &[NodeWhy<'_>],
    items: u64,
    forms: FormCounts,
) -> Result<String, AllocError>
    ensures { IfOk result (λ text. (behind : List ℕ) × (string_bytes text ≡ heading_words (length whys.now) (count_by (is_row Trusted) whys.now) (count_by (is_row Suspected) whys.now) (count_by (is_row Exposed) whys.now) items ++ behind)) }
{
    let rest = format!(in alloc; "{forms}")?;
    let front = front_of(alloc, whys, items)?;
    let text = joined(front, &rest)?;
    Ok(text)
}
