//! Dealing the items of a set to parts.

ghost use Rattle.std.specs.Prelude.{◌≡◌, ◌==◌, ◌++◌, ◌∷◌, [], IfOk, OnOk, map};
ghost use Rattle.std.specs.List.{filter, list_any};
ghost use Rattle.std.specs.List.Sorted.{IsStrictlySortedBy};
ghost use Rattle.item_forms.specs.Pieces.{by_bytes};
ghost use Rattle.evidence.specs.Exports.{export_of};
ghost use Rattle.evidence_set.specs.ItemSets.{count, insert_all, none};
ghost use Rattle.shards.specs.Parts.{part, parts_joined};
ghost use Rattle.shards.specs.within.Deals.{deal_of, goes_to, numbers_of};

use crate::dealing::Dealing;
use crate::laws::quotes_are_as_expected;
use crate::naming::{own_shards_of, shards_of};
use containers::{HasItem, write_all};
use evidence::MAGIC;
use evidence_set::laws::sets_are_lists;
use item_forms::{Item, write_framed};
use localities::laws::shards_are_parts;
use log_chain::FieldWriter;
use outcome::Memory;
use std::alloc::Global;
use std::marker::Model;

/// An item, and the parts that it goes to.
#[derive(Drop)]
struct Dealt<'a> {
    item: &'a Item,
    parts: Vec<u32>,
}

/// An item that is lent.
#[derive(Drop)]
struct Lent<'a> {
    item: &'a Item,
}

impl<'a> HasItem for Lent<'a> {
    ghost piece = { λ lent. lent.item.now };

    fn encoded_len(&self) -> usize {
        self.item.encoded_len()
    }

    fn write(&self, writer: &mut FieldWriter) -> Result<(), Memory> {
        write_framed(writer, self.item.form())
    }
}

/// Returns the parts that an item goes to.
fn numbers_of(alloc: Global, dealing: &Dealing, item: &Item) -> Result<Vec<u32>, Memory>
    ensures { IfOk result (λ v. v.items ≡ numbers_of dealing.now item.now.fields) }
{
    let numbers = match dealing {
        Dealing::ByNode(shards) => shards_of(alloc, *shards, item)?,
        Dealing::Extracts(shards) => own_shards_of(alloc, *shards, item)?,
    };
    Ok(numbers)
}

/// Returns the items, each with its parts.
fn deal_each<'a>(
    alloc: Global,
    dealing: &Dealing,
    items: &'a [Item],
) -> Result<Vec<Dealt<'a>>, Memory>
    ensures { IfOk result (λ dealt. map (λ d. (d.item.now, d.parts.items)) dealt.items ≡ map (deal_of dealing.now) items.now) }
{
    let mut dealt = Vec::new(alloc);
    for item in items {
        let parts = numbers_of(alloc, dealing, item)?;
        dealt.push(Dealt { item, parts })?;
    }
    Ok(dealt)
}

/// Returns whether part `k` is one of those.
fn has_number(numbers: &[u32], k: u32) -> bool
    ensures { result ≡ list_any (λ n. n == k) numbers.now }
{
    for number in numbers {
        if *number == k {
            return true;
        }
    }
    false
}

/// Lends the item behind the others, if it goes to part `k`.
fn lend<'a>(lent: &mut Vec<Lent<'a>>, k: u32, one: &Dealt<'a>) -> Result<(), Memory>
    ensures { OnOk result (map (λ l. l.item.now) lent.new.items ≡ map (λ l. l.item.now) lent.old.items ++ map (λ d. d.0) (filter (goes_to k) ((one.now.item.now, one.now.parts.items) ∷ []))) }
{
    if has_number(&one.parts, k) {
        lent.push(Lent { item: one.item })?;
    }
    Ok(())
}

/// Returns the items that go to part `k`, in their order.
fn lend_each<'a>(alloc: Global, k: u32, dealt: &[Dealt<'a>]) -> Result<Vec<Lent<'a>>, Memory>
    ensures { IfOk result (λ lent. map (λ l. l.item.now) lent.items ≡ map (λ d. d.0) (filter (goes_to k) (map (λ d. (d.item.now, d.parts.items)) dealt.now))) }
{
    let mut lent = Vec::new(alloc);
    for one in dealt {
        lend(&mut lent, k, one)?;
    }
    Ok(lent)
}

/// One part of a set of items.
#[derive(Drop)]
pub struct Part {
    /// The encoding of a store with the part's items.
    pub text: Vec<u8>,
    /// How many items the part has.
    pub items: u64,
}

/// A set of items that is dealt to parts. It is settled once to which parts an item goes.
#[derive(Drop)]
pub struct Parting<'a> {
    dealing: Dealing,
    dealt: Vec<Dealt<'a>>,
}

impl<'a> Model for Parting<'a> {
    ghost use Rattle.std.specs.Prelude.{map};
    ghost use Rattle.shards.specs.Parts.{Parted};
    ghost use Rattle.shards.specs.within.Deals.{AreDealt};

    ghost Value = { Parted };

    ghost use Rattle.std.specs.Coded.{codes};
    ghost use Rattle.item_forms.specs.Pieces.{fits_code};

    ghost coded = { Prim.hlevel (codes, fits_code) };

    ghost view = { λ p. record { dealing = p.dealing; items = map (λ d. d.item.now) p.dealt.items } };

    ghost invariant = { λ p. AreDealt p.dealing (map (λ d. (d.item.now, d.parts.items)) p.dealt.items) };
}

impl<'a> Parting<'a> {
    /// Deals each of the items to its parts. They must ascend, each once, as [`gathered`](crate::gathered) returns them. It copies none of
    /// them.
    pub fn new(alloc: Global, dealing: Dealing, items: &'a [Item]) -> Result<Parting<'a>, Memory>
        requires ascending { IsStrictlySortedBy by_bytes items.now }
        ensures parted { IfOk result (λ p. p ≡ record { dealing = dealing; items = items.now }) }
        // Nothing is lost: the parts joined are the set.
        ensures whole { parts_joined dealing (insert_all none items.now) ≡ insert_all none items.now }
    {
        shards_are_parts();
        quotes_are_as_expected();
        let _ = dealing.parts();
        let dealt = deal_each(alloc, &dealing, items)?;
        Ok(Parting { dealing, dealt })
    }

    /// Returns how the items are dealt.
    pub fn dealing(&self) -> Dealing
        ensures { result ≡ self.now.dealing }
    {
        self.dealing
    }

    /// Writes part `k`, counted from 0, as the encoding of a store. A part from [`Dealing::parts`](crate::Dealing::parts) on has no items.
    pub fn part(&self, alloc: Global, k: u32) -> Result<Part, Memory>
        ensures text { IfOk result (λ p. p.text.items ≡ export_of (part self.now k)) }
        ensures counted { IfOk result (λ p. p.items ≡ count (part self.now k)) }
    {
        sets_are_lists();
        let lent = lend_each(alloc, k, &self.dealt)?;
        let text = write_all(alloc, MAGIC, lent.as_slice())?;
        Ok(Part {
            text,
            items: lent.len() as u64,
        })
    }
}
