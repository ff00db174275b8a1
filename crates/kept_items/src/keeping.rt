//! How a checked item comes to be kept.

ghost use Rattle.std.specs.Prelude.{◌≡◌, IfErr, IfNone, IfOk, IfSome, false, true};
ghost use Rattle.evidence_item.specs.Checking.{is_segment};
ghost use Rattle.kept_items.specs.Keeping.{CanBeKept};

use crate::handle::share_each;
use crate::item::KeptItem;
use crate::pair::pairs_of;
use crate::segment::KeptSegment;
use evidence_item::{Checked, Findings, Form};
use kept_entries::EntryPool;
use outcome::Memory;
use std::alloc::Global;
use std::marker::Model;

/// The error that memory ran out. It gives the item back as it was.
#[derive(Drop)]
pub struct KeepRefused<P>(pub Checked<P>);

/// An item that is about to be kept, with what it takes to give it back. A contract sees the checked item.
#[derive(Drop)]
pub struct Keeping<P> {
    item: KeptItem<P>,
    given: Option<Checked<P>>,
}

impl<P> Model for Keeping<P> {
    ghost use Rattle.evidence_item.specs.Checking.{Checked};
    ghost use Rattle.std.specs.Coded.{codes};
    ghost use Rattle.item_forms.specs.Pieces.{fits_code};
    ghost use Rattle.kept_items.specs.within.Items.{IsGivenBy};

    ghost Value = { Checked };

    ghost coded = { Prim.hlevel (codes, fits_code) };

    ghost view = { λ k. k.item };

    ghost invariant = { λ k. IsGivenBy k.item k.given };
}

impl<P> Keeping<P> {
    /// Returns the item as it will be kept.
    pub fn item(&self) -> &KeptItem<P>
        ensures { result.now ≡ self.now }
    {
        &self.item
    }

    /// Returns the item as it is kept from now on.
    pub fn commit(self) -> KeptItem<P>
        ensures { result ≡ self }
    {
        self.item
    }

    /// Returns the item as it was before. It takes no memory.
    pub fn give_back(self) -> Checked<P>
        ensures { result ≡ self }
    {
        let Keeping { item, given } = self;
        match given {
            None => item.into_single(),
            Some(checked) => checked,
        }
    }
}

/// Returns the segment with its entries shared, or `None` if the item is no segment.
fn shared_segment<P>(
    alloc: Global,
    pool: &mut EntryPool,
    checked: &Checked<P>,
) -> Result<Option<Box<KeptSegment>>, Memory>
    requires { CanBeKept checked.now }
    ensures none { IfOk result (λ o. IfNone o (is_segment checked.now.item.fields ≡ false)) }
    ensures some { IfOk result (λ o. IfSome o (λ k. k.value ≡ checked.now)) }
    ensures segment { IfOk result (λ o. IfSome o (λ k. is_segment k.value.item.fields ≡ true)) }
{
    let Form::Segment(segment) = checked.item().form() else {
        return Ok(None);
    };
    let Some(Findings::Segment(found)) = checked.findings() else {
        return Ok(None);
    };
    let handles = share_each(
        alloc,
        pool,
        segment.prev,
        segment.entries.as_slice(),
        found.hashes.as_slice(),
        found.quotes.as_slice(),
    )?;
    let pairs = pairs_of(alloc, &handles)?;
    let sig = segment.sig.try_clone(alloc)?;
    let kept = KeptSegment::from_parts(
        segment.node,
        segment.prev,
        handles,
        pairs,
        sig,
        checked.verdict().copied(),
    );
    let kept = Box::new(alloc, kept)?;
    Ok(Some(kept))
}

/// Keeps an item that is no segment, in a box if it has one.
fn keep_single<P>(alloc: Global, checked: Checked<P>) -> Result<Keeping<P>, KeepRefused<P>>
    requires { is_segment checked.item.fields ≡ false }
    ensures kept { IfOk result (λ k. k ≡ checked) }
    ensures given_back { IfErr result (λ r. r.0 ≡ checked) }
{
    let item = KeptItem::single(alloc, checked)?;
    Ok(Keeping { item, given: None })
}

impl<P> KeptItem<P> {
    /// Makes what is kept of the item. Of a segment these are handles of its entries, each kept once, and of any other item the item
    /// itself. The error [`KeepRefused`] comes if a growth is refused, and gives the item back. The pool may then keep some of the entries.
    pub fn keep(
        alloc: Global,
        pool: &mut EntryPool,
        checked: Checked<P>,
    ) -> Result<Keeping<P>, KeepRefused<P>>
        requires { CanBeKept checked }
        ensures kept { IfOk result (λ k. k ≡ checked) }
        ensures given_back { IfErr result (λ r. r.0 ≡ checked) }
    {
        match shared_segment(alloc, pool, &checked) {
            Err(Memory) => Err(KeepRefused(checked)),
            Ok(None) => keep_single(alloc, checked),
            Ok(Some(segment)) => Ok(Keeping {
                item: KeptItem::segment(segment),
                given: Some(checked),
            }),
        }
    }
}
