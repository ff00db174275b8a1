//! The same items spread by texts alone: outlines, short summaries and packs are written and read. And texts that are cut off.

use crate::worlds::five_items::{FiveItems, make_items};
use crate::worlds::spreading::ALL;
use authenticators::Directory;
use evidence_store::{Evidence, IndexedStore, PlainStore};
use log_chain::Hash;
use ref_programs::Tally;
use sha2::{Digest, Sha256};
use std::alloc::Global;
use std::test::Fail;
use store_samples::{new_store, take_some};
use transfer::{Outline, Pack, Summary, apply, outline, pack, short_summary};

/// A store that has the items at these places of the five.
fn store_with<S: Evidence<Tally>>(
    alloc: Global,
    five: &FiveItems,
    places: &[usize],
) -> Result<Box<S>, Fail> {
    let mut store: Box<S> = new_store(alloc, &five.directory)?;
    take_some::<S>(alloc, &mut store, &five.items, places)?;
    Ok(store)
}

/// The text of the store's outline.
fn text_of_outline<S: Evidence<Tally>>(alloc: Global, store: &S) -> Result<Vec<u8>, Fail> {
    let told = outline(alloc, store)?;
    Ok(told.to_bytes(alloc)?)
}

/// The text of the store's short summary against the outline of this text.
fn text_of_summary<S: Evidence<Tally>>(
    alloc: Global,
    store: &S,
    told: &[u8],
) -> Result<Vec<u8>, Fail> {
    let outline = Outline::from_bytes(alloc, told)?;
    let named = short_summary(alloc, store, &outline)?;
    Ok(named.to_bytes(alloc)?)
}

/// The text of the sender's pack for the receiver, against its short summary against the sender's outline.
fn text_of_pack<S: Evidence<Tally>>(
    alloc: Global,
    sender: &S,
    receiver: &S,
) -> Result<Vec<u8>, Fail> {
    let told = text_of_outline::<S>(alloc, sender)?;
    let named = text_of_summary::<S>(alloc, receiver, &told)?;
    let summary = Summary::from_bytes(alloc, &named)?;
    let given = pack(alloc, sender, &summary)?;
    Ok(given.to_bytes(alloc)?)
}

/// The store takes the items of the pack of this text.
fn deliver<S: Evidence<Tally>>(alloc: Global, store: &mut S, text: &[u8]) -> Result<(), Fail> {
    let given: Pack<Tally> = Pack::from_bytes(alloc, &Tally, store.directory(), text)?;
    apply(alloc, store, &given)?;
    Ok(())
}

/// Three stores of the five items.
#[derive(Drop)]
struct Three<S: Drop> {
    first: Box<S>,
    second: Box<S>,
    third: Box<S>,
}

fn three_stores<S: Evidence<Tally>>(alloc: Global) -> Result<Three<S>, Fail> {
    let five = make_items(alloc)?;
    Ok(Three {
        first: store_with(alloc, &five, &[0, 1])?,
        second: store_with(alloc, &five, &[1, 2, 3])?,
        third: store_with(alloc, &five, &[3, 4, 0])?,
    })
}

/// Each sends its packs before it gets any. The second one's for the first, which has the segment, comes twice; the first one's are lost.
fn spread<S: Evidence<Tally>>(alloc: Global, stores: &mut Three<S>) -> Result<(), Fail> {
    let for_first = text_of_pack::<S>(alloc, &stores.second, &stores.first)?;
    let more_for_first = text_of_pack::<S>(alloc, &stores.third, &stores.first)?;
    let for_second = text_of_pack::<S>(alloc, &stores.third, &stores.second)?;
    let for_third = text_of_pack::<S>(alloc, &stores.second, &stores.third)?;
    deliver::<S>(alloc, &mut stores.third, &for_third)?;
    deliver::<S>(alloc, &mut stores.first, &for_first)?;
    deliver::<S>(alloc, &mut stores.first, &more_for_first)?;
    deliver::<S>(alloc, &mut stores.first, &for_first)?;
    deliver::<S>(alloc, &mut stores.second, &for_second)
}

/// Whether the store's text is that of the five items.
fn has_all<S: Evidence<Tally>>(alloc: Global, store: &S) -> Result<bool, Fail> {
    let text = store.export()?;
    let hash = Hash(Sha256::digest(&text));
    Ok(format!(in alloc; "{hash}")?.as_str() == ALL)
}

fn spreads_by_texts<S: Evidence<Tally>>(alloc: Global) -> Result<[bool; 3], Fail> {
    let mut stores: Three<S> = three_stores(alloc)?;
    spread::<S>(alloc, &mut stores)?;
    Ok([
        has_all::<S>(alloc, &stores.first)?,
        has_all::<S>(alloc, &stores.second)?,
        has_all::<S>(alloc, &stores.third)?,
    ])
}

#[test]
fn items_spread_by_texts(rt: HostRuntime) -> Result<(), Fail> {
    assert!(rt; spreads_by_texts::<PlainStore<Tally>>(rt.alloc())? == [true, true, true]);
    assert!(rt; spreads_by_texts::<IndexedStore<Tally>>(rt.alloc())? == [true, true, true]);
    Ok(())
}

/// The number of the fault of an outline's text, 0 where it is read.
fn outline_fault(alloc: Global, text: &[u8]) -> u8 {
    match Outline::from_bytes(alloc, text) {
        Ok(_) => 0,
        Err(fault) => fault.number(),
    }
}

/// The same of a summary's text.
fn summary_fault(alloc: Global, text: &[u8]) -> u8 {
    match Summary::from_bytes(alloc, text) {
        Ok(_) => 0,
        Err(fault) => fault.number(),
    }
}

/// The same of a pack's text.
fn pack_fault(alloc: Global, directory: &Directory, text: &[u8]) -> u8 {
    match Pack::from_bytes(alloc, &Tally, directory, text) {
        Ok(_) => 0,
        Err(fault) => fault.cause.number(),
    }
}

/// The fault of the texts that are cut off where it is one and the same, else 255; and the fault of the whole text.
fn faults_of_outline<S: Evidence<Tally>>(alloc: Global, store: &S) -> Result<(u8, u8), Fail> {
    let text = text_of_outline::<S>(alloc, store)?;
    let mut fault = outline_fault(alloc, b"");
    for len in 0..text.len() {
        let (front, _) = text.split_at(len);
        if outline_fault(alloc, front) != fault {
            fault = 255;
        }
    }
    Ok((fault, outline_fault(alloc, &text)))
}

/// The same of the short summary against another store's outline.
fn faults_of_summary<S: Evidence<Tally>>(
    alloc: Global,
    store: &S,
    other: &S,
) -> Result<(u8, u8), Fail> {
    let told = text_of_outline::<S>(alloc, other)?;
    let text = text_of_summary::<S>(alloc, store, &told)?;
    let mut fault = summary_fault(alloc, b"");
    for len in 0..text.len() {
        let (front, _) = text.split_at(len);
        if summary_fault(alloc, front) != fault {
            fault = 255;
        }
    }
    Ok((fault, summary_fault(alloc, &text)))
}

/// The same of the pack for another store.
fn faults_of_pack<S: Evidence<Tally>>(
    alloc: Global,
    store: &S,
    other: &S,
) -> Result<(u8, u8), Fail> {
    let text = text_of_pack::<S>(alloc, store, other)?;
    let mut fault = pack_fault(alloc, store.directory(), b"");
    for len in 0..text.len() {
        let (front, _) = text.split_at(len);
        if pack_fault(alloc, store.directory(), front) != fault {
            fault = 255;
        }
    }
    Ok((fault, pack_fault(alloc, store.directory(), &text)))
}

/// Of the third store's texts for the second.
fn faults_of_texts<S: Evidence<Tally>>(alloc: Global) -> Result<[(u8, u8); 3], Fail> {
    let stores: Three<S> = three_stores(alloc)?;
    Ok([
        faults_of_outline::<S>(alloc, &stores.third)?,
        faults_of_summary::<S>(alloc, &stores.second, &stores.third)?,
        faults_of_pack::<S>(alloc, &stores.second, &stores.third)?,
    ])
}

#[test]
fn texts_that_are_cut_off_are_truncated(rt: HostRuntime) -> Result<(), Fail> {
    let expected = [(40, 0), (40, 0), (40, 0)];
    assert_eq!(rt; faults_of_texts::<PlainStore<Tally>>(rt.alloc())?, expected);
    assert_eq!(rt;
        faults_of_texts::<IndexedStore<Tally>>(rt.alloc())?,
        expected
    );
    Ok(())
}
