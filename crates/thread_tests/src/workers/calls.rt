//! Stores that callers share, one after the other, and how they are closed.

use crate::workers::sharing::{
    Sharing, close_both, merge_nothing, share, share_among_most, statement, take_item,
};
use authenticators::NodeId;
use evidence_item::{Item, check_item};
use evidence_set::Indication;
use evidence_store::{Evidence, IndexedStore, PlainStore};
use log_chain::Hash;
use ref_programs::Tally;
use sha2::{Digest, Sha256};
use std::alloc::Global;
use std::sync::Wait;
use std::test::Fail;
use store_samples::new_store;
use witness_workers::{
    Call, CallFault, CheckAllFault, CloseFault, Pass, QuestionFault, Recorded, SharedStore,
};

#[test]
fn refusals_have_numbers_and_names(rt: HostRuntime) {
    let numbers = [
        CheckAllFault::BadWorkers.number(),
        CheckAllFault::LengthMismatch.number(),
        CloseFault::PassMissing.number(),
        CloseFault::HistoryMismatch.number(),
        CallFault::DirectoryChanged.number(),
        QuestionFault::UnknownNode.number(),
    ];
    assert!(rt; numbers == [90, 93, 91, 92, 96, 44]);
    let names = [
        CheckAllFault::BadWorkers.name(),
        CheckAllFault::LengthMismatch.name(),
        CloseFault::PassMissing.name(),
        CloseFault::HistoryMismatch.name(),
        CallFault::DirectoryChanged.name(),
        QuestionFault::UnknownNode.name(),
    ];
    let expected = [
        "BadWorkers",
        "LengthMismatch",
        "PassMissing",
        "HistoryMismatch",
        "DirectoryChanged",
        "UnknownNode",
    ];
    assert!(rt; names == expected);
}

/// What the calls of two callers were answered.
#[derive(Clone, Copy)]
struct Seen {
    /// Whether the two items were new.
    took: (Option<bool>, Option<bool>),
    /// What the first caller, and then the second one, was told of node 1.
    told: (Indication, Indication),
    /// How many items of a store without items were new.
    merged: Option<u64>,
    /// The SHA-256 value of the text that was exported.
    text: Hash,
}

/// The first caller takes two statements of one number and two hashes, and asks.
fn first_calls<S: Evidence<Tally>, R: Wait>(
    rt: &R,
    alloc: Global,
    on: &mut Sharing<S>,
) -> Result<(Option<bool>, Option<bool>, Indication), Fail> {
    let one = statement(alloc, &mut on.nodes.one, 1, 0)?;
    let took_one = take_item(rt, alloc, &on.shared, &mut on.first, one);
    let two = statement(alloc, &mut on.nodes.one, 2, 0)?;
    let took_two = take_item(rt, alloc, &on.shared, &mut on.first, two);
    let told = on.shared.ask(rt, &mut on.first, NodeId(1))?;
    Ok((took_one, took_two, told))
}

/// The second one merges a store without items, asks, and exports.
fn second_calls<S: Evidence<Tally>, R: Wait>(
    rt: &R,
    alloc: Global,
    on: &mut Sharing<S>,
) -> Result<(Option<u64>, Indication, Hash), Fail> {
    let merged = merge_nothing(rt, alloc, &on.shared, &mut on.second);
    let told = on.shared.ask(rt, &mut on.second, NodeId(1))?;
    let text = on.shared.export(rt, &mut on.second)?;
    Ok((merged, told, Hash(Sha256::digest(&text))))
}

/// The six calls, one after the other.
fn six_calls<S: Evidence<Tally>, R: Wait>(
    rt: &R,
    alloc: Global,
    on: &mut Sharing<S>,
) -> Result<Seen, Fail> {
    let (took_one, took_two, told_first) = first_calls(rt, alloc, on)?;
    let (merged, told_second, text) = second_calls(rt, alloc, on)?;
    Ok(Seen {
        took: (took_one, took_two),
        told: (told_first, told_second),
        merged,
        text,
    })
}

/// What the two callers were told, and how many calls the history then has.
fn seen_and_calls<S: Evidence<Tally>, R: Wait>(
    rt: &R,
    alloc: Global,
) -> Result<(Seen, usize), Fail> {
    let mut on: Sharing<S> = share(alloc)?;
    let seen = six_calls(rt, alloc, &mut on)?;
    let closed = close_both(alloc, on.shared, (on.second, on.first))?;
    Ok((seen, closed.history.len()))
}

/// Whether the hash is shown as this text.
fn is_shown_as(alloc: Global, hash: Hash, want: &str) -> Result<bool, Fail> {
    let shown = format!(in alloc; "{hash}")?;
    Ok(shown.as_str() == want)
}

/// The SHA-256 value of the text, by `checks/reference/shared_stores.py`.
const TEXT: &str = "6622c0fa4345faec1513002bd9240ab939b3c556c2332d1a90eca3f50d50aba1";

/// Whether the callers were told so: each item is new, both expose node 1, nothing is merged, and the text has this value.
fn is_as_told(alloc: Global, seen: &Seen) -> Result<bool, Fail> {
    let took = seen.took == (Some(true), Some(true));
    let told = seen.told == (Indication::Exposed, Indication::Exposed);
    Ok(is_shown_as(alloc, seen.text, TEXT)? && took && told && seen.merged == Some(0))
}

/// Whether they were, and six calls are in the history.
fn two_are_told<S: Evidence<Tally>, R: Wait>(rt: &R, alloc: Global) -> Result<bool, Fail> {
    let (seen, calls) = seen_and_calls::<S, R>(rt, alloc)?;
    Ok(is_as_told(alloc, &seen)? && calls == 6)
}

#[test]
fn two_callers_one_after_the_other(rt: HostRuntime) -> Result<(), Fail> {
    assert!(rt; two_are_told::<PlainStore<Tally>, HostRuntime>(&rt, rt.alloc())?);
    assert!(rt; two_are_told::<IndexedStore<Tally>, HostRuntime>(&rt, rt.alloc())?);
    Ok(())
}

/// Why the store is not closed with these passes, as its number; 0 where it is.
fn refusal_of<S: Evidence<Tally>>(shared: Box<SharedStore<Tally, S>>, passes: Vec<Pass>) -> u8 {
    match Box::into_inner(shared).close(passes) {
        Ok(_) => 0,
        Err(refused) => refused.fault.number(),
    }
}

/// A store on which six calls were done, and its passes.
fn used<S: Evidence<Tally>, R: Wait>(rt: &R, alloc: Global) -> Result<Sharing<S>, Fail> {
    let mut on: Sharing<S> = share(alloc)?;
    six_calls(rt, alloc, &mut on)?;
    Ok(on)
}

/// A list of one pass, or of two.
fn list_of(alloc: Global, first: Pass, second: Option<Pass>) -> Result<Vec<Pass>, Fail> {
    let mut passes = Vec::new(alloc);
    passes.push(first)?;
    if let Some(second) = second {
        passes.push(second)?;
    }
    Ok(passes)
}

/// Closing without the second caller's pass.
fn one_pass_fewer<S: Evidence<Tally>, R: Wait>(rt: &R, alloc: Global) -> Result<u8, Fail> {
    let on: Sharing<S> = used(rt, alloc)?;
    Ok(refusal_of(on.shared, list_of(alloc, on.first, None)?))
}

/// Closing with an unused pass of another shared store in place of the second caller's.
fn an_unused_pass<S: Evidence<Tally>, R: Wait>(rt: &R, alloc: Global) -> Result<u8, Fail> {
    let on: Sharing<S> = used(rt, alloc)?;
    let other: Sharing<S> = share(alloc)?;
    Ok(refusal_of(on.shared, list_of(alloc, on.first, Some(other.second))?))
}

/// Closing a store of one caller that was asked with the second pass of another one.
fn a_foreign_call<S: Evidence<Tally>, R: Wait>(rt: &R, alloc: Global) -> Result<u8, Fail> {
    let mut other: Sharing<S> = share(alloc)?;
    let store: Box<S> = new_store(alloc, &other.nodes.directory)?;
    let (shared, passes) = SharedStore::open(alloc, Box::into_inner(store), 1)?;
    let shared = Box::new(alloc, shared)?;
    shared.ask(rt, &mut other.second, NodeId(1))?;
    Ok(refusal_of(shared, passes))
}

/// The numbers of these refusals.
fn refusals_of_passes<S: Evidence<Tally>, R: Wait>(rt: &R, alloc: Global) -> Result<[u8; 3], Fail> {
    Ok([
        one_pass_fewer::<S, R>(rt, alloc)?,
        an_unused_pass::<S, R>(rt, alloc)?,
        a_foreign_call::<S, R>(rt, alloc)?,
    ])
}

#[test]
fn passes_that_do_not_agree(rt: HostRuntime) -> Result<(), Fail> {
    let plain = refusals_of_passes::<PlainStore<Tally>, HostRuntime>(&rt, rt.alloc())?;
    assert!(rt; plain == [91, 92, 92]);
    let indexed = refusals_of_passes::<IndexedStore<Tally>, HostRuntime>(&rt, rt.alloc())?;
    assert!(rt; indexed == [91, 92, 92]);
    Ok(())
}

/// Six calls of two callers, while six more do nothing: the store, and the passes of all.
fn six_idle<S: Evidence<Tally>, R: Wait>(
    rt: &R,
    alloc: Global,
) -> Result<(Box<SharedStore<Tally, S>>, Vec<Pass>), Fail> {
    let mut on: Sharing<S> = share_among_most(alloc)?;
    six_calls(rt, alloc, &mut on)?;
    let Sharing {
        shared,
        first,
        second,
        mut others,
        ..
    } = on;
    let mut passes = Vec::new(alloc);
    passes.push(first)?;
    passes.push(second)?;
    passes.append(&mut others)?;
    Ok((shared, passes))
}

/// How many calls the history has, and how many callers there were.
fn closed_by_eight<S: Evidence<Tally>, R: Wait>(
    rt: &R,
    alloc: Global,
) -> Result<(usize, usize), Fail> {
    let (shared, passes) = six_idle::<S, R>(rt, alloc)?;
    let callers = passes.len();
    let closed = Box::into_inner(shared).close(passes)?;
    Ok((closed.history.len(), callers))
}

/// Closing without the pass of one that did nothing.
fn closed_by_seven<S: Evidence<Tally>, R: Wait>(rt: &R, alloc: Global) -> Result<u8, Fail> {
    let (shared, mut passes) = six_idle::<S, R>(rt, alloc)?;
    let _ = passes.pop();
    Ok(refusal_of(shared, passes))
}

/// What is told of eight callers, and of seven.
fn closings_of_idle<S: Evidence<Tally>, R: Wait>(
    rt: &R,
    alloc: Global,
) -> Result<((usize, usize), u8), Fail> {
    let eight = closed_by_eight::<S, R>(rt, alloc)?;
    let seven = closed_by_seven::<S, R>(rt, alloc)?;
    Ok((eight, seven))
}

#[test]
fn six_of_eight_callers_do_nothing(rt: HostRuntime) -> Result<(), Fail> {
    let plain = closings_of_idle::<PlainStore<Tally>, HostRuntime>(&rt, rt.alloc())?;
    assert!(rt; plain == ((6, 8), 91));
    let indexed = closings_of_idle::<IndexedStore<Tally>, HostRuntime>(&rt, rt.alloc())?;
    assert!(rt; indexed == ((6, 8), 91));
    Ok(())
}

/// The first caller merges a store of one item, which is given.
fn merge_one<S: Evidence<Tally>, R: Wait>(
    rt: &R,
    alloc: Global,
    on: &mut Sharing<S>,
) -> Result<Box<Item>, Fail> {
    let item = statement(alloc, &mut on.nodes.one, 1, 0)?;
    let directory = on.shared.directory().try_clone()?;
    let mut other: S = S::new(alloc, directory)?;
    let checked = check_item(alloc, &Tally, other.directory(), item.try_clone(alloc)?)?;
    other.take(checked)?;
    on.shared.merge(rt, &mut on.first, &other)?;
    Ok(item)
}

/// Whether the call is a merge of that item alone.
fn is_merge_of(call: &Call, item: &Item) -> bool {
    let Call::Merge(set) = call else {
        return false;
    };
    set.items().len() == 1 && set.items().iter().all(|x| *x == *item)
}

/// The items of a merge; none of another call.
fn items_of(alloc: Global, call: Call) -> Vec<Item> {
    match call {
        Call::Merge(set) => set.into_vec(),
        _ => Vec::new(alloc),
    }
}

/// The items of the merges, taken out of the history.
fn merged_items(alloc: Global, history: Vec<Recorded>) -> Result<Vec<Item>, Fail> {
    let mut items = Vec::new(alloc);
    for one in history {
        items.append(&mut items_of(alloc, one.call))?;
    }
    Ok(items)
}

/// What a merge of a store of one item leaves.
#[derive(Clone, Copy, PartialEq, Eq)]
struct Merged {
    /// Whether the pass has a merge of that item alone.
    noted: bool,
    /// How many items the merges of the history have.
    count: usize,
}

fn what_a_merge_leaves<S: Evidence<Tally>, R: Wait>(rt: &R, alloc: Global) -> Result<Merged, Fail> {
    let mut on: Sharing<S> = share(alloc)?;
    let item = merge_one(rt, alloc, &mut on)?;
    let noted = on.first.calls().iter().any(|c| is_merge_of(&c.call, &item));
    let closed = Box::into_inner(close_both(alloc, on.shared, (on.first, on.second))?);
    let count = merged_items(alloc, closed.history)?.len();
    Ok(Merged { noted, count })
}

#[test]
fn a_merge_is_noted_with_its_items(rt: HostRuntime) -> Result<(), Fail> {
    let expected = Merged {
        noted: true,
        count: 1,
    };
    let plain = what_a_merge_leaves::<PlainStore<Tally>, HostRuntime>(&rt, rt.alloc())?;
    assert!(rt; plain == expected);
    let indexed = what_a_merge_leaves::<IndexedStore<Tally>, HostRuntime>(&rt, rt.alloc())?;
    assert!(rt; indexed == expected);
    Ok(())
}

/// What is asked of a node that is not listed.
fn unlisted<S: Evidence<Tally>, R: Wait>(
    rt: &R,
    alloc: Global,
) -> Result<Option<QuestionFault>, Fail> {
    let mut on: Sharing<S> = share(alloc)?;
    Ok(on.shared.ask(rt, &mut on.first, NodeId(3)).err())
}

#[test]
fn a_node_that_is_not_listed(rt: HostRuntime) -> Result<(), Fail> {
    let plain = unlisted::<PlainStore<Tally>, HostRuntime>(&rt, rt.alloc())?;
    assert!(rt; plain == Some(QuestionFault::UnknownNode));
    let indexed = unlisted::<IndexedStore<Tally>, HostRuntime>(&rt, rt.alloc())?;
    assert!(rt; indexed == Some(QuestionFault::UnknownNode));
    Ok(())
}
