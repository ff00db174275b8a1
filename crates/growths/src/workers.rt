//! Scenes of items that workers check.
//!
//! A check that is refused memory reports this at its own place alone. So one refusal leaves neither the state as it was nor the right answer.
//! The lines `left` and `end` have what checking again makes of it, with nothing refused.

use crate::samples::{directory_of, receiver, statement};
use crate::told::{Turn, say_number, say_refusal};
use anyhow::Result;
use authenticators::{Authenticator, Directory, NodeId};
use evidence_item::{Checked, Item, ItemFault};
use log_chain::{ByteString, Hash};
use parallel_checking::{OpenGate, check_again, check_all};
use ref_programs::Tally;
use std::alloc::Global;
use std::thread::Threads;

/// What the check of an item returns.
type Answer = Result<Checked<Tally>, ItemFault>;

/// Items under their directory.
#[derive(Drop)]
struct Items {
    directory: Box<Directory>,
    items: Vec<Item>,
}

/// Returns a statement of node 2 without a signature.
fn unsigned(alloc: Global) -> Result<Item> {
    Ok(Item::auth(Authenticator {
        node: NodeId(2),
        seq: 3,
        hash: Hash([1; 32]),
        sig: ByteString::from_vec(Vec::new(alloc)),
    })?)
}

/// Returns four items: a statement of node 2, its log, another statement of it, and a statement without a signature.
fn make_items(alloc: Global) -> Result<Box<Items>> {
    let directory = directory_of(alloc)?;
    let mut items = Vec::new(alloc);
    items.push(Box::into_inner(statement(alloc, 1)?))?;
    items.push(Box::into_inner(receiver(alloc, &directory)?))?;
    items.push(Box::into_inner(statement(alloc, 2)?))?;
    items.push(unsigned(alloc)?)?;
    Ok(Box::new(alloc, Items { directory, items })?)
}

/// Writes for each item the number of its refusal. It writes 0 if the item is valid and stands at its own place, and 255 if another item stands
/// there.
fn say_places(rt: &HostRuntime, word: &str, items: &[Item], answers: &[Answer]) -> Result<()> {
    for (answer, item) in answers.iter().zip(items) {
        let number = match answer {
            Ok(checked) if *checked.item() == *item => 0,
            Ok(_) => 255,
            Err(fault) => fault.number(),
        };
        println!(rt; "{word} {number}")?;
    }
    Ok(())
}

/// Checks again what was refused memory, with nothing refused. It writes how many places are left, and what stands at each place.
fn complete<H: Threads + Sync>(
    rt: &HostRuntime,
    threads: &H,
    on: &Items,
    answers: &mut Vec<Answer>,
) -> Result<()> {
    let left = check_again(
        threads,
        rt.alloc(),
        &Tally,
        &on.directory,
        &on.items,
        answers,
        1,
        &OpenGate,
    )?;
    println!(rt; "left {left}")?;
    say_places(rt, "end", &on.items, answers)
}

/// Writes the answers of the call, and what checking again makes of them. Returns false, since the call as a whole was not refused.
fn say_answers<H: Threads + Sync>(
    rt: &HostRuntime,
    threads: &H,
    on: &Items,
    turn: Turn,
    answers: &mut Vec<Answer>,
) -> Result<bool> {
    say_number(rt, turn, answers.len() as u64)?;
    say_places(rt, "after", &on.items, answers)?;
    complete(rt, threads, on, answers)?;
    Ok(false)
}

/// Checks all items, and checks again those that were refused memory. Returns whether the call as a whole was refused.
fn check<H: Threads + Sync>(
    rt: &HostRuntime,
    threads: &H,
    on: &Items,
    workers: usize,
    turn: Turn,
) -> Result<bool> {
    let alloc = rt.alloc();
    turn.begin(alloc)?;
    let answers = check_all(
        threads,
        alloc,
        &Tally,
        &on.directory,
        &on.items,
        workers,
        &OpenGate,
    );
    turn.end(alloc);
    match answers {
        Ok(mut answers) => say_answers(rt, threads, on, turn, &mut answers),
        Err(fault) => say_refusal(rt, turn, fault.number(), fault.name()),
    }
}

/// Plays `check_all` by so many workers.
pub fn all<H: Threads + Sync>(rt: &HostRuntime, threads: &H, workers: usize) -> Result<()> {
    let on = make_items(rt.alloc())?;
    if check(rt, threads, &on, workers, Turn::First)? {
        check(rt, threads, &on, workers, Turn::Again)?;
    }
    Ok(())
}

/// Puts the answer `Memory` at the second item and at the last one.
fn refuse_two(answers: &mut [Answer]) {
    for (n, answer) in answers.iter_mut().enumerate() {
        if n == 1 || n == 3 {
            *answer = Err(ItemFault::Memory);
        }
    }
}

/// Makes the call of `check_again`, and writes its answer. Returns whether it was refused.
fn check_two<H: Threads + Sync>(
    rt: &HostRuntime,
    threads: &H,
    on: &Items,
    answers: &mut Vec<Answer>,
    workers: usize,
) -> Result<bool> {
    let turn = Turn::First;
    turn.begin(rt.alloc())?;
    let left = check_again(
        threads,
        rt.alloc(),
        &Tally,
        &on.directory,
        &on.items,
        answers,
        workers,
        &OpenGate,
    );
    turn.end(rt.alloc());
    match left {
        Ok(left) => say_number(rt, turn, left),
        Err(fault) => say_refusal(rt, turn, fault.number(), fault.name()),
    }
}

/// Returns the answers for the items, as if two of the items had been refused memory.
fn two_refused<H: Threads + Sync>(
    threads: &H,
    alloc: Global,
    on: &Items,
) -> Result<Box<Vec<Answer>>> {
    let mut answers = check_all(
        threads,
        alloc,
        &Tally,
        &on.directory,
        &on.items,
        1,
        &OpenGate,
    )?;
    refuse_two(&mut answers);
    Ok(Box::new(alloc, answers)?)
}

/// Makes the call, with what goes before it and after it.
fn play_again<H: Threads + Sync>(
    rt: &HostRuntime,
    threads: &H,
    on: &Items,
    answers: &mut Vec<Answer>,
    workers: usize,
) -> Result<()> {
    say_places(rt, "before", &on.items, answers)?;
    check_two(rt, threads, on, answers, workers)?;
    say_places(rt, "after", &on.items, answers)?;
    complete(rt, threads, on, answers)
}

/// Plays `check_again` of two items by so many workers.
pub fn again<H: Threads + Sync>(rt: &HostRuntime, threads: &H, workers: usize) -> Result<()> {
    let on = make_items(rt.alloc())?;
    let mut answers = two_refused(threads, rt.alloc(), &on)?;
    play_again(rt, threads, &on, &mut answers, workers)
}
