//! Checking by several workers.

use crate::workers::sharing::statement;
use authenticators::{Authenticator, Directory, NodeId};
use evidence_item::{Checked, Item, ItemFault};
use evidence_samples::{ZEROS, make_nodes};
use log_chain::ByteString;
use ref_programs::Tally;
use std::alloc::Global;
use std::sync::atomic::{AtomicBool, AtomicU64, Ordering};
use std::test::Fail;
use std::thread::Threads;
use witness_workers::{CheckAllFault, Gate, MOST_WORKERS, OpenGate, check_again, check_all};

/// A statement of node 1 with an empty signature.
fn unsigned(alloc: Global) -> Result<Item, Fail> {
    Ok(Item::auth(Authenticator {
        node: NodeId(1),
        seq: 5,
        hash: ZEROS,
        sig: ByteString::from_vec(Vec::new(alloc)),
    })?)
}

/// Two valid statements of one hash, one of another hash, and one without a signature; and their directory.
pub(crate) fn items_and_directory(alloc: Global) -> Result<(Vec<Item>, Box<Directory>), Fail> {
    let mut nodes = make_nodes(alloc)?;
    let mut items = Vec::new(alloc);
    for (hash, c) in [(1, 0), (1, 1), (2, 0)] {
        items.push(Box::into_inner(statement(alloc, &mut nodes.one, hash, c)?))?;
    }
    items.push(unsigned(alloc)?)?;
    Ok((items, nodes.directory))
}

/// What a check gives.
pub(crate) type Answer = Result<Checked<Tally>, ItemFault>;

/// For each item the number of its refusal; 0 where it is valid and comes back at its own place, 255 where another one does.
pub(crate) fn numbers(alloc: Global, items: &[Item], answers: &[Answer]) -> Result<Vec<u8>, Fail> {
    let mut numbers = Vec::new(alloc);
    for (answer, item) in answers.iter().zip(items) {
        let number = match answer {
            Ok(checked) if *checked.item() == *item => 0,
            Ok(_) => 255,
            Err(fault) => fault.number(),
        };
        numbers.push(number)?;
    }
    Ok(numbers)
}

#[test]
fn the_same_answers_with_any_number_of_workers(rt: HostRuntime) -> Result<(), Fail> {
    let alloc = rt.alloc();
    let (items, directory) = items_and_directory(alloc)?;
    for workers in [1, 2, 8] {
        let answers = check_all(&rt, alloc, &Tally, &directory, &items, workers, &OpenGate)?;
        let told = numbers(alloc, &items, &answers)?;
        assert!(rt; told.as_slice() == [0, 0, 0, 49].as_slice());
    }
    Ok(())
}

/// So many items: copies of these, over and over.
fn repeated(alloc: Global, items: &[Item], count: usize) -> Result<Vec<Item>, Fail> {
    let mut all = Vec::new(alloc);
    for k in 0..count {
        if let Some(item) = items.get(k % 4) {
            all.push(item.try_clone(alloc)?)?;
        }
    }
    Ok(all)
}

#[test]
fn items_that_are_checked_in_blocks_have_the_same_answers(rt: HostRuntime) -> Result<(), Fail> {
    let alloc = rt.alloc();
    let (four, directory) = items_and_directory(alloc)?;
    for count in [0, 1, 3, 8, 17, 33] {
        let items = repeated(alloc, &four, count)?;
        let answers = check_all(&rt, alloc, &Tally, &directory, &items, 1, &OpenGate)?;
        let told = numbers(alloc, &items, &answers)?;
        let expected = [0, 0, 0, 49];
        assert!(rt; told.len() == count);
        assert!(rt;
            told.iter()
                .enumerate()
                .all(|(k, number)| *number == expected[k % 4])
        );
    }
    Ok(())
}

#[test]
fn no_worker_and_too_many_are_refused(rt: HostRuntime) -> Result<(), Fail> {
    let alloc = rt.alloc();
    let directory = Box::new(alloc, Directory::new(alloc))?;
    let mut answers: Vec<Answer> = Vec::new(alloc);
    for workers in [0, MOST_WORKERS + 1] {
        let all = check_all(&rt, alloc, &Tally, &directory, &[], workers, &OpenGate);
        assert!(rt; matches!(all, Err(CheckAllFault::BadWorkers)));
        let again = check_again(
            &rt,
            alloc,
            &Tally,
            &directory,
            &[],
            &mut answers,
            workers,
            &OpenGate,
        );
        assert!(rt; again == Err(CheckAllFault::BadWorkers));
    }
    Ok(())
}

/// How often an item was entered, and how often it was left.
#[derive(Drop)]
struct Visits {
    entered: AtomicU64,
    left: AtomicU64,
}

impl Visits {
    fn new() -> Visits {
        Visits {
            entered: AtomicU64::new(0),
            left: AtomicU64::new(0),
        }
    }

    /// Whether it was entered and left so often.
    fn are(&self, times: u64) -> bool {
        self.entered.load(Ordering::SeqCst) == times && self.left.load(Ordering::SeqCst) == times
    }
}

/// A gate that counts the visits of each item.
#[derive(Drop)]
struct Visited {
    items: Vec<Visits>,
}

impl Visited {
    fn new(alloc: Global, count: usize) -> Result<Visited, Fail> {
        let mut items = Vec::new(alloc);
        for _ in 0..count {
            items.push(Visits::new())?;
        }
        Ok(Visited { items })
    }

    /// Whether each item was visited as often as is said at its place.
    fn are(&self, times: &[u64]) -> bool {
        self.items.len() == times.len() && self.items.iter().zip(times).all(|(v, n)| v.are(*n))
    }
}

impl Gate for Visited {
    fn enter(&self, item: usize) {
        if let Some(visits) = self.items.get(item) {
            visits.entered.fetch_add(1, Ordering::SeqCst);
        }
    }

    fn leave(&self, item: usize) {
        if let Some(visits) = self.items.get(item) {
            visits.left.fetch_add(1, Ordering::SeqCst);
        }
    }
}

/// Writes that there was no memory for the second item and for the last one.
fn refuse_two(answers: &mut [Answer]) {
    for (n, answer) in answers.iter_mut().enumerate() {
        if n == 1 || n == 3 {
            *answer = Err(ItemFault::Memory);
        }
    }
}

/// What was told of four items after two of them were checked again.
#[derive(Drop)]
struct Told {
    /// How many places still want an answer.
    left: u64,
    numbers: Vec<u8>,
    /// Whether the two were visited once, and no other one was.
    visited: bool,
}

fn two_again<R: Threads + Sync>(
    rt: &R,
    alloc: Global,
    items: &[Item],
    directory: &Directory,
    workers: usize,
) -> Result<Told, Fail> {
    let mut answers = check_all(rt, alloc, &Tally, directory, items, 1, &OpenGate)?;
    refuse_two(&mut answers);
    let gate = Visited::new(alloc, items.len())?;
    let left = check_again(
        rt,
        alloc,
        &Tally,
        directory,
        items,
        &mut answers,
        workers,
        &gate,
    )?;
    Ok(Told {
        left,
        numbers: numbers(alloc, items, &answers)?,
        visited: gate.are(&[0, 1, 0, 1]),
    })
}

#[test]
fn what_had_no_memory_is_checked_again(rt: HostRuntime) -> Result<(), Fail> {
    let (items, directory) = items_and_directory(rt.alloc())?;
    for workers in [1, 2, 8] {
        let told = two_again(&rt, rt.alloc(), &items, &directory, workers)?;
        assert!(rt; told.numbers.as_slice() == [0, 0, 0, 49].as_slice());
        assert!(rt; told.left == 0 && told.visited);
    }
    Ok(())
}

/// Checking again where one result is missing.
fn one_result_fewer<R: Threads + Sync>(
    rt: &R,
    alloc: Global,
    workers: usize,
) -> Result<Option<CheckAllFault>, Fail> {
    let (items, directory) = items_and_directory(alloc)?;
    let mut answers = check_all(rt, alloc, &Tally, &directory, &items, 1, &OpenGate)?;
    answers.truncate(3);
    let again = check_again(
        rt,
        alloc,
        &Tally,
        &directory,
        &items,
        &mut answers,
        workers,
        &OpenGate,
    );
    Ok(again.err())
}

#[test]
fn a_list_one_shorter_is_refused(rt: HostRuntime) -> Result<(), Fail> {
    let alloc = rt.alloc();
    assert!(rt; one_result_fewer(&rt, alloc, 1)? == Some(CheckAllFault::LengthMismatch));
    assert!(rt; one_result_fewer(&rt, alloc, 9)? == Some(CheckAllFault::BadWorkers));
    Ok(())
}

/// Two checks at once: item 0 is held until item 1 was left, and item 1 until item 0 was entered.
#[derive(Drop)]
struct TwoAtOnce {
    first: Visits,
    second: Visits,
    late: AtomicBool,
}

/// How often a worker looks whether it may go on.
const TURNS: u64 = 4_000_000_000;

impl TwoAtOnce {
    fn new() -> TwoAtOnce {
        TwoAtOnce {
            first: Visits::new(),
            second: Visits::new(),
            late: AtomicBool::new(false),
        }
    }

    fn of(&self, item: usize) -> &Visits {
        if item == 0 { &self.first } else { &self.second }
    }

    fn hold(&self, until: &AtomicU64) {
        for _ in 0..TURNS {
            if until.load(Ordering::SeqCst) > 0 {
                return;
            }
        }
        self.late.store(true, Ordering::SeqCst);
    }

    /// Whether each item was entered once and left once, and no worker waited in vain.
    fn went_well(&self) -> bool {
        self.first.are(1) && self.second.are(1) && !self.late.load(Ordering::SeqCst)
    }
}

impl Gate for TwoAtOnce {
    fn enter(&self, item: usize) {
        self.of(item).entered.fetch_add(1, Ordering::SeqCst);
        if item == 0 {
            self.hold(&self.second.left);
        } else {
            self.hold(&self.first.entered);
        }
    }

    fn leave(&self, item: usize) {
        self.of(item).left.fetch_add(1, Ordering::SeqCst);
    }
}

#[test]
fn gated_check_all(rt: HostRuntime) -> Result<(), Fail> {
    let (mut items, directory) = items_and_directory(rt.alloc())?;
    items.truncate(2);
    let gate = TwoAtOnce::new();
    let answers = check_all(&rt, rt.alloc(), &Tally, &directory, &items, 2, &gate)?;
    assert!(rt; answers.len() == 2 && gate.went_well());
    Ok(())
}

/// Both answers are refused memory, and both items are checked again at once.
fn both_again<R: Threads + Sync>(rt: &R, alloc: Global, gate: &TwoAtOnce) -> Result<u64, Fail> {
    let (mut items, directory) = items_and_directory(alloc)?;
    items.truncate(2);
    let mut answers: Vec<Answer> = Vec::new(alloc);
    for _ in 0..2 {
        answers.push(Err(ItemFault::Memory))?;
    }
    Ok(check_again(rt, alloc, &Tally, &directory, &items, &mut answers, 2, gate)?)
}

#[test]
fn gated_check_again(rt: HostRuntime) -> Result<(), Fail> {
    let gate = TwoAtOnce::new();
    let left = both_again(&rt, rt.alloc(), &gate)?;
    assert!(rt; left == 0 && gate.went_well());
    Ok(())
}
