//! Texts of items that are read whole, or at fault in their header, in front of other faults and behind them; by one worker and by
//! eight.

ghost use Rattle.std.specs.Prelude.{◌<◌, ◌≤◌};
ghost use Rattle.parallel_checking.specs.declared.limits.TheConstants.{MOST_WORKERS};

use crate::reading::samples::{header, put_item, statement};
use authenticators::Directory;
use containers::{Cause, Pending};
use evidence_samples::make_nodes;
use parallel_reading::{Unwatched, Watcher, Workers, read_all_by};
use ref_programs::Tally;
use std::alloc::Global;
use std::test::Fail;
use std::thread::Threads;

/// What is answered of a text: how many items it has, or at which one it is refused, and the refusal's number.
type Told = (u64, u8);

/// The number of no refusal.
const READ: u8 = 0;

/// The number of a copy that was refused memory.
const NO_MEMORY: u8 = 255;

/// What so many workers answer of the text.
fn answer_by<R: Threads + Sync>(
    rt: &R,
    alloc: Global,
    directory: &Directory,
    text: &[u8],
    workers: usize,
) -> Told
    requires { (0 < workers) × (workers ≤ MOST_WORKERS) }
{
    let workers = Workers {
        rt,
        alloc,
        count: workers,
    };
    let Ok(copy) = text.to_vec(alloc) else {
        return (0, NO_MEMORY);
    };
    match read_all_by(
        &workers,
        &Tally,
        directory,
        *b"PRSTORE2",
        &mut Pending::new(copy),
        &mut Unwatched,
    ) {
        Ok(items) => (items.len() as u64, READ),
        Err(fault) => (fault.item, fault.cause.number()),
    }
}

/// What one worker answers of the text, and what eight do.
fn both<R: Threads + Sync>(rt: &R, alloc: Global, directory: &Directory, text: &[u8]) -> [Told; 2] {
    [
        answer_by(rt, alloc, directory, text, 1),
        answer_by(rt, alloc, directory, text, 8),
    ]
}

/// A statement of node 1, and two that are like it but of the nodes 3 and 4, which are not listed.
#[derive(Drop)]
struct Statements {
    directory: Box<Directory>,
    valid: Vec<u8>,
    third: Vec<u8>,
    fourth: Vec<u8>,
}

fn of_node(alloc: Global, valid: &[u8], node: u8) -> Result<Vec<u8>, Fail> {
    let mut copy = Vec::from_slice(alloc, valid)?;
    if let Some(last) = copy.get_mut(4) {
        *last = node;
    }
    Ok(copy)
}

fn make_statements(alloc: Global) -> Result<Statements, Fail> {
    let mut nodes = make_nodes(alloc)?;
    let valid = statement(alloc, &mut nodes.one, 5)?;
    let third = of_node(alloc, &valid, 3)?;
    let fourth = of_node(alloc, &valid, 4)?;
    Ok(Statements {
        directory: nodes.directory,
        valid,
        third,
        fourth,
    })
}

/// What stands in a text behind its header and node 1's statement.
#[derive(Clone, Copy)]
enum Part {
    /// Again node 1's statement.
    Valid,
    /// The statement of node 3.
    Third,
    /// The statement of node 4.
    Fourth,
    /// An item of these bytes.
    Item(&'static [u8]),
    /// These bytes.
    Bytes(&'static [u8]),
}

fn put(text: &mut Vec<u8>, from: &Statements, part: Part) -> Result<(), Fail> {
    match part {
        Part::Valid => put_item(text, &from.valid),
        Part::Third => put_item(text, &from.third),
        Part::Fourth => put_item(text, &from.fourth),
        Part::Item(item) => put_item(text, item),
        Part::Bytes(bytes) => Ok(text.extend_from_slice(bytes)?),
    }
}

/// What is answered of the text with this count, node 1's statement and the parts behind it.
fn answers_to<R: Threads + Sync>(
    rt: &R,
    alloc: Global,
    from: &Statements,
    count: u64,
    parts: &[Part],
) -> Result<[Told; 2], Fail> {
    let mut text = header(alloc, count)?;
    put(&mut text, from, Part::Valid)?;
    for part in parts {
        put(&mut text, from, *part)?;
    }
    Ok(both(rt, alloc, &from.directory, &text))
}

/// An item's length above the limit, and a byte.
const LONG: [u8; 5] = [255, 0, 0, 0, 1];

fn twice(item: u64, cause: Cause) -> [Told; 2] {
    [(item, cause.number()), (item, cause.number())]
}

#[test]
fn a_first_item_alone_is_read(rt: HostRuntime) -> Result<(), Fail> {
    let from = make_statements(rt.alloc())?;
    let told = answers_to(&rt, rt.alloc(), &from, 1, &[])?;
    assert_eq!(rt; told, [(1, READ), (1, READ)]);
    Ok(())
}

#[test]
fn the_first_fault_in_the_order_of_the_items_is_told(rt: HostRuntime) -> Result<(), Fail> {
    let alloc = rt.alloc();
    let from = make_statements(alloc)?;
    let bad = Part::Item(&[9]);
    let short = Part::Item(&[2, 0]);
    let told = [
        answers_to(&rt, alloc, &from, 3, &[Part::Third, Part::Fourth])?,
        answers_to(&rt, alloc, &from, 3, &[Part::Fourth, Part::Third])?,
        answers_to(&rt, alloc, &from, 3, &[bad, Part::Third])?,
        answers_to(&rt, alloc, &from, 3, &[short, Part::Third])?,
        answers_to(&rt, alloc, &from, 3, &[Part::Valid, Part::Third])?,
        answers_to(&rt, alloc, &from, 3, &[Part::Third, bad])?,
        answers_to(&rt, alloc, &from, 3, &[Part::Third, Part::Bytes(&LONG)])?,
        answers_to(&rt, alloc, &from, 3, &[Part::Third, Part::Bytes(&[0, 0])])?,
    ];
    let unknown = twice(1, Cause::UnknownNode);
    assert_eq!(rt;
        told,
        [
            unknown,
            unknown,
            twice(1, Cause::BadTag),
            twice(1, Cause::Truncated),
            twice(1, Cause::NotAscending),
            unknown,
            unknown,
            unknown,
        ]
    );
    Ok(())
}

#[test]
fn a_fault_of_the_container_is_told_behind_the_items_before_it(
    rt: HostRuntime,
) -> Result<(), Fail> {
    let alloc = rt.alloc();
    let from = make_statements(alloc)?;
    let told = [
        answers_to(&rt, alloc, &from, 3, &[Part::Bytes(&LONG)])?,
        answers_to(&rt, alloc, &from, 3, &[Part::Bytes(&[0, 0, 0, 9, 1])])?,
        answers_to(&rt, alloc, &from, 3, &[Part::Bytes(&[0, 0, 0])])?,
        answers_to(&rt, alloc, &from, 9, &[Part::Item(&[])])?,
        answers_to(&rt, alloc, &from, 1, &[Part::Bytes(&[0])])?,
    ];
    let cut_off = twice(1, Cause::Truncated);
    assert_eq!(rt;
        told,
        [
            twice(1, Cause::TooLong),
            cut_off,
            cut_off,
            cut_off,
            twice(1, Cause::Trailing),
        ]
    );
    Ok(())
}

#[test]
fn a_fault_of_the_front_is_told(rt: HostRuntime) -> Result<(), Fail> {
    let alloc = rt.alloc();
    let none = Directory::new(alloc);
    let told = [
        both(&rt, alloc, &none, b"PRSTORE"),
        both(&rt, alloc, &none, b"PRSTORE3\0\0\0\0\0\0\0\0"),
        both(&rt, alloc, &none, b"PRSTORE2\0\0\0\0\0\0\0"),
        both(&rt, alloc, &none, b"PRSTORE2\0\0\0\0\0\0\0\0"),
        both(&rt, alloc, &none, b"PRSTORE2\0\0\0\0\0\0\0\0\0"),
        both(&rt, alloc, &none, b"PRSTORE2\0\0\0\0\0\0\0\x01\0\0"),
        both(
            &rt,
            alloc,
            &none,
            b"PRSTORE2\0\0\0\0\0\0\0\x01\0\0\0\x01\x09",
        ),
    ];
    let cut_off = twice(0, Cause::Truncated);
    assert_eq!(rt;
        told,
        [
            cut_off,
            twice(0, Cause::BadMagic),
            cut_off,
            [(0, READ), (0, READ)],
            twice(0, Cause::Trailing),
            cut_off,
            twice(0, Cause::BadTag),
        ]
    );
    Ok(())
}

/// What was told of a reading: how often, how many items in all, and how many bytes there were behind the first item and at the end.
#[derive(Clone, Copy, Debug, PartialEq, Eq)]
struct Notes {
    times: u32,
    items: u64,
    first_left: u64,
    left: u64,
}

impl Watcher for Notes {
    fn read(&mut self, items: u64, left: u64) {
        if self.times == 0 {
            self.first_left = left;
        }
        self.times = self.times.saturating_add(1);
        self.items = items;
        self.left = left;
    }
}

#[test]
fn a_watcher_is_told_of_the_first_item_and_of_those_that_are_read_at_once(
    rt: HostRuntime,
) -> Result<(), Fail> {
    let alloc = rt.alloc();
    let mut nodes = make_nodes(alloc)?;
    let mut text = header(alloc, 3)?;
    for seq in [5, 6, 7] {
        put_item(&mut text, &statement(alloc, &mut nodes.one, seq)?)?;
    }
    let workers = Workers {
        rt: &rt,
        alloc,
        count: 2,
    };
    let mut notes = Notes {
        times: 0,
        items: 0,
        first_left: 0,
        left: 9,
    };
    let read = read_all_by(
        &workers,
        &Tally,
        &nodes.directory,
        *b"PRSTORE2",
        &mut Pending::new(text),
        &mut notes,
    );
    let expected = Notes {
        times: 2,
        items: 3,
        // Two items, each with its length, a byte, node 1 in four bytes, 5 in eight, a hash, and 8,684 bytes of signature behind their length.
        first_left: 2 * (4 + 1 + 4 + 8 + 32 + 4 + 8684),
        left: 0,
    };
    assert!(rt; read.is_ok() && notes == expected);
    Ok(())
}
