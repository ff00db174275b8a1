//! Workers that draw numbers, and the values of their work, in the order of the numbers.

ghost use Rattle.std.specs.Prelude.{◌≡◌, ℕ, ◌+◌, ◌-◌, ◌<◌, [], IfOk, All, flat_map, map, length, vec_len};
ghost use Rattle.std.specs.Fork.{GivesEach};
ghost use Rattle.std.specs.List.Sorted.{IsNonDecreasingBy, IsPermutation};
ghost use Rattle.parallel_map.specs.Claiming.{all_parts, view};
ghost use Rattle.parallel_map.specs.within.Working.{Fresh, Settled, Worked, places};

use crate::counter::{Drawer, Numbers, draw, join, open, split};
use outcome::Memory;
use std::alloc::{AllocError, Global};
use std::thread;
use std::thread::Threads;

/// A value, and its place.
#[derive(Drop)]
pub struct Placed<T> {
    pub place: u64,
    pub value: T,
}

/// What one worker gives back: its seat, and a value for each number that it drew.
#[derive(Drop)]
pub struct Drawn<T> {
    pub seat: Drawer,
    pub placed: Vec<Placed<T>>,
}

/// Draws numbers, and works at each. It ends when it has seen the count, or if there is no memory to note one value more. It draws at
/// most as often as there are numbers.
pub fn work_all<T: Drop, F: Fn(usize) -> T>(
    alloc: Global,
    numbers: &Numbers,
    mut seat: Drawer,
    count: usize,
    work: &F,
) -> Drawn<T>
    requires table { (numbers.now.table_id.words ≡ 1) × (numbers.now.key ≡ count) }
    requires seat { Fresh numbers.now.table_id seat }
    requires accepts { (i : ℕ) → i < count → F.pre work.now i }
    ensures { Worked F.Fn work.now numbers.now.table_id result }
{
    let mut placed = Vec::new(alloc);
    let mut saw: u64 = 0;
    for _turn in 0..count {
        if saw >= count as u64 || placed.reserve(1).is_err() {
            break;
        }
        let found = draw(numbers, &mut seat, saw);
        if found == saw {
            let value = work(saw as usize);
            placed.push_reserved(Placed { place: saw, value });
            saw += 1;
        } else {
            saw = found;
        }
    }
    Drawn { seat, placed }
}

/// Returns a seat with one part for each worker.
fn deal(
    alloc: Global,
    numbers: &Numbers,
    mine: &mut Drawer,
    workers: usize,
) -> Result<Vec<Drawer>, Memory>
    requires table { (mine.old.table_id ≡ numbers.now.table_id) × (numbers.now.table_id.words ≡ 1) }
    requires mine { mine.old.me ≡ (view [] 0 all_parts, []) }
    requires workers { workers < all_parts }
    ensures mine { IfOk result (λ v. (mine.new.table_id ≡ mine.old.table_id) × (mine.new.me ≡ (view [] 0 (all_parts - workers), []))) }
    ensures seats { IfOk result (λ v. (vec_len v ≡ workers) × All (Fresh numbers.now.table_id) v.items) }
{
    let mut seats = Vec::with_capacity(alloc, workers)?;
    for _turn in 0..workers {
        let seat = split(numbers, mine);
        seats.push(seat)?;
    }
    Ok(seats)
}

/// Returns what each worker gives back. Each has a thread of its own, or its turn if none can be made. No clause says which.
fn run<R: Threads + Sync, T: Send + Drop, F: Fn(usize) -> T + Sync>(
    rt: &R,
    alloc: Global,
    numbers: &Numbers,
    seats: Vec<Drawer>,
    count: usize,
    work: &F,
) -> Result<Vec<Drawn<T>>, Memory>
    requires table { (numbers.now.table_id.words ≡ 1) × (numbers.now.key ≡ count) }
    requires seats { All (Fresh numbers.now.table_id) seats.items }
    requires accepts { (i : ℕ) → i < count → F.pre work.now i }
    ensures { IfOk result (λ v. (vec_len v ≡ vec_len seats) × All (Worked F.Fn work.now numbers.now.table_id) v.items) }
{
    let worker = |seat: Drawer| -> Drawn<T>
        requires { (numbers.now.table_id.words ≡ 1) × (numbers.now.key ≡ count) × Fresh numbers.now.table_id seat × ((i : ℕ) → i < count → F.pre work.now i) }
        ensures { Worked F.Fn work.entry.now numbers.entry.now.table_id result }
    { work_all(alloc, numbers, seat, count, work) };
    thread::map_vec(rt, seats, &worker)
}

/// Joins the workers' seats to the seat `mine`, and puts their values into one list.
fn gather<T: Drop>(
    alloc: Global,
    numbers: &Numbers,
    mine: &mut Drawer,
    drawn: Vec<Drawn<T>>,
) -> Result<Vec<Placed<T>>, Memory>
    requires table { (mine.old.table_id ≡ numbers.now.table_id) × (numbers.now.table_id.words ≡ 1) }
    requires mine { mine.old.me.0.numbers ≡ [] }
    requires seats { All (Settled numbers.now.table_id) drawn.items }
    ensures placed { IfOk result (λ v. v.items ≡ flat_map (λ d. d.placed.items) drawn.items) }
    ensures mine { IfOk result (λ v. (mine.new.table_id ≡ mine.old.table_id) × (mine.new.me.0.numbers ≡ places v.items) × (mine.new.me.0.parts ≡ mine.old.me.0.parts + length drawn.items)) }
{
    let mut placed = Vec::new(alloc);
    for one in drawn {
        let Drawn {
            seat,
            placed: mut theirs,
        } = one;
        join(numbers, mine, seat);
        placed.append(&mut theirs)?;
    }
    Ok(placed)
}

/// Sorts the values by their places.
fn sort<T>(placed: &mut Vec<Placed<T>>)
    ensures permutation { IsPermutation placed.old.items placed.new.items }
    ensures sorted { IsNonDecreasingBy (λ p. p.place) placed.new.items }
{
    placed.sort_unstable_by_key(|p| p.place);
}

/// Returns the values without their places.
fn values<T: Drop>(alloc: Global, placed: Vec<Placed<T>>) -> Result<Vec<T>, Memory>
    ensures { IfOk result (λ v. v.items ≡ map (λ p. p.value) placed.items) }
{
    placed.into_iter().map(|p| p.value).collect(alloc)
}

/// Returns what `work` gives for each number below `count`, in the order of the numbers. `workers` is the number of workers, from 1 to
/// 15.
///
/// It returns `Memory` only if a growth was refused, of this call or of one of its workers. Then all that was worked out is dropped. A
/// worker that is refused room for one value more draws no more numbers. If the others draw all that are left, the answer is whole.
pub fn map_claimed<R: Threads + Sync, T: Send + Drop, F: Fn(usize) -> T + Sync>(
    rt: &R,
    alloc: Global,
    count: usize,
    workers: usize,
    work: &F,
) -> Result<Vec<T>, Memory>
    requires workers { (0 < workers) × (workers < all_parts) }
    requires accepts { (i : ℕ) → i < count → F.pre work.now i }
    ensures len { IfOk result (λ v. length v.items ≡ count) }
    ensures each { IfOk result (λ v. GivesEach F.Fn work.now count v.items) }
{
    let (counter, mut mine) = open(alloc, count as u64)?;
    let numbers = &counter.table.shared;
    let seats = deal(alloc, numbers, &mut mine, workers)?;
    let drawn = run(rt, alloc, numbers, seats, count, work)?;
    let mut placed = gather(alloc, numbers, &mut mine, drawn)?;
    if counter.close(mine) < count as u64 {
        return Err(AllocError);
    }
    sort(&mut placed);
    let all = values(alloc, placed)?;
    Ok(all)
}
