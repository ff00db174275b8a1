//! The claim counter and its steps.

ghost use Rattle.std.specs.Prelude.{◌≡◌, ◌+◌, ◌-◌, ◌^◌, ◌<◌, ◌≤◌, ◌==◌, [], IfOk};
ghost use Rattle.parallel_map.specs.Claiming.{Drew, EachOnce, all_parts, joined, view};

use crate::rule::{Claims, Draw, OnePart, Together, View};
use atomic_table::{Seat, Shared, Table};
use outcome::Memory;
use std::alloc::Global;

/// The part of a counter that its workers share.
pub type Numbers = Shared<u8, View, u64, Claims>;

/// The seat of a worker who draws from a counter.
pub type Drawer = Seat<u8, View>;

/// A counter: a table of one word and no slot. The word is the least number that nobody drew.
#[derive(Drop)]
pub struct Counter {
    pub table: Table<u8, View, u64, Claims, Global>,
    pub ghost one_word: { table.shared.table_id.words ≡ 1 },
    pub ghost no_slot: { table.shared.table_id.slots ≡ 0 },
}

/// Returns a counter at 0 of the numbers below `count`, and the seat that has all its parts.
pub fn open(alloc: Global, count: u64) -> Result<(Counter, Drawer), Memory>
    ensures count { IfOk result (λ c. c.0.table.shared.key ≡ count) }
    ensures seat { IfOk result (λ c. (c.1.table_id ≡ c.0.table.shared.table_id) × (c.1.me ≡ (view [] 0 all_parts, []))) }
{
    let (table, seat) = Table::<u8, View, u64, Claims, Global>::of_words(alloc, &[0], &count)?;
    Ok((Counter { table }, seat))
}

/// Draws the number that the seat saw last, unless the word is greater. Returns the word that was found.
pub fn draw(numbers: &Numbers, seat: &mut Drawer, saw: u64) -> u64
    requires table { (seat.old.table_id ≡ numbers.now.table_id) × (numbers.now.table_id.words ≡ 1) }
    requires part { 0 < seat.old.me.0.parts }
    requires saw { (seat.old.me.0.saw ≡ saw) × (saw < numbers.now.key) × (saw + 1 < 2 ^ 64) }
    ensures table { (seat.new.table_id ≡ seat.old.table_id) × (seat.new.me.1 ≡ seat.old.me.1) }
    ensures drew { Drew (result == saw) saw result seat.old.me.0 seat.new.me.0 }
{
    numbers.compare_exchange::<Draw>(seat, 0, saw, saw + 1)
}

/// Returns a new seat with one of the seat's parts.
pub fn split(numbers: &Numbers, seat: &mut Drawer) -> Drawer
    requires table { (seat.old.table_id ≡ numbers.now.table_id) × (numbers.now.table_id.words ≡ 1) }
    requires parts { 1 < seat.old.me.0.parts }
    ensures table { (seat.new.table_id ≡ seat.old.table_id) × (result.table_id ≡ seat.old.table_id) }
    ensures left { seat.new.me ≡ (view seat.old.me.0.numbers seat.old.me.0.saw (seat.old.me.0.parts - 1), seat.old.me.1) }
    ensures right { result.me ≡ (view [] 0 1, []) }
{
    numbers.split_seat::<OnePart>(seat)
}

/// Adds to the seat what the other one knows, and the other one's parts.
pub fn join(numbers: &Numbers, seat: &mut Drawer, other: Drawer)
    requires table { (seat.old.table_id ≡ numbers.now.table_id) × (other.table_id ≡ numbers.now.table_id) × (numbers.now.table_id.words ≡ 1) }
    requires slots { other.me.1 ≡ [] }
    ensures table { seat.new.table_id ≡ seat.old.table_id }
    ensures both { seat.new.me ≡ (joined seat.old.me.0 other.me.0, seat.old.me.1) }
{
    numbers.join_seat::<Together>(seat, other);
}

impl Counter {
    /// Returns the word at the end. A seat that has all parts has each number below it once, and no other number.
    pub fn close(self, seat: Drawer) -> u64
        requires table { seat.table_id ≡ self.table.shared.table_id }
        requires parts { seat.me.0.parts ≡ all_parts }
        ensures once { EachOnce result seat.me.0.numbers }
        ensures bounds { (seat.me.0.saw ≤ result) × (result ≤ self.table.shared.key) }
    {
        let Counter { table } = self;
        let closed = table.close_with(seat);
        let word = closed.word(0);
        closed.free();
        word
    }
}
