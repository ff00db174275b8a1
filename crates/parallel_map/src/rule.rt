//! The counter's rule, and the steps that its seats take.

use atomic_table::{Join, Play, Split, TableRule};
use std::collections::LinkedList;

/// What a seat knows: the numbers that it drew, the word that it saw last, and how many parts of the counter it has. Contracts
/// speak of it, and no value of it is made.
pub struct View {
    pub numbers: LinkedList<u64>,
    pub saw: u64,
    pub parts: u64,
}

/// The rule of a table of one word, whose key is the count. The first seat has all parts.
pub struct Claims;

impl TableRule<u8, View, u64> for Claims {
    ghost use Rattle.parallel_map.specs.Claiming.{Kept, all_parts, view};
    ghost use Rattle.std.specs.Prelude.{[]};

    ghost holds = { Kept };

    ghost first = { λ count. view [] 0 all_parts };
}

/// A draw. It raises the word by one if the word is the number that the seat saw. Else the seat sees the word anew.
pub struct Draw;

impl Play<u8, View> for Draw {
    ghost use Rattle.parallel_map.specs.Claiming.{Draws};

    ghost then = { Draws };
}

/// A new seat, which is given one part.
pub struct OnePart;

impl Split<View> for OnePart {
    ghost use Rattle.parallel_map.specs.Claiming.{view};
    ghost use Rattle.std.specs.Prelude.{◌-◌, []};

    ghost left = { λ v. view v.numbers v.saw (v.parts - 1) };

    ghost right = { λ v. view [] 0 1 };
}

/// Two seats made one. A seat takes in what another one knows, and the other one is spent.
pub struct Together;

impl Join<View> for Together {
    ghost use Rattle.parallel_map.specs.Claiming.{joined, view};
    ghost use Rattle.std.specs.Prelude.{[]};

    ghost both = { joined };

    ghost spent = { view [] 0 0 };
}
