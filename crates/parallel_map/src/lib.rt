//! A map over the numbers below a count, by several workers. They draw the numbers from a claim counter, each number once, and work at
//! what they drew. Then the values are put in the order of the numbers.
//!
//! - [`map_claimed`] is the map. Its contract says of each place what the work gives there. The type of the values is open, so each
//!   value can only come from the work.
//! - The counter is one word. A worker that draws a number raises it by one. `specs/Claiming.antt` has its rule: what its seats know,
//!   and how the three steps (a draw, a new seat, two seats made one) change that.
//!
//! If a thread can be made for a worker, it has one of its own. Else the workers take turns. Nothing is promised of threads, of how the
//! workers share the numbers, or that more than one of them works.
#![tactic(auto)]

pub use outcome::Memory;
pub use workers::map_claimed;

mod counter;
mod rule;
mod workers;
